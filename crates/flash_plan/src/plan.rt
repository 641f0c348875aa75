ghost use Rattle.std.specs.Prelude.{◌≡◌, ◌<◌, IfOk};
ghost use Rattle.flash_plan.specs.Canonical.{canonical, plan_digest};
ghost use Rattle.flash_plan.specs.Plan.{plan_of, count_of, IsAccepted};

use crate::digesting::digest_of;
use crate::unit::UnitPlan;
use crate::writing::plan_bytes;
use flash_base::{Bytes, Items, NoMemory};
use std::alloc::Global;
use std::marker::Model;

/// A plan that was accepted: contracts see it as the list of its units, and every plan keeps the
/// limits and forms of an accepted one.
#[derive(Debug, Drop)]
pub struct Plan {
    units: Items<UnitPlan>,
    digest: [u8; 32],
    alloc: Global,
}

impl Model for Plan {
    ghost use Rattle.std.specs.Prelude.{List};
    ghost use Rattle.flash_plan.specs.declared.unit.UnitPlan.{UnitPlan};

    ghost Value = { List UnitPlan };

    ghost use Rattle.flash_plan.specs.Plan.{IsKept};

    ghost view = { λ p. p.units };

    ghost invariant = { λ p. IsKept p.units p.digest };
}

impl Plan {
    /// The number of units.
    pub fn units(&self) -> u16
        ensures { result ≡ count_of self.now }
    {
        self.units.len() as u16
    }

    /// A law without code: every plan keeps the limits and forms of an accepted one.
    pub fn is_accepted(&self)
        ensures { IsAccepted self.now }
    {
        let _ = &self.units;
    }

    /// Unit `n`, from 0.
    pub fn unit(&self, n: u16) -> &UnitPlan
        requires { n < count_of self.now }
        ensures { result.now ≡ plan_of self.now n }
    {
        self.units.at(n as usize)
    }

    /// The bytes that name the plan, numbers with their first byte the greatest: `ODXFPLAN`, 01, the number
    /// of units (2 bytes), and for each unit its address (2), its name behind the name's length (1), its
    /// width (1), its check routine (2), its key rule, its expected identifiers, the numbers of the units
    /// before it, and its segments, each with address (8), size (4) and bytes.
    pub fn canonical(&self) -> Result<Bytes, NoMemory>
        ensures { IfOk result (λ b. b ≡ canonical self.now) }
    {
        plan_bytes(self.alloc, &self.units)
    }

    /// The plan of units that are accepted, with its digest.
    pub(crate) fn of_units(alloc: Global, units: Items<UnitPlan>) -> Result<Plan, NoMemory>
        requires { IsAccepted units }
        ensures { IfOk result (λ plan. plan ≡ units) }
    {
        let digest = digest_of(alloc, &units)?;
        Ok(Plan {
            units,
            digest,
            alloc,
        })
    }

    /// The SHA-256 of the canonical bytes, kept since acceptance.
    pub fn digest(&self) -> [u8; 32]
        ensures { result ≡ plan_digest self.now }
    {
        self.digest
    }
}
