//! The digest of a plan. Its canonical bytes are fed part by part, and those of the segments are not copied.
ghost use Rattle.std.specs.Prelude.{◌≡◌, ℕ, ◌++◌, List, IfOk, OnOk, flat_map};
ghost use Rattle.flash_plan.specs.Canonical.{plan_digest, segment_bytes, unit_bytes};
ghost use Rattle.flash_plan.specs.Plan.{IsAccepted, IsAcceptedUnit};
ghost use Rattle.sha2.specs.Hashers.{Holds256};

use crate::unit::{Segment, UnitPlan};
use crate::writing::{plan_front, put_front, put_segment_head};
use flash_base::{Bytes, Items, NoMemory};
use sha2::{Digest, Sha256};
use std::alloc::Global;

fn feed_segment(alloc: Global, hasher: &mut Sha256, segment: &Segment) -> Result<(), NoMemory>
    ensures { OnOk result ((m : List ℕ) → Holds256 hasher.old m
        → Holds256 hasher.new (m ++ segment_bytes segment.now)) }
{
    let mut head = Bytes::new(alloc);
    put_segment_head(&mut head, segment)?;
    hasher.update(head.as_slice());
    hasher.update(segment.body.as_slice());
    Ok(())
}

fn feed_segments(
    alloc: Global,
    hasher: &mut Sha256,
    segments: &Items<Segment>,
) -> Result<(), NoMemory>
    ensures { OnOk result ((m : List ℕ) → Holds256 hasher.old m
        → Holds256 hasher.new (m ++ flat_map segment_bytes segments.now)) }
{
    for segment in segments.as_slice().iter() {
        feed_segment(alloc, hasher, segment)?;
    }
    Ok(())
}

fn feed_unit(alloc: Global, hasher: &mut Sha256, unit: &UnitPlan) -> Result<(), NoMemory>
    requires { IsAcceptedUnit unit.now }
    ensures { OnOk result ((m : List ℕ) → Holds256 hasher.old m
        → Holds256 hasher.new (m ++ unit_bytes unit.now)) }
{
    let mut front = Bytes::new(alloc);
    put_front(&mut front, unit)?;
    hasher.update(front.as_slice());
    feed_segments(alloc, hasher, &unit.segments)?;
    Ok(())
}

fn feed_units(alloc: Global, hasher: &mut Sha256, units: &Items<UnitPlan>) -> Result<(), NoMemory>
    requires { IsAccepted units.now }
    ensures { OnOk result ((m : List ℕ) → Holds256 hasher.old m
        → Holds256 hasher.new (m ++ flat_map unit_bytes units.now)) }
{
    for unit in units.as_slice().iter() {
        feed_unit(alloc, hasher, unit)?;
    }
    Ok(())
}

/// The SHA-256 of the canonical bytes.
pub fn digest_of(alloc: Global, units: &Items<UnitPlan>) -> Result<[u8; 32], NoMemory>
    requires { IsAccepted units.now }
    ensures { IfOk result (λ d. d ≡ plan_digest units.now) }
{
    let front = plan_front(alloc, units)?;
    let mut hasher = Sha256::new();
    hasher.update(front.as_slice());
    feed_units(alloc, &mut hasher, units)?;
    Ok(hasher.finalize())
}
