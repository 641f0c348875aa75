//! A tester: its link to a gateway, and the shop with the vehicle.

ghost use Rattle.std.specs.Prelude.{◌≡◌, ◌∷◌, [], true, IsTrue};
ghost use Rattle.bench_shop.specs.Faults.{IsFaults};
ghost use Rattle.bench_shop.specs.Shops.{history_of};
ghost use Rattle.link_state.specs.State.{units_of};
ghost use Rattle.vehicle_world.specs.Worlds.{IsFresh, world_of};

use bench_shop::{Entry, Faults, MemoryShop};
use flash_base::NoMemory;
use gateway_link::{Link, Message, Phase, Polled};
use std::alloc::Global;
use vehicle_world::World;

/// The logical address of the tester.
const TESTER: u16 = 0x0e80;

/// The units of the link.
const FIRST: u16 = 0x1001;

const SECOND: u16 = 0x1002;

/// A link with so many losses is used no more.
const MOST_LOSSES: u32 = 100;

/// A link with so many ticks is polled no more.
const MOST_TICKS: u64 = 1 << 32;

/// The most bytes of a request.
const MOST_BYTES: usize = 65_535;

/// A tester of the units 1001 and 1002. A step that its link does not allow is not made, and answered by None.
#[derive(Drop)]
pub struct Tester {
    link: Link,
    shop: MemoryShop,
    linked: bool,
    ghost units: { units_of link ≡ 4097 ∷ 4098 ∷ [] },
    ghost is_linked: { linked ≡ true → IsTrue (history_of shop).linked },
}

impl Tester {
    /// A tester before its first call.
    pub fn new(alloc: Global, world: World, faults: &Faults) -> Result<Tester, NoMemory>
        requires fresh { IsFresh (world_of world) }
        requires faults { IsFaults faults.now }
    {
        Ok(Tester {
            link: Link::new(alloc, TESTER, &[FIRST, SECOND])?,
            shop: MemoryShop::new(alloc, &[], world, faults)?,
            linked: false,
        })
    }

    /// The link.
    pub fn link(&self) -> &Link {
        &self.link
    }

    /// What was done to the vehicle.
    pub fn done(&self) -> &[Entry] {
        self.shop.done()
    }

    /// Makes the connection new.
    pub fn dial(&mut self) -> Option<bool> {
        if self.link.phase() != Phase::Down || self.link.losses() >= MOST_LOSSES {
            return None;
        }
        let dialed = self.link.dial(&mut self.shop);
        self.linked = dialed;
        Some(dialed)
    }

    /// Asks for the routing activation.
    pub fn ask(&mut self) -> Result<Option<bool>, NoMemory> {
        if !self.linked || self.link.phase() != Phase::Dialed || self.link.losses() >= MOST_LOSSES {
            return Ok(None);
        }
        let asked = self.link.ask(&mut self.shop)?;
        Ok(Some(asked))
    }

    /// Answers an alive check.
    pub fn say(&mut self) -> Result<Option<bool>, NoMemory> {
        if !self.linked || !self.link.owes() || self.link.losses() >= MOST_LOSSES {
            return Ok(None);
        }
        let said = self.link.say(&mut self.shop)?;
        Ok(Some(said))
    }

    /// Sends a request to a unit.
    pub fn send(&mut self, unit: u16, body: &[u8]) -> Result<Option<bool>, NoMemory> {
        if unit != FIRST && unit != SECOND || body.is_empty() || body.len() > MOST_BYTES {
            return Ok(None);
        }
        if !self.linked || self.link.phase() != Phase::Up || self.link.losses() >= MOST_LOSSES {
            return Ok(None);
        }
        let sent = self.link.send(&mut self.shop, unit, body)?;
        Ok(Some(sent))
    }

    /// Takes what has come.
    pub fn poll(&mut self) -> Result<Option<Polled>, NoMemory> {
        if !self.linked || !matches!(self.link.phase(), Phase::Asked | Phase::Up) {
            return Ok(None);
        }
        if self.link.losses() >= MOST_LOSSES || self.link.ticks() >= MOST_TICKS {
            return Ok(None);
        }
        let polled = self.link.poll(&mut self.shop)?;
        Ok(Some(polled))
    }

    /// Takes the oldest message of a unit.
    pub fn take(&mut self, unit: u16) -> Option<Message> {
        if unit == FIRST || unit == SECOND {
            self.link.take(unit)
        } else {
            None
        }
    }
}
