//! The log that the workers share.
ghost use Rattle.std.specs.Prelude.{◌≡◌, ℕ, List, [], IfOk};
ghost use Rattle.turn_lock.specs.Lists.{Begins};

use std::alloc::{AllocError, Global};
use std::hint::black_box;
use std::marker::Model;
use turn_lock::Logged;

/// The log lies in a box, so that a take and a give move a pointer.
#[derive(Drop)]
pub struct Entries {
    pub log: Box<Log>,
}

/// The numbers of those that had it, and what they made of the bytes that they read.
#[derive(Drop)]
pub struct Log {
    pub numbers: Vec<u64>,
    sum: u64,
}

impl Model for Entries {
    ghost Value = { List ℕ };

    ghost view = { λ e. e.log.value.numbers.items };
}

impl Logged for Entries {
    type Opening = ();

    type Entry = u64;

    ghost opening = { λ _. tt };

    ghost entries = { λ e. e };

    fn count(&self) -> u64 {
        self.log.numbers.len() as u64
    }
}

impl Entries {
    /// An empty log with memory for `room` entries.
    pub fn new(alloc: Global, room: u64) -> Result<Entries, AllocError>
        ensures { IfOk result (λ e. e ≡ []) }
    {
        let numbers = Vec::with_capacity(alloc, room as usize)?;
        let log = Box::new(alloc, Log { numbers, sum: 0 })?;
        Ok(Entries { log })
    }

    /// One turn's work: reads the block, and appends the number.
    pub fn work(&mut self, block: &[u8], number: u64)
        ensures { Begins self.old self.new }
    {
        let mut sum = self.log.sum;
        for byte in block {
            sum = sum.rotate_left(5) ^ u64::from(*byte);
        }
        self.log.sum = black_box(sum);
        let _ = self.log.numbers.push(number);
    }
}
