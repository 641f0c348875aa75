ghost use Rattle.std.specs.Prelude.{◌≡◌, ◌+◌, ◌^◌, ◌≤◌, length, ◌⊎◌, Ok, Err};
ghost use Rattle.std.specs.FinMap as map;
ghost use Rattle.rec_text.specs.Putting.{putting, Does};
ghost use Rattle.rec_text.specs.declared.fault.RecFault.{RecFault};

use crate::fault::RecFault;
use crate::run::{Run, put_run, settle};
use flash_base::Bytes;
use span_store::Spans;
use std::alloc::Global;
use std::marker::Model;

/// Bytes by address while they come line after line, mostly one behind another. Contracts see them as `Spans`.
#[derive(Debug, Drop)]
pub struct Filling {
    run: Run,
}

impl Model for Filling {
    ghost use Rattle.std.specs.Ordering.{nat_cmp};
    ghost use Rattle.std.specs.Prelude.{ℕ};
    ghost use Rattle.std.specs.FinMap as map;
    ghost use Rattle.std.specs.Coded.{coded_ℕ};

    ghost Value = { map.FinMap nat_cmp ℕ };

    ghost coded = { map.code coded_ℕ coded_ℕ };

    ghost use Rattle.rec_text.specs.Runs.{IsRun, map_of_run};

    ghost view = { λ f. map_of_run f.run };

    ghost invariant = { λ f. IsRun f.run };
}

impl Filling {
    /// No bytes.
    pub fn new(alloc: Global) -> Filling
        ensures { result ≡ map.empty }
    {
        Filling {
            run: Run {
                spans: Spans::new(alloc),
                held: Bytes::new(alloc),
                start: 0,
                limit: 0,
                alloc,
            },
        }
    }

    /// Puts bytes from an address on.
    pub fn put(&mut self, at: u64, bytes: &[u8]) -> Result<(), RecFault>
        requires { at + length bytes.now ≤ 2 ^ 32 }
        ensures { Does result self.new (putting self.old at bytes.now) }
    {
        put_run(&mut self.run, at, bytes)
    }

    /// All the bytes.
    pub fn finish(self) -> Result<Spans, RecFault>
        ensures { (result ≡ Err RecFault.NoMemory) ⊎ (result ≡ Ok self) }
    {
        let Filling { mut run } = self;
        settle(&mut run)?;
        Ok(run.spans)
    }
}
