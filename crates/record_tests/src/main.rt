//! Tables of record texts and of bytes by address: a line for each row, and what differs.
//!
//! The form of a table is that of `test_rows`; the module of each call says what its inputs are. Numbers are hexadecimal
//! but for the lines and counts of a refusal.
#![tactic(auto)]

ghost use Rattle.std.specs.Thread.{IsSync};

mod spans;
mod texts;

use flash_base::NoMemory;
use std::alloc::Global;
use std::io;
use std::thread::Threads;
use test_rows::{Calls, show_tables};

#[derive(Drop)]
struct Records;

impl Calls for Records {
    fn answer<R: Threads + Alloc<A = Global> + Sync>(
        &self,
        rt: &R,
        call: &str,
        inputs: &str,
        out: &mut String,
    ) -> Result<(), NoMemory>
        requires { IsSync R.row }
    {
        let alloc = rt.alloc();
        match call {
            "hex" => texts::put_read(hex_rec::read(alloc, inputs.as_bytes()), out),
            "srec" => texts::put_read(srec_rec::read(alloc, inputs.as_bytes()), out),
            "writes" => texts::answer_writes(alloc, inputs, out),
            "spans" => spans::answer(alloc, inputs, out),
            _ => Ok(out.push_str("no such call")?),
        }
    }
}

fn main(rt: HostRuntime) -> io::Result<()> {
    show_tables(&rt, &Records, &["texts", "spans"])
}
