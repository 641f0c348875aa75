//! Tables of requests, answers and frames, worked rows and tables of the standards: a line for each row, and what differs.
//!
//! The form of a table is that of `test_rows`; bytes are hexadecimal digits. The module of each call says what its inputs
//! are.
#![tactic(auto)]

ghost use Rattle.std.specs.Thread.{IsSync};

mod answers;
mod first_bytes;
mod frames;
mod numbers;
mod requests;
mod streams;
mod told;

use flash_base::NoMemory;
use std::alloc::Global;
use std::io;
use std::thread::Threads;
use test_rows::{Calls, show_tables};

#[derive(Drop)]
struct Codecs;

impl Calls for Codecs {
    fn answer<R: Threads + Alloc<A = Global> + Sync>(
        &self,
        rt: &R,
        call: &str,
        inputs: &str,
        out: &mut String,
    ) -> Result<(), NoMemory>
        requires { IsSync R.row }
    {
        let alloc = rt.alloc();
        match call {
            "request" => requests::answer(alloc, inputs, out),
            "beginnings" => requests::answer_beginnings(alloc, inputs, out),
            "first bytes" => first_bytes::answer(alloc, inputs, out),
            "long block" => requests::answer_long_block(alloc, inputs, out),
            "numbers" => numbers::answer(out),
            "ranges" => numbers::answer_ranges(alloc, out),
            "answer" => answers::answer(alloc, inputs, out),
            "verdict" => answers::answer_verdict(alloc, inputs, out),
            "codes" => answers::answer_codes(alloc, out),
            "frame" => frames::answer(alloc, inputs, out),
            _ => streams::answer(alloc, call, inputs, out),
        }
    }
}

fn main(rt: HostRuntime) -> io::Result<()> {
    show_tables(&rt, &Codecs, &["requests", "answers", "frames", "asked"])
}
