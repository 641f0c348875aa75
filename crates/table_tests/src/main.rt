//! Tables of words, catalogues, orders, images, plans and commands: a line for each row, and what differs.
//!
//! The form of a table is that of `test_rows`; the module of each call says what its inputs are.
#![tactic(auto)]

mod builds;
mod catalogues;
mod causes;
mod commands;
mod files;
mod images;
mod orders;
mod reports;
mod words;

ghost use Rattle.std.specs.Thread.{IsSync};

use flash_base::NoMemory;
use std::alloc::Global;
use std::io;
use std::thread::Threads;
use test_rows::{Calls, show_tables};

/// The calls.
#[derive(Drop)]
struct Tables;

impl Calls for Tables {
    fn answer<R: Threads + Alloc<A = Global> + Sync>(
        &self,
        rt: &R,
        call: &str,
        inputs: &str,
        out: &mut String,
    ) -> Result<(), NoMemory>
        requires { IsSync R.row }
    {
        let alloc = rt.alloc();
        match call {
            "catalogue" => catalogues::answer(alloc, inputs, out),
            "parts" => catalogues::answer_parts(alloc, inputs, out),
            "words" => words::answer(alloc, inputs, out),
            "order" => orders::answer(alloc, inputs, out),
            "members" => orders::answer_members(alloc, inputs, out),
            "image" => images::answer(alloc, inputs, out),
            "build" => builds::answer(rt, alloc, inputs, out),
            "report" => reports::answer(rt, alloc, inputs, out),
            "command" => commands::answer(rt, alloc, inputs, out),
            "status" => commands::answer_status(rt, alloc, inputs, out),
            _ => Ok(out.push_str("no such call")?),
        }
    }
}

const NAMES: &[&str] = &[
    "words",
    "catalogues",
    "orders",
    "images",
    "plans",
    "commands",
];

fn main(rt: HostRuntime) -> io::Result<()> {
    show_tables(&rt, &Tables, NAMES)
}
