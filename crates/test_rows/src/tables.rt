ghost use Rattle.std.specs.Thread.{IsSync};

use crate::pieces::{expanded, first};
use flash_base::NoMemory;
use std::alloc::Global;
use std::rt::Files;
use std::thread::Threads;
use std::{fs, io};

/// The calls that rows name.
pub trait Calls {
    /// Writes what a call answers to its inputs at the end of a text.
    fn answer<R: Threads + Alloc<A = Global> + Sync>(
        &self,
        rt: &R,
        call: &str,
        inputs: &str,
        out: &mut String,
    ) -> Result<(), NoMemory>
        requires { IsSync R.row };
}

fn is_wanted(wanted: &str, said: &str) -> bool {
    match wanted.strip_suffix("...") {
        Some(front) => said.starts_with(front),
        None => said == wanted,
    }
}

/// What is printed after the name of a row; the rest of the row follows the name.
fn judged<R: Threads + Alloc<A = Global> + Sync, C: Calls>(
    rt: &R,
    calls: &C,
    table: &str,
    rest: &str,
) -> Result<String, NoMemory> {
    let alloc = rt.alloc();
    let row = expanded(alloc, table, rest)?;
    let (call, rest) = first(row.as_str());
    let (wanted, inputs) = first(rest);
    let mut said = String::new(alloc);
    calls.answer(rt, call, inputs, &mut said)?;
    if is_wanted(wanted, said.as_str()) {
        return Ok(String::from_str(alloc, "ok")?);
    }
    Ok(said)
}

fn show<R: Threads + Print + Alloc<A = Global> + Sync, C: Calls>(
    rt: &R,
    calls: &C,
    table: &str,
    row: &str,
) -> io::Result<()> {
    let (name, rest) = first(row);
    match judged(rt, calls, table, rest) {
        Ok(said) => println!(rt; "{name}: {said}"),
        Err(NoMemory) => println!(rt; "{name}: no memory"),
    }
}

fn show_table<R: Threads + Print + Alloc<A = Global> + Sync, C: Calls>(
    rt: &R,
    calls: &C,
    table: &str,
) -> io::Result<()> {
    for line in table.split('\n') {
        if let Some(row) = line.strip_prefix("row\t") {
            show(rt, calls, table, row)?;
        }
    }
    Ok(())
}

/// Prints a line for each row of the tables in these files.
pub fn show_tables<R: Threads + Files + Print + Alloc<A = Global> + Sync, C: Calls>(
    rt: &R,
    calls: &C,
    names: &[&str],
) -> io::Result<()> {
    for name in names {
        let table = fs::read_to_string(rt, *name)?;
        show_table(rt, calls, table.as_str())?;
    }
    Ok(())
}
