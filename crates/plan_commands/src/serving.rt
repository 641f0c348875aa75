ghost use Rattle.std.specs.Prelude.{◌≡◌, ◌≤◌, map, string_bytes};
ghost use Rattle.plan_commands.specs.Serving.{Serves, ServesWords};

use crate::answering::answered;
use crate::printing::{print, print_usage};
use crate::status::Status;
use crate::words::{Command, read};
use flash_shelf::{Shelf, Sink};
use plan_build::build;
use plan_build::laws::files_give_one_answer;
use std::alloc::Global;
use std::thread::Threads;

/// Builds the plan of a command's order file, and prints what it answers.
fn serve_command<R: Threads + Sync, F: Shelf, K: Sink>(
    rt: &R,
    alloc: Global,
    command: &Command,
    shelf: &mut F,
    out: &mut K,
) -> Status
    ensures keeps { (F.history shelf.new).contents ≡ (F.history shelf.old).contents }
    ensures never_falls { (F.history shelf.old).faults ≤ (F.history shelf.new).faults }
    ensures sink_never_falls { (K.history out.old).faults ≤ (K.history out.new).faults }
    ensures served { Serves F.tells (F.history shelf.old) (F.history shelf.new)
        K.tells (K.history out.old) (K.history out.new) command.now result }
{
    let built = build(rt, alloc, shelf, command.order());
    match answered(alloc, command, &built) {
        Ok(answer) => print(out, &answer),
        Err(_) => Status::NoMemory,
    }
}

/// Serves `check ORDER` and `image ORDER TASK`: builds the plan of the order file, and prints the
/// whole text of the command, or the one line of the first refusal. Words that are in neither form
/// are `Usage`, also those of another command, and their line is `usage`.
///
/// It is lent no shop, so that neither a disk nor a vehicle is called. Where there is no memory for
/// the text, nothing is printed; where the sink fails, a first part of the text is, and a refusal
/// keeps its status.
pub fn serve<R: Threads + Sync, F: Shelf, K: Sink>(
    rt: &R,
    alloc: Global,
    words: &[String],
    shelf: &mut F,
    out: &mut K,
) -> Status
    ensures keeps { (F.history shelf.new).contents ≡ (F.history shelf.old).contents }
    ensures never_falls { (F.history shelf.old).faults ≤ (F.history shelf.new).faults }
    ensures sink_never_falls { (K.history out.old).faults ≤ (K.history out.new).faults }

    // What `check` and `image` promise: the words, the text, the status and its cause.
    ensures serves { ServesWords F.tells (F.history shelf.old) (F.history shelf.new)
        K.tells (K.history out.old) (K.history out.new) (map string_bytes words.now) result }
{
    files_give_one_answer();
    match read(alloc, words) {
        Ok(Some(command)) => serve_command(rt, alloc, &command, shelf, out),
        Ok(None) => print_usage(out),
        Err(_) => Status::NoMemory,
    }
}
