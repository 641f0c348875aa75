ghost use Rattle.std.specs.Prelude.{◌≡◌, Some, None, Err, IfOk, option_map, map, string_bytes};
ghost use Rattle.flash_words.specs.Words.{check_in, command_of, drill_in, image_in, owned, pair_in, run_in, status_in, triple_in};

use crate::command::{Command, CommandRef, WordsFault};
use crate::forms::number;
use std::alloc::Global;
use text_forms::{is_file_name, is_task_name};

fn check_in(order: &str) -> Option<CommandRef<'_>>
    ensures { option_map owned result ≡ check_in order.now }
{
    if !is_file_name(order) {
        return None;
    }
    Some(CommandRef::Check { order })
}

fn status_in(order: &str) -> Option<CommandRef<'_>>
    ensures { option_map owned result ≡ status_in order.now }
{
    if !is_file_name(order) {
        return None;
    }
    Some(CommandRef::Status { order })
}

fn image_in<'a>(order: &'a str, task: &'a str) -> Option<CommandRef<'a>>
    ensures { option_map owned result ≡ image_in order.now task.now }
{
    if !is_file_name(order) || !is_task_name(task) {
        return None;
    }
    Some(CommandRef::Image { order, task })
}

fn run_in<'a>(order: &'a str, workers: &str) -> Option<CommandRef<'a>>
    ensures { option_map owned result ≡ run_in order.now workers.now }
{
    if !is_file_name(order) {
        return None;
    }
    let workers = number(1, 16, workers)?;
    Some(CommandRef::Run {
        order,
        workers: workers as u16,
    })
}

fn drill_in<'a>(n: &str) -> Option<CommandRef<'a>>
    ensures { option_map owned result ≡ drill_in n.now }
{
    let n = number(0, 999_999, n)?;
    Some(CommandRef::Drill { n: n as u32 })
}

fn pair_in<'a>(word: &str, second: &'a str) -> Option<CommandRef<'a>>
    ensures { option_map owned result ≡ pair_in word.now second.now }
{
    if word == "check" {
        return check_in(second);
    }
    if word == "status" {
        return status_in(second);
    }
    if word == "drill" {
        return drill_in(second);
    }
    None
}

fn triple_in<'a>(word: &str, order: &'a str, third: &'a str) -> Option<CommandRef<'a>>
    ensures { option_map owned result ≡ triple_in word.now order.now third.now }
{
    if word == "image" {
        return image_in(order, third);
    }
    if word == "run" {
        return run_in(order, third);
    }
    None
}

/// The command that the words after the program's name are, as [`read`] has it, borrowed from them:
/// None just where they are not in the form. It takes no memory.
pub fn read_ref(words: &[String]) -> Option<CommandRef<'_>>
    ensures { option_map owned result ≡ command_of (map string_bytes words.now) }
{
    if words.len() == 2 {
        return pair_in(words[0].as_str(), words[1].as_str());
    }
    if words.len() == 3 {
        return triple_in(words[0].as_str(), words[1].as_str(), words[2].as_str());
    }
    None
}

/// The command that the words after the program's name are: `check ORDER`, `image ORDER TASK`,
/// `status ORDER`, `run ORDER WORKERS` or `drill N`, with a file name (1 to 128 letters, digits,
/// `.`, `_` and `-` of ASCII, beginning with a letter, a digit or `_`), the name of a task (1 to 32
/// letters, digits and `_`), and decimal numbers without sign and leading zeros, WORKERS from 1 to
/// 16 and N from 0 to 999,999.
///
/// `Usage` comes just where the words are not in the form, and takes no memory.
pub fn read(alloc: Global, words: &[String]) -> Result<Command, WordsFault>
    ensures is { IfOk result (λ command. command_of (map string_bytes words.now) ≡ Some command) }
    ensures usage { result ≡ Err WordsFault.Usage → command_of (map string_bytes words.now) ≡ None }
    ensures not_in_form { command_of (map string_bytes words.now) ≡ None → result ≡ Err WordsFault.Usage }
{
    let Some(command) = read_ref(words) else {
        return Err(WordsFault::Usage);
    };
    Ok(Command::from_ref(alloc, command)?)
}
