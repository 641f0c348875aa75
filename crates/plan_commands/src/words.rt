ghost use Rattle.std.specs.Prelude.{◌≡◌, None, Ok, IfOk, map, option_map, string_bytes};
ghost use Rattle.flash_words.specs.Words.{owned};
ghost use Rattle.plan_commands.specs.Words.{by_files, command_of, looked_at, order_of, status_order};

use flash_base::{NoMemory, Text};
use flash_words::{CommandRef, read_ref};
use std::alloc::Global;

/// A command that builds a plan, and that the files alone answer.
#[derive(Debug, Drop)]
pub enum Command {
    /// `check ORDER`: shows the plan that an order file gives.
    Check { order: Text },
    /// `image ORDER TASK`: shows the segments of one task of it.
    Image { order: Text, task: Text },
}

impl Command {
    /// The order file that the command names.
    pub fn order(&self) -> &str
        ensures { result.now ≡ order_of self.now }
    {
        match self {
            Command::Check { order } => order.as_str(),
            Command::Image { order, task: _ } => order.as_str(),
        }
    }
}

/// The command, if it is one that the files alone answer.
fn by_files(alloc: Global, said: Option<CommandRef<'_>>) -> Result<Option<Command>, NoMemory>
    ensures is { IfOk result (λ command. command ≡ by_files (option_map owned said.entry)) }
    ensures none { by_files (option_map owned said.entry) ≡ None → result ≡ Ok None }
{
    match said {
        Some(CommandRef::Check { order }) => {
            let order = Text::from_str(alloc, order)?;
            Ok(Some(Command::Check { order }))
        }
        Some(CommandRef::Image { order, task }) => {
            let order = Text::from_str(alloc, order)?;
            let task = Text::from_str(alloc, task)?;
            Ok(Some(Command::Image { order, task }))
        }
        Some(CommandRef::Status { order: _ }) => Ok(None),
        Some(
            CommandRef::Run {
                order: _,
                workers: _,
            },
        ) => Ok(None),
        Some(CommandRef::Drill { n: _ }) => Ok(None),
        None => Ok(None),
    }
}

/// The command that the words after the program's name are; None just where they are neither
/// `check ORDER` nor `image ORDER TASK`, with the name of a file and the name of a task. What is
/// neither takes no memory.
pub fn read(alloc: Global, words: &[String]) -> Result<Option<Command>, NoMemory>
    ensures is { IfOk result (λ command. command ≡ command_of (map string_bytes words.now)) }
    ensures none { command_of (map string_bytes words.now) ≡ None → result ≡ Ok None }
{
    by_files(alloc, read_ref(words))
}

/// The order file, if the command is a look at the journal.
fn looked_at(said: Option<CommandRef<'_>>) -> Option<&str>
    ensures { option_map (λ t. t.now) result ≡ looked_at (option_map owned said.entry) }
{
    match said {
        Some(CommandRef::Status { order }) => Some(order),
        Some(CommandRef::Check { order: _ }) => None,
        Some(CommandRef::Image { order: _, task: _ }) => None,
        Some(
            CommandRef::Run {
                order: _,
                workers: _,
            },
        ) => None,
        Some(CommandRef::Drill { n: _ }) => None,
        None => None,
    }
}

/// The order file that the words after the program's name name: `status ORDER`; None for all
/// other words.
pub fn status_order(words: &[String]) -> Option<&str>
    ensures { option_map (λ t. t.now) result ≡ status_order (map string_bytes words.now) }
{
    looked_at(read_ref(words))
}
