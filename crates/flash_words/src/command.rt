ghost use Rattle.std.specs.Prelude.{◌≡◌, IfOk};
ghost use Rattle.flash_words.specs.Words.{owned};

use flash_base::{NoMemory, Text};
use std::alloc::Global;

/// A command of the program, by what stands in its words.
#[derive(Debug, Drop)]
pub enum Command {
    /// `check ORDER`: builds the plan of an order file and prints it.
    Check { order: Text },
    /// `image ORDER TASK`: prints the segments of one task of it.
    Image { order: Text, task: Text },
    /// `status ORDER`: prints what the journal records.
    Status { order: Text },
    /// `run ORDER WORKERS`: programs the vehicle, with 1 to 16 workers.
    Run { order: Text, workers: u16 },
    /// `drill N`: programs a vehicle made of a number from 0 to 999,999.
    Drill { n: u32 },
}

/// A command that borrows its words.
#[derive(Clone, Copy, Debug)]
pub enum CommandRef<'a> {
    /// `check ORDER`.
    Check { order: &'a str },
    /// `image ORDER TASK`.
    Image { order: &'a str, task: &'a str },
    /// `status ORDER`.
    Status { order: &'a str },
    /// `run ORDER WORKERS`.
    Run { order: &'a str, workers: u16 },
    /// `drill N`.
    Drill { n: u32 },
}

impl Command {
    /// The command with copies of what was borrowed.
    pub fn from_ref(alloc: Global, command: CommandRef<'_>) -> Result<Command, NoMemory>
        ensures { IfOk result (λ c. c ≡ owned command.entry) }
    {
        match command {
            CommandRef::Check { order } => {
                let order = Text::from_str(alloc, order)?;
                Ok(Command::Check { order })
            }
            CommandRef::Image { order, task } => {
                let order = Text::from_str(alloc, order)?;
                let task = Text::from_str(alloc, task)?;
                Ok(Command::Image { order, task })
            }
            CommandRef::Status { order } => {
                let order = Text::from_str(alloc, order)?;
                Ok(Command::Status { order })
            }
            CommandRef::Run { order, workers } => {
                let order = Text::from_str(alloc, order)?;
                Ok(Command::Run { order, workers })
            }
            CommandRef::Drill { n } => Ok(Command::Drill { n }),
        }
    }
}

/// Why words give no command.
#[derive(Debug, Drop)]
pub enum WordsFault {
    /// The words are not in the form.
    Usage,
    NoMemory,
}

impl From<NoMemory> for WordsFault {
    ghost use Rattle.std.specs.Prelude.{◌≡◌};
    ghost use Rattle.flash_words.specs.declared.command.WordsFault.{WordsFault};

    ghost from_gives = { λ _ e. e ≡ WordsFault.NoMemory };

    fn from(_e: NoMemory) -> WordsFault {
        WordsFault::NoMemory
    }
}
