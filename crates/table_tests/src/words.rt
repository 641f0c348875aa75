//! What words are read as. The input is the words, a bar before each.
use flash_base::NoMemory;
use flash_words::{Command, WordsFault, read};
use std::alloc::Global;

/// The words of a text, before each of which stands a bar.
pub fn words_of(alloc: Global, text: &str) -> Result<Vec<String>, NoMemory> {
    let mut words = Vec::new(alloc);
    for word in text.split('|').skip(1) {
        words.push(String::from_str(alloc, word)?)?;
    }
    Ok(words)
}

fn put_command(out: &mut String, command: &Command) -> Result<(), NoMemory> {
    match command {
        Command::Check { order } => {
            out.push_str("check ")?;
            out.push_str(order.as_str())?;
        }
        Command::Image { order, task } => {
            out.push_str("image ")?;
            out.push_str(order.as_str())?;
            out.push(' ')?;
            out.push_str(task.as_str())?;
        }
        Command::Status { order } => {
            out.push_str("status ")?;
            out.push_str(order.as_str())?;
        }
        Command::Run { order, workers } => {
            let order = order.as_str();
            write!(out, "run {order} {workers}")?;
        }
        Command::Drill { n } => write!(out, "drill {n}")?,
    }
    Ok(())
}

pub fn answer(alloc: Global, inputs: &str, out: &mut String) -> Result<(), NoMemory> {
    let words = words_of(alloc, inputs)?;
    match read(alloc, words.as_slice()) {
        Ok(command) => put_command(out, &command),
        Err(WordsFault::Usage) => Ok(out.push_str("usage")?),
        Err(WordsFault::NoMemory) => Err(NoMemory),
    }
}
