ghost use Rattle.std.specs.Prelude.{◌≡◌, ◌≤◌};
ghost use Rattle.plan_commands.specs.Serving.{unwritten, usage, PrintsAnswer};

use crate::answering::Answer;
use crate::status::Status;
use flash_shelf::Sink;

/// The status where the text could not be written.
fn unwritten(status: Status) -> Status
    ensures { result ≡ unwritten status }
{
    match status {
        Status::Done => Status::Sink,
        refused => refused,
    }
}

/// Prints an answer, and tells how the command ended.
pub fn print<K: Sink>(out: &mut K, answer: &Answer) -> Status
    ensures never_falls { (K.history out.old).faults ≤ (K.history out.new).faults }
    ensures printed { PrintsAnswer K.tells (K.history out.old) (K.history out.new) answer.now result }
{
    match out.write(answer.text.as_slice()) {
        Ok(()) => answer.status,
        Err(_) => unwritten(answer.status),
    }
}

/// Prints the line of words that are not in the form.
pub fn print_usage<K: Sink>(out: &mut K) -> Status
    ensures never_falls { (K.history out.old).faults ≤ (K.history out.new).faults }
    ensures printed { PrintsAnswer K.tells (K.history out.old) (K.history out.new) usage result }
    ensures status { result ≡ Status.Usage }
{
    let _ = out.write(b"usage\n");
    Status::Usage
}
