ghost use Rattle.std.specs.Prelude.{◌≡◌, ◌≤◌, option_map, map, string_bytes, IfSome};
ghost use Rattle.flash_commands.specs.Words.{IsCrewSize, run_named, run_order};
ghost use Rattle.flash_words.specs.Words.{IsCommand, owned};

use flash_words::laws::words_are_written_out;
use flash_words::{CommandRef, read_ref};

/// The order file of a run, and how many workers it is to have.
fn run_named(said: Option<CommandRef<'_>>) -> Option<(&str, u16)>
    requires { IfSome (option_map owned said) IsCommand }
    ensures order { option_map (λ t. t.0.now) result ≡ run_named (option_map owned said.entry) }
    ensures workers { IfSome result (λ t. IsCrewSize t.1) }
{
    match said {
        Some(CommandRef::Run { order, workers }) => Some((order, workers)),
        Some(CommandRef::Check { order: _ }) => None,
        Some(CommandRef::Image { order: _, task: _ }) => None,
        Some(CommandRef::Status { order: _ }) => None,
        Some(CommandRef::Drill { n: _ }) => None,
        None => None,
    }
}

/// The order file that the words name, and how many workers: `run ORDER WORKERS`, with 1 to 16.
pub fn run_in(words: &[String]) -> Option<(&str, u16)>
    ensures order { option_map (λ t. t.0.now) result ≡ run_order (map string_bytes words.now) }
    ensures workers { IfSome result (λ t. IsCrewSize t.1) }
{
    words_are_written_out();
    run_named(read_ref(words))
}
