//! The words of a drill, and of its run.
ghost use Rattle.std.specs.Prelude.{◌≡◌, ◌≤◌, ◌∷◌, [], IfOk, IfSome, codes, map, option_map, string_bytes};
ghost use Rattle.flash_drill.specs.Words.{drill_number, number_in};
ghost use Rattle.flash_words.specs.Words.{IsCommand, owned};

use flash_base::NoMemory;
use flash_words::laws::words_are_written_out;
use flash_words::{CommandRef, read_ref};
use std::alloc::Global;

/// The words of the run: 4 workers.
pub(crate) fn run_words(alloc: Global) -> Result<Vec<String>, NoMemory>
    ensures { IfOk result (λ words. map string_bytes words.items
        ≡ codes "run" ∷ codes "drill.json" ∷ codes "4" ∷ []) }
{
    let run = String::from_str(alloc, "run")?;
    let order = String::from_str(alloc, "drill.json")?;
    let workers = String::from_str(alloc, "4")?;
    Ok(vec![in alloc; run, order, workers]?)
}

/// The number of a drill.
fn drill_named(said: Option<CommandRef<'_>>) -> Option<u32>
    requires { IfSome (option_map owned said) IsCommand }
    ensures is { result ≡ number_in (option_map owned said.entry) }
    ensures few { IfSome result (λ n. n ≤ 999999) }
{
    match said {
        Some(CommandRef::Drill { n }) => Some(n),
        Some(CommandRef::Check { order: _ }) => None,
        Some(CommandRef::Image { order: _, task: _ }) => None,
        Some(CommandRef::Status { order: _ }) => None,
        Some(
            CommandRef::Run {
                order: _,
                workers: _,
            },
        ) => None,
        None => None,
    }
}

/// The number of a drill, where the words are one.
pub(crate) fn drill_in(words: &[String]) -> Option<u32>
    ensures is { result ≡ drill_number (map string_bytes words.now) }
    ensures few { IfSome result (λ n. n ≤ 999999) }
{
    words_are_written_out();
    drill_named(read_ref(words))
}
