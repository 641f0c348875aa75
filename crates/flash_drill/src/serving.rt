//! The call that serves every command.
ghost use Rattle.std.specs.Prelude.{◌≡◌, ℕ, List, Some, None, map, string_bytes};
ghost use Rattle.flash_commands.specs.Running.{RunsOrder};
ghost use Rattle.flash_commands.specs.Words.{run_order};
ghost use Rattle.flash_drill.specs.Drilling.{ServesDrill};
ghost use Rattle.flash_drill.specs.Words.{drill_number};
ghost use Rattle.plan_commands.specs.Looking.{ServesStatus};
ghost use Rattle.plan_commands.specs.Serving.{ServesWords};
ghost use Rattle.plan_commands.specs.Words.{status_order};

use crate::drilling::drill;
use crate::words::drill_in;
use flash_commands::flash_watched as serve;
use flash_shelf::{Shelf, Sink};
use flash_workers::{Unwatched, Watcher};
use plan_commands::Status;
use shop_model::Shop;
use std::alloc::Global;
use std::sync::Wait;
use std::thread::Threads;

/// Serves the command that the words are: `check ORDER`, `image ORDER TASK`, `status ORDER`, `run ORDER WORKERS` and
/// `drill N`; any other words are `Usage`. All but the last are served over the shelf and the shop that are handed in, as
/// by `flash_commands`. `drill N` calls neither.
pub fn flash<R: Threads + Wait + Sync, F: Shelf, S: Shop + Send, K: Sink>(
    rt: &R,
    alloc: Global,
    words: &[String],
    shelf: &mut F,
    shop: S,
    out: &mut K,
) -> (S, Status)
    ensures not_called { run_order (map string_bytes words.now) ≡ None
        → status_order (map string_bytes words.now) ≡ None → result.0 ≡ shop }
    ensures serves { run_order (map string_bytes words.now) ≡ None
        → status_order (map string_bytes words.now) ≡ None → drill_number (map string_bytes words.now) ≡ None
        → ServesWords F.tells (F.history shelf.old) (F.history shelf.new)
        K.tells (K.history out.old) (K.history out.new) (map string_bytes words.now) result.1 }
    ensures shows { (order : List ℕ) → status_order (map string_bytes words.now) ≡ Some order
        → ServesStatus F.tells (F.history shelf.old) (F.history shelf.new)
        S.tells_disk (S.history shop) (S.history result.0)
        K.tells (K.history out.old) (K.history out.new) order result.1 }
    ensures runs { (order : List ℕ) → run_order (map string_bytes words.now) ≡ Some order
        → RunsOrder F.tells (F.history shelf.old) (F.history shelf.new)
        S.tells_disk S.tells_vehicle (S.history shop) (S.history result.0)
        K.tells (K.history out.old) (K.history out.new) order result.1 }

    // A drill of its own: the shelf and the shop are as they were.
    ensures drills { (n : ℕ) → drill_number (map string_bytes words.now) ≡ Some n
        → ServesDrill n K.tells (K.history out.old) (K.history out.new) result.1 }
    ensures kept { (n : ℕ) → drill_number (map string_bytes words.now) ≡ Some n → shelf.new ≡ shelf.old }
{
    flash_watched(rt, alloc, words, shelf, shop, out, &Unwatched)
}

/// The same, and a watcher is told how far a run has come; of a drill it is told nothing. No promise speaks of it.
pub fn flash_watched<
    R: Threads + Wait + Sync,
    F: Shelf,
    S: Shop + Send,
    K: Sink,
    W: Watcher + Sync,
>(
    rt: &R,
    alloc: Global,
    words: &[String],
    shelf: &mut F,
    shop: S,
    out: &mut K,
    watcher: &W,
) -> (S, Status)
    ensures not_called { run_order (map string_bytes words.now) ≡ None
        → status_order (map string_bytes words.now) ≡ None → result.0 ≡ shop }
    ensures serves { run_order (map string_bytes words.now) ≡ None
        → status_order (map string_bytes words.now) ≡ None → drill_number (map string_bytes words.now) ≡ None
        → ServesWords F.tells (F.history shelf.old) (F.history shelf.new)
        K.tells (K.history out.old) (K.history out.new) (map string_bytes words.now) result.1 }
    ensures shows { (order : List ℕ) → status_order (map string_bytes words.now) ≡ Some order
        → ServesStatus F.tells (F.history shelf.old) (F.history shelf.new)
        S.tells_disk (S.history shop) (S.history result.0)
        K.tells (K.history out.old) (K.history out.new) order result.1 }
    ensures runs { (order : List ℕ) → run_order (map string_bytes words.now) ≡ Some order
        → RunsOrder F.tells (F.history shelf.old) (F.history shelf.new)
        S.tells_disk S.tells_vehicle (S.history shop) (S.history result.0)
        K.tells (K.history out.old) (K.history out.new) order result.1 }

    // A drill of its own: the shelf and the shop are as they were.
    ensures drills { (n : ℕ) → drill_number (map string_bytes words.now) ≡ Some n
        → ServesDrill n K.tells (K.history out.old) (K.history out.new) result.1 }
    ensures kept { (n : ℕ) → drill_number (map string_bytes words.now) ≡ Some n → shelf.new ≡ shelf.old }
{
    match drill_in(words) {
        Some(n) => (shop, drill(rt, alloc, n, out).1),
        None => serve(rt, alloc, words, shelf, shop, out, watcher),
    }
}
