ghost use Rattle.std.specs.Prelude.{◌≡◌, ℕ, List, Some, None, map, string_bytes};
ghost use Rattle.plan_commands.specs.Looking.{ServesStatus};
ghost use Rattle.plan_commands.specs.Serving.{ServesWords};
ghost use Rattle.plan_commands.specs.Words.{status_order};
ghost use Rattle.flash_commands.specs.Running.{RunsOrder};
ghost use Rattle.flash_commands.specs.Words.{run_order};

use crate::running::run;
use crate::words::run_in;
use flash_shelf::{Shelf, Sink};
use flash_workers::{Unwatched, Watcher};
use plan_commands::{Status, serve, serve_status, status_order};
use shop_model::Shop;
use std::alloc::Global;
use std::sync::Wait;
use std::thread::Threads;

/// Serves the commands that need no vehicle, `check ORDER`, `image ORDER TASK` and `status ORDER`,
/// and waits for nobody. Any other words are `Usage`. Only `status` calls the shop: it reads the
/// journal.
pub fn flash_plain<R: Threads + Sync, F: Shelf, S: Shop, K: Sink>(
    rt: &R,
    alloc: Global,
    words: &[String],
    shelf: &mut F,
    shop: &mut S,
    out: &mut K,
) -> Status
    ensures keeps { (F.history shelf.new).contents ≡ (F.history shelf.old).contents }

    // Words that are no `status`.
    ensures not_called { status_order (map string_bytes words.now) ≡ None → shop.new ≡ shop.old }
    ensures serves { status_order (map string_bytes words.now) ≡ None
        → ServesWords F.tells (F.history shelf.old) (F.history shelf.new)
        K.tells (K.history out.old) (K.history out.new) (map string_bytes words.now) result }

    // `status` of an order file.
    ensures shows { (order : List ℕ) → status_order (map string_bytes words.now) ≡ Some order
        → ServesStatus F.tells (F.history shelf.old) (F.history shelf.new)
        S.tells_disk (S.history shop.old) (S.history shop.new)
        K.tells (K.history out.old) (K.history out.new) order result }
{
    match status_order(words) {
        Some(order) => serve_status(rt, alloc, order, shelf, shop, out),
        None => serve(rt, alloc, words, shelf, out),
    }
}

/// Serves the command that the words are. `check ORDER`, `image ORDER TASK` and `status ORDER` are those of
/// `flash_plain`. `run ORDER WORKERS` builds the plan of an order file, opens its journal, brings each unit to
/// its end by 1 to 16 workers, and prints a report. The shop is handed back with what became of it. Nothing is
/// written to disk or vehicle before a plan was accepted. What is promised of a run is the same for every number
/// of workers.
///
/// A run goes on where the journal says that an earlier one came to: a unit that is recorded complete hears
/// nothing. Its status is the first that applies of: no memory for some unit or for the report; a disk that
/// failed; a report that could not be written whole; some unit that is not complete; done.
pub fn flash<R: Threads + Wait + Sync, F: Shelf, S: Shop + Send, K: Sink>(
    rt: &R,
    alloc: Global,
    words: &[String],
    shelf: &mut F,
    shop: S,
    out: &mut K,
) -> (S, Status)

    // Whatever is neither a run nor `status` is served as by `flash_plain`, and calls neither disk nor link.
    ensures not_called { run_order (map string_bytes words.now) ≡ None
        → status_order (map string_bytes words.now) ≡ None → result.0 ≡ shop }
    ensures serves { run_order (map string_bytes words.now) ≡ None
        → status_order (map string_bytes words.now) ≡ None
        → ServesWords F.tells (F.history shelf.old) (F.history shelf.new)
        K.tells (K.history out.old) (K.history out.new) (map string_bytes words.now) result.1 }

    // `status` of an order file.
    ensures shows { (order : List ℕ) → status_order (map string_bytes words.now) ≡ Some order
        → ServesStatus F.tells (F.history shelf.old) (F.history shelf.new)
        S.tells_disk (S.history shop) (S.history result.0)
        K.tells (K.history out.old) (K.history out.new) order result.1 }

    // A run of an order file.
    ensures runs { (order : List ℕ) → run_order (map string_bytes words.now) ≡ Some order
        → RunsOrder F.tells (F.history shelf.old) (F.history shelf.new)
        S.tells_disk S.tells_vehicle (S.history shop) (S.history result.0)
        K.tells (K.history out.old) (K.history out.new) order result.1 }
{
    flash_watched(rt, alloc, words, shelf, shop, out, &Unwatched)
}

/// The same, and a watcher is told how far a run has come. No promise speaks of it.
pub fn flash_watched<
    R: Threads + Wait + Sync,
    F: Shelf,
    S: Shop + Send,
    K: Sink,
    W: Watcher + Sync,
>(
    rt: &R,
    alloc: Global,
    words: &[String],
    shelf: &mut F,
    shop: S,
    out: &mut K,
    watcher: &W,
) -> (S, Status)

    // Whatever is neither a run nor `status` is served as by `flash_plain`, and calls neither disk nor link.
    ensures not_called { run_order (map string_bytes words.now) ≡ None
        → status_order (map string_bytes words.now) ≡ None → result.0 ≡ shop }
    ensures serves { run_order (map string_bytes words.now) ≡ None
        → status_order (map string_bytes words.now) ≡ None
        → ServesWords F.tells (F.history shelf.old) (F.history shelf.new)
        K.tells (K.history out.old) (K.history out.new) (map string_bytes words.now) result.1 }

    // `status` of an order file.
    ensures shows { (order : List ℕ) → status_order (map string_bytes words.now) ≡ Some order
        → ServesStatus F.tells (F.history shelf.old) (F.history shelf.new)
        S.tells_disk (S.history shop) (S.history result.0)
        K.tells (K.history out.old) (K.history out.new) order result.1 }

    // A run of an order file.
    ensures runs { (order : List ℕ) → run_order (map string_bytes words.now) ≡ Some order
        → RunsOrder F.tells (F.history shelf.old) (F.history shelf.new)
        S.tells_disk S.tells_vehicle (S.history shop) (S.history result.0)
        K.tells (K.history out.old) (K.history out.new) order result.1 }
{
    let Some(named) = run_in(words) else {
        let mut shop = shop;
        let status = flash_plain(rt, alloc, words, shelf, &mut shop, out);
        return (shop, status);
    };
    run(rt, alloc, named.0, named.1, shelf, shop, out, watcher)
}
