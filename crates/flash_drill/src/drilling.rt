//! A drill: its files, its plan, its run.
ghost use Rattle.std.specs.Prelude.{◌≡◌, ◌≤◌, ◌<◌, ◌∷◌, ◌||◌, nat_lt, [], None, IfOk, IfSome, codes, map, string_bytes};
ghost use Rattle.bench_gen.specs.Files.{AreFiles};
ghost use Rattle.bench_shop.specs.Shops.{history_of, starved_of};
ghost use Rattle.shop_model.specs.History.{LAST};
ghost use Rattle.flash_drill.specs.Drilling.{start_of_drill, Completes, Drills, EndsStarved, EndsWell, AllHold};
ghost use Rattle.flash_drill.specs.Ending.{BeginsOver};

use crate::making::{shelf_of, shop_of};
use crate::own::{OwnPage, OwnShelf, OwnShop};
use crate::printing::print_run;
use crate::words::run_words;
use bench_shop::MemoryShop;
use flash_base::NoMemory;
use flash_commands::flash;
use flash_shelf::Sink;
use plan_commands::Status;
use std::alloc::Global;
use std::sync::Wait;
use std::thread::Threads;

/// What a drill runs over, and where its run prints.
#[derive(Drop)]
struct Ready {
    words: Vec<String>,
    shelf: OwnShelf,
    shop: OwnShop,
    page: OwnPage,
}

/// All that drill `n` needs.
fn prepared(alloc: Global, n: u32) -> Result<Ready, NoMemory>
    requires { n ≤ 999999 }
    ensures words { IfOk result (λ r. map string_bytes r.words.items
        ≡ codes "run" ∷ codes "drill.json" ∷ codes "4" ∷ []) }
    ensures files { IfOk result (λ r. AreFiles n r.shelf.shelf.files) }
    ensures shop { IfOk result (λ r. BeginsOver (start_of_drill n) (history_of r.shop.shop)) }
    ensures page { IfOk result (λ r. r.page.page.written ≡ []) }
{
    let words = run_words(alloc)?;
    let shelf = shelf_of(alloc, n)?;
    let shop = shop_of(alloc, n)?;
    let page = OwnPage::new(alloc)?;
    Ok(Ready {
        words,
        shelf,
        shop,
        page,
    })
}

/// Whether some call of the shop or of the page found no memory.
fn is_starved(shop: &OwnShop, page: &OwnPage) -> bool
    ensures { result ≡ (nat_lt 0 (starved_of shop.now.shop) || nat_lt 0 page.now.page.starved) }
{
    shop.starved() > 0 || page.starved() > 0
}

/// Makes an order, its files and a vehicle of the number `n`, and programs it with 4 workers, all in memory: on a
/// shelf and a shop of its own, which begin as they are made and are to fail nowhere. Prints the summary line
/// `drill N units U bytes B blocks K` and the lines of the run behind it, and hands the shop back; None comes only
/// for want of memory before the run, and then nothing is printed. Where the shop found no memory at some call, the
/// status is `NoMemory`, and the lines of the run are not printed.
///
/// It may wait, as its workers do.
pub fn drill<R: Threads + Wait + Sync, K: Sink>(
    rt: &R,
    alloc: Global,
    n: u32,
    out: &mut K,
) -> (Option<MemoryShop>, Status)
    requires { n ≤ 999999 }
    ensures none { result.0 ≡ None → result.1 ≡ Status.NoMemory }
    ensures unwritten { result.0 ≡ None → out.new ≡ out.old }
    ensures drills { IfSome result.0 (λ shop. Drills n (history_of shop)
        K.tells (K.history out.old) (K.history out.new) result.1) }

    // At `Done` every unit is recorded complete and holds its image, and the whole text was printed.
    ensures done { IfSome result.0 (λ shop. result.1 ≡ Status.Done → EndsWell n (history_of shop)
        K.tells (K.history out.old) (K.history out.new)) }

    // And each unit of the shop holds its image, as long as its last moment was not reached.
    ensures holds { IfSome result.0 (λ shop. result.1 ≡ Status.Done → (history_of shop).moment < LAST
        → AllHold n (history_of shop)) }

    // The shop found no memory at some call.
    ensures starved { IfSome result.0 (λ shop. 0 < starved_of shop
        → EndsStarved n K.tells (K.history out.old) (K.history out.new) result.1) }

    // It found memory at each, and its last moment was not reached: the drill ends well, but for want of memory in the
    // run or a text that could not be written.
    ensures completes { IfSome result.0 (λ shop. starved_of shop ≡ 0 → (history_of shop).moment < LAST
        → Completes (K.history out.old) (K.history out.new) result.1) }
{
    let Ok(ready) = prepared(alloc, n) else {
        return (None, Status::NoMemory);
    };
    let Ready {
        words,
        mut shelf,
        shop,
        mut page,
    } = ready;
    let (shop, status) = flash(rt, alloc, words.as_slice(), &mut shelf, shop, &mut page);
    let starved = is_starved(&shop, &page);
    let status = print_run(alloc, out, n, page.written(), status, starved);
    (Some(shop.shop()), status)
}
