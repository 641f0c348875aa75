ghost use Rattle.std.specs.Prelude.{◌≤◌};

use bench_gen::files;
use bench_shop::MemoryShop;
use flash_base::NoMemory;
use flash_commands::flash_plain;
use flash_drill::drill;
use flash_shelf::{MemoryShelf, MemorySink};
use plan_commands::Status;
use std::alloc::Global;
use std::sync::Wait;
use std::test::Fail;
use std::thread::Threads;

/// What `drill 0` prints; the digest is that of Python's `hashlib` over the plan's canonical bytes.
const DRILLED: &str = "drill 0 units 2 bytes 8192 blocks 4
plan 54b74dd1685082bc13c6352207e3eea8d04665607e1997d847b4486952acd14c
unit U00 1000 complete
unit U01 1001 complete
complete 2 of 2
";

/// What `status drill.json` prints over the shop that it hands back.
const LOOKED: &str = "plan 54b74dd1685082bc13c6352207e3eea8d04665607e1997d847b4486952acd14c
unit U00 1000 complete
unit U01 1001 complete
complete 2 of 2
";

/// How what `drill 2815` prints begins and ends: 12 units of 1 MiB, in three groups.
const REALISTIC: &str = "drill 2815 units 12 bytes 12582912 blocks 3084\n";

const ALL_COMPLETE: &str = "\ncomplete 12 of 12\n";

/// `status drill.json`.
fn words(alloc: Global) -> Result<Vec<String>, NoMemory> {
    let status = String::from_str(alloc, "status")?;
    let order = String::from_str(alloc, "drill.json")?;
    Ok(vec![in alloc; status, order]?)
}

/// A shelf with the files of a drill.
fn shelf(alloc: Global, n: u32) -> Result<MemoryShelf, NoMemory>
    requires { n ≤ 999999 }
{
    let files = files(alloc, n)?;
    MemoryShelf::new(alloc, &files, &[])
}

/// What `status drill.json` answers over a shop.
fn look<R: Threads + Sync>(
    rt: &R,
    alloc: Global,
    n: u32,
    shop: &mut MemoryShop,
    out: &mut MemorySink,
) -> Result<Status, NoMemory>
    requires { n ≤ 999999 }
{
    let words = words(alloc)?;
    let mut shelf = shelf(alloc, n)?;
    Ok(flash_plain(rt, alloc, words.as_slice(), &mut shelf, shop, out))
}

/// What a drill answers, and what `status drill.json` answers over its shop.
fn drilled<R: Threads + Wait + Sync>(
    rt: &R,
    alloc: Global,
    n: u32,
    out: &mut MemorySink,
    looked: &mut MemorySink,
) -> Result<(Status, Status), NoMemory>
    requires { n ≤ 999999 }
{
    let (shop, status) = drill(rt, alloc, n, out);
    let Some(mut shop) = shop else {
        return Err(NoMemory);
    };
    let seen = look(rt, alloc, n, &mut shop, looked)?;
    Ok((status, seen))
}

#[test]
fn smallest(rt: HostRuntime) -> Result<(), Fail> {
    let alloc = rt.alloc();
    let mut out = MemorySink::new(alloc, &[])?;
    let mut looked = MemorySink::new(alloc, &[])?;
    let (status, seen) = drilled(&rt, alloc, 0, &mut out, &mut looked)?;
    assert!(rt; status == Status::Done);
    assert!(rt; out.written() == DRILLED.as_bytes());
    assert!(rt; seen == Status::Done);
    assert!(rt; looked.written() == LOOKED.as_bytes());
    Ok(())
}

#[test]
fn realistic(rt: HostRuntime) -> Result<(), Fail> {
    let alloc = rt.alloc();
    let mut out = MemorySink::new(alloc, &[])?;
    let mut looked = MemorySink::new(alloc, &[])?;
    let (status, seen) = drilled(&rt, alloc, 2815, &mut out, &mut looked)?;
    assert!(rt; status == Status::Done);
    assert!(rt; out.written().starts_with(REALISTIC.as_bytes()));
    assert!(rt; out.written().ends_with(ALL_COMPLETE.as_bytes()));
    assert!(rt; seen == Status::Done);
    assert!(rt; looked.written().ends_with(ALL_COMPLETE.as_bytes()));
    Ok(())
}

/// A sink that fails at once: nothing is printed, and the vehicle is programmed all the same.
#[test]
fn cut_off(rt: HostRuntime) -> Result<(), Fail> {
    let alloc = rt.alloc();
    let mut out = MemorySink::new(alloc, &[0])?;
    let mut looked = MemorySink::new(alloc, &[])?;
    let (status, seen) = drilled(&rt, alloc, 0, &mut out, &mut looked)?;
    assert!(rt; status == Status::Sink);
    assert!(rt; out.written().is_empty());
    assert!(rt; seen == Status::Done);
    assert!(rt; looked.written() == LOOKED.as_bytes());
    Ok(())
}
