ghost use Rattle.std.specs.Prelude.{◌≤◌};

use bench_gen::{blocks, bytes, files, units, vehicle_text};
use flash_shelf::{MemoryShelf, MemorySink};
use plan_commands::{Status, serve};
use run_report::drill_line;
use std::alloc::Global;
use std::test::Fail;
use std::thread::Threads;

/// What `check drill.json` prints for drills of this many bytes a unit; digests are those of
/// Python's `hashlib` over the plan's canonical bytes, spelled from the format.
const PLANS: [(u32, &str); 3] = [
    (
        0,
        "plan 54b74dd1685082bc13c6352207e3eea8d04665607e1997d847b4486952acd14c
unit U00 1000 segments 1 bytes 4096 after -
unit U01 1001 segments 1 bytes 4096 after -
units 2 bytes 8192
",
    ),
    (
        10,
        "plan 4099a7a9d5e38b94153fc668e4e35fd8eee26bda80526e331e24aec00ae7d1bb
unit U00 1000 segments 1 bytes 4096 after -
unit U01 1001 segments 1 bytes 4096 after -
unit U02 1002 segments 1 bytes 4096 after -
unit U03 1003 segments 1 bytes 4096 after -
unit U04 1004 segments 1 bytes 4096 after U00,U01,U02,U03
unit U05 1005 segments 1 bytes 4096 after U00,U01,U02,U03
unit U06 1006 segments 1 bytes 4096 after U00,U01,U02,U03
unit U07 1007 segments 1 bytes 4096 after U00,U01,U02,U03
unit U08 1008 segments 1 bytes 4096 after U04,U05,U06,U07
unit U09 1009 segments 1 bytes 4096 after U04,U05,U06,U07
unit U10 100A segments 1 bytes 4096 after U04,U05,U06,U07
unit U11 100B segments 1 bytes 4096 after U04,U05,U06,U07
units 12 bytes 49152
",
    ),
    (
        999_999,
        "plan 45001ff578a278093f73df5fa5464daec4b8c2e997fcf84a0d8cb5655bb1ed67
unit U00 1000 segments 1 bytes 122880 after -
unit U01 1001 segments 1 bytes 122880 after -
units 2 bytes 245760
",
    ),
];

fn check<R: Threads + Sync>(rt: &R, alloc: Global, n: u32) -> Result<(Status, MemorySink), Fail>
    requires { n ≤ 999999 }
{
    let mut words = Vec::new(alloc);
    for word in ["check", "drill.json"] {
        words.push(String::from_str(alloc, word)?)?;
    }
    let mut shelf = MemoryShelf::new(alloc, &files(alloc, n)?, &[])?;
    let mut out = MemorySink::new(alloc, &[])?;
    let status = serve(rt, alloc, words.as_slice(), &mut shelf, &mut out);
    Ok((status, out))
}

#[test]
fn plans(rt: HostRuntime) -> Result<(), Fail> {
    let alloc = rt.alloc();
    for (n, want) in PLANS {
        let (status, out) = check(&rt, alloc, n.min(999_999))?;
        assert!(rt; status == Status::Done, "at {n}");
        assert!(rt; out.written() == want.as_bytes(), "at {n}");
    }
    Ok(())
}

/// The first lines of drills.
#[test]
fn first_lines(rt: HostRuntime) -> Result<(), Fail> {
    let alloc = rt.alloc();
    for (n, want) in [
        (0u32, "drill 0 units 2 bytes 8192 blocks 4\n"),
        (2815, "drill 2815 units 12 bytes 12582912 blocks 3084\n"),
        (999_999, "drill 999999 units 2 bytes 245760 blocks 62\n"),
    ] {
        let n = n.min(999_999);
        let line = drill_line(alloc, n, units(n) as u64, bytes(n), blocks(n))?;
        assert!(rt; line.as_slice() == want.as_bytes(), "at {n}");
    }
    Ok(())
}

/// The vehicle of the smallest drill.
const VEHICLE: &str =
    r#"{"entity":"4000","units":[{"address":"1000","block":4095,"check":"0202","idents":{"F195":"4F4C44"},"key":{"level":"01","mask":"5A","rule":"xor"},"regions":[{"at":"00010000","fill":"FF","size":4096}],"seed":"1234"},{"address":"1001","block":4095,"check":"0202","idents":{"F195":"4F4C44"},"key":{"level":"01","mask":"5A","rule":"xor"},"regions":[{"at":"00010000","fill":"FF","size":4096}],"seed":"1234"}]}"#;

#[test]
fn vehicle(rt: HostRuntime) -> Result<(), Fail> {
    let alloc = rt.alloc();
    assert!(rt; vehicle_text(alloc, 0)?.as_slice() == VEHICLE.as_bytes());
    Ok(())
}
