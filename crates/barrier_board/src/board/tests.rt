ghost use Rattle.std.specs.Prelude.{◌≡◌, IfOk, length};

use super::{Board, Claimed};
use crate::post::Post;
use flash_base::{Bytes, Items, KeyRule, Names, NoMemory, Text, Width};
use flash_plan::{Draft, Entry, Outcome, Plan, Segment, accept};
use std::alloc::Global;
use std::test::Fail;

/// The post of a unit that waits for these.
fn waiting(alloc: Global, after: &[u16]) -> Result<Post, NoMemory> {
    Ok(Post {
        after: Items::from_vec(after.to_vec(alloc)?),
        claimed: false,
        outcome: None,
    })
}

/// A board of A, B after A, and C: B is given only once A is complete, whatever became of C.
#[test]
fn claims_wait_for_the_units_before(rt: HostRuntime) -> Result<(), Fail> {
    let alloc = rt.alloc();
    let mut posts = Vec::new(alloc);
    posts.push(waiting(alloc, &[])?)?;
    posts.push(waiting(alloc, &[0])?)?;
    posts.push(waiting(alloc, &[])?)?;
    let mut board = Board { posts };
    assert_eq!(rt; board.claim(), Claimed::Unit(0));
    assert_eq!(rt; board.claim(), Claimed::Unit(2));
    assert_eq!(rt; board.claim(), Claimed::Nothing);
    board.end(
        2,
        Outcome::Refused {
            sid: 0x31,
            nrc: 0x72,
        },
    );
    assert_eq!(rt; board.claim(), Claimed::Nothing);
    board.complete(0);
    assert_eq!(rt; board.claim(), Claimed::Unit(1));
    Ok(())
}

/// The plan of one unit.
fn smallest(alloc: Global) -> Result<Plan, Fail>
    ensures { IfOk result (λ units. length units ≡ 1) }
{
    let mut segments = Items::new(alloc);
    segments.push(Segment {
        at: 0x1000,
        body: Bytes::from_slice(alloc, b"abc")?,
    })?;
    let mut drafts = Items::new(alloc);
    drafts.push(Draft {
        name: Text::from_str(alloc, "A")?,
        address: 0x1001,
        width: Width { size: 4, at: 4 },
        check: 0x0202,
        key: KeyRule::Free,
        idents: Items::new(alloc),
        after: Names::new(alloc),
        segments,
    })?;
    Ok(accept(alloc, drafts)?)
}

/// A unit that is recorded complete is not given again; one that is only begun is.
#[test]
fn what_is_complete_stays(rt: HostRuntime) -> Result<(), Fail> {
    let alloc = rt.alloc();
    let plan = smallest(alloc)?;
    let mut entries = Items::new(alloc);
    entries.push(Entry::Begun(0))?;
    let mut board = Board::new(alloc, &plan, &entries)?;
    assert_eq!(rt; board.outcome(0), None);
    assert_eq!(rt; board.claim(), Claimed::Unit(0));
    assert_eq!(rt; board.claim(), Claimed::Nothing);
    board.complete(0);
    assert_eq!(rt; board.outcome(0), Some(Outcome::Complete));
    entries.push(Entry::Complete(0))?;
    let mut again = Board::new(alloc, &plan, &entries)?;
    assert_eq!(rt; again.next_free(), None);
    assert_eq!(rt; again.claim(), Claimed::Nothing);
    assert_eq!(rt; again.outcome(0), Some(Outcome::Complete));
    Ok(())
}
