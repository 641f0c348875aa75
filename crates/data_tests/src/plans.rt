ghost use Rattle.std.specs.Prelude.{◌≡◌, ◌≤◌, IfOk, IsTrue, length};
ghost use Rattle.std.specs.List.{list_all};
ghost use Rattle.flash_plan.specs.Accepting.{IsDraft};
ghost use Rattle.flash_plan.specs.Plan.{is_name_byte, IsTaskName, IsWidth};

use flash_base::{Bytes, Items, KeyRule, Names, NoMemory, Text, Width};
use flash_plan::{Draft, Plan, PlanFault, Segment, What, accept};
use std::alloc::Global;
use std::marker::Model;
use std::test::Fail;

const WIDE: Width = Width { size: 4, at: 4 };

fn is_name_byte(byte: u8) -> bool
    ensures { result ≡ is_name_byte byte }
{
    byte.is_ascii_alphanumeric() || byte == b'_'
}

fn are_name_bytes(bytes: &[u8]) -> bool
    ensures { result ≡ list_all is_name_byte bytes.now }
{
    bytes.iter().all(|b| is_name_byte(*b))
}

/// Whether the text is 1 to 32 letters, digits or '_'.
fn is_name(text: &str) -> bool
    ensures { IsTrue result → IsTaskName text.now }
{
    if text.is_empty() {
        return false;
    }
    if text.len() > 32 {
        return false;
    }
    are_name_bytes(text.as_bytes())
}

/// The names of no task, or of one.
fn names_of(alloc: Global, name: Option<&str>) -> Result<Names, NoMemory> {
    let mut names = Names::new(alloc);
    if let Some(other) = name {
        names.push(Text::from_str(alloc, other)?)?;
    }
    Ok(names)
}

/// A task with one segment, at 1000.
fn task(
    alloc: Global,
    name: &str,
    address: u16,
    after: Option<&str>,
    width: Width,
    body: Bytes,
) -> Result<Draft, NoMemory>
    requires name { IsTaskName name.now }
    requires width { IsWidth width }
    requires some { 1 ≤ length body }
    ensures { IfOk result IsDraft }
{
    let mut segments = Items::new(alloc);
    segments.push(Segment { at: 0x1000, body })?;
    Ok(Draft {
        name: Text::from_str(alloc, name)?,
        address,
        width,
        check: 0x0202,
        key: KeyRule::Free,
        idents: Items::new(alloc),
        after: names_of(alloc, after)?,
        segments,
    })
}

/// The tasks of an order.
#[derive(Drop)]
struct Tasks {
    drafts: Items<Draft>,
}

impl Model for Tasks {
    ghost use Rattle.std.specs.Prelude.{List};
    ghost use Rattle.flash_plan.specs.declared.unit.Draft.{Draft};

    ghost Value = { List Draft };

    ghost use Rattle.flash_base.specs.Lists.{Each};
    ghost use Rattle.flash_plan.specs.Accepting.{IsDraft};

    ghost view = { λ t. t.drafts };

    ghost invariant = { λ t. Each IsDraft t.drafts };
}

impl Tasks {
    fn new(alloc: Global) -> Tasks {
        Tasks {
            drafts: Items::new(alloc),
        }
    }

    /// Adds a task, if its name is one and it has a byte.
    fn add(
        &mut self,
        alloc: Global,
        name: &str,
        address: u16,
        after: Option<&str>,
        width: Width,
        body: Bytes,
    ) -> Result<(), NoMemory>
        requires { IsWidth width }
    {
        if body.len() > 0 && is_name(name) {
            let draft = task(alloc, name, address, after, width, body)?;
            self.drafts.push(draft)?;
        }
        Ok(())
    }

    /// Adds a task of one byte.
    fn add_small(
        &mut self,
        alloc: Global,
        name: &str,
        address: u16,
        after: Option<&str>,
    ) -> Result<(), NoMemory> {
        let body = Bytes::from_slice(alloc, b"a")?;
        self.add(alloc, name, address, after, WIDE, body)
    }

    fn accepted(self, alloc: Global) -> Result<Plan, PlanFault> {
        accept(alloc, self.drafts)
    }
}

/// The bytes are written out by hand from their table, the digest is that of `sha256sum`.
#[test]
fn smallest_plan(rt: HostRuntime) -> Result<(), Fail> {
    let alloc = rt.alloc();
    let mut tasks = Tasks::new(alloc);
    let body = Bytes::from_slice(alloc, b"abc")?;
    tasks.add(alloc, "A", 0x1001, None, WIDE, body)?;
    let plan = tasks.accepted(alloc)?;
    let bytes = [
        0x4F, 0x44, 0x58, 0x46, 0x50, 0x4C, 0x41, 0x4E, 0x01, 0x00, 0x01, 0x10, 0x01, 0x01, 0x41,
        0x44, 0x02, 0x02, 0x00, 0x00, 0x00, 0x00, 0x01, 0x00, 0x00, 0x00, 0x00, 0x00, 0x00, 0x10,
        0x00, 0x00, 0x00, 0x00, 0x03, 0x61, 0x62, 0x63,
    ];
    let digest = [
        0xA4, 0x15, 0x28, 0x29, 0x3B, 0xB2, 0xC3, 0xC3, 0xD8, 0x4B, 0xA5, 0x35, 0x57, 0xCF, 0xBE,
        0x53, 0x0F, 0x60, 0x31, 0xFC, 0x9B, 0xAE, 0x91, 0x6E, 0xC7, 0x10, 0x8F, 0xCF, 0x4F, 0x68,
        0x3F, 0x7E,
    ];
    assert_eq!(rt; plan.canonical()?.as_slice(), bytes.as_slice());
    assert_eq!(rt; plan.digest(), digest);
    assert_eq!(rt; plan.units(), 1);
    if plan.units() > 0 {
        assert_eq!(rt; plan.unit(0).name.as_str(), "A");
        assert_eq!(rt; plan.unit(0).address, 0x1001);
    }
    Ok(())
}

/// The answer to a task at 1001 and one at another address.
fn pair(
    alloc: Global,
    first: (&str, Option<&str>),
    second: (&str, u16, Option<&str>),
) -> Result<Result<Plan, PlanFault>, NoMemory> {
    let mut tasks = Tasks::new(alloc);
    tasks.add_small(alloc, first.0, 0x1001, first.1)?;
    tasks.add_small(alloc, second.0, second.1, second.2)?;
    Ok(tasks.accepted(alloc))
}

/// Two tasks that wait for one another, one that waits for itself, and two that are a plan.
#[test]
fn rings(rt: HostRuntime) -> Result<(), Fail> {
    let alloc = rt.alloc();
    let ring = pair(alloc, ("A", Some("B")), ("B", 0x1002, Some("A")))?;
    assert!(rt; matches!(ring, Err(PlanFault::Cycle { task: 0 })));
    let itself = pair(alloc, ("A", None), ("B", 0x1002, Some("B")))?;
    assert!(rt; matches!(itself, Err(PlanFault::Cycle { task: 1 })));
    let plan = pair(alloc, ("A", None), ("B", 0x1002, Some("A")))??;
    assert_eq!(rt; plan.units(), 2);
    Ok(())
}

/// Two tasks with one name, two with one address, and one that waits for no task.
#[test]
fn names_and_addresses(rt: HostRuntime) -> Result<(), Fail> {
    let alloc = rt.alloc();
    let name = pair(alloc, ("A", None), ("A", 0x1002, None))?;
    assert!(rt; matches!(name, Err(PlanFault::SameName { task: 1 })));
    let address = pair(alloc, ("A", None), ("B", 0x1001, None))?;
    assert!(rt; matches!(address, Err(PlanFault::SameUnit { address: 0x1001 })));
    let unknown = pair(alloc, ("A", Some("C")), ("B", 0x1002, None))?;
    assert!(rt; matches!(unknown, Err(PlanFault::UnknownAfter { task: 0 })));
    Ok(())
}

/// 65 tasks are too many, also where all have one name.
#[test]
fn too_many_tasks(rt: HostRuntime) -> Result<(), Fail> {
    let alloc = rt.alloc();
    let mut tasks = Tasks::new(alloc);
    for _ in 0..65 {
        tasks.add_small(alloc, "A", 0x1001, None)?;
    }
    let answer = tasks.accepted(alloc);
    assert!(rt; matches!(answer, Err(PlanFault::TooMany { what: What::Units })));
    Ok(())
}

const LETTERS: &[u8] = b"ABCDEFGHIJKLMNOPQRSTUVWXYZabcdefghijklmnopqrstuvwxyz0123456789_";

/// 64 tasks of one byte are a plan, the last of which waits for the first.
#[test]
fn largest_plan(rt: HostRuntime) -> Result<(), Fail> {
    let alloc = rt.alloc();
    let mut tasks = Tasks::new(alloc);
    for i in 0..LETTERS.len() {
        let mut name = String::new(alloc);
        name.push(char::from(LETTERS[i]))?;
        tasks.add_small(alloc, name.as_str(), 1 + i as u16, None)?;
    }
    tasks.add_small(alloc, "last", 0x1001, Some("A"))?;
    let plan = tasks.accepted(alloc)?;
    assert_eq!(rt; plan.units(), 64);
    if plan.units() > 63 {
        assert_eq!(rt; plan.unit(63).after.as_slice(), [0].as_slice());
    }
    Ok(())
}

/// A segment of 65,536 bytes, whose size does not fit in two bytes.
#[test]
fn too_wide_task(rt: HostRuntime) -> Result<(), Fail> {
    let alloc = rt.alloc();
    let mut body = Bytes::new(alloc);
    for _ in 0..65_536 {
        body.push(0x61)?;
    }
    let mut tasks = Tasks::new(alloc);
    tasks.add(alloc, "A", 0x1001, None, Width { size: 2, at: 3 }, body)?;
    let answer = tasks.accepted(alloc);
    assert!(rt; matches!(answer, Err(PlanFault::TooWide { task: 0 })));
    Ok(())
}
