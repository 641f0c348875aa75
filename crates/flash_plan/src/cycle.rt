ghost use Rattle.std.specs.Prelude.{◌≡◌, ◌<◌, ◌≤◌, false, get_or, length, set, true};
ghost use Rattle.flash_plan.specs.Cycles.{first_open, is_marked, is_reached, next_open, open_of, AreWithin, IsCycleTest, IsFirstCycleTest};

use crate::unit::UnitPlan;

/// A mark for each unit that a plan may have.
type Marks = [bool; 64];

fn is_marked(marks: &Marks, n: usize) -> bool
    ensures { result ≡ is_marked marks.now n }
{
    n < marks.len() && marks[n]
}

fn mark(marks: &mut Marks, n: usize)
    requires { n < 64 }
    ensures { marks.new ≡ set marks.old n true }
{
    marks[n] = true;
}

/// The first of the units that has no mark.
fn first_open(marks: &Marks, units: &[u16]) -> Option<u16>
    ensures { result ≡ first_open marks.now units.now }
{
    for i in 0..units.len() {
        if !is_marked(marks, units[i] as usize) {
            return Some(units[i]);
        }
    }
    None
}

fn is_reached(n: usize, marks: &Marks, u: usize) -> bool
    ensures { result ≡ is_reached n marks.now u }
{
    u == n || is_marked(marks, u)
}

/// A unit without a mark for which unit `u` waits, if `u` is `n` or has a mark.
fn open_of(units: &[UnitPlan], n: usize, marks: &Marks, u: usize) -> Option<u16>
    requires { u < length units.now }
    ensures { result ≡ open_of units.now n marks.now u }
{
    if is_reached(n, marks, u) {
        first_open(marks, units[u].after.as_slice())
    } else {
        None
    }
}

/// A unit without a mark for which unit `n` or a unit with a mark waits.
fn next_open(units: &[UnitPlan], n: usize, marks: &Marks) -> Option<u16>
    ensures { result ≡ next_open units.now n marks.now }
{
    for u in 0..units.len() {
        if let Some(w) = open_of(units, n, marks, u) {
            return Some(w);
        }
    }
    None
}

/// Whether unit `n` stands before itself.
fn is_before_itself(units: &[UnitPlan], n: usize) -> bool
    requires few { length units.now ≤ 64 }
    requires within { AreWithin units.now }
    ensures { IsCycleTest units.now n result }
{
    let mut marks = [false; 64];
    while let Some(w) = next_open(units, n, &marks) {
        mark(&mut marks, w as usize);
    }
    is_marked(&marks, n)
}

/// The first unit that stands before itself.
pub(crate) fn first_cycle(units: &[UnitPlan]) -> Option<u16>
    requires few { length units.now ≤ 64 }
    requires within { AreWithin units.now }
    ensures { IsFirstCycleTest units.now result }
{
    for n in 0..units.len() {
        if is_before_itself(units, n) {
            return Some(n as u16);
        }
    }
    None
}
