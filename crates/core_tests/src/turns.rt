ghost use Rattle.std.specs.Prelude.{◌≡◌, ◌+◌, ◌<◌, ◌≤◌, true, false, IfOk, length};
ghost use Rattle.std.specs.Thread.{IsSync};

use std::alloc::{AllocError, Global};
use std::sync::Wait;
use std::test::*;
use std::thread;
use std::thread::Threads;
use turn_lock::{Logged, Pass, Turn};

const TURNS: u64 = 100;

// A list of numbers, which is its own log.
#[derive(Drop)]
struct Numbers {
    items: Vec<u64>,
}

impl Logged for Numbers {
    type Opening = ();

    type Entry = u64;

    ghost opening = { λ _. tt };

    ghost entries = { λ n. n.items.items };

    fn count(&self) -> u64 {
        self.items.len() as u64
    }
}

impl Numbers {
    fn new(alloc: Global, room: usize) -> Result<Numbers, AllocError> {
        let items = Vec::with_capacity(alloc, room)?;
        Ok(Numbers { items })
    }

    fn times(&self, number: u64) -> usize {
        self.items.iter().filter(|&&item| item == number).count()
    }
}

// Takes the list once, and appends the number.
fn append<R: Wait>(rt: &R, turn: &Turn<Numbers>, pass: &mut Pass<Numbers>, number: u64)
    requires turn { (pass.old.turn ≡ turn.now) × (pass.old.holds ≡ false) }
    ensures same { (pass.new.turn ≡ pass.old.turn) × (pass.new.holds ≡ false) × (pass.new.first ≡ pass.old.first) × (pass.new.others ≡ pass.old.others) }
{
    let mut value = turn.take(rt, pass);
    let _ = value.items.push(number);
    turn.give(pass, value);
}

fn work<R: Wait>(
    rt: &R,
    turn: &Turn<Numbers>,
    mut pass: Pass<Numbers>,
    number: u64,
) -> Pass<Numbers>
    requires turn { (pass.turn ≡ turn.now) × (pass.holds ≡ false) }
    ensures turn { (result.turn ≡ turn.now) × (result.holds ≡ false) }
{
    for _ in 0..TURNS {
        append(rt, turn, &mut pass, number);
    }
    pass
}

// Splits a pass for each of `count` workers, and runs them all at once. Each appends its own number, from `count` down.
// The second result says how many of them have as many entries of their own as they took turns.
fn crew<R: Threads + Wait + Sync>(
    rt: &R,
    turn: &Turn<Numbers>,
    mut first: Pass<Numbers>,
    count: u64,
) -> (Pass<Numbers>, u64)
    requires turn { (first.turn ≡ turn.now) × (first.holds ≡ false) }
    requires first { (first.first ≡ true) × (first.others + count < 65536) }
    ensures turn { (result.0.turn ≡ first.turn) × (result.0.holds ≡ false) × (result.0.first ≡ true) × (result.0.others ≡ first.others) }
    ensures whole { result.1 ≤ count }
{
    if count == 0 {
        return (first, 0);
    }
    let rest = count - 1;
    let pass = turn.split(&mut first);
    let ((mut first, whole), pass) = thread::join(
        rt,
        move ||
            requires { IsSync R.row × (first.turn ≡ turn.now) × (first.holds ≡ false) × (first.first ≡ true) × (first.others + rest < 65536) }
            ensures { (result.0.turn ≡ first.turn) × (result.0.holds ≡ false) × (result.0.first ≡ true) × (result.0.others ≡ first.others) × (result.1 ≤ rest) }
        { crew(rt, turn, first, rest) },
        move ||
            requires { (pass.turn ≡ turn.now) × (pass.holds ≡ false) }
            ensures { (result.turn ≡ turn.entry.now) × (result.holds ≡ false) }
        { work(rt, turn, pass, count) },
    );
    let own = pass.own();
    turn.join(&mut first, pass);
    let whole = if own == TURNS { whole + 1 } else { whole };
    (first, whole)
}

#[test]
fn workers_append_in_turns(rt: HostRuntime) -> Result<(), Fail> {
    for workers in [1u64, 4, 16] {
        let made = Turn::new(rt.alloc(), Numbers::new(rt.alloc(), 1600)?);
        let (turn, first) = made.map_err(|_| AllocError)?;
        let (first, whole) = crew(&rt, &turn, first, workers);
        let (own, seen, others) = (first.own(), first.seen(), first.others());
        let value = turn.close(first);
        assert!(rt; whole == workers, "{workers} workers");
        assert!(rt;
            own == workers * TURNS && seen == own && others == 0,
            "{workers} workers"
        );
        assert!(rt; value.count() == own, "{workers} workers");
        for number in 1..=workers {
            assert!(rt; value.times(number) == 100, "worker {number} of {workers}");
        }
    }
    Ok(())
}

// What each pass knows after each call, on one thread.
#[test]
fn passes_know_what_they_saw(rt: HostRuntime) -> Result<(), Fail> {
    let mut value = Numbers::new(rt.alloc(), 8)?;
    value.items.push(7)?;
    let made = Turn::new(rt.alloc(), value);
    let (turn, mut first) = made.map_err(|_| AllocError)?;
    assert!(rt; (first.seen(), first.own(), first.others()) == (1, 0, 0));
    append(&rt, &turn, &mut first, 1);
    assert!(rt; (first.seen(), first.own(), first.others()) == (2, 1, 0));
    let mut other = turn.split(&mut first);
    assert!(rt; (other.seen(), other.own(), other.others()) == (2, 0, 0));
    assert!(rt; (first.seen(), first.own(), first.others()) == (2, 1, 1));
    append(&rt, &turn, &mut other, 2);
    append(&rt, &turn, &mut other, 3);
    assert!(rt; (other.seen(), other.own(), other.others()) == (4, 2, 0));
    assert!(rt; (first.seen(), first.own(), first.others()) == (2, 1, 1));
    turn.join(&mut first, other);
    assert!(rt; (first.seen(), first.own(), first.others()) == (4, 3, 0));
    let value = turn.close(first);
    assert!(rt; value.items.as_slice() == [7, 1, 2, 3].as_slice());
    Ok(())
}

// Also where any one of the allocations of `new` fails, the value is there afterwards.
#[test]
fn new_hands_the_value_back(rt: HostRuntime) -> Result<(), Fail> {
    let Ok(mut value) = Numbers::new(rt.alloc(), 2) else {
        return Ok(());
    };
    value.items.push(5)?;
    value.items.push(6)?;
    let value = match Turn::new(rt.alloc(), value) {
        Ok((turn, first)) => turn.close(first),
        Err(value) => value,
    };
    assert!(rt; value.items.as_slice() == [5, 6].as_slice());
    Ok(())
}
