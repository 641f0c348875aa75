//! The bytes that filters keep, piece by piece.
ghost use Rattle.std.specs.Prelude.{◌≡◌, ℕ, ◌+◌, ◌<◌, ◌≤◌, [], true, false, length, None};
ghost use Rattle.std.specs.FinMap.{get, retain_keys};
ghost use Rattle.std.specs.FinMap as map;
ghost use Rattle.std.specs.Option.{option_map};
ghost use Rattle.span_store.specs.ByteMap.{over, top};
ghost use Rattle.span_store.specs.Walks.{TakesFront};
ghost use Rattle.session_image.specs.Content.{is_kept};
ghost use Rattle.session_image.specs.Keeping.{keeps, left_of, IsReady, Steps, weight};
ghost use Rattle.session_image.specs.Filtering.{ends_by, Apart, IsRest};

use crate::filters::Filters;
use span_store::Walk;

/// A walk that gives what filters keep.
#[derive(Debug, Drop)]
pub struct Kept<'a> {
    /// What comes behind the piece in hand.
    rest: Walk<'a>,
    /// The piece in hand: its first address, and its bytes.
    at: u64,
    bytes: &'a [u8],
    /// The ranges of the filters that may still have an address.
    ranges: &'a [(u64, u64)],
    /// There are no filters.
    all: bool,
}

/// What a step of the walk comes to.
#[derive(Debug, Drop)]
pub enum Step<'a> {
    /// Nothing yet.
    On,
    /// The next piece, or the end.
    Done(Option<(u64, &'a [u8])>),
}

/// Whether a range ends at an address or before it.
fn ends_by(range: &(u64, u64), at: u64) -> bool
    ensures { result ≡ ends_by at range.now }
{
    if at < range.0 {
        return false;
    }
    range.1 <= at - range.0
}

/// The ranges without the first ones, which end at an address or before it.
fn from_there(ranges: &[(u64, u64)], at: u64) -> &[(u64, u64)]
    requires { Apart 0 ranges.now }
    ensures { IsRest ranges.now at result.now }
{
    let first = ranges.partition_point(|range| ends_by(range, at));
    &ranges[first..]
}

impl<'a> Kept<'a> {
    /// What filters keep of bytes at an address, and of a walk that goes on behind them.
    pub(crate) fn new(
        filters: &'a Filters<'a>,
        at: u64,
        bytes: &'a [u8],
        rest: Walk<'a>,
    ) -> Kept<'a>
        requires ends { at + length bytes.now ≤ top }
        requires behind { (a : ℕ) → a < at + length bytes.now → get rest a ≡ None }
        ensures ready { IsReady result }
        ensures left { left_of result ≡ retain_keys (over rest.entry at bytes.now) (is_kept filters.now) }
    {
        Kept {
            rest,
            at,
            bytes,
            ranges: from_there(filters.apart.as_slice(), at),
            all: filters.said.is_empty(),
        }
    }

    /// Takes the next piece of the walk in hand.
    fn load(&mut self) -> Step<'a>
        requires ready { IsReady self.old }
        requires empty { self.old.bytes.now ≡ [] }
        ensures ready { IsReady self.new }
        ensures step { Steps self.old result self.new }
    {
        match self.rest.next() {
            Some((at, bytes)) => {
                self.at = at;
                self.bytes = bytes;
                Step::On
            }
            None => Step::Done(None),
        }
    }

    /// Gives the first bytes of the piece, all of which are kept.
    fn give(&mut self, n: usize) -> Step<'a>
        requires ready { IsReady self.old }
        requires some { 0 < n }
        requires within { n ≤ length self.old.bytes.now }
        requires kept { (a : ℕ) → self.old.at ≤ a → a < self.old.at + n
            → keeps self.old.all self.old.ranges.now a ≡ true }
        ensures ready { IsReady self.new }
        ensures step { Steps self.old result self.new }
    {
        let at = self.at;
        let (known, rest) = self.bytes.split_at(n);
        self.bytes = rest;
        self.at = at + n as u64;
        Step::Done(Some((at, known)))
    }

    /// Leaves out the first bytes of the piece, none of which is kept.
    fn skip(&mut self, n: usize) -> Step<'a>
        requires ready { IsReady self.old }
        requires some { 0 < n }
        requires within { n ≤ length self.old.bytes.now }
        requires dropped { (a : ℕ) → self.old.at ≤ a → a < self.old.at + n
            → keeps self.old.all self.old.ranges.now a ≡ false }
        ensures ready { IsReady self.new }
        ensures step { Steps self.old result self.new }
    {
        let (_, rest) = self.bytes.split_at(n);
        self.bytes = rest;
        self.at += n as u64;
        Step::On
    }

    fn step(&mut self) -> Step<'a>
        requires { IsReady self.old }
        ensures ready { IsReady self.new }
        ensures step { Steps self.old result self.new }
    {
        let len = self.bytes.len();
        if len == 0 {
            return self.load();
        }
        if self.all {
            return self.give(len);
        }
        let Some((range, others)) = self.ranges.split_first() else {
            return Step::Done(None);
        };
        let (from, size) = *range;
        if from + size <= self.at {
            self.ranges = others;
            return Step::On;
        }
        if self.at < from {
            return self.skip(len.min((from - self.at) as usize));
        }
        self.give(len.min((from + size - self.at) as usize))
    }

    /// The next piece, as its first address and its bytes.
    pub(crate) fn next(&mut self) -> Option<(u64, &'a [u8])>
        requires { IsReady self.old }
        ensures ready { IsReady self.new }
        ensures front { TakesFront (left_of self.old) (option_map (λ p. (p.0, p.1.now)) result)
            (left_of self.new) }
    {
        loop {
            if let Step::Done(piece) = self.step() {
                return piece;
            }
        }
    }
}
