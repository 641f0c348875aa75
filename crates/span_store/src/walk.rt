//! The bytes of a range, piece by piece.
ghost use Rattle.std.specs.Prelude.{◌≡◌, ◌-◌, List};
ghost use Rattle.std.specs.FinMap.{len};
ghost use Rattle.std.specs.Iterator.{at_most, Drains};
ghost use Rattle.std.specs.Option.{option_map};
ghost use Rattle.span_store.specs.ByteMap.{ByteMap, part};
ghost use Rattle.span_store.specs.Extents.{Extent, map_of, AreExtents};
ghost use Rattle.span_store.specs.Walks.{TakesFront};

use crate::spans::{Spans, first_of_bytes};
use std::marker::Model;

/// The bytes of a range that are still to come, which contracts see as a byte map. Each call takes the lowest of
/// them, as the first address and the bytes that stand together from it on.
///
/// A piece is as long as the range and the extent that it lies in. Runs that touch may come as several pieces.
#[derive(Debug, Drop)]
pub struct Walk<'a> {
    spans: &'a Spans,
    here: u64,
    stop: u64,
}

impl<'a> Model for Walk<'a> {
    ghost use Rattle.std.specs.Ordering.{nat_cmp};
    ghost use Rattle.std.specs.Prelude.{ℕ, ◌-◌};
    ghost use Rattle.std.specs.FinMap as map;
    ghost use Rattle.std.specs.Coded.{coded_ℕ};

    ghost Value = { map.FinMap nat_cmp ℕ };

    ghost coded = { map.code coded_ℕ coded_ℕ };

    ghost use Rattle.span_store.specs.ByteMap.{part};

    ghost view = { λ w. part w.spans.now w.here (w.stop - w.here) };
}

impl<'a> Walk<'a> {
    /// From one address on to another, which is left out.
    pub(crate) fn new(spans: &'a Spans, from: u64, stop: u64) -> Walk<'a>
        ensures { result ≡ part spans.now from (stop - from) }
    {
        Walk {
            spans,
            here: from,
            stop,
        }
    }
}

impl<'a> Iterator for Walk<'a> {
    type Item = (u64, &'a [u8]);

    ghost next_gives = { λ m r n. TakesFront m (option_map (λ p. (p.0, p.1.now)) r) n };

    ghost remaining = { λ m. at_most (len m) };

    fn next(&mut self) -> Option<(u64, &'a [u8])> {
        if self.stop <= self.here {
            return None;
        }
        let Some((start, bytes)) = self.spans.piece(self.here) else {
            return None;
        };
        if self.stop <= start {
            return None;
        }
        let known = first_of_bytes(bytes, self.stop - start);
        self.here = start + known.len() as u64;
        Some((start, known))
    }
}

/// What a walk takes to its end are the extents of all that was to come: they ascend, and together they are its
/// bytes, no more and no less.
pub fn walking_law()
    ensures { (m : ByteMap) (es : List Extent) → Drains TakesFront m es → AreExtents es × (m ≡ map_of es) }
{}
