ghost use Rattle.std.specs.Prelude.{◌≡◌, ℕ, ◌+◌, ◌<◌, ◌≤◌, ◌++◌, ◌-◌, min, take, length, slice_get, MatchOption, IfOk, None, Some};
ghost use Rattle.std.specs.Option.{option_map};
ghost use Rattle.std.specs.FinMap as map;
ghost use Rattle.flash_base.specs.Lists.{Each};
ghost use Rattle.span_store.specs.ByteMap.{top, part, Holds};
ghost use Rattle.span_store.specs.Extents.{IsPiece};
ghost use Rattle.span_store.specs.Lowest.{IsLowest, IsHole, IsShared};
ghost use Rattle.span_store.specs.Runs.{runs, IsRun};
ghost use Rattle.span_store.specs.Putting.{Puts, Extracts};

use crate::fault::PutFault;
use crate::runs::{all_runs, run_at, run_count};
use crate::store::{byte_at, piece, put_into, take_from};
use crate::walk::Walk;
use flash_base::{Bytes, NoMemory};
use std::alloc::Global;
use std::collections::BTreeMap;
use std::marker::Model;

/// Every address is below this.
pub const TOP: u64 = 0x100_0000_0000;

/// Bytes by address, which contracts see as a finite map: the ascending list of addresses with their bytes.
///
/// Addresses are below `TOP`.
#[derive(Debug, Drop)]
pub struct Spans {
    store: BTreeMap<u64, Bytes>,
    alloc: Global,
}

impl Model for Spans {
    ghost use Rattle.std.specs.Ordering.{nat_cmp};
    ghost use Rattle.std.specs.Prelude.{ℕ};
    ghost use Rattle.std.specs.FinMap as map;
    ghost use Rattle.std.specs.Coded.{coded_ℕ};

    ghost Value = { map.FinMap nat_cmp ℕ };

    ghost coded = { map.code coded_ℕ coded_ℕ };

    ghost use Rattle.span_store.specs.Extents.{map_of, AreExtents};

    ghost view = { λ s. map_of s.store.entries };

    ghost invariant = { λ s. AreExtents s.store.entries };
}

impl Spans {
    /// No bytes.
    pub fn new(alloc: Global) -> Spans
        ensures { result ≡ map.empty }
    {
        Spans {
            store: BTreeMap::new(alloc),
            alloc,
        }
    }

    /// The byte at an address. None exactly where there is none.
    pub fn get(&self, at: u64) -> Option<u8>
        ensures value { result ≡ map.get self.now at }
        ensures beyond { top ≤ at → result ≡ None }
    {
        byte_at(&self.store, at)
    }

    /// Adds bytes from an address on. The same byte may stand there already; where another one does,
    /// the lowest such address is named and nothing is added.
    pub fn put(&mut self, at: u64, bytes: &[u8]) -> Result<(), PutFault>
        requires { at + length bytes.now ≤ top }
        ensures { Puts self.old at bytes.now result self.new }
    {
        put_into(&mut self.store, self.alloc, at, bytes)
    }

    /// The first bytes from an address on that stand together, and where they begin.
    ///
    /// Runs that touch may come as several pieces.
    pub fn piece(&self, from: u64) -> Option<(u64, &[u8])>
        ensures { IsPiece self.now from (option_map (λ p. (p.0, p.1.now)) result) }
    {
        piece(&self.store, from)
    }

    /// The lowest address of a range without a byte.
    pub fn hole_in(&self, from: u64, size: u64) -> Option<u64>
        requires { from + size ≤ top }
        ensures { IsLowest (IsHole self.now from size) result }
    {
        let stop = from + size;
        let mut here = from;
        while here < stop {
            match self.piece(here) {
                Some((start, bytes)) if start == here => here += bytes.len() as u64,
                _ => return Some(here),
            }
        }
        None
    }

    /// Fills `out` with the bytes from an address on, and answers None. Where one of the
    /// addresses has no byte, `out` stays as it was, and the lowest such address is the answer.
    pub fn range(&self, from: u64, out: &mut [u8]) -> Option<u64>
        requires { from + length out.old ≤ top }
        ensures hole { IsLowest (IsHole self.now from (length out.old)) result }
        ensures bytes { MatchOption result (Holds self.now from out.new) (λ hole. out.new ≡ out.old) }
    {
        if let Some(hole) = self.hole_in(from, out.len() as u64) {
            return Some(hole);
        }
        self.fill(from, out);
        None
    }

    /// Fills `out` with bytes that are all there.
    fn fill(&self, from: u64, out: &mut [u8])
        requires within { from + length out.old ≤ top }
        requires there { IsLowest (IsHole self.now from (length out.old)) None }
        ensures { Holds self.now from out.new }
    {
        let mut done = 0;
        while done < out.len() {
            let Some((start, bytes)) = self.piece(from + done as u64) else {
                return;
            };
            done = copied(out, done, bytes);
        }
    }

    /// The part in a range.
    pub fn cut(&self, from: u64, size: u64) -> Result<Spans, NoMemory>
        requires { from + size ≤ top }
        ensures { IfOk result (λ s. s ≡ part self.now from size) }
    {
        let stop = from + size;
        let mut cut = Spans::new(self.alloc);
        let mut here = from;
        while here < stop {
            let Some((start, bytes)) = self.piece(here) else {
                return Ok(cut);
            };
            if stop <= start {
                return Ok(cut);
            }
            let known = first_of_bytes(bytes, stop - start);
            match cut.put(start, known) {
                Ok(()) => {}
                Err(_) => return Err(NoMemory),
            }
            here = start + known.len() as u64;
        }
        Ok(cut)
    }

    /// The bytes of a range, piece by piece in ascending order; together they are `cut` of the range.
    pub fn walk(&self, from: u64, size: u64) -> Walk<'_>
        requires { from + size ≤ top }
        ensures { result ≡ part self.now from size }
    {
        Walk::new(self, from, from + size)
    }

    /// All bytes, piece by piece in ascending order.
    pub fn pieces(&self) -> Walk<'_>
        ensures { result ≡ self.now }
    {
        let _ = &self.store;
        Walk::new(self, 0, TOP)
    }

    /// Takes the bytes of a range out, where one extent has them and no others. Else the answer is None, and
    /// nothing has changed: then they want a copy.
    pub fn take(&mut self, from: u64, size: u64) -> Option<Bytes>
        ensures { Extracts self.old from size result self.new }
    {
        take_from(&mut self.store, from, size)
    }

    /// The lowest address that both have.
    pub fn overlap(&self, other: &Spans) -> Option<u64>
        ensures { IsLowest (IsShared self.now other.now) result }
    {
        let mut here = 0;
        while let Some((start, _)) = self.piece(here) {
            let Some((first, _)) = other.piece(start) else {
                return None;
            };
            if first == start {
                return Some(start);
            }
            here = first;
        }
        None
    }

    /// How many maximal runs there are.
    pub fn extents(&self) -> u64
        ensures { result ≡ length (runs self.now) }
    {
        run_count(&self.store)
    }

    /// The maximal run with this number, from 0, as address and size.
    pub fn extent(&self, i: u64) -> (u64, u64)
        requires { i < length (runs self.now) }
        ensures { slice_get (runs self.now) i ≡ Some result }
    {
        run_at(&self.store, i)
    }

    /// The maximal runs, ascending, each as address and size. One walk makes the whole list,
    /// where `extent` walks anew for each number.
    pub fn runs(&self, alloc: Global) -> Result<Vec<(u64, u64)>, NoMemory>
        ensures runs { IfOk result (λ v. v.items ≡ runs self.now) }
        ensures within { IfOk result (λ v. Each IsRun v.items) }
    {
        all_runs(alloc, &self.store)
    }
}

/// At most the first `n` bytes.
pub(crate) fn first_of_bytes(bytes: &[u8], n: u64) -> &[u8]
    ensures { result.now ≡ take n bytes.now }
{
    if bytes.len() as u64 <= n {
        bytes
    } else {
        &bytes[..n as usize]
    }
}

/// Copies bytes to a place, as many as go there, and answers the place behind them.
fn copied(out: &mut [u8], at: usize, bytes: &[u8]) -> usize
    requires { at ≤ length out.old }
    ensures place { result ≡ at + min (length bytes.now) (length out.old - at) }
    ensures copied { take result out.new ≡ take at out.old ++ take (result - at) bytes.now }
{
    let n = bytes.len().min(out.len() - at);
    out[at..at + n].copy_from_slice(&bytes[..n]);
    at + n
}
