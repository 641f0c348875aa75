ghost use Rattle.std.specs.Prelude.{◌≡◌, length};
ghost use Rattle.journal_steps.specs.Tables.{count_true};

use crate::bodies::bodies_of;
use crate::layout::Layout;
use crate::slots::{closed_run, open_run};
use crate::tables::{Tables, is_behind};
use crate::writing::append_run;
use flash_plan::{Entry, Plan};
use shop_model::Shop;

/// The disk failed while an entry was recorded.
#[derive(Debug, Drop)]
pub struct DiskFault;

/// The journal of a plan, in memory. It is live, or was closed by a fault.
///
/// Contracts see its plan's label, its entries and whether it is live (`Kept` in `specs`).
#[derive(Drop)]
pub struct Journal {
    digest: [u8; 32],
    layout: Layout,
    live: bool,
    // of each slot, whether it is open
    gates: Vec<bool>,
    // of each entry of the plan, whether it is recorded
    found: Vec<bool>,
    ghost slots: { length gates.items ≡ layout.slots },
    ghost entries: { length found.items ≡ layout.slots },
    ghost balance: { count_true gates.items ≡ count_true found.items },
    ghost whole: { layout.units ≡ length layout.segments.items },
}

impl Journal {
    ghost use Rattle.std.specs.Prelude.{◌≡◌, ◌↔◌, ◌+◌, ◌≤◌, ◌&&◌, ℕ, [], ◌∷◌, true, not, min, length, take, replicate, IsTrue, IsErr, IfOk, OnOk, OnErr};
    ghost use Rattle.flash_base.specs.Counts.{Rises};
    ghost use Rattle.shop_model.specs.History.{disk_now};
    ghost use Rattle.journal_model.specs.Records.{label_of, slots_of, names};
    ghost use Rattle.journal_steps.specs.Append.{AddsAtMost, AddsSomeOf};
    ghost use Rattle.journal_steps.specs.Later.{IsDiskLater, HoldsOnDisk, MadeCalls, append_calls};
    ghost use Rattle.journal_steps.specs.Read.{needs_none};
    ghost use Rattle.journal_steps.specs.Tables.{count_true};
    ghost use Rattle.flash_journal.specs.Bodies.{bodies_of};
    ghost use Rattle.flash_journal.specs.Kept.{journal_label, journal_form, has_entry, is_live, room_of, MayAppend, MayAppendAll, IsKeptOn, HasOneMore, HasMore, IsClosed, AppendsInOrder};
    ghost use Rattle.flash_journal.specs.Layouts.{layout_form};
    ghost use Rattle.flash_journal.specs.Noted.{CanNote, IsNoted, AreNoted, IsRoom};

    // A live journal with these tables, for slots of version 2.
    pub(crate) fn with_tables(plan: &Plan, layout: Layout, tables: Tables) -> Journal
        requires units { (layout_form layout).units ≡ length (label_of plan.now).segments }
        requires segments { (layout_form layout).segments ≡ (label_of plan.now).segments }
        requires gates { length tables.gates.items ≡ slots_of (layout_form layout) }
        requires found { length tables.found.items ≡ slots_of (layout_form layout) }
        requires balance { count_true tables.gates.items ≡ count_true tables.found.items }
        ensures label { journal_label result ≡ label_of plan.now }
        ensures form { journal_form result ≡ layout_form layout }
        ensures live { result.live ≡ true }
        ensures gates { result.gates.items ≡ tables.gates.items }
        ensures found { result.found.items ≡ tables.found.items }
    {
        let Tables {
            gates,
            found,
            entries: _entries,
        } = tables;
        Journal {
            digest: plan.digest(),
            layout,
            live: true,
            gates,
            found,
        }
    }

    /// Whether the entry is recorded.
    pub fn has(&self, entry: Entry) -> bool
        ensures { result ≡ has_entry self.now entry }
    {
        match self.layout.place(entry) {
            Some(place) => self.found[place],
            None => false,
        }
    }

    // Whether the plan has a slot for the entry.
    fn names(&self, entry: Entry) -> bool
        ensures { result ≡ names (journal_form self.now) entry }
    {
        self.layout.place(entry).is_some()
    }

    /// Whether the entry may be appended: it is not there, it is of a unit or a segment of the plan, and what
    /// is complete or marked is begun.
    pub fn may_append(&self, entry: Entry) -> bool
        ensures { IsTrue result ↔ MayAppend self.now entry }
    {
        self.names(entry) && !self.has(entry) && is_behind(&self.found, entry)
    }

    /// Whether no append has failed.
    pub fn live(&self) -> bool
        ensures { result ≡ is_live self.now }
    {
        self.live
    }

    // Notes an entry that is recorded in a slot.
    fn note(&mut self, slot: usize, entry: Entry)
        requires { CanNote self.old slot entry }
        ensures { IsNoted self.old self.new slot entry }
    {
        if let Some(place) = self.layout.place(entry) {
            self.gates[slot] = true;
            self.found[place] = true;
        }
    }

    // Notes entries that are recorded in the slots from one on.
    fn note_all(&mut self, slot: usize, entries: &[Entry])
        requires room { IsRoom self.old slot entries.now }
        requires entries { MayAppendAll self.old entries.now }
        ensures { AreNoted self.old self.new slot entries.now }
    {
        for i in 0..entries.len() {
            self.note(slot + i, entries[i]);
        }
    }

    // Records entries in the slots from one on, which are closed.
    fn record_run<S: Shop>(
        &mut self,
        shop: &mut S,
        slot: usize,
        entries: &[Entry],
    ) -> Result<(), DiskFault>
        requires live { IsTrue (is_live self.old) }
        requires room { IsRoom self.old slot entries.now }
        requires entries { MayAppendAll self.old entries.now }
        requires kept { IsTrue S.tells_disk → IsKeptOn self.old (disk_now (S.history shop.old)) }
        ensures ok { OnOk result (HasMore self.old self.new entries.now) }
        ensures kept { OnOk result (IsTrue S.tells_disk → IsKeptOn self.new (disk_now (S.history shop.new))) }
        ensures any_moment { IsTrue S.tells_disk → HoldsOnDisk (S.history shop.old) (S.history shop.new)
            (AddsSomeOf (journal_label self.old) (has_entry self.old) entries.now) }
        ensures calls { OnOk result (MadeCalls (S.history shop.old) (S.history shop.new)
            (append_calls (journal_form self.old) slot (bodies_of entries.now)
            (replicate (length entries.now) 165))) }
        ensures few { (S.history shop.new).moment ≤ (S.history shop.old).moment + 4 }
        ensures err { OnErr result (IsClosed self.old self.new) }
        ensures fault { IsErr result → Rises (S.history shop.old).disk_faults
            (S.history shop.new).disk_faults }
        ensures later { IsDiskLater (S.history shop.old) (S.history shop.new) }
    {
        let bodies = bodies_of(entries);
        let gates = [0xA5; 64];
        match append_run(
            shop,
            &self.layout,
            slot,
            &bodies[..16 * entries.len()],
            &gates[..entries.len()],
        ) {
            Ok(()) => {
                self.note_all(slot, entries);
                Ok(())
            }
            Err(_) => {
                self.live = false;
                Err(DiskFault)
            }
        }
    }

    /// Records 1 to 64 entries, as many of the first as there are closed slots from the lowest one on up to the
    /// next that is open: all bodies in one write and all gates in another, each synced, and no memory.
    ///
    /// `Ok` says how many, at least one. At `Err` the journal is closed, and a crash finds the entries from
    /// before with some of the group. Where the disk is told, it is the one that the last call of this journal
    /// left; link calls keep it.
    pub fn append_group<S: Shop>(
        &mut self,
        shop: &mut S,
        entries: &[Entry],
    ) -> Result<u16, DiskFault>
        requires live { IsTrue (is_live self.old) }
        requires entries { MayAppendAll self.old entries.now }
        requires kept { IsTrue S.tells_disk → IsKeptOn self.old (disk_now (S.history shop.old)) }
        ensures count { IfOk result (λ n. n ≡ min (length entries.now) (room_of self.old)) }
        ensures some { IfOk result (λ n. 1 ≤ n) }
        ensures ok { IfOk result (λ n. HasMore self.old self.new (take n entries.now)) }

        // Whatever crashes from now on, the new entries are found.
        ensures kept { OnOk result (IsTrue S.tells_disk → IsKeptOn self.new (disk_now (S.history shop.new))) }

        // At each moment each image has the entries from before and some of the group, and the vehicle is that
        // of the start.
        ensures any_moment { IsTrue S.tells_disk → HoldsOnDisk (S.history shop.old) (S.history shop.new)
            (AddsSomeOf (journal_label self.old) (has_entry self.old) entries.now) }

        // Also over a disk that is not told: bodies, sync, gates, sync, from the lowest slot on whose gate is
        // closed, and no more calls than these also at `Err`.
        ensures calls { IfOk result (λ n.
            AppendsInOrder self.old (take n entries.now) (S.history shop.old) (S.history shop.new)) }
        ensures few { (S.history shop.new).moment ≤ (S.history shop.old).moment + 4 }
        ensures err { OnErr result (IsClosed self.old self.new) }
        ensures fault { IsErr result → Rises (S.history shop.old).disk_faults
            (S.history shop.new).disk_faults }
        ensures later { IsDiskLater (S.history shop.old) (S.history shop.new) }
    {
        let slot = open_run(&self.gates);
        let room = closed_run(&self.gates[slot..]);
        let count = entries.len().min(room);
        match self.record_run(shop, slot, &entries[..count]) {
            Ok(()) => Ok(count as u16),
            Err(fault) => Err(fault),
        }
    }

    /// Records an entry in the lowest slot whose gate is closed: two writes, each synced, and no memory.
    ///
    /// At `Err` the journal is closed, and a crash finds the entries with or without the new one. Where the
    /// disk is told, it is the one that the last call of this journal left; link calls keep it.
    pub fn append<S: Shop>(&mut self, shop: &mut S, entry: Entry) -> Result<(), DiskFault>
        requires live { IsTrue (is_live self.old) }
        requires entry { MayAppend self.old entry }
        requires kept { IsTrue S.tells_disk → IsKeptOn self.old (disk_now (S.history shop.old)) }
        ensures ok { OnOk result (HasOneMore self.old self.new entry) }

        // Whatever crashes from now on, the new entries are found.
        ensures kept { OnOk result (IsTrue S.tells_disk → IsKeptOn self.new (disk_now (S.history shop.new))) }

        // At each moment each image has the entries from before, or those and the new one, and the vehicle is
        // that of the start.
        ensures any_moment { IsTrue S.tells_disk → HoldsOnDisk (S.history shop.old) (S.history shop.new)
            (AddsAtMost (journal_label self.old) (has_entry self.old) entry) }

        // Also over a disk that is not told: body, sync, gate, sync, in the lowest slot whose gate is closed.
        ensures calls { OnOk result
            (AppendsInOrder self.old (entry ∷ []) (S.history shop.old) (S.history shop.new)) }
        ensures few { (S.history shop.new).moment ≤ (S.history shop.old).moment + 4 }
        ensures err { OnErr result (IsClosed self.old self.new) }
        ensures fault { IsErr result → Rises (S.history shop.old).disk_faults
            (S.history shop.new).disk_faults }
        ensures later { IsDiskLater (S.history shop.old) (S.history shop.new) }
    {
        match self.append_group(shop, &[entry]) {
            Ok(_) => Ok(()),
            Err(fault) => Err(fault),
        }
    }
}
