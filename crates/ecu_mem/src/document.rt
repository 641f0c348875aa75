ghost use Rattle.std.specs.Prelude.{◌≡◌, [], ◌∷◌, ◌++◌, None, codes, IfOk, OnOk};
ghost use Rattle.ecu_mem.specs.Parts.{attribute};
ghost use Rattle.ecu_mem.specs.Places.{carriers, ecu_mems, groups, group_members};
ghost use Rattle.ecu_mem.specs.Catalogue.{id_of, target_at, blocks_with, flashes_with, target_of, unique, with_element, over_places, with_ecu_mem};
ghost use Rattle.ecu_mem.specs.Index.{IsIndexed, after, entries_in};
ghost use Rattle.ecu_mem.specs.Truths.{IsRight};

use crate::entries::entry_in;
use crate::entry::{Entry, Target};
use crate::kind::{Kind, Seen, is_member, new_kind};
use crate::parts::{attribute, kid};
use crate::refusal::{Reading, both, in_kid, twice};
use flash_base::NoMemory;
use indexmap::IndexMap;
use odx_tree::Element;
use std::alloc::Global;
use std::collections::VecDeque;

/// The entries that were read so far, and what each ID stands for among them.
#[derive(Drop)]
pub(crate) struct Document {
    pub entries: VecDeque<Entry>,
    pub targets: IndexMap<String, Target>,
    /// The numbers of datablocks and of flash data among the entries.
    pub blocks: u64,
    pub flashes: u64,
}

/// What an entry is, after so many datablocks and flash data.
fn target_at(blocks: u64, flashes: u64, entry: &Entry) -> Target
    ensures { result ≡ target_at blocks flashes entry.now }
{
    match entry {
        Entry::Session(_, _) => Target::Session,
        Entry::Block(_, _) => Target::Block(blocks),
        Entry::Flash(_) => Target::Flash(flashes),
    }
}

fn blocks_with(blocks: u64, entry: &Entry) -> Result<u64, NoMemory>
    ensures { IfOk result (λ n. n ≡ blocks_with blocks entry.now) }
{
    match entry {
        Entry::Session(_, _) => Ok(blocks),
        Entry::Block(_, _) => blocks.checked_add(1).ok_or(NoMemory),
        Entry::Flash(_) => Ok(blocks),
    }
}

fn flashes_with(flashes: u64, entry: &Entry) -> Result<u64, NoMemory>
    ensures { IfOk result (λ n. n ≡ flashes_with flashes entry.now) }
{
    match entry {
        Entry::Session(_, _) => Ok(flashes),
        Entry::Block(_, _) => Ok(flashes),
        Entry::Flash(_) => flashes.checked_add(1).ok_or(NoMemory),
    }
}

impl Document {
    pub(crate) fn new(alloc: Global) -> Document
        ensures empty { entries_in result ≡ [] }
        ensures indexed { IsIndexed result }
    {
        Document {
            entries: VecDeque::new(alloc),
            targets: IndexMap::new(alloc),
            blocks: 0,
            flashes: 0,
        }
    }

    fn unique(&self, alloc: Global, element: &Element) -> Result<Reading<()>, NoMemory>
        requires { IsIndexed self.now }
        ensures { IfOk result (λ r. r ≡ unique (entries_in self.now) (attribute (codes "ID") element.now)) }
    {
        let Some(id) = attribute(element, "ID") else {
            return Ok(Ok(()));
        };
        match self.targets.get(id.as_str()) {
            Some(_) => Ok(Err(twice(alloc, id.as_str())?)),
            None => Ok(Ok(())),
        }
    }

    fn push(&mut self, alloc: Global, entry: Entry) -> Result<(), NoMemory>
        requires indexed { IsIndexed self.old }
        requires fresh { target_of (entries_in self.old) (id_of entry) ≡ None }
        ensures entries { OnOk result (entries_in self.new ≡ entries_in self.old ++ entry ∷ []) }
        ensures indexed { OnOk result (IsIndexed self.new) }
    {
        let key = String::from_str(alloc, entry.id().as_str())?;
        let target = target_at(self.blocks, self.flashes, &entry);
        let blocks = blocks_with(self.blocks, &entry)?;
        let flashes = flashes_with(self.flashes, &entry)?;
        self.targets.insert(key, target)?;
        self.entries.push_back(entry)?;
        self.blocks = blocks;
        self.flashes = flashes;
        Ok(())
    }

    /// Reads one element that carries an ID.
    #[tactic(auto, unfolding(crate::specs::Catalogue::with_element))]
    fn take(&mut self, alloc: Global, element: &Element) -> Result<Reading<()>, NoMemory>
        requires { IsIndexed self.old }
        ensures value { IfOk result (λ r. after r (entries_in self.new) ≡ with_element element.now
            (entries_in self.old)) }
        ensures indexed { OnOk result (IsIndexed self.new) }
    {
        let entry = entry_in(alloc, element)?;
        let unique = self.unique(alloc, element)?;
        match both(entry, unique) {
            Err(refusal) => Ok(Err(refusal)),
            Ok(parts) => {
                let (entry, _) = parts;
                self.push(alloc, entry)?;
                Ok(Ok(()))
            }
        }
    }

    /// Reads the elements of a SESSIONS, a DATABLOCKS or a FLASHDATAS.
    fn group(&mut self, alloc: Global, kind: Kind, group: &Element) -> Result<Reading<()>, NoMemory>
        requires { IsIndexed self.old }
        ensures value { IfOk result (λ r. after r (entries_in self.new) ≡ over_places with_element group.now
            (group_members kind group.now) (entries_in self.old)) }
        ensures indexed { OnOk result (IsIndexed self.new) }
    {
        for (i, kid) in group.kids.as_slice().iter().enumerate() {
            if is_member(kind, kid) {
                match in_kid(i, self.take(alloc, kid)?)? {
                    Ok(()) => {}
                    Err(refusal) => return Ok(Err(refusal)),
                }
            }
        }
        Ok(Ok(()))
    }

    /// Reads a MEM.
    fn mem(&mut self, alloc: Global, mem: &Element) -> Result<Reading<()>, NoMemory>
        requires { IsIndexed self.old }
        ensures value { IfOk result (λ r. after r (entries_in self.new) ≡ over_places with_element mem.now
            (groups mem.now) (entries_in self.old)) }
        ensures indexed { OnOk result (IsIndexed self.new) }
    {
        let mut seen = Seen {
            sessions: false,
            blocks: false,
            flashes: false,
        };
        for (i, kid) in mem.kids.as_slice().iter().enumerate() {
            if let Some(kind) = new_kind(&seen, kid) {
                match in_kid(i, self.group(alloc, kind, kid)?)? {
                    Ok(()) => seen = seen.with(kind),
                    Err(refusal) => return Ok(Err(refusal)),
                }
            }
        }
        Ok(Ok(()))
    }

    /// Reads an ECU-MEM.
    #[tactic(auto, unfolding(crate::specs::Catalogue::with_ecu_mem))]
    fn ecu_mem(&mut self, alloc: Global, element: &Element) -> Result<Reading<()>, NoMemory>
        requires { IsIndexed self.old }
        ensures value { IfOk result (λ r. after r (entries_in self.new) ≡ with_ecu_mem element.now
            (entries_in self.old)) }
        ensures indexed { OnOk result (IsIndexed self.new) }
    {
        match kid(element, "MEM") {
            None => self.take(alloc, element),
            Some((i, mem)) => in_kid(i, self.mem(alloc, mem)?),
        }
    }

    /// Reads all ECU-MEM elements of a tree.
    pub(crate) fn read(&mut self, alloc: Global, element: &Element) -> Result<Reading<()>, NoMemory>
        requires { IsIndexed self.old }
        ensures value { IfOk result (λ r. after r (entries_in self.new) ≡ over_places with_ecu_mem element.now
            (ecu_mems element.now) (entries_in self.old)) }
        ensures indexed { OnOk result (IsIndexed self.new) }
        ensures told { IfOk result (λ r. IsRight element.now r) }
    {
        if element.tag.is("ECU-MEM") {
            return self.ecu_mem(alloc, element);
        }
        for (i, kid) in element.kids.as_slice().iter().enumerate() {
            match in_kid(i, self.read(alloc, kid)?)? {
                Ok(()) => {}
                Err(refusal) => return Ok(Err(refusal)),
            }
        }
        Ok(Ok(()))
    }
}
