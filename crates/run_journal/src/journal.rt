//! The journal of a run: its entries in order, with the premises of safety decided as they come.

ghost use Rattle.std.specs.Prelude.{◌≡◌, ◌≤◌, ◌<◌, ◌+◌, ◌-◌, [], ◌∷◌, length, max, reverse};
ghost use Rattle.std.specs.Prelude.{slice_get, Some, OnOk, OnErr, IsOk};
ghost use Rattle.run_journal.specs.Report.{Decides};

use crate::acts::Entry;
use crate::index::Index;
use crate::judging::judge;
use crate::premises::Premises;
use crate::sharing::shared;
use domain_base::NoMemory;
use key_hierarchy::LastInputs;
use std::alloc::Global;
use std::marker::Model;

/// The entries of a run, in the order of pushing. Contracts see them newest first, with the number
/// of further ones for which there is room.
///
/// The premises of safety are decided as entries come, in about the same time for each.
#[derive(Drop)]
pub struct Journal {
    entries: Vec<Entry>,
    index: Index,
    spare: usize,
    premises: Premises,
    last: LastInputs,
}

impl Model for Journal {
    ghost use Rattle.std.specs.Prelude.{◌+◌, ◌≤◌, reverse, vec_len, vec_capacity};
    ghost use Rattle.run_journal.specs.Kept.{Kept};
    ghost use Rattle.run_journal.specs.Looking.{IsRight};

    ghost Value = { Kept };

    ghost view = { λ j. record { entries = reverse j.entries.items; spare = j.spare } };

    ghost invariant = { λ j. (vec_len j.entries + j.spare ≤ vec_capacity j.entries)
        × IsRight j.entries.items j.index j.spare j.premises };
}

impl Journal {
    /// No entries, and no room. Takes no memory.
    pub fn new(alloc: Global) -> Self
        ensures entries { result.entries ≡ [] }
        ensures spare { result.spare ≡ 0 }
    {
        Journal {
            entries: Vec::new(alloc),
            index: Index::new(alloc),
            spare: 0,
            premises: Premises {
                fresh: true,
                no_collision: true,
                unforged: true,
            },
            last: LastInputs::none(),
        }
    }

    /// One more entry. Without room for it, memory is taken.
    pub fn push(&mut self, entry: Entry) -> Result<(), NoMemory>
        ensures entries { OnOk result (self.new.entries ≡ entry ∷ self.old.entries) }
        ensures spare { OnOk result (self.new.spare ≡ self.old.spare - 1) }
        ensures err { OnErr result (self.new ≡ self.old) }
        ensures room { 0 < self.old.spare → IsOk result }
    {
        let room = self.reserve(1);
        match room {
            Ok(()) => self.add(entry),
            Err(_) => drop(entry),
        }
        room
    }

    /// Makes room for at least so many more entries.
    pub fn reserve(&mut self, more: usize) -> Result<(), NoMemory>
        ensures entries { OnOk result (self.new.entries ≡ self.old.entries) }
        ensures spare { OnOk result (self.new.spare ≡ max self.old.spare more) }
        ensures err { OnErr result (self.new ≡ self.old) }
        ensures room { more ≤ self.old.spare → IsOk result }
    {
        if more <= self.spare {
            return Ok(());
        }
        self.entries.reserve(more)?;
        let alloc = *self.entries.allocator();
        self.index.make_room(alloc, &self.entries, more)?;
        self.spare = more;
        Ok(())
    }

    /// One more entry, where there is room. No memory is wanted.
    pub fn add(&mut self, entry: Entry)
        requires { 0 < self.old.spare }
        ensures entries { self.new.entries ≡ entry ∷ self.old.entries }
        ensures spare { self.new.spare + 1 ≡ self.old.spare }
    {
        let alloc = *self.entries.allocator();
        let entry = shared(alloc, &mut self.last, entry);
        self.premises = judge(self.premises, &self.entries, &self.index, &entry);
        self.index.add(&entry);
        self.entries.push_reserved(entry);
        self.spare -= 1;
    }

    /// How many entries there are.
    pub fn len(&self) -> usize
        ensures { result ≡ length self.now.entries }
    {
        self.entries.len()
    }

    /// The entry at a place, counted from 0 in the order of pushing.
    pub fn at(&self, place: usize) -> &Entry
        requires { place < length self.now.entries }
        ensures { slice_get (reverse self.now.entries) place ≡ Some result.now }
    {
        &self.entries[place]
    }

    /// The entries in the order of pushing.
    pub fn entries(&self) -> &[Entry]
        ensures { result.now ≡ reverse self.now.entries }
    {
        self.entries.as_slice()
    }

    /// Which premises of safety hold of the entries. Takes no memory.
    pub fn premises(&self) -> Premises
        ensures { Decides self.now.entries result }
    {
        self.premises
    }
}
