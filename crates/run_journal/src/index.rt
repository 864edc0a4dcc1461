//! Finds earlier entries of a journal by their octets.

ghost use Rattle.std.specs.Prelude.{◌≡◌, ◌<◌, ◌≤◌, ◌+◌, ◌↔◌, ℕ, IsTrue, List, [], ◌∷◌, ◌++◌, Some};
ghost use Rattle.std.specs.Prelude.{IfOk, OnOk, OnErr, IfSome, vec_len};
ghost use Rattle.std.specs.Option.{option_copied};
ghost use Rattle.run_journal.specs.declared.acts.Entry.{Entry};
ghost use Rattle.run_journal.specs.Premises.{IsBefore};
ghost use Rattle.run_journal.specs.Chained.{Chained, count_of};
ghost use Rattle.run_journal.specs.Looking.{Fits, Finds, chain_asked, value_chain, kck_chain};
ghost use Rattle.run_journal.specs.Looking.{chains_of, Indexed, IndexHasRoom};

use crate::acts::{Act, Entry, Seal};
use crate::breadth::Breadth;
use crate::chains::Chains;
use crate::mixing::{chain_of, chain_of_seal};
use crate::reading::{confirmation_key, drawn, octets_of, seal_sent, temporal_key};
use domain_base::NoMemory;
use std::alloc::Global;

/// What an earlier entry may be.
#[derive(Drop)]
pub(crate) enum Question<'a> {
    /// It drew these octets.
    Drawn(&'a [u8]),
    /// It derived this TK, or drew it as a group key.
    TemporalKey(&'a [u8]),
    /// It derived this KCK.
    ConfirmationKey(&'a [u8]),
    /// It sent this seal before the other entry: in a lower round, or at its node.
    SealBefore(&'a Seal, &'a Entry),
}

fn is_there(found: Option<&[u8]>, octets: &[u8]) -> bool
    ensures { IsTrue result ↔ (option_copied found.entry ≡ Some octets.now) }
{
    match found {
        Some(found) => found == octets,
        None => false,
    }
}

fn is_seal(found: Option<&Seal>, seal: &Seal) -> bool
    ensures { IsTrue result ↔ (option_copied found.entry ≡ Some seal.now) }
{
    match found {
        Some(found) => {
            found.key == seal.key && found.octets.as_slice() == seal.octets.as_slice()
        }
        None => false,
    }
}

fn is_before(earlier: &Entry, later: &Entry) -> bool
    ensures { IsTrue result ↔ IsBefore earlier.now later.now }
{
    earlier.round < later.round || earlier.node == later.node
}

impl Question<'_> {
    fn fits(&self, entry: &Entry) -> bool
        ensures { IsTrue result ↔ Fits self.now entry.now }
    {
        match self {
            Question::Drawn(octets) => is_there(drawn(&entry.act), octets),
            Question::TemporalKey(octets) => is_there(temporal_key(&entry.act), octets),
            Question::ConfirmationKey(octets) => is_there(confirmation_key(&entry.act), octets),
            Question::SealBefore(seal, later) => {
                is_seal(seal_sent(&entry.act), seal) && is_before(entry, later)
            }
        }
    }

    fn chain(&self, breadth: Breadth) -> usize
        ensures chain { result ≡ chain_asked breadth self.now }
        ensures within { result < count_of breadth }
    {
        match self {
            Question::Drawn(octets)
            | Question::TemporalKey(octets)
            | Question::ConfirmationKey(octets) => chain_of(breadth, octets),
            Question::SealBefore(seal, _) => chain_of_seal(breadth, seal),
        }
    }
}

fn value_chain(breadth: Breadth, act: &Act) -> Option<usize>
    ensures chain { result ≡ value_chain breadth act.now }
    ensures within { IfSome result (λ c. c < count_of breadth) }
{
    match act {
        Act::Drew { value } => Some(chain_of(breadth, octets_of(value))),
        Act::Derived { ptk, .. } => Some(chain_of(breadth, &ptk.tk)),
        Act::Sent {
            seal: Some(seal),
            ..
        } => Some(chain_of_seal(breadth, seal.seal())),
        _ => None,
    }
}

fn kck_chain(breadth: Breadth, act: &Act) -> Option<usize>
    ensures chain { result ≡ kck_chain breadth act.now }
    ensures within { IfSome result (λ c. c < count_of breadth) }
{
    match act {
        Act::Derived { ptk, .. } => Some(chain_of(breadth, &ptk.kck)),
        _ => None,
    }
}

/// Where to look for earlier entries.
#[derive(Drop)]
pub(crate) struct Index {
    breadth: Breadth,
    values: Chains,
    kcks: Chains,
}

impl Index {
    /// The index of no entries. Takes no memory.
    pub(crate) fn new(alloc: Global) -> Self
        ensures { Indexed [] result }
    {
        Index::bare(alloc, Breadth::Least)
    }

    // That of so many chains.
    fn bare(alloc: Global, breadth: Breadth) -> Self
        ensures { Indexed [] result }
    {
        Index {
            breadth,
            values: Chains::new(alloc),
            kcks: Chains::new(alloc),
        }
    }

    // Makes room for so many more entries.
    fn room(&mut self, more: usize) -> Result<(), NoMemory>
        ensures indexed { (entries : List Entry) → Indexed entries self.old
            → Indexed entries self.new }
        ensures room { OnOk result (IndexHasRoom more self.new) }
        ensures kept { (n : ℕ) → IndexHasRoom n self.old → IndexHasRoom n self.new }
    {
        let chains = self.breadth.count();
        self.values.reserve(chains, more)?;
        self.kcks.reserve(chains, more)
    }

    // The index of these entries with so many chains, and with room for so many more entries.
    fn over(
        alloc: Global,
        breadth: Breadth,
        entries: &[Entry],
        more: usize,
    ) -> Result<Index, NoMemory>
        ensures indexed { IfOk result (λ i. Indexed entries.now i) }
        ensures room { IfOk result (λ i. IndexHasRoom more i) }
    {
        let mut index = Index::bare(alloc, breadth);
        index.room(entries.len())?;
        for entry in entries {
            index.add(entry);
        }
        index.room(more)?;
        Ok(index)
    }

    /// Makes room for so many more entries than these. Where they are many more chains lead through
    /// them from now on; no memory is wanted for that.
    pub(crate) fn make_room(
        &mut self,
        alloc: Global,
        entries: &[Entry],
        more: usize,
    ) -> Result<(), NoMemory>
        requires { Indexed entries.now self.old }
        ensures indexed { Indexed entries.now self.new }
        ensures room { OnOk result (IndexHasRoom more self.new) }
        ensures kept { OnErr result
            ((n : ℕ) → IndexHasRoom n self.old → IndexHasRoom n self.new) }
    {
        self.room(more)?;
        let Some(breadth) = self.breadth.wider(entries.len()) else {
            return Ok(());
        };
        match Index::over(alloc, breadth, entries, more) {
            Ok(index) => {
                *self = index;
                Ok(())
            }
            Err(_) => Ok(()),
        }
    }

    /// One more entry. Takes no memory.
    pub(crate) fn add(&mut self, entry: &Entry)
        requires { IndexHasRoom 1 self.old }
        ensures indexed { (entries : List Entry) → Indexed entries self.old
            → Indexed (entries ++ entry.now ∷ []) self.new }
        ensures room { (n : ℕ) → IndexHasRoom (n + 1) self.old → IndexHasRoom n self.new }
    {
        self.values.add(value_chain(self.breadth, &entry.act));
        self.kcks.add(kck_chain(self.breadth, &entry.act));
    }

    /// The place of an entry that the question fits, where there is one.
    pub(crate) fn find(&self, entries: &[Entry], question: &Question<'_>) -> Option<usize>
        requires indexed { Indexed entries.now self.now }
        requires room { IndexHasRoom 1 self.now }
        ensures { Finds (Fits question.now) entries.now result }
    {
        let breadth = self.breadth;
        match question {
            Question::ConfirmationKey(_) => walk(breadth, entries, &self.kcks, question),
            Question::Drawn(_) | Question::TemporalKey(_) | Question::SealBefore(..) => {
                walk(breadth, entries, &self.values, question)
            }
        }
    }
}

// From the last entry of the question's chain back to the first that the question fits.
fn walk(
    breadth: Breadth,
    entries: &[Entry],
    chains: &Chains,
    question: &Question<'_>,
) -> Option<usize>
    requires made { count_of breadth ≤ vec_len chains.now.lasts }
    requires chained { Chained (chains_of breadth question.now entries.now) chains.now }
    ensures { Finds (Fits question.now) entries.now result }
{
    let mut place = chains.last(question.chain(breadth));
    while let Some(i) = place {
        if question.fits(&entries[i]) {
            return Some(i);
        }
        place = chains.before(i);
    }
    None
}
