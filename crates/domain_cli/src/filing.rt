//! A run whose journal goes into a file.

ghost use Rattle.std.specs.Prelude.{◌≡◌, ◌≢◌, ◌⊎◌, [], ℕ, List, All, false, reverse};
ghost use Rattle.domain_base.specs.Causes.{Rose};
ghost use Rattle.journal_file.specs.File.{IsLined};
ghost use Rattle.script_lines.specs.Script.{Draft};
ghost use Rattle.script_runs.specs.Transcripts.{Holds};
ghost use Rattle.script_runs.specs.Written.{found_short};
ghost use Rattle.domain_cli.specs.Journals.{Filed, IsFiled, ReadsBack};
ghost use Rattle.domain_cli.specs.Promises.{Keeps, Outside, over};

use crate::ending::status;
use crate::laws::runs_are_safe;
use crate::status::Status;
use crate::unheard::Unheard;
use command_words::Command;
use domain_base::{Sink, Source};
use domain_world::Gate;
use journal_file::{FileFault, write_file};
use run_journal::Journal;
use script_runs::{Found, Host, Transcript, replay};
use std::alloc::Global;
use std::thread::Threads;
use whole_entries::{entries_are_completed, entries_have_lines};

// Writes the file of a whole run, and tells how it ended. There is none where memory ran out over
// the copy of the script.
fn file<K: Sink>(alloc: Global, sink: &mut K, copy: &Transcript, journal: &Journal) -> Status
    requires { All IsLined (reverse journal.now.entries) }
    ensures files { (octets : List ℕ) → Holds copy.now octets ⊎ (copy.now ≡ Transcript.Short)
        → IsFiled result octets journal.now.entries (K.out sink.old) (K.out sink.new) }
    ensures write_fault { result ≡ Status.WriteFault
        → Rose (K.faults sink.old) (K.faults sink.new) }
    ensures write_told { K.faults sink.new ≢ K.faults sink.old → result ≡ Status.WriteFault }
    ensures asked { result ≢ Status.Usage }
    ensures read { result ≢ Status.ReadFault }
{
    let Transcript::Kept(script) = copy else {
        return Status::NoMemory;
    };
    match write_file(alloc, script.as_slice(), journal.entries(), sink) {
        Ok(()) => Status::Done,
        Err(FileFault::NoMemory) => Status::NoMemory,
        Err(FileFault::WriteFault) => Status::WriteFault,
    }
}

// Writes the file of the run where the whole script was run, and tells how it ended.
fn filed<K: Sink>(
    alloc: Global,
    sink: &mut K,
    copy: &Transcript,
    journal: &Journal,
    found: Found,
) -> Status
    requires heard { found_short found ≡ false }
    requires lines { found ≡ Found.Whole → All IsLined (reverse journal.now.entries) }
    ensures files { (draft : Draft) (octets : List ℕ)
        → (found ≡ Found.Whole → ReadsBack draft journal.now.entries)
        → Holds copy.now octets ⊎ (copy.now ≡ Transcript.Short)
        → Filed draft found result octets journal.now.entries (K.out sink.old) (K.out sink.new) }
    ensures write_fault { result ≡ Status.WriteFault
        → Rose (K.faults sink.old) (K.faults sink.new) }
    ensures write_told { K.faults sink.new ≢ K.faults sink.old → result ≡ Status.WriteFault }
    ensures read_fault { result ≡ Status.ReadFault → found ≡ Found.ReadFault }
    ensures read_told { found ≡ Found.ReadFault → result ≡ Status.ReadFault }
    ensures asked { result ≢ Status.Usage }
{
    match found {
        Found::Whole => file(alloc, sink, copy, journal),
        Found::Stopped(_) | Found::Unended(..) | Found::ReadFault => status(found),
    }
}

/// Runs the script on the source, and writes the file of its journal.
pub fn journaled<R: Threads + Sync, S: Source, K: Sink, G: Gate + Sync>(
    host: &Host<'_, R, G>,
    source: &mut S,
    sink: &mut K,
    journal: &mut Journal,
) -> Status
    requires { journal.old.entries ≡ [] }
    ensures { (rest : Outside) → Keeps Command.Journal
        (over rest (S.left source.old) (S.faults source.old) (K.out sink.old) (K.faults sink.old))
        (over rest (S.left source.new) (S.faults source.new) (K.out sink.new) (K.faults sink.new))
        result journal.new.entries }
{
    runs_are_safe();
    entries_are_completed();
    entries_have_lines();
    let mut unheard = Unheard;
    let mut copy = Transcript::Kept(Vec::new(host.alloc));
    let ending = replay(host, source, &mut unheard, &mut copy, journal);
    filed(host.alloc, sink, &copy, journal, ending.found)
}
