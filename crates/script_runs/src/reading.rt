//! A script read from a source to its end.

ghost use Rattle.std.specs.Prelude.{◌≡◌, ◌≢◌, ◌≤◌, [], ℕ, List, Bool, length, true};
ghost use Rattle.std.specs.Io.KnownBytes.{Consumes, IsAtEnd};
ghost use Rattle.domain_base.specs.Causes.{Rose};
ghost use Rattle.script_lines.specs.Script.{Draft};
ghost use Rattle.script_runs.specs.Feeders.{Reached};
ghost use Rattle.script_runs.specs.Lives.{Meets};
ghost use Rattle.script_runs.specs.Outer.{IsBlamed, OnDraws, OnLinks, outer};
ghost use Rattle.script_runs.specs.Script.{Rounds, point_of};
ghost use Rattle.script_runs.specs.States.{IsReady};
ghost use Rattle.script_runs.specs.Sessions.{output};
ghost use Rattle.script_runs.specs.Stops.{Closes, found_blame};
ghost use Rattle.script_runs.specs.Story.{Tells};
ghost use Rattle.script_runs.specs.Transcripts.{IsCopy};
ghost use Rattle.script_runs.specs.Written.{GoesOn, HasWritten, found_short, written_of};

use crate::feeder::LineFeeder;
use crate::host::Host;
use crate::stops::{Found, Stop};
use crate::transcript::Transcript;
use domain_base::{Air, Draws, Failed, Sink, Source, SteadyAir, SteadyDraws};
use domain_links::give_back;
use domain_world::Gate;
use frame_script::Mode;
use run_journal::Journal;
use std::thread::Threads;

/// How a run of a script ended.
#[derive(Clone, Copy)]
pub struct Ending {
    /// How the reading ended.
    pub found: Found,
    /// Whether the lines of the whole journal were written.
    pub written: Result<(), Failed>,
}

// Reads a script from before its first octet to its end, and does what its lines ask for.
fn read_through<R: Threads + Sync, S: Source, K: Sink, A: Air, D: Draws, G: Gate + Sync>(
    host: &Host<'_, R, G>,
    source: &mut S,
    copy: &mut Transcript,
    feeder: &mut LineFeeder,
    sink: &mut K,
    air: &mut A,
    draws: &mut D,
    links: &mut Vec<A::L>,
    journal: &mut Journal,
) -> Found
    requires ready { IsReady feeder.old.state (length links.old.items) feeder.old.cutter.lines
        journal.old.entries }
    requires reached { Reached A.L.told (outer [] (A.told air.old) (D.last draws.old))
        (outer links.old.items (A.told air.old) (D.last draws.old))
        feeder.old [] journal.old.entries }
    requires written { written_of feeder.old.state.session ≤ length journal.old.entries }
    ensures told { (octets : List ℕ) × (ended : Bool)
        × Consumes (S.left source.old) (S.left source.new) octets
        × (ended ≡ true → IsAtEnd (S.left source.new))
        × Closes A.L.told (outer [] (A.told air.old) (D.last draws.old))
        (outer links.new.items (A.told air.new) (D.last draws.new))
        feeder.old.state.reader.mode result octets ended journal.new.entries
        × IsCopy copy.old copy.new octets }
    ensures fault { result ≡ Found.ReadFault → Rose (S.faults source.old) (S.faults source.new) }
    ensures fault_told { S.faults source.new ≢ S.faults source.old → result ≡ Found.ReadFault }
    ensures blamed { IsBlamed A.L.faults (found_blame result) links.old.items links.new.items
        (A.faults air.old) (A.faults air.new) (D.faults draws.old) (D.faults draws.new) }
    ensures wrote { GoesOn (found_short result) (output (K.out sink.old) (K.faults sink.old))
        (output (K.out sink.new) (K.faults sink.new)) (written_of feeder.old.state.session)
        (written_of feeder.new.state.session) journal.old.entries journal.new.entries }
{
    let mut piece = [0; 512];
    // How many octets came. The limits of a script bound it, so the loop ends.
    let mut total = 0usize;
    'reads: loop {
        // A call that failed is not made again.
        let Ok(count) = source.read(&mut piece) else {
            return Found::ReadFault;
        };
        if count == 0 {
            return feeder.finish(host, sink, air, draws, links, journal);
        }
        total += count;
        let octets = &piece[..count];
        copy.add(octets);
        if let Err(stop) = feeder.feed(host, octets, sink, air, draws, links, journal) {
            return Found::Stopped(stop);
        }
    }
}

// Reads a script of a run of that kind to its end, does what its lines ask for, and writes the
// lines of its journal.
fn read_script<R: Threads + Sync, S: Source, K: Sink, A: Air, D: Draws, G: Gate + Sync>(
    host: &Host<'_, R, G>,
    mode: Mode,
    source: &mut S,
    sink: &mut K,
    copy: &mut Transcript,
    air: &mut A,
    draws: &mut D,
    links: &mut Vec<A::L>,
    journal: &mut Journal,
) -> Ending
    requires links { links.old.items ≡ [] }
    requires journal { journal.old.entries ≡ [] }
    ensures told { (octets : List ℕ) × (ended : Bool)
        × Consumes (S.left source.old) (S.left source.new) octets
        × (ended ≡ true → IsAtEnd (S.left source.new))
        × Closes A.L.told (outer [] (A.told air.old) (D.last draws.old))
        (outer links.new.items (A.told air.new) (D.last draws.new))
        mode result.found octets ended journal.new.entries
        × IsCopy copy.old copy.new octets }
    ensures written { HasWritten result.found result.written
        (output (K.out sink.old) (K.faults sink.old)) (output (K.out sink.new) (K.faults sink.new))
        journal.new.entries }
    ensures fault { result.found ≡ Found.ReadFault
        → Rose (S.faults source.old) (S.faults source.new) }
    ensures fault_told { S.faults source.new ≢ S.faults source.old
        → result.found ≡ Found.ReadFault }
    ensures blamed { IsBlamed A.L.faults (found_blame result.found) links.old.items
        links.new.items (A.faults air.old) (A.faults air.new) (D.faults draws.old)
        (D.faults draws.new) }
{
    let Ok(mut feeder) = LineFeeder::new(host.alloc, mode) else {
        return Ending {
            found: Found::Stopped(Stop::NoMemory),
            written: Ok(()),
        };
    };
    let found = read_through(
        host,
        source,
        copy,
        &mut feeder,
        sink,
        air,
        draws,
        links,
        journal,
    );
    let written = feeder.state.finish(found, sink, journal);
    Ending { found, written }
}

/// Reads a script to its end, runs its events, and writes the lines of its journal: those of an
/// event or a round after it, and before more is read. It has no use for an air and for draws, and
/// is given ones of its own, that are not asked. The octets that it read go into the copy, where
/// one is asked for and memory does not run out over it.
///
/// Where the lines of a round cannot be written, no more is read. Those of nodes are written with
/// the first round, or at the end.
pub fn replay<R: Threads + Sync, S: Source, K: Sink, G: Gate + Sync>(
    host: &Host<'_, R, G>,
    source: &mut S,
    sink: &mut K,
    copy: &mut Transcript,
    journal: &mut Journal,
) -> Ending
    requires { journal.old.entries ≡ [] }
    ensures told { (octets : List ℕ) × (ended : Bool) × (draft : Draft) × (rounds : Rounds)
        × Consumes (S.left source.old) (S.left source.new) octets
        × (ended ≡ true → IsAtEnd (S.left source.new))
        × Tells result.found octets ended
        (point_of Mode.Replay journal.new.entries draft rounds)
        × IsCopy copy.old copy.new octets }
    ensures written { HasWritten result.found result.written
        (output (K.out sink.old) (K.faults sink.old)) (output (K.out sink.new) (K.faults sink.new))
        journal.new.entries }
    ensures fault { result.found ≡ Found.ReadFault
        → Rose (S.faults source.old) (S.faults source.new) }
    ensures fault_told { S.faults source.new ≢ S.faults source.old
        → result.found ≡ Found.ReadFault }
{
    let Ok(mut air) = SteadyAir::new(host.alloc, Vec::new(host.alloc)) else {
        return Ending {
            found: Found::Stopped(Stop::NoMemory),
            written: Ok(()),
        };
    };
    let mut draws = SteadyDraws::new([0; 32]);
    let mut links = Vec::new(host.alloc);
    read_script(
        host,
        Mode::Replay,
        source,
        sink,
        copy,
        &mut air,
        &mut draws,
        &mut links,
        journal,
    )
}

/// Reads a script to its end, and runs it with frames by the links of that air. The lines of each
/// round are written before its frames are sent, and else as `replay` does. However it ends, all
/// links that were attached are given back, in the order of their nodes.
pub fn live<R: Threads + Sync, S: Source, K: Sink, A: Air, D: Draws, G: Gate + Sync>(
    host: &Host<'_, R, G>,
    source: &mut S,
    sink: &mut K,
    air: &mut A,
    draws: &mut D,
    journal: &mut Journal,
) -> Ending
    requires { journal.old.entries ≡ [] }
    ensures told { (octets : List ℕ) × (ended : Bool) × (draft : Draft) × (rounds : Rounds)
        × Consumes (S.left source.old) (S.left source.new) octets
        × (ended ≡ true → IsAtEnd (S.left source.new))
        × Tells result.found octets ended
        (point_of Mode.Live journal.new.entries draft rounds)
        × Meets result.found draft rounds (A.told air.old) (A.told air.new)
        (D.last draws.old) (D.last draws.new) journal.new.entries }
    ensures written { HasWritten result.found result.written
        (output (K.out sink.old) (K.faults sink.old)) (output (K.out sink.new) (K.faults sink.new))
        journal.new.entries }
    ensures fault { result.found ≡ Found.ReadFault
        → Rose (S.faults source.old) (S.faults source.new) }
    ensures fault_told { S.faults source.new ≢ S.faults source.old
        → result.found ≡ Found.ReadFault }
    ensures link_fault { found_blame result.found ≡ OnLinks
        → Rose (A.faults air.old) (A.faults air.new) }
    ensures link_told { A.faults air.new ≢ A.faults air.old
        → found_blame result.found ≡ OnLinks }
    ensures draw_fault { found_blame result.found ≡ OnDraws
        → Rose (D.faults draws.old) (D.faults draws.new) }
    ensures draw_told { D.faults draws.new ≢ D.faults draws.old
        → found_blame result.found ≡ OnDraws }
{
    let mut links = Vec::new(host.alloc);
    let mut copy = Transcript::Unkept;
    let ending = read_script(
        host,
        Mode::Live,
        source,
        sink,
        &mut copy,
        air,
        draws,
        &mut links,
        journal,
    );
    give_back(air, links);
    ending
}
