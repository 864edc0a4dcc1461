//! A script replayed from memory.

ghost use Rattle.std.specs.Prelude.{IfOk};
ghost use Rattle.uses.specs.Replays.{IsReplayed};

use command_words::words_are_told;
use domain_base::{MemSink, NoMemory, SteadyAir, SteadyDraws, SteadySource};
use domain_cli::{Status, run};
use run_journal::Journal;
use std::alloc::Global;
use std::thread::Threads;

/// What came of a replay.
#[derive(Drop)]
pub struct Replayed {
    /// How it ended.
    pub status: Status,
    /// What it wrote.
    pub sink: MemSink,
    /// All that the nodes did.
    pub journal: Journal,
}

/// Replays a script that is in memory. Its report, for which there is room of so many octets, is
/// written to memory too.
///
/// The journal is that of the rounds which the script spells, what is written is its report, and
/// where what is drawn is fresh, derived keys do not collide and every MIC that verified was made by
/// a holder of its key, the run was safe. It ends with the whole script done, at the first line
/// that is wrong or goes past a limit, where the report has no room, or out of memory.
///
/// # Errors
///
/// Out of memory, and nothing was run.
pub fn run_script<R: Threads + Sync>(
    rt: &R,
    alloc: Global,
    script: Vec<u8>,
    room: usize,
) -> Result<Replayed, NoMemory>
    ensures { IfOk result
        (λ r. IsReplayed script.items r.status r.sink.out r.journal.entries) }
{
    words_are_told();
    let mut source = SteadySource::new(script);
    let mut sink = MemSink::with_room(alloc, room, Vec::new(alloc))?;
    let mut air = SteadyAir::new(alloc, Vec::new(alloc))?;
    let mut draws = SteadyDraws::new([0; 32]);
    let mut journal = Journal::new(alloc);
    let status = run(
        rt,
        alloc,
        &["replay"],
        &mut source,
        &mut sink,
        &mut air,
        &mut draws,
        &mut journal,
    );
    Ok(Replayed {
        status,
        sink,
        journal,
    })
}
