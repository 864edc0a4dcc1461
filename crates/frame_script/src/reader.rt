//! The reader, and what it answers.

ghost use Rattle.std.specs.Prelude.{◌≡◌, ◌<◌, ◌^◌, [], None, Some, MatchResult, OnErr, OnOk};
ghost use Rattle.std.specs.Prelude.{option_map};

use crate::forms::form_in;
use crate::lines::{is_within, rounds_with};
use crate::live::take_by;
use crate::mistakes::{Mistake, mistake_in};
use crate::seen::see_by;
use mac_prf::KdfKey;
use run_journal::{Domain, Journal};
use script_lines::{Due, HeaderLine, LineFault, Refusal, Step, Untaken};
use script_words::Form;
use std::alloc::Global;
use std::marker::Model;
use std::mem::replace;

/// The kind of a run.
#[derive(Clone, Copy)]
pub enum Mode {
    /// Frames that were sent come by lines.
    Replay,
    /// Nodes take the frames of their links. The seed may be drawn.
    Live,
}

/// Reads a script line by line.
#[derive(Drop)]
pub struct ScriptReader {
    mode: Mode,
    due: Due,
    rounds: u64,
    seen: usize,
    sizes: Vec<usize>,
}

impl Model for ScriptReader {
    ghost use Rattle.frame_script.specs.Headers.{Reading};
    ghost use Rattle.script_lines.specs.Due.{draft_of};
    ghost use Rattle.script_lines.specs.Sentences.{IsKept};

    ghost Value = { Reading };

    ghost view = { λ r. record {
      mode = r.mode;
      draft = draft_of r.due;
      rounds = r.rounds;
      seen = r.seen;
      sizes = r.sizes.items;
    } };

    ghost invariant = { λ r. IsKept r.due };
}

impl ScriptReader {
    ghost use Rattle.std.specs.Prelude.{length, ℕ, List};
    ghost use Rattle.frame_script.specs.Script.{end_fault};
    ghost use Rattle.script_lines.specs.Script.{AtVersion, IsSeedDue, seeded};
    ghost use Rattle.script_lines.specs.Refusals.{answer_of, fault_of};
    ghost use Rattle.frame_script.specs.Forms.{form_in};
    ghost use Rattle.frame_script.specs.Mistakes.{mistake_in};
    ghost use Rattle.frame_script.specs.Headers.{HasSeen, HasSeenBy, IsDomain, OnRead, ReadsIn};
    ghost use Rattle.frame_script.specs.Headers.{TakesIn, sizes_named};

    /// Before the first line of a script of a run of that kind.
    pub fn start(alloc: Global, mode: Mode) -> Self
        ensures { result
            ≡ record { mode = mode; draft = AtVersion; rounds = 0; seen = 0; sizes = [] } }
    {
        ScriptReader {
            mode,
            due: Due::Version,
            rounds: 0,
            seen: 0,
            sizes: Vec::new(alloc),
        }
    }

    /// The kind of the run.
    pub fn mode(&self) -> Mode
        ensures { result ≡ self.now.mode }
    {
        self.mode
    }

    /// Takes the next line, without its end. The journal has grown at its end alone since the line
    /// before. In a round the frames that the journal has sent since it began are not seen.
    #[tactic(auto, using(crate::proofs::Living::reads, crate::proofs::Taking::seen_on))]
    pub fn take(&mut self, alloc: Global, line: &[u8], journal: &Journal) -> Result<Step, Untaken>
        requires seen { HasSeen self.old journal.now.entries }
        requires few { self.old.rounds < 2 ^ 63 }
        ensures takes { ReadsIn self.old.mode self.old self.new
            (sizes_named self.old journal.now.entries) line.now result }
        ensures mode { self.new.mode ≡ self.old.mode }
        ensures seen { OnOk result (HasSeenBy self.old.draft self.new journal.now.entries) }
        ensures sizes { OnRead result
            (self.new.sizes ≡ sizes_named self.old journal.now.entries) }
        ensures kept { OnErr result (HasSeen self.new journal.now.entries) }
    {
        if see_by(&self.due, &mut self.seen, &mut self.sizes, journal).is_err() {
            return Err(Untaken::NoMemory);
        }
        let within = is_within(&self.due);
        let answer = take_by(
            self.mode,
            &mut self.due,
            alloc,
            self.rounds,
            &self.sizes,
            line,
        );
        self.rounds = rounds_with(within, self.rounds, &answer);
        answer
    }

    /// Takes the next line as `take` does, and tells by number why it is not taken.
    #[tactic(auto, using(crate::proofs::Numbering::numbering))]
    pub fn line(&mut self, alloc: Global, line: &[u8], journal: &Journal) -> Result<Step, LineFault>
        requires seen { HasSeen self.old journal.now.entries }
        requires few { self.old.rounds < 2 ^ 63 }
        ensures takes { TakesIn self.old.mode self.old self.new
            (sizes_named self.old journal.now.entries) line.now result }
        ensures mode { self.new.mode ≡ self.old.mode }
        ensures seen { OnOk result (HasSeenBy self.old.draft self.new journal.now.entries) }
        ensures kept { OnErr result (HasSeen self.new journal.now.entries) }
    {
        match self.take(alloc, line, journal) {
            Ok(step) => Ok(step),
            Err(untaken) => Err(untaken.into()),
        }
    }

    /// Tells the seed, 32 octets, that a line asked to be drawn.
    pub fn drawn(&mut self, seed: [u8; 32])
        requires live { self.old.mode ≡ Mode.Live }
        requires due { IsSeedDue self.old.draft }
        ensures { self.new ≡ record {
          mode = self.old.mode;
          draft = seeded self.old.draft seed;
          rounds = self.old.rounds;
          seen = self.old.seen;
          sizes = self.old.sizes;
        } }
    {
        if let Due::Header { header, .. } = replace(&mut self.due, Due::Version) {
            let mut header = header;
            header.network.seed = KdfKey::new(&seed);
            let line = HeaderLine::Ssid;
            self.due = Due::Header { line, header };
        }
    }

    /// Ends the script: it may end behind any line outside a round, and has one line at least.
    pub fn close(&self) -> Result<(), Refusal>
        ensures { MatchResult result (λ _. end_fault self.now.draft ≡ None)
            (λ refusal. end_fault self.now.draft ≡ Some (fault_of refusal)) }
    {
        match &self.due {
            Due::Version => Err(Refusal::Version),
            Due::Round { .. } => Err(Refusal::Unclosed),
            _ => Ok(()),
        }
    }

    /// Ends the script as `close` does, and tells by number why it may not end: 1 no line came, 7 a
    /// round is open.
    pub fn finish(&self) -> Result<(), LineFault>
        ensures { MatchResult result (λ _. end_fault self.now.draft ≡ None)
            (λ fault. option_map answer_of (end_fault self.now.draft) ≡ Some fault) }
    {
        match self.close() {
            Ok(()) => Ok(()),
            Err(refusal) => Err(refusal.into()),
        }
    }

    /// The form that this line should have had, where it was not taken.
    pub fn form(&self, line: &[u8]) -> Form
        ensures { result ≡ form_in self.now.mode self.now.draft self.now.rounds line.now }
    {
        form_in(self.mode, &self.due, self.rounds, line)
    }

    /// What of this line was wrong, where it was refused so: the form that it should have had, the
    /// word that is wrong, and what is wrong with it.
    pub fn mistake(&self, refusal: Refusal, line: &[u8]) -> Mistake
        ensures { result ≡ mistake_in self.now.mode self.now.draft self.now.rounds self.now.sizes
            (fault_of refusal) line.now }
    {
        mistake_in(
            self.mode,
            &self.due,
            self.rounds,
            &self.sizes,
            refusal,
            line,
        )
    }

    /// The network with the nodes listed so far, once the header is whole.
    pub fn domain(&self) -> Option<&Domain>
        ensures { IsDomain self.now.draft (option_map (λ d. d.now) result) }
    {
        match &self.due {
            Due::Nodes { header } => Some(&header.network),
            Due::Round { header, .. } => Some(&header.network),
            _ => None,
        }
    }
}
