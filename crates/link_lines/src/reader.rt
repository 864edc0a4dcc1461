//! The lines of a script, one after the other.

ghost use Rattle.std.specs.Prelude.{◌≡◌, ◌≤◌, ◌+◌, IfOk, true};
ghost use Rattle.link_lines.specs.Drafts.{Goes, IsWholeHeader, is_whole, no_lines, rows_after};
ghost use Rattle.link_lines.specs.Drafts.{seeded};
ghost use Rattle.link_lines.specs.Lines.{Heard, due_line, event_says, first_line, holder_says};
ghost use Rattle.link_lines.specs.Lines.{key_says, line_says, mdid_says, psk_says, seed_says};
ghost use Rattle.link_lines.specs.Lines.{ssid_says};
ghost use Rattle.link_lines.specs.declared.draft.LinkDue.TheVariants as due;

use crate::draft::{LinkDue, LinkHeader};
use crate::lines::{digits_line, event_line, holder_line, is_passed_over, mdid_line, ssid_line};
use crate::refusal::LinkRefusal;
use crate::said::LinkSaid;
use domain_base::{ShortOctets, array_at};
use link_steps::LinkEnd;
use script_words::first_word;
use std::marker::Model;

/// What the script of one end of a link has said so far. Contracts see at which end it is, which
/// line is due, what the header said, and how many rows were asked for.
#[derive(Drop)]
pub struct LinkReader {
    end: LinkEnd,
    due: LinkDue,
    header: LinkHeader,
    rows: u64,
}

impl Model for LinkReader {
    ghost use Rattle.std.specs.Prelude.{◌≤◌};
    ghost use Rattle.link_lines.specs.Drafts.{IsFit, LinkDraft};

    ghost Value = { LinkDraft };

    ghost view = { λ r. record { end = r.end; due = r.due; header = r.header; rows = r.rows } };

    ghost invariant = { λ r. IsFit r.due r.header × (r.rows ≤ 64) };
}

// How many rows were asked for, with one more event.
fn rows_after(rows: u64, said: LinkSaid) -> u64
    requires { rows ≤ 64 }
    ensures value { result ≡ rows_after rows said }
    ensures few { result ≤ rows + 1 }
{
    match said {
        LinkSaid::Row(_) => rows + 1,
        _ => rows,
    }
}

impl LinkReader {
    /// Before the first line.
    pub fn start(end: LinkEnd) -> LinkReader
        ensures { result ≡ no_lines end }
    {
        LinkReader {
            end,
            due: LinkDue::Version,
            header: LinkHeader::new(),
            rows: 0,
        }
    }

    /// At which end it is.
    pub fn end(&self) -> LinkEnd
        ensures { result ≡ self.now.end }
    {
        self.end
    }

    /// Which line is due.
    pub fn due(&self) -> LinkDue
        ensures { result ≡ self.now.due }
    {
        self.due
    }

    /// What the header said.
    pub fn header(&self) -> &LinkHeader
        ensures header { result.now ≡ self.now.header }
        ensures whole { is_whole self.now.due ≡ true → IsWholeHeader self.now.header }
    {
        &self.header
    }

    /// The seed that was drawn. It was due.
    pub fn drawn(&mut self, seed: [u8; 32])
        requires { self.old.due ≡ due.Seed }
        ensures { self.new ≡ seeded self.old seed }
    {
        self.header.seed = seed;
        self.due = LinkDue::Ssid;
    }

    // The first line.
    fn take_first(&mut self, line: &[u8]) -> Result<LinkSaid, LinkRefusal>
        requires { self.old.due ≡ due.Version }
        ensures heard { Heard self.old self.new (first_line self.old line.now) result }
        ensures goes { IfOk result (λ said. Goes said self.old self.new) }
    {
        if line != b"link 1".as_slice() {
            return Err(LinkRefusal::Version);
        }
        self.due = LinkDue::Key;
        Ok(LinkSaid::Nothing)
    }

    // The link key.
    fn take_key(&mut self, word: &[u8], text: &[u8]) -> Result<LinkSaid, LinkRefusal>
        requires { self.old.due ≡ due.Key }
        ensures heard { Heard self.old self.new (key_says self.old word.now text.now) result }
        ensures goes { IfOk result (λ said. Goes said self.old self.new) }
    {
        match digits_line(b"key".as_slice(), word, text) {
            Ok(key) => {
                self.header.kck = array_at(&key, 0);
                self.header.kek = array_at(&key, 16);
                self.due = LinkDue::Seed;
                Ok(LinkSaid::Nothing)
            }
            Err(refusal) => Err(refusal),
        }
    }

    // The seed, or that it is drawn.
    fn take_seed(&mut self, line: &[u8], word: &[u8], text: &[u8]) -> Result<LinkSaid, LinkRefusal>
        requires { self.old.due ≡ due.Seed }
        ensures heard { Heard self.old self.new
            (seed_says self.old line.now word.now text.now) result }
        ensures goes { IfOk result (λ said. Goes said self.old self.new) }
    {
        if line == b"seed draw".as_slice() {
            return Ok(LinkSaid::Draw);
        }
        match digits_line(b"seed".as_slice(), word, text) {
            Ok(seed) => {
                self.drawn(seed);
                Ok(LinkSaid::Nothing)
            }
            Err(refusal) => Err(refusal),
        }
    }

    // The SSID.
    fn take_ssid(&mut self, word: &[u8], text: &[u8]) -> Result<LinkSaid, LinkRefusal>
        requires { self.old.due ≡ due.Ssid }
        ensures heard { Heard self.old self.new (ssid_says self.old word.now text.now) result }
        ensures goes { IfOk result (λ said. Goes said self.old self.new) }
    {
        match ssid_line(word, text) {
            Ok(ssid) => {
                self.header.ssid = ShortOctets::of(ssid);
                self.due = LinkDue::Psk;
                Ok(LinkSaid::Nothing)
            }
            Err(refusal) => Err(refusal),
        }
    }

    // The pre-shared key.
    fn take_psk(&mut self, word: &[u8], text: &[u8]) -> Result<LinkSaid, LinkRefusal>
        requires { self.old.due ≡ due.Psk }
        ensures heard { Heard self.old self.new (psk_says self.old word.now text.now) result }
        ensures goes { IfOk result (λ said. Goes said self.old self.new) }
    {
        match digits_line(b"psk".as_slice(), word, text) {
            Ok(psk) => {
                self.header.psk = psk;
                self.due = LinkDue::Mdid;
                Ok(LinkSaid::Nothing)
            }
            Err(refusal) => Err(refusal),
        }
    }

    // The mobility domain.
    fn take_mdid(&mut self, word: &[u8], text: &[u8]) -> Result<LinkSaid, LinkRefusal>
        requires { self.old.due ≡ due.Mdid }
        ensures heard { Heard self.old self.new (mdid_says self.old word.now text.now) result }
        ensures goes { IfOk result (λ said. Goes said self.old self.new) }
    {
        match mdid_line(word, text) {
            Ok(mdid) => {
                self.header.mdid = mdid;
                self.due = LinkDue::Holder;
                Ok(LinkSaid::Nothing)
            }
            Err(refusal) => Err(refusal),
        }
    }

    // The R0 key holder, with which the header is whole.
    fn take_holder(&mut self, word: &[u8], text: &[u8]) -> Result<LinkSaid, LinkRefusal>
        requires { self.old.due ≡ due.Holder }
        ensures heard { Heard self.old self.new (holder_says self.old word.now text.now) result }
        ensures goes { IfOk result (λ said. Goes said self.old self.new) }
    {
        match holder_line(word, text) {
            Ok(id) => {
                self.header.r0kh_id = ShortOctets::of(id);
                self.due = LinkDue::Events;
                Ok(LinkSaid::Begin)
            }
            Err(refusal) => Err(refusal),
        }
    }

    // A line that asks for an event, or for a turn.
    #[tactic(auto, using(crate::proofs::Going::asked_goes))]
    fn take_event(
        &mut self,
        asked: u64,
        line: &[u8],
        word: &[u8],
        text: &[u8],
    ) -> Result<LinkSaid, LinkRefusal>
        requires { self.old.due ≡ due.Events }
        ensures heard { Heard self.old self.new
            (event_says self.old asked line.now word.now text.now) result }
        ensures goes { IfOk result (λ said. Goes said self.old self.new) }
    {
        match event_line(self.end, self.rows, asked, line, word, text) {
            Ok(said) => {
                self.rows = rows_after(self.rows, said);
                Ok(said)
            }
            Err(refusal) => Err(refusal),
        }
    }

    // The line that is due, by its first word and what stands after it.
    #[tactic(auto, unfolding(crate::specs::Lines::due_line))]
    fn take_due(
        &mut self,
        asked: u64,
        line: &[u8],
        word: &[u8],
        text: &[u8],
    ) -> Result<LinkSaid, LinkRefusal>
        ensures heard { Heard self.old self.new
            (due_line self.old.due self.old asked line.now word.now text.now) result }
        ensures goes { IfOk result (λ said. Goes said self.old self.new) }
    {
        match self.due {
            LinkDue::Version => Err(LinkRefusal::Version),
            LinkDue::Key => self.take_key(word, text),
            LinkDue::Seed => self.take_seed(line, word, text),
            LinkDue::Ssid => self.take_ssid(word, text),
            LinkDue::Psk => self.take_psk(word, text),
            LinkDue::Mdid => self.take_mdid(word, text),
            LinkDue::Holder => self.take_holder(word, text),
            LinkDue::Events => self.take_event(asked, line, word, text),
        }
    }

    /// Takes a line without its end, after so many questions were asked, and answers what it asks
    /// for. Where it is refused nothing was said by it. Takes no memory.
    #[tactic(auto, unfolding(crate::specs::Lines::line_says))]
    pub fn line(&mut self, asked: u64, line: &[u8]) -> Result<LinkSaid, LinkRefusal>
        ensures heard { Heard self.old self.new (line_says self.old asked line.now) result }
        ensures goes { IfOk result (λ said. Goes said self.old self.new) }
    {
        match self.due {
            LinkDue::Version => self.take_first(line),
            _ => {
                if is_passed_over(line) {
                    return Ok(LinkSaid::Nothing);
                }
                let (word, text) = first_word(line);
                self.take_due(asked, line, word, text)
            }
        }
    }
}
