//! The line of an entry, written.

ghost use Rattle.std.specs.Prelude.{◌≡◌, ◌≤◌, ◌+◌, ◌*◌, ◌∷◌, [], ℕ, drop, length, take};
ghost use Rattle.journal_report.specs.Words.{word_room, word_text};
ghost use Rattle.journal_report.specs.Writing.{Writes};
ghost use Rattle.run_journal.specs.Report.{hex};
ghost use Rattle.entry_lines.specs.Groups.{IsHolding, IsKeyed, IsShort, IsTraffic};
ghost use Rattle.entry_lines.specs.Lines.{act_words, after_spaces, akm_text, drawn_words};
ghost use Rattle.entry_lines.specs.Lines.{entry_line, inputs_words, key_words, ptk_octets};
ghost use Rattle.entry_lines.specs.Lines.{r1_text, seal_words};
ghost use Rattle.entry_lines.specs.Room.{act_octets, inputs_octets, key_octets, line_room};
ghost use Rattle.entry_lines.specs.Room.{seal_octets};
ghost use Rattle.entry_lines.specs.Words.{field_room, field_text};

use crate::fitting::{array_fits, inputs_fit, ptk_fits};
use crate::words::{Field, put_fields, put_outcome_word};
use domain_base::{Akm, put};
use journal_report::{
    Word, group_word, kind_word, message_word, part_word, pull_word, put_decimal, put_hex,
    put_word, revoke_word, start_word, why_word,
};
use key_hierarchy::{Inputs, Ptk, PullAnswer};
use run_journal::{Act, BoxedSeal, Drawn, Entry, Key};

// Room that is enough for inputs beside their octets of no fixed number.
const INPUTS_ROOM: usize = 250;

// Room that is enough for a key beside the octets of no fixed number in its inputs.
const KEY_ROOM: usize = 300;

// Room that is enough for what is sealed, beside its octets.
const SEAL_ROOM: usize = 40;

// Room that is enough for an act beside its octets of no fixed number.
const ACT_ROOM: usize = 400;

// The suite.
fn akm_word(akm: Akm) -> Word
    ensures text { word_text result ≡ akm_text akm }
    ensures short { word_room result ≤ 10 }
{
    match akm {
        Akm::Psk => Word::Text(b"psk"),
        Akm::PskSha256 => Word::Text(b"psk-sha256"),
        Akm::FtPsk => Word::Text(b"ft-psk"),
    }
}

// What a pairwise key is derived from.
fn put_inputs(out: &mut [u8], at: usize, inputs: &Inputs) -> usize
    requires { at + INPUTS_ROOM + 2 * inputs_octets inputs.now ≤ length out.old }
    ensures written { Writes (after_spaces (inputs_words inputs.now)) at out.old result out.new }
    ensures short { result ≤ at + INPUTS_ROOM + 2 * inputs_octets inputs.now }
{
    inputs_fit(inputs);
    let fields = [
        Field::Plain(akm_word(inputs.akm)),
        Field::Digits(&inputs.psk),
        Field::Octets(inputs.ssid.as_slice()),
        Field::Digits(&inputs.mdid),
        Field::Octets(inputs.r0kh_id.as_slice()),
        Field::Digits(&inputs.aa.0),
        Field::Digits(&inputs.spa.0),
        Field::Digits(&inputs.anonce),
        Field::Digits(&inputs.snonce),
    ];
    put_fields(out, at, &fields)
}

// A pairwise transient key.
fn put_ptk(out: &mut [u8], at: usize, ptk: &Ptk) -> usize
    requires { at + 97 ≤ length out.old }
    ensures written { Writes (after_spaces (hex (ptk_octets ptk.now) ∷ [])) at out.old result
        out.new }
    ensures short { result ≤ at + 97 }
{
    ptk_fits(ptk);
    let at = put(out, at, b" ");
    let at = put_hex(out, at, &ptk.kck);
    let at = put_hex(out, at, &ptk.kek);
    put_hex(out, at, &ptk.tk)
}

// What is sealed, and the key.
fn put_seal(out: &mut [u8], at: usize, seal: &Option<BoxedSeal>) -> usize
    requires { at + SEAL_ROOM + 2 * seal_octets seal.now ≤ length out.old }
    ensures written { Writes (after_spaces (seal_words seal.now)) at out.old result out.new }
    ensures short { result ≤ at + SEAL_ROOM + 2 * seal_octets seal.now }
{
    match seal {
        Some(seal) => {
            let seal = seal.seal();
            array_fits(&seal.key);
            let octets = Field::Octets(seal.octets.as_slice());
            let fields = [octets, Field::Digits(&seal.key)];
            put_fields(out, at, &fields)
        }
        None => {
            let none = Field::Plain(Word::Text(b"-"));
            let fields = [none, none];
            put_fields(out, at, &fields)
        }
    }
}

// A key, its key id, and its inputs or its BSSID.
fn put_key(out: &mut [u8], at: usize, key: &Key) -> usize
    requires { at + KEY_ROOM + 2 * key_octets key.now ≤ length out.old }
    ensures written { Writes (after_spaces (key_words key.now)) at out.old result out.new }
    ensures short { result ≤ at + KEY_ROOM + 2 * key_octets key.now }
{
    match key {
        Key::Pairwise { tk, inputs } => {
            array_fits(tk);
            let kind = Field::Plain(Word::Text(b"ptk"));
            let id = Field::Plain(Word::Text(b"0"));
            let fields = [kind, Field::Digits(tk), id];
            let at = put_fields(out, at, &fields);
            put_inputs(out, at, inputs.inputs())
        }
        Key::Group {
            kind,
            key: octets,
            id,
            bssid,
        } => {
            array_fits(octets);
            array_fits(&bssid.0);
            let kind = Field::Plain(group_word(*kind));
            let id = Field::Plain(Word::Number(u64::from(*id)));
            let bssid = Field::Digits(&bssid.0);
            let fields = [kind, Field::Digits(octets), id, bssid];
            put_fields(out, at, &fields)
        }
    }
}

// A value drawn.
fn put_drawn(out: &mut [u8], at: usize, value: &Drawn) -> usize
    requires { at + 100 ≤ length out.old }
    ensures written { Writes (after_spaces (drawn_words value.now)) at out.old result out.new }
    ensures short { result ≤ at + 100 }
{
    match value {
        Drawn::Nonce(octets) => {
            array_fits(octets);
            let kind = Field::Plain(Word::Text(b"nonce"));
            let fields = [Field::Digits(octets), kind];
            put_fields(out, at, &fields)
        }
        Drawn::Group(kind, octets) => {
            array_fits(octets);
            let kind = Field::Plain(group_word(*kind));
            let fields = [Field::Digits(octets), kind];
            put_fields(out, at, &fields)
        }
    }
}

// An act of few words.
fn put_short(out: &mut [u8], at: usize, act: &Act) -> usize
    requires short { IsShort act.now }
    requires room { at + ACT_ROOM ≤ length out.old }
    ensures written { (number : ℕ) → Writes (after_spaces (act_words number act.now)) at out.old
        result out.new }
    ensures short { result ≤ at + ACT_ROOM }
{
    match act {
        Act::Opened { peer, start } => {
            let kind = Field::Plain(Word::Text(b"opened"));
            let peer = Field::Plain(Word::Node(*peer));
            let fields = [kind, peer, Field::Plain(start_word(*start))];
            put_fields(out, at, &fields)
        }
        Act::Closed { peer, part } => {
            let kind = Field::Plain(Word::Text(b"closed"));
            let peer = Field::Plain(Word::Node(*peer));
            let fields = [kind, peer, Field::Plain(part_word(*part))];
            put_fields(out, at, &fields)
        }
        Act::Drew { value } => {
            let fields = [Field::Plain(Word::Text(b"drew"))];
            let at = put_fields(out, at, &fields);
            put_drawn(out, at, value)
        }
        Act::Secret { sta, psk } => {
            array_fits(psk);
            let kind = Field::Plain(Word::Text(b"secret"));
            let sta = Field::Plain(Word::Node(*sta));
            let fields = [kind, sta, Field::Digits(psk)];
            put_fields(out, at, &fields)
        }
        Act::GaveUp { peer, message } => {
            let kind = Field::Plain(Word::Text(b"gave-up"));
            let message = Field::Plain(message_word(*message));
            let fields = [kind, message, Field::Plain(Word::Node(*peer))];
            put_fields(out, at, &fields)
        }
        Act::Idle { why } => {
            let kind = Field::Plain(Word::Text(b"idle"));
            let fields = [kind, Field::Plain(why_word(*why))];
            put_fields(out, at, &fields)
        }
        _ => unreachable!(),
    }
}

// An act that tells a key, or what it is derived from.
fn put_keyed(out: &mut [u8], at: usize, act: &Act) -> usize
    requires keyed { IsKeyed act.now }
    requires room { at + ACT_ROOM + 2 * act_octets act.now ≤ length out.old }
    ensures written { (number : ℕ) → Writes (after_spaces (act_words number act.now)) at out.old
        result out.new }
    ensures short { result ≤ at + ACT_ROOM + 2 * act_octets act.now }
{
    match act {
        Act::Derived { inputs, ptk, .. } => {
            let fields = [Field::Plain(Word::Text(b"derived"))];
            let at = put_fields(out, at, &fields);
            let at = put_inputs(out, at, inputs.inputs());
            put_ptk(out, at, ptk)
        }
        Act::Installed { peer, key } => {
            let kind = Field::Plain(Word::Text(b"installed"));
            let fields = [kind, Field::Plain(Word::Peer(*peer))];
            let at = put_fields(out, at, &fields);
            put_key(out, at, key)
        }
        Act::Resumed { peer, key } => {
            let kind = Field::Plain(Word::Text(b"resumed"));
            let fields = [kind, Field::Plain(Word::Node(*peer))];
            let at = put_fields(out, at, &fields);
            put_key(out, at, key)
        }
        Act::Finished { peer, inputs } => {
            let kind = Field::Plain(Word::Text(b"finished"));
            let fields = [kind, Field::Plain(Word::Node(*peer))];
            let at = put_fields(out, at, &fields);
            put_inputs(out, at, inputs.inputs())
        }
        _ => unreachable!(),
    }
}

// A frame sent or taken, a packet number used or a payload handed up.
fn put_traffic(out: &mut [u8], at: usize, number: u64, act: &Act) -> usize
    requires traffic { IsTraffic act.now }
    requires room { at + ACT_ROOM + 2 * act_octets act.now ≤ length out.old }
    ensures written { Writes (after_spaces (act_words number act.now)) at out.old result out.new }
    ensures short { result ≤ at + ACT_ROOM + 2 * act_octets act.now }
{
    match act {
        Act::Sent {
            peer,
            kind,
            octets,
            seal,
        } => {
            let fields = [
                Field::Plain(Word::Text(b"sent")),
                Field::Plain(Word::Number(number)),
                Field::Plain(Word::Peer(*peer)),
                Field::Plain(kind_word(*kind)),
                Field::Octets(octets.as_slice()),
            ];
            let at = put_fields(out, at, &fields);
            put_seal(out, at, seal)
        }
        Act::Took {
            octets,
            kind,
            outcome,
            seal,
            ..
        } => {
            let verb = Field::Plain(Word::Text(b"took"));
            let kind = Field::Plain(kind_word(*kind));
            let fields = [verb, kind];
            let at = put_fields(out, at, &fields);
            let at = put_outcome_word(out, at, *outcome);
            let fields = [Field::Octets(octets.as_slice())];
            let at = put_fields(out, at, &fields);
            put_seal(out, at, seal)
        }
        Act::Used {
            peer,
            key,
            id,
            number,
            octets,
        } => {
            array_fits(key);
            let fields = [
                Field::Plain(Word::Text(b"used")),
                Field::Plain(Word::Peer(*peer)),
                Field::Digits(key),
                Field::Plain(Word::Number(u64::from(*id))),
                Field::Plain(Word::Number(*number)),
                Field::Octets(octets.as_slice()),
            ];
            put_fields(out, at, &fields)
        }
        Act::HandedUp {
            peer,
            key,
            id,
            tid,
            number,
            octets,
        } => {
            array_fits(key);
            let fields = [
                Field::Plain(Word::Text(b"handed")),
                Field::Plain(Word::Node(*peer)),
                Field::Digits(key),
                Field::Plain(Word::Number(u64::from(*id))),
                Field::Plain(Word::Number(u64::from(tid.number()))),
                Field::Plain(Word::Number(*number)),
                Field::Octets(octets.as_slice()),
            ];
            put_fields(out, at, &fields)
        }
        _ => unreachable!(),
    }
}

// The PMK-R1 that was found.
fn put_r1(out: &mut [u8], at: usize, answer: &PullAnswer) -> usize
    requires { at + 65 ≤ length out.old }
    ensures written { Writes (after_spaces (r1_text answer.now ∷ [])) at out.old result out.new }
    ensures short { result ≤ at + 65 }
{
    match answer {
        PullAnswer::Found(found) => {
            array_fits(&found.key);
            let fields = [Field::Digits(&found.key)];
            put_fields(out, at, &fields)
        }
        PullAnswer::NoHolder | PullAnswer::Absent => {
            let fields = [Field::Plain(Word::Text(b"-"))];
            put_fields(out, at, &fields)
        }
    }
}

// What a key holder was asked and answered.
fn put_holding(out: &mut [u8], at: usize, act: &Act) -> usize
    requires holding { IsHolding act.now }
    requires room { at + ACT_ROOM + 2 * act_octets act.now ≤ length out.old }
    ensures written { (number : ℕ) → Writes (after_spaces (act_words number act.now)) at out.old
        result out.new }
    ensures short { result ≤ at + ACT_ROOM + 2 * act_octets act.now }
{
    let none = Field::Plain(Word::Text(b"-"));
    match act {
        Act::Put {
            r0kh_id,
            name,
            sta,
            answer,
        } => {
            array_fits(name);
            let kind = Field::Plain(Word::Text(b"put"));
            let id = Field::Octets(r0kh_id.as_slice());
            let sta = Field::Plain(Word::Node(*sta));
            let answer = Field::Plain(put_word(*answer));
            let fields = [kind, id, Field::Digits(name), sta, answer, none];
            put_fields(out, at, &fields)
        }
        Act::Looked {
            r0kh_id,
            name,
            sta,
            answer,
        } => {
            array_fits(name);
            let kind = Field::Plain(Word::Text(b"looked"));
            let id = Field::Octets(r0kh_id.as_slice());
            let sta = Field::Plain(Word::Node(*sta));
            let word = Field::Plain(pull_word(answer));
            let fields = [kind, id, Field::Digits(name), sta, word];
            let at = put_fields(out, at, &fields);
            put_r1(out, at, answer)
        }
        Act::Revoked {
            r0kh_id,
            name,
            sta,
            answer,
        } => {
            array_fits(name);
            let kind = Field::Plain(Word::Text(b"revoked"));
            let id = Field::Octets(r0kh_id.as_slice());
            let sta = Field::Plain(Word::Node(*sta));
            let answer = Field::Plain(revoke_word(*answer));
            let fields = [kind, id, Field::Digits(name), sta, answer, none];
            put_fields(out, at, &fields)
        }
        _ => unreachable!(),
    }
}

// The act of a line.
fn put_act(out: &mut [u8], at: usize, number: u64, act: &Act) -> usize
    requires { at + ACT_ROOM + 2 * act_octets act.now ≤ length out.old }
    ensures written { Writes (after_spaces (act_words number act.now)) at out.old result out.new }
    ensures short { result ≤ at + ACT_ROOM + 2 * act_octets act.now }
{
    match act {
        Act::Opened { .. }
        | Act::Closed { .. }
        | Act::Drew { .. }
        | Act::Secret { .. }
        | Act::GaveUp { .. }
        | Act::Idle { .. } => put_short(out, at, act),
        Act::Derived { .. } | Act::Installed { .. } | Act::Resumed { .. } | Act::Finished { .. } =>
            put_keyed(out, at, act),
        Act::Sent { .. } | Act::Took { .. } | Act::Used { .. } | Act::HandedUp { .. } => {
            put_traffic(out, at, number, act)
        }
        Act::Put { .. } | Act::Looked { .. } | Act::Revoked { .. } => put_holding(out, at, act),
        Act::Link { .. } => at,
    }
}

/// Writes the entry's line to the front of `out`, without a line feed, and answers its length. What
/// stands after the line stays. The line holds the keys that the entry tells. A step of a link has
/// no line, and nothing is written for it.
pub fn write_entry(entry: &Entry, out: &mut [u8]) -> usize
    requires { line_room entry.now ≤ length out.old }
    ensures count { result ≡ length (entry_line entry.now) }
    ensures text { take result out.new ≡ entry_line entry.now }
    ensures rest { (n : ℕ) → result ≤ n → drop n out.new ≡ drop n out.old }
    ensures len { length out.new ≡ length out.old }
    ensures short { result ≤ line_room entry.now }
{
    let at = put_decimal(out, 0, entry.round);
    let fields = [Field::Plain(Word::Node(entry.node))];
    let at = put_fields(out, at, &fields);
    put_act(out, at, entry.number, &entry.act)
}
