//! Each line by itself, by its first word and what stands after it.

ghost use Rattle.std.specs.Prelude.{◌≡◌, ◌≤◌, ℕ, Ok, Err, IfOk, MatchResult, length};
ghost use Rattle.link_steps.specs.declared.ends.LinkEnd.TheVariants as ends;
ghost use Rattle.link_lines.specs.Drafts.{IsAsked, rows_after};
ghost use Rattle.link_lines.specs.Lines.{address_of, ask_line, digits_line, end_line, event_line};
ghost use Rattle.link_lines.specs.Lines.{forget_line, holder_line, is_passed_over, mdid_line};
ghost use Rattle.link_lines.specs.Lines.{revoke_line, row_line, ssid_line};

use crate::refusal::LinkRefusal;
use crate::said::LinkSaid;
use domain_base::Mac;
use key_holders::ROWS;
use link_steps::LinkEnd;
use script_words::{hex_octets, is_single, is_text, number_of_digits, split_word};

/// Whether a line is passed over, from line 2 on: it has no octets, or begins with `#`.
pub(crate) fn is_passed_over(line: &[u8]) -> bool
    ensures { result ≡ is_passed_over line.now }
{
    match line.first() {
        None => true,
        Some(c) => *c == b'#',
    }
}

/// The octets of a line of that word, in 64 hexadecimal digits.
#[tactic(auto, unfolding(crate::specs::Lines::digits_line))]
pub(crate) fn digits_line(own: &[u8], word: &[u8], text: &[u8]) -> Result<[u8; 32], LinkRefusal>
    ensures { result ≡ digits_line own.now word.now text.now }
{
    if word != own {
        return Err(LinkRefusal::Word);
    }
    match hex_octets(text) {
        Some(octets) => Ok(octets),
        None => Err(LinkRefusal::Arguments),
    }
}

/// The name of the network.
#[tactic(auto, unfolding(crate::specs::Lines::ssid_line))]
pub(crate) fn ssid_line<'a>(word: &[u8], text: &'a [u8]) -> Result<&'a [u8], LinkRefusal>
    ensures size { IfOk result (λ ssid. (1 ≤ length ssid.now) × (length ssid.now ≤ 32)) }
    ensures says { MatchResult result (λ ssid. ssid_line word.now text.now ≡ Ok ssid.now)
        (λ refusal. ssid_line word.now text.now ≡ Err refusal) }
{
    if word != b"ssid".as_slice() {
        return Err(LinkRefusal::Word);
    }
    if is_text(32, 32, text) {
        Ok(text)
    } else {
        Err(LinkRefusal::Arguments)
    }
}

/// The mobility domain.
#[tactic(auto, unfolding(crate::specs::Lines::mdid_line))]
pub(crate) fn mdid_line(word: &[u8], text: &[u8]) -> Result<[u8; 2], LinkRefusal>
    ensures { result ≡ mdid_line word.now text.now }
{
    if word != b"mdid".as_slice() {
        return Err(LinkRefusal::Word);
    }
    match hex_octets(text) {
        Some(octets) => Ok(octets),
        None => Err(LinkRefusal::Arguments),
    }
}

/// The R0KH-ID of the end that has a key holder.
#[tactic(auto, unfolding(crate::specs::Lines::holder_line))]
pub(crate) fn holder_line<'a>(word: &[u8], text: &'a [u8]) -> Result<&'a [u8], LinkRefusal>
    ensures size { IfOk result (λ id. (1 ≤ length id.now) × (length id.now ≤ 48)) }
    ensures says { MatchResult result (λ id. holder_line word.now text.now ≡ Ok id.now)
        (λ refusal. holder_line word.now text.now ≡ Err refusal) }
{
    if word != b"holder".as_slice() {
        return Err(LinkRefusal::Word);
    }
    if is_text(48, 33, text) {
        Ok(text)
    } else {
        Err(LinkRefusal::Arguments)
    }
}

// The address of one node, in twelve digits.
#[tactic(auto, unfolding(crate::specs::Lines::address_of))]
fn address_of(word: &[u8]) -> Result<Mac, LinkRefusal>
    ensures { result ≡ address_of word.now }
{
    let Some(octets) = hex_octets(word) else {
        return Err(LinkRefusal::Arguments);
    };
    if is_single(&octets) {
        Ok(Mac(octets))
    } else {
        Err(LinkRefusal::Arguments)
    }
}

// The row of a station, where there is room for it after so many.
#[tactic(auto, unfolding(crate::specs::Lines::row_line))]
fn row_line(rows: u64, text: &[u8]) -> Result<LinkSaid, LinkRefusal>
    ensures says { result ≡ row_line rows text.now }
    ensures room { IfOk result (λ said. rows_after rows said ≤ 64) }
    ensures asked { IfOk result (λ said. IsAsked said ends.Holder) }
{
    match address_of(text) {
        Ok(sta) => {
            if rows < ROWS as u64 {
                Ok(LinkSaid::Row(sta))
            } else {
                Err(LinkRefusal::ManyRows)
            }
        }
        Err(refusal) => Err(refusal),
    }
}

// A station whose row is revoked.
#[tactic(auto, unfolding(crate::specs::Lines::revoke_line))]
fn revoke_line(text: &[u8]) -> Result<LinkSaid, LinkRefusal>
    ensures says { result ≡ revoke_line text.now }
    ensures room { (rows : ℕ) → rows ≤ 64 → IfOk result (λ said. rows_after rows said ≤ 64) }
    ensures asked { IfOk result (λ said. IsAsked said ends.Holder) }
{
    match address_of(text) {
        Ok(sta) => Ok(LinkSaid::Revoke(sta)),
        Err(refusal) => Err(refusal),
    }
}

// A station, and the R1 key holder for which its key is asked.
#[tactic(auto, unfolding(crate::specs::Lines::ask_line))]
fn ask_line(text: &[u8]) -> Result<LinkSaid, LinkRefusal>
    ensures says { result ≡ ask_line text.now }
    ensures room { (rows : ℕ) → rows ≤ 64 → IfOk result (λ said. rows_after rows said ≤ 64) }
    ensures asked { IfOk result (λ said. IsAsked said ends.Asker) }
{
    let Some((first, second)) = split_word(text) else {
        return Err(LinkRefusal::Arguments);
    };
    match (address_of(first), address_of(second)) {
        (Ok(sta), Ok(r1kh)) => Ok(LinkSaid::Ask(sta, r1kh)),
        (Err(refusal), _) => Err(refusal),
        (Ok(_), Err(refusal)) => Err(refusal),
    }
}

// The number of one of so many questions that were asked.
#[tactic(auto, unfolding(crate::specs::Lines::forget_line))]
fn forget_line(asked: u64, text: &[u8]) -> Result<LinkSaid, LinkRefusal>
    ensures says { result ≡ forget_line asked text.now }
    ensures room { (rows : ℕ) → rows ≤ 64 → IfOk result (λ said. rows_after rows said ≤ 64) }
    ensures asked { IfOk result (λ said. IsAsked said ends.Asker) }
{
    match number_of_digits(text) {
        Some(number) => {
            if number < asked {
                Ok(LinkSaid::Forget(number))
            } else {
                Err(LinkRefusal::Question)
            }
        }
        None => Err(LinkRefusal::Arguments),
    }
}

// A line of one end.
#[tactic(auto, unfolding(crate::specs::Lines::end_line))]
fn end_line(
    end: LinkEnd,
    rows: u64,
    asked: u64,
    word: &[u8],
    text: &[u8],
) -> Result<LinkSaid, LinkRefusal>
    requires few { rows ≤ 64 }
    ensures says { result ≡ end_line end rows asked word.now text.now }
    ensures room { IfOk result (λ said. rows_after rows said ≤ 64) }
    ensures asked { IfOk result (λ said. IsAsked said end) }
{
    match end {
        LinkEnd::Holder => {
            if word == b"row".as_slice() {
                row_line(rows, text)
            } else if word == b"revoke".as_slice() {
                revoke_line(text)
            } else {
                Err(LinkRefusal::Word)
            }
        }
        LinkEnd::Asker => {
            if word == b"ask".as_slice() {
                ask_line(text)
            } else if word == b"forget".as_slice() {
                forget_line(asked, text)
            } else {
                Err(LinkRefusal::Word)
            }
        }
    }
}

/// A line after the header, after so many rows and questions.
#[tactic(auto, unfolding(crate::specs::Lines::event_line))]
pub(crate) fn event_line(
    end: LinkEnd,
    rows: u64,
    asked: u64,
    line: &[u8],
    word: &[u8],
    text: &[u8],
) -> Result<LinkSaid, LinkRefusal>
    requires few { rows ≤ 64 }
    ensures says { result ≡ event_line end rows asked line.now word.now text.now }
    ensures room { IfOk result (λ said. rows_after rows said ≤ 64) }
    ensures asked { IfOk result (λ said. IsAsked said end) }
{
    if line == b"turn".as_slice() {
        Ok(LinkSaid::Turn)
    } else if word == b"turn".as_slice() {
        Err(LinkRefusal::Arguments)
    } else {
        end_line(end, rows, asked, word, text)
    }
}
