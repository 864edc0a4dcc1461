//! The lines of a header.

ghost use Rattle.std.specs.Prelude.{◌≡◌, ◌≤◌, length, IfOk};
ghost use Rattle.script_lines.specs.declared.header.Header.{Header as AnyHeader};
ghost use Rattle.script_lines.specs.declared.header.HeaderLine.TheVariants as awaits;
ghost use Rattle.script_lines.specs.Due.{draft_of};
ghost use Rattle.script_lines.specs.Script.{AtHeader, AtNodes, after_suite, blank, header_line};
ghost use Rattle.script_lines.specs.Script.{own_psk, psk_by, psk_of, with_mdid, with_seed};
ghost use Rattle.script_lines.specs.Script.{with_ssid};
ghost use Rattle.script_lines.specs.Refusals.{fault_of};
ghost use Rattle.script_lines.specs.Sentences.{IsAhead, IsKept, TakesHeader, Tells, TellsBy};

use crate::refusal::{Refusal, Untaken};
use crate::step::Step;
use domain_base::{Akm, Octets};
use mac_prf::{KdfKey, pbkdf2};
use run_journal::{Aps, Domain, Extras, Stas, Version};
use script_words::{hex_octets, is_text, split_word};
use std::alloc::Global;

/// A line of a header behind its first one.
#[derive(Clone, Copy)]
pub enum HeaderLine {
    /// The seed.
    Seed,
    /// The SSID.
    Ssid,
    /// The pre-shared key.
    Psk,
    /// The suite.
    Akm,
    /// The mobility domain, with the suite of fast transition.
    Mdid,
}

/// What a header has said so far, and behind it the nodes listed so far.
#[derive(Drop)]
pub struct Header {
    /// The pre-shared key of the stations that are listed without one of their own.
    pub psk: [u8; 32],
    /// The network.
    pub network: Domain,
}

/// Which line of a script is due, and what the lines before it said.
#[derive(Drop)]
pub enum Due {
    /// The version of the form.
    Version,
    /// A line of the header.
    Header {
        /// Which one.
        line: HeaderLine,
        /// What those before it said.
        header: Header,
    },
    /// Any: the header is whole.
    Nodes {
        /// It, with the nodes listed so far.
        header: Header,
    },
    /// Any: a round is open.
    Round {
        /// The header, with the nodes listed.
        header: Header,
        /// How many events the round has so far: at most `MOST_EVENTS`.
        count: u64,
    },
}

/// Which line is due behind this one, and what this one says, or why it is not taken.
pub type Taken = (Due, Result<Step, Untaken>);

/// A header that said its version alone.
pub fn blank(alloc: Global, version: Version) -> Header
    ensures { result ≡ blank version }
{
    let network = Domain {
        seed: KdfKey::new(&[0; 32]),
        ssid: Octets(Vec::new(alloc)),
        akm: Akm::Psk,
        mdid: [0, 0],
        extras: Extras {
            version,
            renew_at: None,
            mfp: false,
        },
        aps: Aps(Vec::new(alloc)),
        stas: Stas::new(alloc),
    };
    Header {
        psk: [0; 32],
        network,
    }
}

// The seed in 64 hexadecimal digits, behind its word; not the draw that only a live run has.
#[tactic(auto, unfolding(crate::specs::Script::header_line, crate::specs::Script::seed_of))]
fn seed_line(word: &[u8], text: &[u8]) -> Result<[u8; 32], Refusal>
    ensures { (h : AnyHeader) → TellsBy (λ seed. AtHeader awaits.Ssid (with_seed h seed)) result
        (header_line awaits.Seed h word.now text.now) }
{
    if word != b"seed".as_slice() {
        return Err(Refusal::Word);
    }
    if text == b"draw".as_slice() {
        return Err(Refusal::Mode);
    }
    hex_octets(text).ok_or(Refusal::Arguments)
}

// Takes the seed.
fn take_seed(header: Header, word: &[u8], text: &[u8]) -> Taken
    requires { IsAhead awaits.Seed header }
    ensures kept { IsKept result.0 }
    ensures takes { TakesHeader awaits.Seed header (draft_of result.0)
        word.now text.now result.1 }
{
    let line = HeaderLine::Seed;
    match seed_line(word, text) {
        Ok(seed) => {
            let mut header = header;
            header.network.seed = KdfKey::new(&seed);
            let line = HeaderLine::Ssid;
            (Due::Header { line, header }, Ok(Step::Nothing))
        }
        Err(refusal) => (Due::Header { line, header }, Err(Untaken::Refused(refusal))),
    }
}

// The name of the network, behind its word.
#[tactic(auto, unfolding(crate::specs::Script::header_line, crate::specs::Script::ssid_of))]
fn ssid_line<'a>(word: &[u8], text: &'a [u8]) -> Result<&'a [u8], Refusal>
    ensures size { IfOk result (λ ssid. (1 ≤ length ssid.now) × (length ssid.now ≤ 32)) }
    ensures says { (h : AnyHeader) → TellsBy
        (λ ssid. AtHeader awaits.Psk (with_ssid h ssid.now)) result
        (header_line awaits.Ssid h word.now text.now) }
{
    if word != b"ssid".as_slice() {
        return Err(Refusal::Word);
    }
    if is_text(32, 32, text) {
        Ok(text)
    } else {
        Err(Refusal::Arguments)
    }
}

// Takes the SSID.
fn take_ssid(header: Header, alloc: Global, word: &[u8], text: &[u8]) -> Taken
    requires { IsAhead awaits.Ssid header }
    ensures kept { IsKept result.0 }
    ensures takes { TakesHeader awaits.Ssid header (draft_of result.0)
        word.now text.now result.1 }
{
    let line = HeaderLine::Ssid;
    match ssid_line(word, text) {
        Ok(ssid) => match Vec::from_slice(alloc, ssid) {
            Ok(octets) => {
                let mut header = header;
                header.network.ssid = Octets(octets);
                let line = HeaderLine::Psk;
                (Due::Header { line, header }, Ok(Step::Nothing))
            }
            Err(_) => (Due::Header { line, header }, Err(Untaken::NoMemory)),
        },
        Err(refusal) => (Due::Header { line, header }, Err(Untaken::Refused(refusal))),
    }
}

// A pre-shared key, as it is or by a passphrase; with another word it is refused so.
#[tactic(auto, unfolding(crate::specs::Script::psk_by, crate::specs::Script::passphrase_of))]
fn psk_by(other: Refusal, ssid: &[u8], word: &[u8], text: &[u8]) -> Result<[u8; 32], Refusal>
    ensures { Tells result (psk_by (fault_of other) ssid.now word.now text.now) }
{
    if word == b"psk".as_slice() {
        return hex_octets(text).ok_or(Refusal::Arguments);
    }
    if word != b"passphrase".as_slice() {
        return Err(other);
    }
    if 8 <= text.len() && is_text(63, 32, text) {
        Ok(pbkdf2(text, ssid))
    } else {
        Err(Refusal::Arguments)
    }
}

// The pre-shared key of a header.
#[tactic(auto, unfolding(crate::specs::Script::psk_of))]
fn psk_of(ssid: &[u8], word: &[u8], text: &[u8]) -> Result<[u8; 32], Refusal>
    ensures { Tells result (psk_of ssid.now word.now text.now) }
{
    psk_by(Refusal::Word, ssid, word, text)
}

/// A station's own pre-shared key in the network of that SSID, by the word of its form and what
/// stands behind that: 64 hexadecimal digits, or a passphrase.
#[tactic(auto, unfolding(crate::specs::Script::own_psk))]
pub(crate) fn own_psk(ssid: &[u8], text: &[u8]) -> Result<[u8; 32], Refusal>
    ensures { Tells result (own_psk ssid.now text.now) }
{
    let Some((word, key)) = split_word(text) else {
        return Err(Refusal::Arguments);
    };
    psk_by(Refusal::Arguments, ssid, word, key)
}

// Takes the pre-shared key.
#[tactic(auto, unfolding(crate::specs::Script::header_line))]
fn take_psk(header: Header, word: &[u8], text: &[u8]) -> Taken
    requires { IsAhead awaits.Psk header }
    ensures kept { IsKept result.0 }
    ensures takes { TakesHeader awaits.Psk header (draft_of result.0) word.now text.now result.1 }
{
    let line = HeaderLine::Psk;
    match psk_of(header.network.ssid.as_slice(), word, text) {
        Ok(psk) => {
            let mut header = header;
            header.psk = psk;
            let line = HeaderLine::Akm;
            (Due::Header { line, header }, Ok(Step::Nothing))
        }
        Err(refusal) => (Due::Header { line, header }, Err(Untaken::Refused(refusal))),
    }
}

// The suite by its name, behind its word.
#[tactic(auto, unfolding(crate::specs::Script::header_line, crate::specs::Script::akm_of))]
fn akm_line(word: &[u8], text: &[u8]) -> Result<Akm, Refusal>
    ensures { (h : AnyHeader) → TellsBy (after_suite h) result
        (header_line awaits.Akm h word.now text.now) }
{
    if word != b"akm".as_slice() {
        Err(Refusal::Word)
    } else if text == b"psk".as_slice() {
        Ok(Akm::Psk)
    } else if text == b"psk-sha256".as_slice() {
        Ok(Akm::PskSha256)
    } else if text == b"ft-psk".as_slice() {
        Ok(Akm::FtPsk)
    } else {
        Err(Refusal::Arguments)
    }
}

// Takes the suite. The header is whole with it, but with that of fast transition once the mobility
// domain is told.
fn take_akm(header: Header, word: &[u8], text: &[u8]) -> Taken
    requires { IsAhead awaits.Akm header }
    ensures kept { IsKept result.0 }
    ensures takes { TakesHeader awaits.Akm header (draft_of result.0) word.now text.now result.1 }
{
    let line = HeaderLine::Akm;
    match akm_line(word, text) {
        Ok(akm) => {
            let mut header = header;
            header.network.akm = akm;
            let line = HeaderLine::Mdid;
            match akm {
                Akm::FtPsk => (Due::Header { line, header }, Ok(Step::Nothing)),
                Akm::Psk | Akm::PskSha256 => (Due::Nodes { header }, Ok(Step::Network)),
            }
        }
        Err(refusal) => (Due::Header { line, header }, Err(Untaken::Refused(refusal))),
    }
}

// The mobility domain in four hexadecimal digits, behind its word.
#[tactic(auto, unfolding(crate::specs::Script::header_line, crate::specs::Script::mdid_of))]
fn mdid_line(word: &[u8], text: &[u8]) -> Result<[u8; 2], Refusal>
    ensures { (h : AnyHeader) → TellsBy (λ mdid. AtNodes (with_mdid h mdid)) result
        (header_line awaits.Mdid h word.now text.now) }
{
    if word != b"mdid".as_slice() {
        return Err(Refusal::Word);
    }
    hex_octets(text).ok_or(Refusal::Arguments)
}

// Takes the mobility domain, with which the header is whole.
fn take_mdid(header: Header, word: &[u8], text: &[u8]) -> Taken
    requires { IsAhead awaits.Mdid header }
    ensures kept { IsKept result.0 }
    ensures takes { TakesHeader awaits.Mdid header (draft_of result.0)
        word.now text.now result.1 }
{
    let line = HeaderLine::Mdid;
    match mdid_line(word, text) {
        Ok(mdid) => {
            let mut header = header;
            header.network.mdid = mdid;
            (Due::Nodes { header }, Ok(Step::Network))
        }
        Err(refusal) => (Due::Header { line, header }, Err(Untaken::Refused(refusal))),
    }
}

/// Takes the line of the header that is due, by its first word and what stands behind it. The
/// header lists no nodes; its SSID, once it was told, has 1 to 32 octets. Memory is taken for the
/// SSID alone. Where the line is not taken the same one is due, and the header is as it was.
pub fn take_header(
    line: HeaderLine,
    header: Header,
    alloc: Global,
    word: &[u8],
    text: &[u8],
) -> Taken
    requires { IsAhead line header }
    ensures kept { IsKept result.0 }
    ensures takes { TakesHeader line header (draft_of result.0) word.now text.now result.1 }
{
    match line {
        HeaderLine::Seed => take_seed(header, word, text),
        HeaderLine::Ssid => take_ssid(header, alloc, word, text),
        HeaderLine::Psk => take_psk(header, word, text),
        HeaderLine::Akm => take_akm(header, word, text),
        HeaderLine::Mdid => take_mdid(header, word, text),
    }
}
