//! The lines that list nodes, and the lines before them that a header may have.

ghost use Rattle.std.specs.Prelude.{◌≡◌, ◌<◌, ℕ, List, true, false, length, IfOk, OnOk};
ghost use Rattle.std.specs.List.{list_any};
ghost use Rattle.run_journal.specs.Limits.{most_aps, most_stas};
ghost use Rattle.run_journal.specs.declared.domain.Extra.TheVariants.{Mfp, RenewAt};
ghost use Rattle.run_journal.specs.declared.domain.ListedAp.{ListedAp};
ghost use Rattle.run_journal.specs.declared.domain.ListedSta.{ListedSta as AnySta};
ghost use Rattle.script_lines.specs.Headers.{CanListAp, CanListSta};
ghost use Rattle.script_lines.specs.Script.{ListsAp, ListsSta, address_of, ap_line, bare_sta};
ghost use Rattle.script_lines.specs.Script.{is_same, is_second, is_used, is_used_id};
ghost use Rattle.script_lines.specs.Script.{Adds, keyed_sta, new_ap, new_sta, protection_by};
ghost use Rattle.script_lines.specs.Script.{protection_line, renewal_by, renewal_line, sta_line};
ghost use Rattle.script_lines.specs.Sentences.{Tells, TellsBy, lists_sta};
ghost use Rattle.script_words.specs.Grammar.{in_version};
ghost use Rattle.script_words.specs.Tokens.{is_single};

use crate::header::{Header, own_psk};
use crate::refusal::Refusal;
use domain_base::Mac;
use run_journal::{Domain, ListedSta, MOST_APS, MOST_STAS, Version};
use script_words::{
    Form, Row, goes_with, hex_octets, in_version, is_single, is_text, packet_number, row_of,
    split_word,
};

// The address of one node, in twelve digits.
#[tactic(auto, unfolding(crate::specs::Script::address_of))]
fn address_of(word: &[u8]) -> Result<Mac, Refusal>
    ensures single { IfOk result (λ address. is_single address.0 ≡ true) }
    ensures says { Tells result (address_of word.now) }
{
    let Some(octets) = hex_octets(word) else {
        return Err(Refusal::Arguments);
    };
    if is_single(&octets) {
        Ok(Mac(octets))
    } else {
        Err(Refusal::Arguments)
    }
}

// Whether a listed access point has the address.
fn is_of_ap(domain: &Domain, address: Mac) -> bool
    ensures { result ≡ list_any (λ (a : ListedAp). is_same a.address address) domain.now.aps }
{
    domain.aps.0.iter().any(|ap| ap.address == address)
}

// Whether a listed station has the address.
fn is_of_sta(domain: &Domain, address: Mac) -> bool
    ensures { result ≡ list_any (λ (s : AnySta). is_same s.address address) domain.now.stas }
{
    domain.stas.place_of(address).is_some()
}

/// Whether a listed node has the address.
#[tactic(auto, unfolding(crate::specs::Script::is_used))]
pub fn is_used(domain: &Domain, address: Mac) -> bool
    ensures { result ≡ is_used domain.now address }
{
    is_of_ap(domain, address) || is_of_sta(domain, address)
}

// Whether a listed access point has the R0KH-ID.
#[tactic(auto, unfolding(crate::specs::Script::is_used_id))]
fn is_used_id(domain: &Domain, r0kh_id: &[u8]) -> bool
    ensures { result ≡ is_used_id domain.now r0kh_id.now }
{
    domain
        .aps
        .0
        .iter()
        .any(|ap| ap.r0kh_id.as_slice() == r0kh_id)
}

// Whether an access point can be listed so.
#[tactic(auto, unfolding(crate::specs::Script::new_ap))]
fn new_ap(domain: &Domain, address: Mac, r0kh_id: &[u8]) -> Result<(), Refusal>
    ensures room { OnOk result (length domain.now.aps < most_aps) }
    ensures free { OnOk result (is_used domain.now address ≡ false) }
    ensures other { OnOk result (is_used_id domain.now r0kh_id.now ≡ false) }
    ensures says { TellsBy (λ _. ListsAp address r0kh_id.now) result
        (new_ap domain.now address r0kh_id.now) }
{
    if MOST_APS <= domain.aps.0.len() {
        Err(Refusal::ManyAps)
    } else if is_used(domain, address) || is_used_id(domain, r0kh_id) {
        Err(Refusal::Duplicate)
    } else {
        Ok(())
    }
}

/// An access point, by its address, and its R0KH-ID of 1 to 48 octets: what stands behind `ap`.
#[tactic(auto, using(crate::proofs::Freed::listing), unfolding(crate::specs::Script::ap_line))]
pub fn ap_line<'a>(domain: &Domain, text: &'a [u8]) -> Result<(Mac, &'a [u8]), Refusal>
    ensures can { IfOk result (λ ap. CanListAp domain.now ap.0 ap.1.now) }
    ensures says { TellsBy (λ ap. ListsAp ap.0 ap.1.now) result (ap_line domain.now text.now) }
{
    let Some((word, r0kh_id)) = split_word(text) else {
        return Err(Refusal::Arguments);
    };
    let address = address_of(word)?;
    if !is_text(48, 33, r0kh_id) {
        return Err(Refusal::Arguments);
    }
    new_ap(domain, address, r0kh_id)?;
    Ok((address, r0kh_id))
}

// Whether a station can be listed so.
#[tactic(auto, unfolding(crate::specs::Script::new_sta))]
fn new_sta(domain: &Domain, address: Mac) -> Result<(), Refusal>
    ensures room { OnOk result (length domain.now.stas < most_stas) }
    ensures free { OnOk result (is_used domain.now address ≡ false) }
    ensures says { (psk : List ℕ) → TellsBy (λ _. ListsSta address psk) result
        (new_sta domain.now address psk) }
{
    if MOST_STAS <= domain.stas.len() {
        Err(Refusal::ManyStas)
    } else if is_used(domain, address) {
        Err(Refusal::Duplicate)
    } else {
        Ok(())
    }
}

// A station that has the header's key, by its address.
#[tactic(auto, using(crate::proofs::Freed::listing), unfolding(crate::specs::Script::bare_sta))]
fn bare_sta(header: &Header, text: &[u8]) -> Result<ListedSta, Refusal>
    ensures can { IfOk result (λ s. CanListSta header.now.network s.address) }
    ensures says { TellsBy lists_sta result (bare_sta header.now text.now) }
{
    let address = address_of(text)?;
    new_sta(&header.network, address)?;
    let psk = header.psk;
    Ok(ListedSta { address, psk })
}

// A station with a key of its own, by its address and what stands behind that.
#[tactic(auto, using(crate::proofs::Freed::listing), unfolding(crate::specs::Script::keyed_sta))]
fn keyed_sta(header: &Header, word: &[u8], text: &[u8]) -> Result<ListedSta, Refusal>
    ensures can { IfOk result (λ s. CanListSta header.now.network s.address) }
    ensures says { TellsBy lists_sta result (keyed_sta header.now word.now text.now) }
{
    let address = address_of(word)?;
    let psk = own_psk(header.network.ssid.as_slice(), text)?;
    new_sta(&header.network, address)?;
    Ok(ListedSta { address, psk })
}

/// Whether a header is one of version 2.
pub fn is_second(domain: &Domain) -> bool
    ensures { result ≡ is_second domain.now.extras.version }
{
    match domain.extras.version {
        Version::One => false,
        Version::Two => true,
    }
}

/// A station, by its address: what stands behind `sta`. It has the header's key, or in a script of
/// version 2 one of its own where one stands behind the address.
#[tactic(auto, unfolding(crate::specs::Script::sta_line))]
pub fn sta_line(header: &Header, text: &[u8]) -> Result<ListedSta, Refusal>
    ensures can { IfOk result (λ s. CanListSta header.now.network s.address) }
    ensures says { TellsBy lists_sta result (sta_line header.now text.now) }
{
    if !is_second(&header.network) {
        return bare_sta(header, text);
    }
    match split_word(text) {
        Some((word, rest)) => keyed_sta(header, word, rest),
        None => bare_sta(header, text),
    }
}

/// Whether a line with that row stands in scripts of the network's version, and after what its
/// header says.
pub fn is_of_network(row: Row, domain: &Domain) -> bool
    ensures { result ≡ in_version row.versions (is_second domain.now.extras.version)
        domain.now.extras.mfp }
{
    in_version(row.versions, is_second(domain), domain.extras.mfp)
}

// The packet number at which pairwise keys are renewed, by the row of its line.
fn renewal_by(row: Row, domain: &Domain, text: &[u8]) -> Result<u32, Refusal>
    ensures { TellsBy (λ at. Adds (RenewAt at)) result (renewal_by row domain.now text.now) }
{
    if goes_with(row.suites, domain.akm) && is_of_network(row, domain) {
        match packet_number(text) {
            Some(at) => Ok(at),
            None => Err(Refusal::Arguments),
        }
    } else {
        Err(Refusal::Word)
    }
}

/// The packet number at which access points begin to renew a pairwise key, from 1: what stands
/// behind `renew-at`.
#[tactic(auto, unfolding(crate::specs::Script::renewal_line))]
pub fn renewal_line(domain: &Domain, text: &[u8]) -> Result<u32, Refusal>
    ensures { TellsBy (λ at. Adds (RenewAt at)) result (renewal_line domain.now text.now) }
{
    renewal_by(row_of(Form::RenewAt), domain, text)
}

// That management frames are protected, by the row of the line that says so.
fn protection_by(row: Row, domain: &Domain) -> Result<(), Refusal>
    ensures { TellsBy (λ _. Adds Mfp) result (protection_by row domain.now) }
{
    if goes_with(row.suites, domain.akm) && is_of_network(row, domain) {
        Ok(())
    } else {
        Err(Refusal::Word)
    }
}

/// That group-addressed management frames are protected: the line is `mfp`.
#[tactic(auto, unfolding(crate::specs::Script::protection_line))]
pub fn protection_line(domain: &Domain) -> Result<(), Refusal>
    ensures { TellsBy (λ _. Adds Mfp) result (protection_line domain.now) }
{
    protection_by(row_of(Form::Mfp), domain)
}
