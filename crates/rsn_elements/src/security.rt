//! The RSN element (IEEE Std 802.11-2020, 9.4.2.24).

ghost use Rattle.std.specs.Prelude.{◌≡◌, ◌<◌, ◌≤◌, ◌+◌, ◌*◌, ◌/◌, ◌∷◌, ℕ, List, length, take};
ghost use Rattle.std.specs.Prelude.{option_map, MatchOption, SomeIff};
ghost use Rattle.std.specs.Int.{w16};
ghost use Rattle.domain_base.specs.Places.{part, little_endian_at};
ghost use Rattle.rsn_elements.specs.Rsne.{Field, IsSuite, IsNumber, IsList, SpellsRsne};
ghost use Rattle.rsn_elements.specs.Fields.{rsne_fields};
ghost use Rattle.rsn_elements.specs.RsneSteps.{IsBroken, HasNoFields, HasNoLeading, Leads};
ghost use Rattle.rsn_elements.specs.RsneSteps.{IsRsneRead};

use crate::faults::FaultKind;
use domain_base::{array_at, little_u16_at};

/// Suites, four octets each (9.4.2.24.2).
#[derive(Clone, Copy)]
pub struct Suites<'a>(pub &'a [u8]);

impl Suites<'_> {
    /// How many there are.
    pub fn count(&self) -> usize
        ensures { result ≡ length self.now.0.now / 4 }
    {
        self.0.len() / 4
    }

    /// The suite at a place from 0.
    pub fn get(&self, at: usize) -> Option<[u8; 4]>
        ensures { SomeIff result (at < length self.now.0.now / 4) (part (4 * at) 4 self.now.0.now) }
    {
        let octets = self.0;
        if at < octets.len() / 4 {
            Some(array_at::<4>(octets, 4 * at))
        } else {
            None
        }
    }
}

/// Names of keys, sixteen octets each.
#[derive(Clone, Copy)]
pub struct Pmkids<'a>(pub &'a [u8]);

impl Pmkids<'_> {
    /// How many there are.
    pub fn count(&self) -> usize
        ensures { result ≡ length self.now.0.now / 16 }
    {
        self.0.len() / 16
    }

    /// The name at a place from 0.
    pub fn get(&self, at: usize) -> Option<[u8; 16]>
        ensures { SomeIff result (at < length self.now.0.now / 16)
            (part (16 * at) 16 self.now.0.now) }
    {
        let octets = self.0;
        if at < octets.len() / 16 {
            Some(array_at::<16>(octets, 16 * at))
        } else {
            None
        }
    }
}

/// An RSNE. It may end after any field; the fields behind are then absent.
#[derive(Clone, Copy)]
pub struct Rsne<'a> {
    /// Always 1.
    pub version: u16,
    /// The cipher suite of group traffic.
    pub group: Option<[u8; 4]>,
    /// The pairwise cipher suites.
    pub pairwise: Option<Suites<'a>>,
    /// The authentication and key management suites.
    pub akms: Option<Suites<'a>>,
    /// RSN capabilities (9.4.2.24.4).
    pub capabilities: Option<u16>,
    /// Names of keys: with fast transition PMKR0Name or PMKR1Name.
    pub pmkids: Option<Pmkids<'a>>,
    /// The cipher suite of group management frames.
    pub management: Option<[u8; 4]>,
}

// A suite at the front, and the octets behind it.
fn suite_at(octets: &[u8]) -> Option<(Option<[u8; 4]>, &[u8])>
    ensures { MatchOption result (IsBroken IsSuite octets.now)
        (λ r. Field IsSuite octets.now r.0 r.1.now) }
{
    if octets.is_empty() {
        return Some((None, octets));
    }
    if octets.len() < 4 {
        return None;
    }
    let (_, rest) = octets.split_at(4);
    Some((Some(array_at::<4>(octets, 0)), rest))
}

// A number at the front, and the octets behind it.
fn number_at(octets: &[u8]) -> Option<(Option<u16>, &[u8])>
    ensures { MatchOption result (IsBroken IsNumber octets.now)
        (λ r. Field IsNumber octets.now r.0 r.1.now) }
{
    if octets.is_empty() {
        return Some((None, octets));
    }
    if octets.len() < 2 {
        return None;
    }
    let (_, rest) = octets.split_at(2);
    Some((Some(little_u16_at(octets, 0)), rest))
}

// How many octets a count and its members of n octets take.
fn list_size(octets: &[u8], n: usize) -> usize
    requires count { 2 ≤ length octets.now }
    requires few { n ≤ 16 }
    ensures { result ≡ 2 + n * little_endian_at w16 0 octets.now }
{
    2 + n * usize::from(little_u16_at(octets, 0))
}

// A count and its members of n octets at the front, and the octets behind them.
fn list_at(octets: &[u8], n: usize) -> Option<(Option<&[u8]>, &[u8])>
    requires { n ≤ 16 }
    ensures { MatchOption result (IsBroken (IsList n) octets.now)
        (λ r. Field (IsList n) octets.now (option_map (λ s. s.now) r.0) r.1.now) }
{
    if octets.is_empty() {
        return Some((None, octets));
    }
    if octets.len() < 2 {
        return None;
    }
    let size = list_size(octets, n);
    if octets.len() < size {
        return None;
    }
    let (front, rest) = octets.split_at(size);
    let (_, members) = front.split_at(2);
    Some((Some(members), rest))
}

// Suites behind their count at the front, and the octets behind them.
fn suites_at(octets: &[u8]) -> Option<(Option<Suites<'_>>, &[u8])>
    ensures { MatchOption result (IsBroken (IsList 4) octets.now)
        (λ r. Field (IsList 4) octets.now (option_map (λ s. s.0.now) r.0) r.1.now) }
{
    let (members, rest) = list_at(octets, 4)?;
    Some((members.map(Suites), rest))
}

// Names behind their count at the front, and the octets behind them.
fn pmkids_at(octets: &[u8]) -> Option<(Option<Pmkids<'_>>, &[u8])>
    ensures { MatchOption result (IsBroken (IsList 16) octets.now)
        (λ r. Field (IsList 16) octets.now (option_map (λ s. s.0.now) r.0) r.1.now) }
{
    let (members, rest) = list_at(octets, 16)?;
    Some((members.map(Pmkids), rest))
}

// The suite of group management frames at the front. What stands behind it is not looked at.
fn management_at(octets: &[u8]) -> Option<Option<[u8; 4]>>
    ensures { MatchOption result (IsBroken IsSuite octets.now)
        (λ m. (rest : List ℕ) × Field IsSuite octets.now m rest) }
{
    let (management, _) = suite_at(octets)?;
    Some(management)
}

// The suites that stand first in an RSNE.
#[derive(Clone, Copy)]
struct Leading<'a> {
    group: Option<[u8; 4]>,
    pairwise: Option<Suites<'a>>,
    akms: Option<Suites<'a>>,
}

// The suites of group traffic, of pairwise traffic and of key management at the front, and the
// octets behind them.
fn leading_at(octets: &[u8]) -> Option<(Leading<'_>, &[u8])>
    ensures { MatchOption result (HasNoLeading octets.now) (λ r. Leads octets.now r.0 r.1.now) }
{
    let Some((group, rest)) = suite_at(octets) else {
        return None;
    };
    let Some((pairwise, rest)) = suites_at(rest) else {
        return None;
    };
    let Some((akms, rest)) = suites_at(rest) else {
        return None;
    };
    let leading = Leading {
        group,
        pairwise,
        akms,
    };
    Some((leading, rest))
}

// The fields behind the version, if the octets are a whole number of them.
fn fields_at(octets: &[u8]) -> Option<Rsne<'_>>
    ensures { MatchOption result (HasNoFields octets.now)
        (λ r. SpellsRsne (1 ∷ 0 ∷ octets.now) (rsne_fields r)) }
{
    let Some((leading, rest)) = leading_at(octets) else {
        return None;
    };
    let Some((capabilities, rest)) = number_at(rest) else {
        return None;
    };
    let Some((pmkids, rest)) = pmkids_at(rest) else {
        return None;
    };
    let Some(management) = management_at(rest) else {
        return None;
    };
    Some(Rsne {
        version: 1,
        group: leading.group,
        pairwise: leading.pairwise,
        akms: leading.akms,
        capabilities,
        pmkids,
        management,
    })
}

/// The RSNE that a body spells, or why it spells none: Version or Length.
pub(crate) fn read_rsne(body: &[u8]) -> Result<Rsne<'_>, FaultKind>
    ensures { IsRsneRead body.now result }
{
    match body {
        [1, 0, rest @ ..] => match fields_at(rest) {
            Some(rsne) => Ok(rsne),
            None => Err(FaultKind::Length),
        },
        [_, _, ..] => Err(FaultKind::Version),
        _ => Err(FaultKind::Length),
    }
}
