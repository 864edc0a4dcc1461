//! The nodes that a line names.

ghost use Rattle.std.specs.Prelude.{◌≡◌, ◌<◌, ◌≤◌, length, IfSome, IsTrue};
ghost use Rattle.run_journal.specs.Events.{NamesSta};
ghost use Rattle.script_lines.specs.Script.{listed_ap, listed_sta, named_sta, place_in};
ghost use Rattle.script_lines.specs.Sentences.{is_few};
ghost use Rattle.script_words.specs.Names.{name_of, peer_of};

use run_journal::Domain;
use script_words::{NodeName, PeerName};

// The place from 0 of the number from 1, where so many are listed.
#[tactic(auto, unfolding(crate::specs::Script::place_in))]
fn place_in(count: usize, number: u64) -> Option<u16>
    requires { count ≤ 65536 }
    ensures inside { IfSome result (λ place. place < count) }
    ensures value { result ≡ place_in count number }
{
    if 1 <= number && number <= count as u64 {
        Some((number - 1) as u16)
    } else {
        None
    }
}

/// The place of a listed access point.
#[tactic(auto, unfolding(crate::specs::Script::listed_ap))]
pub(crate) fn listed_ap(domain: &Domain, name: NodeName) -> Option<u16>
    requires { IsTrue (is_few domain.now) }
    ensures inside { IfSome result (λ place. place < length domain.now.aps) }
    ensures value { result ≡ listed_ap domain.now (name_of name) }
{
    match name {
        NodeName::Ap(number) => place_in(domain.aps.0.len(), number),
        NodeName::Sta(_) => None,
    }
}

/// The place of a listed station.
#[tactic(auto, unfolding(crate::specs::Script::listed_sta))]
pub(crate) fn listed_sta(domain: &Domain, name: NodeName) -> Option<u16>
    requires { IsTrue (is_few domain.now) }
    ensures inside { IfSome result (λ place. place < length domain.now.stas) }
    ensures value { result ≡ listed_sta domain.now (name_of name) }
{
    match name {
        NodeName::Ap(_) => None,
        NodeName::Sta(number) => place_in(domain.stas.len(), number),
    }
}

/// A listed station, by its name, or all stations: none is named then.
pub(crate) fn named_sta(domain: &Domain, name: PeerName) -> Option<Option<u16>>
    requires { IsTrue (is_few domain.now) }
    ensures inside { IfSome result (NamesSta domain.now) }
    ensures value { result ≡ named_sta domain.now (peer_of name) }
{
    match name {
        PeerName::All => Some(None),
        PeerName::One(sta) => listed_sta(domain, sta).map(Some),
    }
}
