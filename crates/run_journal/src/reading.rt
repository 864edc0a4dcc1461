//! What an act has that others may have too.

ghost use Rattle.std.specs.Prelude.{◌≡◌};
ghost use Rattle.std.specs.Option.{option_copied};
ghost use Rattle.run_journal.specs.Premises.{value, drawn, seal_sent, seal_taken};
ghost use Rattle.run_journal.specs.Looking.{temporal_key, confirmation_key};

use crate::acts::{Act, Drawn, Seal};

/// The octets of a value drawn.
pub(crate) fn octets_of(fresh: &Drawn) -> &[u8]
    ensures { result.now ≡ value fresh.now }
{
    match fresh {
        Drawn::Nonce(octets) => octets,
        Drawn::Group(_, octets) => octets,
    }
}

/// The octets drawn.
pub(crate) fn drawn(act: &Act) -> Option<&[u8]>
    ensures { option_copied result ≡ drawn act.now }
{
    match act {
        Act::Drew { value } => Some(octets_of(value)),
        _ => None,
    }
}

/// A TK that was derived, or a group key that was drawn.
pub(crate) fn temporal_key(act: &Act) -> Option<&[u8]>
    ensures { option_copied result ≡ temporal_key act.now }
{
    match act {
        Act::Derived { ptk, .. } => Some(&ptk.tk),
        Act::Drew {
            value: Drawn::Group(_, octets),
        } => Some(octets),
        _ => None,
    }
}

/// A KCK that was derived.
pub(crate) fn confirmation_key(act: &Act) -> Option<&[u8]>
    ensures { option_copied result ≡ confirmation_key act.now }
{
    match act {
        Act::Derived { ptk, .. } => Some(&ptk.kck),
        _ => None,
    }
}

/// What is sealed in a frame sent.
pub(crate) fn seal_sent(act: &Act) -> Option<&Seal>
    ensures { option_copied result ≡ seal_sent act.now }
{
    match act {
        Act::Sent {
            seal: Some(seal),
            ..
        } => Some(seal.seal()),
        _ => None,
    }
}

/// What was sealed in a frame taken, where it verified.
pub(crate) fn seal_taken(act: &Act) -> Option<&Seal>
    ensures { option_copied result ≡ seal_taken act.now }
{
    match act {
        Act::Took {
            seal: Some(seal),
            ..
        } => Some(seal.seal()),
        _ => None,
    }
}
