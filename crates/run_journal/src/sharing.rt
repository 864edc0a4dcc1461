//! Inputs that come again in a journal, kept once.

ghost use Rattle.std.specs.Prelude.{◌≡◌};

use crate::acts::{Act, Entry, Key};
use key_hierarchy::LastInputs;
use std::alloc::Global;

// The same key, with its inputs shared.
fn shared_key(alloc: Global, last: &mut LastInputs, key: Key) -> Key
    ensures { result ≡ key }
{
    match key {
        Key::Pairwise { tk, inputs } => Key::Pairwise {
            tk,
            inputs: last.share(alloc, inputs),
        },
        key => key,
    }
}

// The same act, with the inputs in it shared.
fn shared_act(alloc: Global, last: &mut LastInputs, act: Act) -> Act
    ensures { result ≡ act }
{
    match act {
        Act::Derived { peer, inputs, ptk } => Act::Derived {
            peer,
            inputs: last.share(alloc, inputs),
            ptk,
        },
        Act::Installed { peer, key } => Act::Installed {
            peer,
            key: shared_key(alloc, last, key),
        },
        Act::Finished { peer, inputs } => Act::Finished {
            peer,
            inputs: last.share(alloc, inputs),
        },
        act => act,
    }
}

/// The same entry, whose inputs are shared with the last ones before where those are the same. No
/// memory is wanted.
pub(crate) fn shared(alloc: Global, last: &mut LastInputs, entry: Entry) -> Entry
    ensures { result ≡ entry }
{
    let Entry {
        round,
        node,
        number,
        act,
    } = entry;
    Entry {
        round,
        node,
        number,
        act: shared_act(alloc, last, act),
    }
}
