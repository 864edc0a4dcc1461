//! Keys that are installed compared.

ghost use Rattle.std.specs.Prelude.{◌≡◌, ◌↔◌, IsTrue};

use crate::fields::{is_inputs, is_key};
use run_journal::Key;

pub(crate) fn is_installed_key(key: &Key, other: &Key) -> bool
    ensures { IsTrue result ↔ (key.now ≡ other.now) }
{
    match (key, other) {
        (Key::Pairwise { tk, inputs }, Key::Pairwise { tk: k, inputs: i }) => {
            is_key(tk, k) && is_inputs(inputs.inputs(), i.inputs())
        }
        (
            Key::Group {
                kind,
                key,
                id,
                bssid,
            },
            Key::Group {
                kind: g,
                key: k,
                id: m,
                bssid: b,
            },
        ) => { *kind == *g && is_key(key, k) && *id == *m && *bssid == *b }
        _ => false,
    }
}
