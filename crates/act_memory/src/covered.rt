//! What the MIC of an EAPOL-Key frame covers, put into memory that is there.

ghost use Rattle.std.specs.Prelude.{◌≡◌, ◌≤◌, ◌+◌, ◌-◌, ◌++◌, ◌∷◌, length, min, vec_len};
ghost use Rattle.std.specs.Vec.{vec_capacity};
ghost use Rattle.mac_prf.specs.Mic.{without_mic};

use eapol_key::{MIC_AT, MIC_LEN};

// The octet with which the seal of an EAPOL-Key frame begins.
const FRAME_FORM: u8 = 1;

/// How many octets the form and what the MIC covers are.
pub(crate) fn covered_len(frame: &[u8]) -> usize
    ensures { result ≡ 17 + min 81 (length frame.now) + (length frame.now - 97) }
{
    1 + MIC_LEN + MIC_AT.min(frame.len()) + frame.len().saturating_sub(MIC_AT + MIC_LEN)
}

/// Puts the piece behind the octets, within the room that there is.
pub fn append(octets: &mut Vec<u8>, piece: &[u8])
    requires { vec_len octets.old + length piece.now ≤ vec_capacity octets.old }
    ensures items { octets.new.items ≡ octets.old.items ++ piece.now }
    ensures len { vec_len octets.new ≡ vec_len octets.old + length piece.now }
    ensures capacity { vec_capacity octets.old ≤ vec_capacity octets.new }
{
    if octets.extend_from_slice(piece).is_err() {
        unreachable!()
    }
}

/// Puts what the MIC of an EAPOL-Key frame covers behind the octets, and the form before it, within
/// the room that there is.
pub(crate) fn append_covered(octets: &mut Vec<u8>, frame: &[u8])
    requires { vec_len octets.old + (17 + min 81 (length frame.now) + (length frame.now - 97))
        ≤ vec_capacity octets.old }
    ensures { octets.new.items ≡ octets.old.items ++ 1 ∷ without_mic frame.now }
{
    let (front, _) = frame.split_at(MIC_AT.min(frame.len()));
    let (_, behind) = frame.split_at((MIC_AT + MIC_LEN).min(frame.len()));
    append(octets, &[FRAME_FORM]);
    append(octets, front);
    append(octets, &[0; MIC_LEN]);
    append(octets, behind);
}
