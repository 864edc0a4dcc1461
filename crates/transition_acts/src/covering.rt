//! What the MIC of an FTE covers, put into memory that is there.

ghost use Rattle.std.specs.Prelude.{◌≡◌, ◌≤◌, ◌+◌, ◌++◌, ◌∷◌, take, drop, vec_len};
ghost use Rattle.std.specs.Prelude.{IfOk, IfSome};
ghost use Rattle.std.specs.Vec.{vec_capacity};
ghost use Rattle.mac_prf.specs.FteMic.{without_mic_field, input_of};
ghost use Rattle.transition_acts.specs.Sizes.{fte_size, covered_size};

use act_memory::{Buffer, append};
use domain_base::NoMemory;
use mac_prf::FteCovered;
use std::alloc::Global;

// The octet with which the seal of an FTE begins.
const FTE_FORM: u8 = 2;

// The octets of the form, of two addresses and of the number of the frame.
const FRONT_LEN: usize = 14;

// Where the MIC field of an FTE begins, and its length.
const FIELD_AT: usize = 4;

const FIELD_LEN: usize = 16;

/// The octets up to that place, and those from it on.
#[tactic(auto, using(crate::proofs::Parting::front_within, crate::proofs::Parting::back_within))]
pub fn cut(octets: &[u8], at: usize) -> (&[u8], &[u8])
    ensures front { result.0.now ≡ take at octets.now }
    ensures back { result.1.now ≡ drop at octets.now }
{
    octets.split_at(at.min(octets.len()))
}

// How many octets of an FTE are covered.
fn fte_len(fte: &[u8]) -> usize
    ensures { result ≡ fte_size fte.now }
{
    FIELD_AT.min(fte.len()) + FIELD_LEN + fte.len().saturating_sub(FIELD_AT + FIELD_LEN)
}

// How many octets the form and what the MIC covers are, where memory counts so many.
fn checked_len(covered: &FteCovered<'_>) -> Option<usize>
    ensures { IfSome result (λ n. n ≡ covered_size covered.now) }
{
    let FteCovered { rsne, mde, fte, .. } = *covered;
    let front = FRONT_LEN.checked_add(rsne.len())?;
    let elements = front.checked_add(mde.len())?;
    elements.checked_add(fte_len(fte))
}

// How many they are, where they are few.
fn covered_len(covered: &FteCovered<'_>) -> usize
    requires { covered_size covered.now ≤ 512 }
    ensures { result ≡ covered_size covered.now }
{
    let FteCovered { rsne, mde, fte, .. } = *covered;
    FRONT_LEN + rsne.len() + mde.len() + fte_len(fte)
}

// Puts an FTE with zeros in its MIC field behind the octets, within the room that there is.
fn append_fte(octets: &mut Vec<u8>, fte: &[u8])
    requires { vec_len octets.old + fte_size fte.now ≤ vec_capacity octets.old }
    ensures { octets.new.items ≡ octets.old.items ++ without_mic_field fte.now }
{
    let (front, _) = cut(fte, FIELD_AT);
    let (_, behind) = cut(fte, FIELD_AT + FIELD_LEN);
    append(octets, front);
    append(octets, &[0; FIELD_LEN]);
    append(octets, behind);
}

// Puts the form, and what the MIC covers, behind the octets, within the room that there is.
fn append_covered(octets: &mut Vec<u8>, covered: &FteCovered<'_>)
    requires { vec_len octets.old + covered_size covered.now ≤ vec_capacity octets.old }
    ensures { octets.new.items ≡ octets.old.items ++ 2 ∷ input_of covered.now }
{
    let FteCovered {
        station,
        bssid,
        frame,
        rsne,
        mde,
        fte,
    } = *covered;
    append(octets, &[FTE_FORM]);
    append(octets, &station.0);
    append(octets, &bssid.0);
    append(octets, &[frame.number()]);
    append(octets, rsne);
    append(octets, mde);
    append_fte(octets, fte);
}

/// The form, and what the MIC covers, in memory of that size.
pub fn cover(alloc: Global, covered: &FteCovered<'_>) -> Result<Vec<u8>, NoMemory>
    ensures { IfOk result (λ octets. octets.items ≡ 2 ∷ input_of covered.now) }
{
    let Some(size) = checked_len(covered) else {
        return Err(NoMemory);
    };
    let mut octets = Vec::with_capacity(alloc, size)?;
    append_covered(&mut octets, covered);
    Ok(octets)
}

/// The same in the room that there is.
pub fn cover_in(room: Buffer, covered: &FteCovered<'_>) -> Vec<u8>
    requires { covered_size covered.now ≤ 512 }
    ensures { result.items ≡ 2 ∷ input_of covered.now }
{
    let mut octets = room.of_size(covered_len(covered));
    append_covered(&mut octets, covered);
    octets
}
