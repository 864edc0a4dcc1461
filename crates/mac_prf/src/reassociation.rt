//! The MIC of reassociation in a fast transition.

ghost use Rattle.std.specs.Prelude.{◌≡◌, ◌≤◌, ◌↔◌, ◌++◌, ℕ, List, IsTrue, length, take, drop};
ghost use Rattle.mac_prf.specs.HoldsBlocks.{HoldsBlocks};
ghost use Rattle.mac_prf.specs.FteMic.{transaction_number, mic_field, without_mic_field, input_of};
ghost use Rattle.mac_prf.specs.FteMic.{fte_mic};

use crate::chaining::CmacState;
use crate::integrity::KeptMicKey;
use domain_base::{Mac, array_at};

// Where the MIC field of an FTE begins, and its length.
const FIELD_AT: usize = 4;

const FIELD_LEN: usize = 16;

/// The frames of a fast transition that carry a MIC.
#[derive(Clone, Copy)]
pub enum Reassociation {
    /// The reassociation request.
    Request,
    /// The response to it.
    Response,
}

impl Reassociation {
    /// Its transaction sequence number: 5 or 6 (IEEE Std 802.11-2020, 13.8.4 and 13.8.5).
    pub fn number(self) -> u8
        ensures { result ≡ transaction_number self }
    {
        match self {
            Reassociation::Request => 5,
            Reassociation::Response => 6,
        }
    }
}

/// What the MIC of an FTE covers. Each element is whole, from its id on, with all that it was
/// received with or is sent with.
#[derive(Clone, Copy)]
pub struct FteCovered<'a> {
    /// The station's address.
    pub station: Mac,
    /// The address of the access point to which the station goes.
    pub bssid: Mac,
    /// Which frame it is.
    pub frame: Reassociation,
    /// The RSNE.
    pub rsne: &'a [u8],
    /// The MDE.
    pub mde: &'a [u8],
    /// The FTE. Its MIC field counts as zeros, whatever stands there.
    pub fte: &'a [u8],
}

// What stands before the MIC field of an FTE, and what stands behind it.
fn around_field(fte: &[u8]) -> (&[u8], &[u8])
    requires { 20 ≤ length fte.now }
    ensures front { result.0.now ≡ take 4 fte.now }
    ensures behind { result.1.now ≡ drop 20 fte.now }
{
    let (front, rest) = fte.split_at(FIELD_AT);
    let (_, behind) = rest.split_at(FIELD_LEN);
    (front, behind)
}

// Takes in an FTE, with zeros in its MIC field.
fn take_fte(state: &mut CmacState, fte: &[u8])
    requires { 20 ≤ length fte.now }
    ensures { (key text : List ℕ)
        → HoldsBlocks state.old.cipher state.old.chain state.old.block state.old.count key text
        → HoldsBlocks state.new.cipher state.new.chain state.new.block state.new.count key
        (text ++ without_mic_field fte.now) }
{
    let (front, behind) = around_field(fte);
    state.update(front);
    state.update(&[0; FIELD_LEN]);
    state.update(behind);
}

/// The MIC under the KCK of what it covers, of which the FTE has at least 20 octets: those as far
/// as the end of its MIC field (IEEE Std 802.11-2020, 13.8.4 and 13.8.5). Where the KCK is the kept
/// one it is not looked at anew. Takes no memory.
pub fn fte_mic(kept: &KeptMicKey, kck: &[u8; 16], covered: &FteCovered<'_>) -> [u8; 16]
    requires { 20 ≤ length covered.now.fte.now }
    ensures { result ≡ fte_mic kck.now (input_of covered.now) }
{
    let FteCovered {
        station,
        bssid,
        frame,
        rsne,
        mde,
        fte,
    } = *covered;
    let mut state = kept.cmac(kck);
    state.update(&station.0);
    state.update(&bssid.0);
    state.update(&[frame.number()]);
    state.update(rsne);
    state.update(mde);
    take_fte(&mut state, fte);
    state.finalize()
}

/// Whether the FTE has that MIC in its MIC field. What its MIC control says is not looked at, but
/// is under the MIC. Where the KCK is the kept one it is not looked at anew. Takes no memory.
pub fn verify_fte_mic(kept: &KeptMicKey, kck: &[u8; 16], covered: &FteCovered<'_>) -> bool
    requires { 20 ≤ length covered.now.fte.now }
    ensures { IsTrue result ↔ (mic_field covered.now.fte.now
        ≡ fte_mic kck.now (input_of covered.now)) }
{
    let fte = covered.fte;
    array_at::<FIELD_LEN>(fte, FIELD_AT) == fte_mic(kept, kck, covered)
}
