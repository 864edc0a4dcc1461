//! The MIC of an EAPOL-Key frame.

ghost use Rattle.std.specs.Prelude.{◌≡◌, ◌≤◌, ℕ, List, [], length, take, drop, IfSome, IsTrue};
ghost use Rattle.sha1.specs.Sha1.{sha1, Holds as HoldsSha1};
ghost use Rattle.mac_prf.specs.HoldsText.{HoldsText};
ghost use Rattle.mac_prf.specs.HoldsBlocks.{HoldsBlocks};
ghost use Rattle.mac_prf.specs.Mic.{mic, mic_sha1, mic_cmac};

use crate::chaining::CmacState;
use crate::hmac::Hmac;
use domain_base::Akm;
use sha1::Sha1;
use std::marker::Model;

// Where the MIC field of a frame begins, and its length.
const MIC_AT: usize = 81;

const MIC_LEN: usize = 16;

fn first_half(digest: &[u8; 20]) -> [u8; 16]
    ensures { result ≡ take 16 digest.now }
{
    let mut out = [0u8; 16];
    out.copy_from_slice(&digest[..MIC_LEN]);
    out
}

// What stands before the MIC field, and what stands behind it.
fn around_mic(frame: &[u8]) -> (&[u8], &[u8])
    requires { 99 ≤ length frame.now }
    ensures front { result.0.now ≡ take 81 frame.now }
    ensures behind { result.1.now ≡ drop 97 frame.now }
{
    let (front, rest) = frame.split_at(MIC_AT);
    let (_, behind) = rest.split_at(MIC_LEN);
    (front, behind)
}

// The MIC of a frame by HMAC-SHA-1, from the keyed state.
fn mic_by_hmac(keyed: Hmac<20, Sha1>, frame: &[u8]) -> [u8; 16]
    requires { 99 ≤ length frame.now }
    ensures { (kck : List ℕ) → HoldsText HoldsSha1 sha1 keyed.inner keyed.outer kck []
        → result ≡ mic_sha1 kck frame.now }
{
    let (front, behind) = around_mic(frame);
    let mut state = keyed;
    state.update(front);
    state.update(&[0; MIC_LEN]);
    state.update(behind);
    first_half(&state.finalize())
}

// The MIC of a frame by CMAC, from the keyed state.
fn mic_by_cmac(keyed: CmacState, frame: &[u8]) -> [u8; 16]
    requires { 99 ≤ length frame.now }
    ensures { (kck : List ℕ)
        → HoldsBlocks keyed.cipher keyed.chain keyed.block keyed.count kck []
        → result ≡ mic_cmac kck frame.now }
{
    let (front, behind) = around_mic(frame);
    let mut cmac = keyed;
    cmac.update(front);
    cmac.update(&[0; MIC_LEN]);
    cmac.update(behind);
    cmac.finalize()
}

fn mic_sha1(kck: &[u8; 16], frame: &[u8]) -> [u8; 16]
    requires { 99 ≤ length frame.now }
    ensures { result ≡ mic_sha1 kck.now frame.now }
{
    mic_by_hmac(Hmac::<20, Sha1>::new(kck), frame)
}

fn mic_cmac(kck: &[u8; 16], frame: &[u8]) -> [u8; 16]
    requires { 99 ≤ length frame.now }
    ensures { result ≡ mic_cmac kck.now frame.now }
{
    mic_by_cmac(CmacState::new(kck), frame)
}

/// The MIC of an EAPOL-Key frame by its AKM and KCK, over the whole frame of at least 99 octets
/// with zeros in its MIC field, octets 81 to 96, whatever stands there (IEEE Std 802.11-2020,
/// 12.7.2, 12.7.3). Takes no memory.
pub fn mic(akm: Akm, kck: &[u8; 16], frame: &[u8]) -> [u8; 16]
    requires { 99 ≤ length frame.now }
    ensures { result ≡ mic akm kck.now frame.now }
{
    match akm {
        Akm::Psk => mic_sha1(kck, frame),
        Akm::PskSha256 | Akm::FtPsk => mic_cmac(kck, frame),
    }
}

// What MICs under a KCK begin with, by their kind.
#[derive(Drop)]
enum Keyed {
    Hmac(Hmac<20, Sha1>),
    Cmac(CmacState),
}

impl Keyed {
    ghost use Rattle.mac_prf.specs.MicKeys.{HoldsKeyed};

    // Of that suite.
    fn of(akm: Akm, kck: &[u8; 16]) -> Self
        ensures { HoldsKeyed result kck.now }
    {
        match akm {
            Akm::Psk => Keyed::Hmac(Hmac::<20, Sha1>::new(kck)),
            Akm::PskSha256 | Akm::FtPsk => Keyed::Cmac(CmacState::new(kck)),
        }
    }
}

// A KCK, with the state that the MICs under it begin with: so it is looked at once. Contracts see
// the key, as the list of its 16 octets.
#[derive(Drop)]
struct MicKey {
    kck: [u8; 16],
    keyed: Keyed,
}

impl Model for MicKey {
    ghost use Rattle.std.specs.Prelude.{ℕ, List};
    ghost use Rattle.mac_prf.specs.MicKeys.{HoldsKeyed};

    ghost Value = { List ℕ };

    ghost view = { λ k. k.kck };

    ghost invariant = { λ k. HoldsKeyed k.keyed k.kck };
}

impl MicKey {
    // That key, for frames of that suite. Those of another are found as they are without it.
    fn new(akm: Akm, kck: &[u8; 16]) -> Self
        ensures { result ≡ kck.now }
    {
        MicKey {
            kck: *kck,
            keyed: Keyed::of(akm, kck),
        }
    }

    // Whether it is that KCK.
    fn is(&self, kck: &[u8; 16]) -> bool
        ensures { IsTrue result → self.now ≡ kck.now }
    {
        self.kck == *kck
    }

    // By HMAC-SHA-1.
    fn by_hmac(&self, frame: &[u8]) -> [u8; 16]
        requires { 99 ≤ length frame.now }
        ensures { result ≡ mic_sha1 self.now frame.now }
    {
        match &self.keyed {
            Keyed::Hmac(keyed) => mic_by_hmac(keyed.fork(), frame),
            Keyed::Cmac(_) => mic_sha1(&self.kck, frame),
        }
    }

    // The state that a CMAC under it begins with.
    fn cmac(&self) -> CmacState
        ensures { HoldsBlocks result.cipher result.chain result.block result.count self.now [] }
    {
        match &self.keyed {
            Keyed::Cmac(keyed) => keyed.fork(),
            Keyed::Hmac(_) => CmacState::new(&self.kck),
        }
    }

    // By CMAC.
    fn by_cmac(&self, frame: &[u8]) -> [u8; 16]
        requires { 99 ≤ length frame.now }
        ensures { result ≡ mic_cmac self.now frame.now }
    {
        mic_by_cmac(self.cmac(), frame)
    }

    // The MIC of a frame under the key. The key is as before.
    fn mic(&self, akm: Akm, frame: &[u8]) -> [u8; 16]
        requires { 99 ≤ length frame.now }
        ensures { result ≡ mic akm self.now frame.now }
    {
        match akm {
            Akm::Psk => self.by_hmac(frame),
            Akm::PskSha256 | Akm::FtPsk => self.by_cmac(frame),
        }
    }
}

/// The KCK that is in use, with its state, for the MICs of its frames. No result tells whether it
/// was kept: a MIC under another KCK is found as it is without this.
#[derive(Drop)]
pub struct KeptMicKey {
    last: Option<MicKey>,
}

impl KeptMicKey {
    /// None yet.
    pub fn none() -> Self {
        KeptMicKey { last: None }
    }

    /// From now on it is that of this KCK, for frames of that suite. Where it is already, the KCK
    /// is not looked at anew. Takes no memory.
    pub fn keep(&mut self, akm: Akm, kck: &[u8; 16]) {
        let has = self.found(kck).is_some();
        if !has {
            self.last = Some(MicKey::new(akm, kck));
        }
    }

    // What is kept, where it is of that KCK.
    fn found(&self, kck: &[u8; 16]) -> Option<&MicKey>
        ensures { IfSome result (λ key. key.now ≡ kck.now) }
    {
        let key = self.last.as_ref()?;
        if key.is(kck) { Some(key) } else { None }
    }

    // The state that a CMAC under a KCK begins with.
    pub(crate) fn cmac(&self, kck: &[u8; 16]) -> CmacState
        ensures { HoldsBlocks result.cipher result.chain result.block result.count kck.now [] }
    {
        match self.found(kck) {
            Some(key) => key.cmac(),
            None => CmacState::new(kck),
        }
    }

    /// The MIC of a frame under a KCK, as [`mic`] finds it. Takes no memory.
    pub fn mic(&self, akm: Akm, kck: &[u8; 16], frame: &[u8]) -> [u8; 16]
        requires { 99 ≤ length frame.now }
        ensures { result ≡ mic akm kck.now frame.now }
    {
        match self.found(kck) {
            Some(key) => key.mic(akm, frame),
            None => mic(akm, kck, frame),
        }
    }
}
