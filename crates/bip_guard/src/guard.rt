//! The guard of an IGTK: it uses each packet number once, and takes none twice (IEEE Std
//! 802.11-2020, 12.5.4.4 to 12.5.4.6).

ghost use Rattle.std.specs.Prelude.{◌≡◌, ◌<◌, ◌≤◌, ◌+◌, ℕ, suc, List, Option, None, Some, length};
ghost use Rattle.std.specs.Prelude.{take, drop, option_map, IfOk, IfSome, OnErr, MatchResult};
ghost use Rattle.replay_window.specs.Numbers.{last_number};
ghost use Rattle.bip_guard.specs.Bip.{EndsInMme, key_id_in, ipn_in, mic_verifies, BipProtected};
ghost use Rattle.bip_guard.specs.Held.{Held, with_next, with_taken};
ghost use Rattle.bip_guard.specs.Faults.{protect_fault, unprotect_fault};

use crate::frame::{Seal, ipn_in, key_id_in, open_frame, seal_frame};
use replay_window::SendCounter;
use std::marker::Model;

/// Why a guard refuses.
#[derive(Clone, Copy, PartialEq, Eq)]
pub enum BipFault {
    /// No key is installed.
    NoKey,
    /// Every packet number of the key was used.
    Spent,
    /// The packet number is at most the kept one, which is given.
    Replayed(u64),
    /// The MIC does not verify.
    Seal,
    /// The key id is not the one of the key.
    KeyId,
}

// A key that is installed.
#[derive(Drop)]
struct Installed {
    igtk: [u8; 16],
    id: u8,
    sent: SendCounter,
    kept: u64,
}

impl Model for Installed {
    ghost use Rattle.bip_guard.specs.Held.{Held};

    ghost Value = { Held };

    ghost view = { λ i. record { key = i.igtk; id = i.id; used = i.sent; kept = i.kept } };
}

impl Installed {
    // The packet number of a body whose MIC is to be tried, or why it is refused before.
    fn look(&self, body: &[u8]) -> Result<u64, BipFault>
        requires { EndsInMme body.now }
        ensures key_id { IfOk result (λ _. key_id_in body.now ≡ self.now.id) }
        ensures number { IfOk result (λ n. n ≡ ipn_in body.now) }
        ensures above { IfOk result (λ n. self.now.kept < n) }
        ensures first { (header : List ℕ) (e : BipFault) → result ≡ Err e
            → unprotect_fault (Some self.now) header body.now ≡ Some e }
    {
        if key_id_in(body) != u16::from(self.id) {
            return Err(BipFault::KeyId);
        }
        let ipn = ipn_in(body);
        if ipn <= self.kept {
            Err(BipFault::Replayed(self.kept))
        } else {
            Ok(ipn)
        }
    }

    // `BipGuard::protect` under the installed key.
    fn protect(&mut self, header: &[u8], body: &[u8], out: &mut [u8]) -> Result<usize, BipFault>
        requires header { length header.now ≡ 24 }
        requires room { length body.now + 18 ≤ length out.old }
        ensures fault { MatchResult result (λ _. protect_fault (Some self.old) ≡ None)
            (λ e. protect_fault (Some self.old) ≡ Some e) }
        ensures guard { MatchResult result (λ _. self.new ≡ with_next self.old)
            (λ _. self.new ≡ self.old) }
        ensures end { IfOk result (λ end. end ≡ length body.now + 18) }
        ensures sealed { IfOk result (λ end. BipProtected self.old.key header.now self.old.id
            (suc self.old.used) body.now (take end out.new)) }
        ensures rest { (n : ℕ) → length body.now + 18 ≤ n → drop n out.new ≡ drop n out.old }
        ensures unwritten { OnErr result (out.new ≡ out.old) }
    {
        match self.sent.next() {
            Ok(ipn) => Ok(seal_frame(&self.igtk, header, self.id, ipn, body, out)),
            Err(_) => Err(BipFault::Spent),
        }
    }

    // `BipGuard::unprotect` under the installed key.
    fn unprotect(&mut self, header: &[u8], body: &[u8]) -> Result<usize, BipFault>
        requires header { length header.now ≡ 24 }
        requires element { EndsInMme body.now }
        ensures fault { MatchResult result
            (λ _. unprotect_fault (Some self.old) header.now body.now ≡ None)
            (λ e. unprotect_fault (Some self.old) header.now body.now ≡ Some e) }
        ensures guard { MatchResult result (λ _. self.new ≡ with_taken (ipn_in body.now) self.old)
            (λ _. self.new ≡ self.old) }
        ensures end { IfOk result (λ end. end + 18 ≡ length body.now) }
        ensures opened { IfOk result (λ end. BipProtected self.old.key header.now self.old.id
            (ipn_in body.now) (take end body.now) body.now) }
    {
        let ipn = match self.look(body) {
            Ok(ipn) => ipn,
            Err(fault) => return Err(fault),
        };
        match open_frame(&self.igtk, header, body) {
            Ok((_, end)) => {
                self.kept = ipn;
                Ok(end)
            }
            Err(Seal) => Err(BipFault::Seal),
        }
    }
}

/// An IGTK in use, or none. Contracts see the octets of the key and its key id, the packet number
/// used last under it, and the greatest that was taken.
#[derive(Drop)]
pub struct BipGuard {
    installed: Option<Installed>,
}

impl Model for BipGuard {
    ghost use Rattle.std.specs.Prelude.{Option};
    ghost use Rattle.bip_guard.specs.Held.{Held};

    ghost Value = { Option Held };

    ghost view = { λ g. g.installed };
}

impl BipGuard {
    /// No key.
    pub fn empty() -> Self
        ensures { result ≡ None }
    {
        BipGuard { installed: None }
    }

    /// A key is installed under its key id, of which the packet numbers up to `used` were used, and
    /// of which numbers up to `ipn` are taken no more.
    pub fn install(&mut self, igtk: &[u8; 16], id: u8, used: u64, ipn: u64)
        requires empty { self.old ≡ None }
        requires number { used ≤ last_number }
        ensures { self.new ≡ Some (record { key = igtk.now; id = id; used = used; kept = ipn }) }
    {
        self.installed = Some(Installed {
            igtk: *igtk,
            id,
            sent: SendCounter::after(used),
            kept: ipn,
        });
    }

    /// Protects a frame under the next packet number: writes its body and the MME behind it into
    /// the front of `out`, and gives the number of octets written, 18 more than the body has. The
    /// header is the MAC header of the frame, of 24 octets. `NoKey` comes first, then `Spent`, and
    /// after a refusal nothing is changed. Takes no memory.
    pub fn protect(&mut self, header: &[u8], body: &[u8], out: &mut [u8]) -> Result<usize, BipFault>
        requires header { length header.now ≡ 24 }
        requires room { length body.now + 18 ≤ length out.old }
        ensures fault { MatchResult result (λ _. protect_fault self.old ≡ None)
            (λ e. protect_fault self.old ≡ Some e) }
        ensures guard { MatchResult result (λ _. self.new ≡ option_map with_next self.old)
            (λ _. self.new ≡ self.old) }
        ensures end { IfOk result (λ end. end ≡ length body.now + 18) }
        ensures sealed { IfOk result (λ end. IfSome self.old (λ h.
            BipProtected h.key header.now h.id (suc h.used) body.now (take end out.new))) }
        ensures rest { (n : ℕ) → length body.now + 18 ≤ n → drop n out.new ≡ drop n out.old }
        ensures unwritten { OnErr result (out.new ≡ out.old) }
    {
        match &mut self.installed {
            Some(held) => held.protect(header, body, out),
            None => Err(BipFault::NoKey),
        }
    }

    /// Opens the body of a frame, which ends in an MME, and gives the number of octets that stand
    /// before the MME, 18 fewer than the body has. The header is the MAC header of the frame, of 24
    /// octets. Its packet number is taken. Of the refusals `NoKey` comes first, then `KeyId`,
    /// `Replayed` and `Seal`, and after each the guard is unchanged. Takes no memory.
    pub fn unprotect(&mut self, header: &[u8], body: &[u8]) -> Result<usize, BipFault>
        requires header { length header.now ≡ 24 }
        requires element { EndsInMme body.now }
        ensures fault { MatchResult result
            (λ _. unprotect_fault self.old header.now body.now ≡ None)
            (λ e. unprotect_fault self.old header.now body.now ≡ Some e) }
        ensures guard { MatchResult result
            (λ _. self.new ≡ option_map (with_taken (ipn_in body.now)) self.old)
            (λ _. self.new ≡ self.old) }
        ensures end { IfOk result (λ end. end + 18 ≡ length body.now) }
        ensures opened { IfOk result (λ end. IfSome self.old (λ h.
            BipProtected h.key header.now h.id (ipn_in body.now) (take end body.now) body.now)) }
    {
        match &mut self.installed {
            Some(held) => held.unprotect(header, body),
            None => Err(BipFault::NoKey),
        }
    }
}
