//! The guard of a temporal key: it uses each packet number once, and takes none twice (IEEE Std
//! 802.11-2020, 12.5.3.3 and 12.5.3.4).

ghost use Rattle.std.specs.Prelude.{◌≡◌, ◌<◌, ◌≤◌, ◌+◌, ◌^◌, ℕ, suc, slice_index, List, Option};
ghost use Rattle.std.specs.Prelude.{None, Some, length, take, drop, replicate, option_map, IfOk};
ghost use Rattle.std.specs.Prelude.{IfErr, IfSome, OnErr, MatchResult};
ghost use Rattle.replay_window.specs.Numbers.{last_number};
ghost use Rattle.ccmp_guard.specs.Ccmp.{IsHeader, ccmp_header, packet_number, key_id_in, Protected};
ghost use Rattle.ccmp_guard.specs.Roles.{key_id, IsRole, counter_of};
ghost use Rattle.ccmp_guard.specs.Held.{Held, with_next, with_taken, used_last};
ghost use Rattle.ccmp_guard.specs.Faults.{protect_fault, unprotect_fault};

use crate::ccmp::{
    LEAST_BODY, Seal, has_ext_iv, key_id_in, open_with, packet_number, seal_with,
    traffic_identifier,
};
use aes_block::ForwardAes128;
use domain_base::Tid;
use replay_window::{RecvCounters, Replayed, SendCounter};
use std::marker::Model;

/// What a temporal key serves for.
#[derive(Clone, Copy, PartialEq, Eq)]
pub enum Role {
    /// Frames between two nodes, under key id 0.
    Pairwise,
    /// Group-addressed frames, under that key id, from 1 to 3.
    Group(u8),
}

impl Role {
    // The key id under which the key is used.
    fn key_id(self) -> u8
        ensures { result ≡ key_id self }
    {
        match self {
            Role::Pairwise => 0,
            Role::Group(id) => id,
        }
    }
}

/// Why a guard refuses.
#[derive(Clone, Copy, PartialEq, Eq)]
pub enum GuardFault {
    /// No key is installed.
    NoKey,
    /// Every packet number of the key was used.
    Spent,
    /// The packet number is at most the kept one, which is given.
    Replayed(u64),
    /// No plain text is sealed to the body under the key: the MIC does not verify.
    Seal,
    /// The body is shorter than a CCMP header and a MIC, or the bit ExtIV is clear.
    Header,
    /// The key id is not the one of the key.
    KeyId,
}

// The traffic identifier of that number.
fn tid_of(number: u8) -> Tid
    requires { number < 16 }
    ensures { result ≡ number }
{
    match Tid::new(number) {
        Some(tid) => tid,
        None => unreachable!(),
    }
}

// A key that is installed.
#[derive(Drop)]
struct Installed {
    cipher: ForwardAes128,
    role: Role,
    sent: SendCounter,
    received: RecvCounters,
}

impl Model for Installed {
    ghost use Rattle.ccmp_guard.specs.Roles.{IsRole};
    ghost use Rattle.ccmp_guard.specs.Held.{Held};

    ghost Value = { Held };

    ghost view = { λ i. record {
      role = i.role;
      key = i.cipher;
      used = i.sent;
      kept = i.received;
    } };

    ghost invariant = { λ i. IsRole i.role };
}

impl Installed {
    // The receive counter that a frame with that header is held against.
    fn counter(&self, header: &[u8]) -> Tid
        requires { IsHeader header.now }
        ensures { result ≡ counter_of self.now.role header.now }
    {
        match self.role {
            Role::Pairwise => tid_of(traffic_identifier(header)),
            Role::Group(_) => tid_of(0),
        }
    }

    // The counter and packet number of a body whose seal is to be tried, or why it is refused
    // before.
    fn look(&self, header: &[u8], body: &[u8]) -> Result<(Tid, u64), GuardFault>
        requires { IsHeader header.now }
        ensures fault { MatchResult result
            (λ _. unprotect_fault (Some self.now) header.now body.now ≡ None)
            (λ e. unprotect_fault (Some self.now) header.now body.now ≡ Some e) }
        ensures long { IfOk result (λ _. 16 ≤ length body.now) }
        ensures counter { IfOk result (λ r. r.0 ≡ counter_of self.now.role header.now) }
        ensures number { IfOk result (λ r. r.1 ≡ packet_number body.now) }
        ensures above { IfOk result (λ r. slice_index self.now.kept r.0 < r.1) }
        ensures key_id { IfOk result (λ _. key_id_in body.now ≡ key_id self.now.role) }
    {
        if body.len() < LEAST_BODY || !has_ext_iv(body) {
            return Err(GuardFault::Header);
        }
        if key_id_in(body) != self.role.key_id() {
            return Err(GuardFault::KeyId);
        }
        let tid = self.counter(header);
        let pn = packet_number(body);
        match self.received.look(tid, pn) {
            Ok(()) => Ok((tid, pn)),
            Err(Replayed(kept)) => Err(GuardFault::Replayed(kept)),
        }
    }

    // `Guard::protect` under the installed key.
    fn protect(&mut self, header: &[u8], plain: &[u8], out: &mut [u8]) -> Result<usize, GuardFault>
        requires header { IsHeader header.now }
        requires short { length plain.now < 2 ^ 16 }
        requires room { length plain.now + 16 ≤ length out.old }
        ensures fault { MatchResult result (λ _. protect_fault (Some self.old) ≡ None)
            (λ e. protect_fault (Some self.old) ≡ Some e) }
        ensures guard { MatchResult result (λ _. self.new ≡ with_next self.old)
            (λ _. self.new ≡ self.old) }
        ensures end { IfOk result (λ end. end ≡ length plain.now + 16) }
        ensures sealed { IfOk result (λ end.
            Protected self.old.key header.now (key_id self.old.role) (suc self.old.used) plain.now
            (take end out.new)) }
        ensures header { IfOk result
            (λ _. take 8 out.new ≡ ccmp_header (key_id self.old.role) (suc self.old.used)) }
        ensures rest { (n : ℕ) → length plain.now + 16 ≤ n → drop n out.new ≡ drop n out.old }
        ensures unwritten { OnErr result (out.new ≡ out.old) }
    {
        match self.sent.next() {
            Ok(pn) => Ok(seal_with(&self.cipher, header, self.role.key_id(), pn, plain, out)),
            Err(_) => Err(GuardFault::Spent),
        }
    }

    // `Guard::unprotect` under the installed key.
    fn unprotect(&mut self, header: &[u8], body: &[u8], out: &mut [u8]) -> Result<usize, GuardFault>
        requires header { IsHeader header.now }
        requires room { length body.now ≤ length out.old + 16 }
        ensures first { (e : GuardFault)
            → unprotect_fault (Some self.old) header.now body.now ≡ Some e → result ≡ Err e }
        ensures unwritten { (e : GuardFault)
            → unprotect_fault (Some self.old) header.now body.now ≡ Some e → out.new ≡ out.old }
        ensures opened { IfOk result (λ end.
            Protected self.old.key header.now (key_id self.old.role) (packet_number body.now)
            (take end out.new) body.now) }
        ensures seal { IfErr result (λ e. unprotect_fault (Some self.old) header.now body.now ≡ None
            → (e ≡ GuardFault.Seal) ×
            ((id pn : ℕ) (plain : List ℕ)
            → ¬ Protected self.old.key header.now id pn plain body.now)) }
        ensures guard { MatchResult result
            (λ _. self.new ≡ with_taken header.now (packet_number body.now) self.old)
            (λ _. self.new ≡ self.old) }
        ensures end { IfOk result (λ end. end + 16 ≡ length body.now) }
        ensures rest { (n : ℕ) → length body.now ≤ n + 16 → drop n out.new ≡ drop n out.old }
    {
        let (tid, pn) = match self.look(header, body) {
            Ok(found) => found,
            Err(fault) => return Err(fault),
        };
        match open_with(&self.cipher, header, body, out) {
            Ok((_, end)) => {
                self.received.take(tid, pn);
                Ok(end)
            }
            Err(Seal) => Err(GuardFault::Seal),
        }
    }
}

/// A temporal key in use, or none. Contracts see the role and octets of the key, the packet number
/// used last under it, and for each traffic identifier the greatest that was taken. A group key has
/// one receive counter: that of traffic identifier 0.
#[derive(Drop)]
pub struct Guard {
    installed: Option<Installed>,
}

impl Model for Guard {
    ghost use Rattle.std.specs.Prelude.{Option};
    ghost use Rattle.ccmp_guard.specs.Held.{Held};

    ghost Value = { Option Held };

    ghost view = { λ g. g.installed };
}

impl Guard {
    /// No key.
    pub fn empty() -> Self
        ensures { result ≡ None }
    {
        Guard { installed: None }
    }

    /// A key is installed, of which the packet numbers up to `used` were used, and of which numbers
    /// up to `rsc` are taken no more, whatever their traffic identifier.
    pub fn install(&mut self, tk: &[u8; 16], role: Role, used: u64, rsc: u64)
        requires empty { self.old ≡ None }
        requires number { used ≤ last_number }
        requires role { IsRole role }
        ensures { self.new
            ≡ Some (record { role = role; key = tk.now; used = used; kept = replicate 16 rsc }) }
    {
        self.installed = Some(Installed {
            cipher: ForwardAes128::new(tk),
            role,
            sent: SendCounter::after(used),
            received: RecvCounters::from(rsc),
        });
    }

    /// The packet number used last; 0 where none was, or no key is installed.
    pub fn used(&self) -> u64
        ensures value { result ≡ used_last self.now }
        ensures range { result ≤ last_number }
    {
        match &self.installed {
            Some(held) => held.sent.used(),
            None => 0,
        }
    }

    /// Protects a frame under the next packet number: writes its body into the front of `out`, and
    /// gives the number of octets written, 16 more than the plain text has. The header is the MAC
    /// header of the frame, of 24 or 26 octets, and the plain text has at most 65,535. `NoKey`
    /// comes first, then `Spent`, and after a refusal nothing is changed. Takes no memory.
    pub fn protect(
        &mut self,
        header: &[u8],
        plain: &[u8],
        out: &mut [u8],
    ) -> Result<usize, GuardFault>
        requires header { IsHeader header.now }
        requires short { length plain.now < 2 ^ 16 }
        requires room { length plain.now + 16 ≤ length out.old }
        ensures fault { MatchResult result (λ _. protect_fault self.old ≡ None)
            (λ e. protect_fault self.old ≡ Some e) }
        ensures guard { MatchResult result (λ _. self.new ≡ option_map with_next self.old)
            (λ _. self.new ≡ self.old) }
        ensures end { IfOk result (λ end. end ≡ length plain.now + 16) }
        ensures sealed { IfOk result (λ end. IfSome self.old (λ h.
            Protected h.key header.now (key_id h.role) (suc h.used) plain.now (take end out.new))) }
        ensures header { IfOk result
            (λ _. IfSome self.old
            (λ h. take 8 out.new ≡ ccmp_header (key_id h.role) (suc h.used))) }
        ensures rest { (n : ℕ) → length plain.now + 16 ≤ n → drop n out.new ≡ drop n out.old }
        ensures unwritten { OnErr result (out.new ≡ out.old) }
    {
        match &mut self.installed {
            Some(held) => held.protect(header, plain, out),
            None => Err(GuardFault::NoKey),
        }
    }

    /// Opens the body of a frame: writes its plain text into the front of `out`, and gives the
    /// number of octets written, 16 fewer than the body has. The header is the MAC header of the
    /// frame, of 24 or 26 octets. Its packet number is taken. Of the refusals `NoKey` comes first,
    /// then `Header`, `KeyId`, `Replayed` and `Seal`, and after each the guard is unchanged. So is
    /// `out` after all but `Seal`; what stands there after that is of no use. Takes no memory.
    pub fn unprotect(
        &mut self,
        header: &[u8],
        body: &[u8],
        out: &mut [u8],
    ) -> Result<usize, GuardFault>
        requires header { IsHeader header.now }
        requires room { length body.now ≤ length out.old + 16 }
        // a refusal before the seal is tried
        ensures first { (e : GuardFault) → unprotect_fault self.old header.now body.now ≡ Some e
            → result ≡ Err e }
        ensures unwritten { (e : GuardFault) → unprotect_fault self.old header.now body.now ≡ Some e
            → out.new ≡ out.old }
        ensures opened { IfOk result (λ end. IfSome self.old (λ h.
            Protected h.key header.now (key_id h.role) (packet_number body.now) (take end out.new)
            body.now)) }
        // any other refusal: no plain text is sealed to the body
        ensures seal { IfErr result
            (λ e. IfSome self.old (λ h. unprotect_fault self.old header.now body.now ≡ None
            → (e ≡ GuardFault.Seal) ×
            ((id pn : ℕ) (plain : List ℕ) → ¬ Protected h.key header.now id pn plain body.now))) }
        ensures guard { MatchResult result
            (λ _. self.new ≡ option_map (with_taken header.now (packet_number body.now)) self.old)
            (λ _. self.new ≡ self.old) }
        ensures end { IfOk result (λ end. end + 16 ≡ length body.now) }
        ensures rest { (n : ℕ) → length body.now ≤ n + 16 → drop n out.new ≡ drop n out.old }
    {
        match &mut self.installed {
            Some(held) => held.unprotect(header, body, out),
            None => Err(GuardFault::NoKey),
        }
    }
}
