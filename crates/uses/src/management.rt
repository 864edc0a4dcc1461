//! A group-addressed management frame under BIP.

ghost use Rattle.std.specs.Prelude.{◌≡◌, ◌↔◌, None, length, option_map};
ghost use Rattle.std.specs.Prelude.{IsTrue, IsSome, IfSome, MatchOption};
ghost use Rattle.bip_guard.specs.Bip.{EndsInMme, BipProtected, ipn_in};
ghost use Rattle.bip_guard.specs.Held.{with_taken};
ghost use Rattle.bip_guard.specs.Faults.{unprotect_fault};

use bip_guard::BipGuard;

// Whether a body ends in a Management MIC element with a MIC of 8 octets.
fn ends_in_mme(body: &[u8]) -> bool
    ensures { IsTrue result ↔ EndsInMme body.now }
{
    body.len() >= 18 && body[body.len() - 18] == 0x4c && body[body.len() - 17] == 0x10
}

/// The body of a group-addressed robust management frame comes, with the MAC header of 24 octets:
/// what stands in it before its Management MIC element. None where it does not end in one, or the
/// guard refuses it, which is then as before.
pub fn open_management<'a>(guard: &mut BipGuard, header: &[u8], body: &'a [u8]) -> Option<&'a [u8]>
    requires header { length header.now ≡ 24 }
    ensures opened { IfSome result (λ content. IfSome guard.old (λ h.
        BipProtected h.key header.now h.id (ipn_in body.now) content.now body.now)) }
    ensures guard { MatchOption result (guard.new ≡ guard.old)
        (λ _. guard.new ≡ option_map (with_taken (ipn_in body.now)) guard.old) }
    ensures taken { EndsInMme body.now → unprotect_fault guard.old header.now body.now ≡ None
        → IsSome result }
{
    if !ends_in_mme(body) {
        return None;
    }
    match guard.unprotect(header, body) {
        Ok(end) => Some(&body[..end]),
        Err(_) => None,
    }
}
