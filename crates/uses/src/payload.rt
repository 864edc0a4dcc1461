//! A payload under CCMP.

ghost use Rattle.std.specs.Prelude.{◌≡◌, ◌<◌, ◌≤◌, ◌+◌, ◌^◌, suc, length, take};
ghost use Rattle.replay_window.specs.Numbers.{last_number};
ghost use Rattle.ccmp_guard.specs.Ccmp.{IsHeader, Protected};

use ccmp_guard::{Guard, Role, a_body_has_one_plain_text};

/// A payload goes from one end of a link to the other, under the temporal key that both installed.
/// The packet number `used` is the last one that was used, and the greatest that was taken. The
/// body of the frame comes into the front of `body`, what is opened into the front of `opened`, and
/// the answer is how many octets that has.
///
/// Neither end refuses, and what is opened is the payload.
pub fn carry(
    tk: &[u8; 16],
    used: u64,
    header: &[u8],
    payload: &[u8],
    body: &mut [u8],
    opened: &mut [u8],
) -> usize
    requires number { used < last_number }
    requires header { IsHeader header.now }
    requires short { length payload.now < 2 ^ 16 }
    requires body { length payload.now + 16 ≤ length body.old }
    requires room { length payload.now ≤ length opened.old }
    ensures same { take result opened.new ≡ payload.now }
    ensures len { result ≡ length payload.now }
    ensures sealed { Protected tk.now header.now 0 (suc used) payload.now
        (take (length payload.now + 16) body.new) }
{
    a_body_has_one_plain_text();
    let mut sender = Guard::empty();
    sender.install(tk, Role::Pairwise, used, 0);
    let Ok(end) = sender.protect(header, payload, body) else {
        unreachable!()
    };
    let mut receiver = Guard::empty();
    receiver.install(tk, Role::Pairwise, 0, used);
    match receiver.unprotect(header, &body[..end], opened) {
        Ok(size) => size,
        Err(_) => unreachable!(),
    }
}
