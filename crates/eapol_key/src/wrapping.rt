//! Key data in its key wrap.

ghost use Rattle.std.specs.Prelude.{◌≡◌, ◌≤◌, ◌+◌, ◌-◌, ℕ, List, length, take, drop, IfOk, OnErr};
ghost use Rattle.std.specs.Prelude.{IsOkAnd};
ghost use Rattle.key_wrap.specs.KeyWrap.{Wraps};
ghost use Rattle.domain_base.specs.Padding.{padding};
ghost use Rattle.eapol_key.specs.KeyData.{padded, padded_length};

use key_wrap::{BadWrap, unwrap, wrap_in_place};

// The first octet behind key data that is padded.
const PADDING: u8 = 0xdd;

// How many octets key data of a length lacks.
fn padding(size: usize) -> usize
    ensures { result ≡ padding size }
{
    if size < 16 {
        16 - size
    } else {
        (8 - size % 8) % 8
    }
}

// Writes key data over the whole slice, padded.
fn put_padded(out: &mut [u8], plain: &[u8])
    requires { length out.old ≡ padded_length (length plain.now) }
    ensures { out.new ≡ padded plain.now }
{
    out.fill(0);
    out[..plain.len()].copy_from_slice(plain);
    if plain.len() < out.len() {
        out[plain.len()] = PADDING;
    }
}

/// Wraps key data under a KEK into the front of `out`, and gives the number of octets written: key
/// data shorter than 16 octets, or of a length that is no multiple of 8, is padded first, by dd and
/// zeros (IEEE Std 802.11-2020, 12.7.2; RFC 3394). Takes no memory.
pub fn close_key_data(kek: &[u8; 16], plain: &[u8], out: &mut [u8]) -> usize
    requires room { padded_length (length plain.now) + 8 ≤ length out.old }
    ensures end { result ≡ padded_length (length plain.now) + 8 }
    ensures wrapped { Wraps kek.now (padded plain.now) (take result out.new) }
    ensures rest { (n : ℕ) → result ≤ n → drop n out.new ≡ drop n out.old }
    ensures len { length out.new ≡ length out.old }
{
    let end = plain.len() + padding(plain.len()) + 8;
    put_padded(&mut out[8..end], plain);
    wrap_in_place(kek, &mut out[..end]);
    end
}

/// Writes the key data that is wrapped to the input under a KEK into the front of `out`, with its
/// padding, and gives the number of its octets (IEEE Std 802.11-2020, 12.7.2; RFC 3394). What
/// stands there after a refusal is of no use. Takes no memory.
pub fn open_key_data(kek: &[u8; 16], wrapped: &[u8], out: &mut [u8]) -> Result<usize, BadWrap>
    requires room { length wrapped.now - 8 ≤ length out.old }
    ensures end { IfOk result (λ end. end + 8 ≡ length wrapped.now) }
    ensures unwrapped { IfOk result (λ end. Wraps kek.now (take end out.new) wrapped.now) }
    // where there is key data, it is given
    ensures only { (plain : List ℕ) → Wraps kek.now plain wrapped.now
        → IsOkAnd result (λ end. take end out.new ≡ plain) }
    ensures bad_wrap { OnErr result ((plain : List ℕ) → ¬ Wraps kek.now plain wrapped.now) }
    ensures rest { (n : ℕ) → length wrapped.now - 8 ≤ n → drop n out.new ≡ drop n out.old }
    ensures len { length out.new ≡ length out.old }
{
    unwrap(kek, wrapped, out)
}
