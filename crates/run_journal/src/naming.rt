//! Which inputs of a key have one name.

ghost use Rattle.std.specs.Prelude.{◌≡◌, ◌↔◌, IsTrue};
ghost use Rattle.key_hierarchy.specs.Keys.{lesser, greater};
ghost use Rattle.run_journal.specs.Premises.{name};
ghost use Rattle.run_journal.specs.Looking.{SameInRoles, SameInOrder};

use domain_base::Akm;
use key_hierarchy::Inputs;
use std::cmp::Ordering;

fn lesser<'a>(a: &'a [u8], b: &'a [u8]) -> &'a [u8]
    ensures { result.now ≡ lesser a.now b.now }
{
    match a.cmp(b) {
        Ordering::Less | Ordering::Equal => a,
        Ordering::Greater => b,
    }
}

fn greater<'a>(a: &'a [u8], b: &'a [u8]) -> &'a [u8]
    ensures { result.now ≡ greater a.now b.now }
{
    match a.cmp(b) {
        Ordering::Less | Ordering::Equal => b,
        Ordering::Greater => a,
    }
}

// The name of the network, the mobility domain and the R0KH-ID.
fn same_network(i: &Inputs, m: &Inputs) -> bool
    ensures { IsTrue result ↔
        ((i.now.ssid ≡ m.now.ssid)
        × ((i.now.mdid ≡ m.now.mdid) × (i.now.r0kh_id ≡ m.now.r0kh_id))) }
{
    i.ssid.as_slice() == m.ssid.as_slice()
        && i.mdid == m.mdid
        && i.r0kh_id.as_slice() == m.r0kh_id.as_slice()
}

// All that a key is derived from, each in its role.
fn same_in_roles(i: &Inputs, m: &Inputs) -> bool
    ensures { IsTrue result ↔ SameInRoles i.now m.now }
{
    same_network(i, m)
        && i.aa == m.aa
        && i.spa == m.spa
        && i.anonce == m.anonce
        && i.snonce == m.snonce
}

// Two octets' lists by their order are two others by theirs.
fn same_pair(a: &[u8], b: &[u8], c: &[u8], d: &[u8]) -> bool
    ensures { IsTrue result ↔
        ((lesser a.now b.now ≡ lesser c.now d.now) × (greater a.now b.now ≡ greater c.now d.now)) }
{
    lesser(a, b) == lesser(c, d) && greater(a, b) == greater(c, d)
}

// The addresses and the nonces by their order.
fn same_in_order(i: &Inputs, m: &Inputs) -> bool
    ensures { IsTrue result ↔ SameInOrder i.now m.now }
{
    same_pair(&i.aa.0, &i.spa.0, &m.aa.0, &m.spa.0)
        && same_pair(&i.anonce, &i.snonce, &m.anonce, &m.snonce)
}

/// Whether a derivation reads the same from both.
pub(crate) fn same_name(i: &Inputs, m: &Inputs) -> bool
    ensures { IsTrue result ↔ (name i.now ≡ name m.now) }
{
    if i.akm != m.akm || i.psk != m.psk {
        return false;
    }
    match i.akm {
        Akm::FtPsk => same_in_roles(i, m),
        Akm::Psk | Akm::PskSha256 => same_in_order(i, m),
    }
}
