//! Octets of a bounded number, kept without taking memory.

ghost use Rattle.std.specs.Prelude.{◌≡◌, ◌≤◌, length};

use crate::octets::put;
use std::marker::Model;

/// At most `N` octets. Contracts see their list.
#[derive(Drop)]
pub struct ShortOctets<const N: usize> {
    octets: [u8; N],
    len: usize,
}

impl<const N: usize> Model for ShortOctets<N> {
    ghost use Rattle.std.specs.Prelude.{◌≤◌, ℕ, List, take};

    ghost Value = { List ℕ };

    ghost view = { λ o. take o.len o.octets };

    ghost invariant = { λ o. o.len ≤ N };
}

impl<const N: usize> ShortOctets<N> {
    /// These octets.
    pub fn of(octets: &[u8]) -> Self
        requires { length octets.now ≤ N }
        ensures { result ≡ octets.now }
    {
        let mut kept = [0; N];
        let len = put(&mut kept, 0, octets);
        ShortOctets { octets: kept, len }
    }

    /// The octets in order.
    pub fn as_slice(&self) -> &[u8]
        ensures { result.now ≡ self.now }
    {
        let (front, _) = self.octets.split_at(self.len);
        front
    }
}
