//! Addresses of groups.

ghost use Rattle.std.specs.Prelude.{◌≡◌};
ghost use Rattle.run_journal.specs.Addresses.{is_group};

use domain_base::Mac;

/// Whether an address is that of a group: it has the lowest bit of its first octet set
/// (IEEE Std 802.11-2020, 9.2.4.3).
pub fn is_group(address: Mac) -> bool
    ensures { result ≡ is_group address.0 }
{
    address.0[0] % 2 == 1
}
