//! Whether an RSNE is another one.

ghost use Rattle.std.specs.Prelude.{◌≡◌, ◌↔◌, IsTrue, Some};
ghost use Rattle.std.specs.Option.{option_copied};

/// Whether an RSNE was found and is that one, octet by octet.
pub fn is_same_rsne(found: Option<&[u8]>, rsne: &[u8]) -> bool
    ensures { IsTrue result ↔ (option_copied found.entry ≡ Some rsne.now) }
{
    match found {
        Some(octets) => octets == rsne,
        None => false,
    }
}
