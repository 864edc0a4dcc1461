//! Whether pairwise keys are renewed inside their sessions, and at which packet numbers without
//! being asked.

ghost use Rattle.std.specs.Prelude.{◌≡◌};
ghost use Rattle.run_journal.specs.Events.{can_renew, has_renewals, renews};
ghost use Rattle.domain_rules.specs.Network.{is_number, renews_at};

use domain_base::Akm;
use run_journal::{Domain, Version};

// With all suites but 4.
fn can_renew(akm: Akm) -> bool
    ensures { result ≡ can_renew akm }
{
    match akm {
        Akm::Psk | Akm::PskSha256 => true,
        Akm::FtPsk => false,
    }
}

// By version 2.
fn has_renewals(domain: &Domain) -> bool
    ensures { result ≡ has_renewals domain.now }
{
    match domain.extras.version {
        Version::One => false,
        Version::Two => true,
    }
}

/// Whether pairwise keys are renewed inside their sessions: by version 2, with all suites but 4.
pub fn renews(domain: &Domain) -> bool
    ensures { result ≡ renews domain.now }
{
    has_renewals(domain) && can_renew(domain.akm)
}

// It is that number, where there is one.
fn is_number(at: Option<u32>, number: u64) -> bool
    ensures { result ≡ is_number at number }
{
    match at {
        Some(at) => u64::from(at) == number,
        None => false,
    }
}

/// Whether an access point that uses that packet number of a pairwise key begins to renew the key
/// without being asked.
pub fn renews_at(domain: &Domain, number: u64) -> bool
    ensures { result ≡ renews_at domain.now number }
{
    renews(domain) && is_number(domain.extras.renew_at, number)
}
