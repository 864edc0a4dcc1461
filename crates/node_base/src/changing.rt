//! What a changed key is to a node.

ghost use Rattle.std.specs.Prelude.{◌≡◌, length};
ghost use Rattle.domain_rules.specs.Network.{InForm};
ghost use Rattle.node_base.specs.Changing.{most_changed};

use run_journal::Domain;

/// To how many acts a changed key comes at a node at most: at an access point to four for each
/// station, and the switch to its newest group keys.
pub fn most_changed(domain: &Domain) -> usize
    requires { InForm domain.now }
    ensures { result ≡ most_changed (length domain.now.stas) }
{
    6 + 4 * domain.stas.len()
}
