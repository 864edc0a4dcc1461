//! Whether a node can start.

ghost use Rattle.std.specs.Prelude.{◌≡◌, ◌<◌, IsTrue};
ghost use Rattle.domain_rules.specs.AccessPointRows.{last_draw};
ghost use Rattle.domain_rules.specs.Network.{draw_end};
ghost use Rattle.embedded_node.specs.Headers.{bare};
ghost use Rattle.embedded_node.specs.Starts.{can_start, can_start_ap};

use crate::header::{Header, is_ssid};
use crate::listing::{is_id, is_single};
use domain_base::Mac;
use node_base::DRAW_END;

/// Whether a node can start so: its draws are not at their end, and the name of its network and its
/// address are such.
pub(crate) fn can_start(header: &Header<'_>, address: Mac, first_draw: u64) -> bool
    ensures same { result ≡ can_start header.now address first_draw }
    ensures draw { IsTrue result → first_draw < draw_end }
{
    first_draw < DRAW_END && is_ssid(header.ssid) && is_single(&address.0)
}

// The number of the last draw of an access point as it starts: it draws a GTK, and where management
// frames are protected an IGTK.
fn last_draw(header: &Header<'_>, first_draw: u64) -> u64
    requires { first_draw < draw_end }
    ensures { result ≡ last_draw (bare header.now) first_draw }
{
    if header.extras.mfp {
        first_draw + 1
    } else {
        first_draw
    }
}

/// The same of an access point, whose R0KH-ID is one, and which draws its first group keys.
pub(crate) fn can_start_ap(
    header: &Header<'_>,
    address: Mac,
    r0kh_id: &[u8],
    first_draw: u64,
) -> bool
    ensures same { result ≡ can_start_ap header.now address r0kh_id.now first_draw }
    ensures draw { IsTrue result → last_draw (bare header.now) first_draw < draw_end }
{
    can_start(header, address, first_draw)
        && is_id(r0kh_id)
        && last_draw(header, first_draw) < DRAW_END
}
