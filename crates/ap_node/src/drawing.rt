//! New group keys of an access point, as they are drawn (IEEE Std 802.11-2020, 12.7.7).

ghost use Rattle.std.specs.Prelude.{◌≡◌, ◌<◌, ◌≤◌, ◌+◌, ◌++◌, suc, nat_lt};
ghost use Rattle.run_journal.specs.Events.{IsListed};
ghost use Rattle.domain_rules.specs.Network.{draw_end, gtk};
ghost use Rattle.group_key.specs.Keys.{igtk_drawn};
ghost use Rattle.ap_node.specs.Drawing.{last_of, drawn_after, drew};

use act_memory::Outbox;
use domain_base::Node;
use node_base::{DRAW_END, gtk};
use run_journal::{Act, Domain, Drawn, GroupKind};

/// The group keys of one drawing.
#[derive(Clone, Copy)]
pub struct DrawnKeys {
    /// The GTK.
    pub gtk: [u8; 16],
    /// The IGTK, where management frames are protected.
    pub igtk: Option<[u8; 16]>,
}

// The IGTK of that draw number, where management frames are protected.
#[tactic(auto, using(crate::proofs::BothDrawn::drawn_with, crate::proofs::BothDrawn::drawn_without))]
fn draw_igtk(protects: bool, domain: &Domain, node: Node, number: u64) -> Option<[u8; 16]>
    requires { IsListed domain.now node }
    ensures { result ≡ igtk_drawn protects domain.now node number }
{
    if !protects {
        return None;
    }
    Some(gtk(domain, node, number))
}

/// The group keys that an access point draws next: the GTK under that draw number, and where
/// management frames are protected the IGTK under the one after it.
#[tactic(auto, using(crate::proofs::BothDrawn::drawn_next))]
pub fn draw_keys(protects: bool, domain: &Domain, node: Node, number: u64) -> DrawnKeys
    requires listed { IsListed domain.now node }
    requires low { number < draw_end }
    ensures gtk { result.gtk ≡ gtk domain.now node number }
    ensures igtk { result.igtk ≡ igtk_drawn protects domain.now node (suc number) }
{
    let key = gtk(domain, node, number);
    let igtk = draw_igtk(protects, domain, node, number + 1);
    DrawnKeys { gtk: key, igtk }
}

// The draw number of the last of new group keys, of which the first is that.
fn last_draw(protects: bool, number: u64) -> u64
    requires { number < draw_end }
    ensures { result ≡ last_of protects number }
{
    if protects { number + 1 } else { number }
}

/// Whether there are draw numbers for new group keys, of which the first is that: for a GTK, and
/// after it for an IGTK or for none.
#[tactic(auto, using(crate::proofs::BothDrawn::past_end))]
pub fn can_draw(protects: bool, number: u64) -> bool
    ensures { result ≡ nat_lt (last_of protects number) draw_end }
{
    if number >= DRAW_END {
        return false;
    }
    last_draw(protects, number) < DRAW_END
}

/// The draw number after those of new group keys, of which the first is that.
pub fn number_after(protects: bool, number: u64) -> u64
    requires { number < draw_end }
    ensures { result ≡ drawn_after protects number }
{
    if protects { number + 2 } else { number + 1 }
}

/// Adds the acts of drawing group keys. Takes no memory.
#[tactic(auto, using(crate::proofs::BothDrawn::drew_one, crate::proofs::BothDrawn::drew_two))]
pub fn add_drawn(keys: &DrawnKeys, out: &mut Outbox)
    requires room { 2 ≤ out.old.spare }
    ensures acts { out.new.acts ≡ out.old.acts ++ drew keys.now.gtk keys.now.igtk }
    ensures spare { out.old.spare ≤ out.new.spare + 2 }
{
    out.add(Act::Drew {
        value: Drawn::Group(GroupKind::Gtk, keys.gtk),
    });
    match keys.igtk {
        Some(igtk) => out.add(Act::Drew {
            value: Drawn::Group(GroupKind::Igtk, igtk),
        }),
        None => {}
    }
}
