//! What taking an EAPOL-Key message needs, and what the last one of an attempt puts with the key
//! holder of the access point.

ghost use Rattle.std.specs.Prelude.{◌≡◌, ◌≤◌, ◌+◌, true, [], length, IfOk, OnErr};
ghost use Rattle.domain_base.specs.declared.names.Node.TheVariants.{Ap, Sta};
ghost use Rattle.key_holders.specs.Rows.{is_in};
ghost use Rattle.domain_rules.specs.Network.{InForm};
ghost use Rattle.run_journal.specs.Events.{IsListed};
ghost use Rattle.frame_intake.specs.Views.{message_fields};
ghost use Rattle.ap_node.specs.Putting.{puts, Puts, PutsWhere, IsReady, LeavesOthers, OneChange};

use crate::ready::Ready;
use act_memory::{Between, Room};
use domain_base::{Akm, NoMemory, Node, Octets};
use frame_intake::Heard;
use key_hierarchy::{LastDerived, PutAnswer};
use key_holders::{HolderRow, Holders};
use node_base::{Here, address, psk, r0kh_id};
use run_journal::Act;

// Puts the PMK-R0 of a station with the key holder of the access point (IEEE Std 802.11-2020,
// 13.2.2). The memory for the act is taken first.
fn put_row<H: Holders>(
    here: Here<'_>,
    ap: u16,
    station: u16,
    derived: &LastDerived,
    holders: &mut H,
) -> Result<Act, NoMemory>
    requires form { InForm here.domain.now }
    requires ap { IsListed here.domain.now (Ap ap) }
    requires station { IsListed here.domain.now (Sta station) }
    requires has { is_in ap (H.has holders.old) ≡ true }
    ensures put { IfOk result (λ act. Puts here.entry.domain.now ap station
        (H.rows holders.old ap) (H.rows holders.new ap) act) }
    ensures kept { OnErr result (H.rows holders.new ap ≡ H.rows holders.old ap) }
    ensures others { LeavesOthers ap (H.ids holders.old) (H.ids holders.new) (H.has holders.old)
        (H.has holders.new) (H.rows holders.old) (H.rows holders.new) }
    ensures change { OneChange H H.puts H.revokes ap holders.old holders.new }
    ensures no_less { H.no_less holders.old holders.new }
{
    let domain = here.domain;
    let r0kh_id = r0kh_id(domain, ap);
    let id = Vec::from_slice(here.alloc, r0kh_id)?;
    let peer = Node::Sta(station);
    let (sta, psk) = (address(domain, peer), psk(domain, Node::Ap(ap), peer));
    let ssid = domain.ssid.as_slice();
    let row = HolderRow::of_last(derived, &psk, ssid, domain.mdid, r0kh_id, sta);
    let name = row.name;
    let answer = holders.put(ap, row);
    match answer {
        PutAnswer::NoMemory => Err(NoMemory),
        _ => Ok(Act::Put {
            r0kh_id: Octets(id),
            name,
            sta: Node::Sta(station),
            answer,
        }),
    }
}

// Whether a row is put: with suite 4, by the last message of an attempt.
fn puts(akm: Akm, is_final: bool) -> bool
    ensures { result ≡ puts akm is_final }
{
    match akm {
        Akm::FtPsk => is_final,
        Akm::Psk | Akm::PskSha256 => false,
    }
}

// The acts that a reply does not tell of: that a row was put, where one is to be.
fn between<H: Holders>(
    here: Here<'_>,
    ap: u16,
    station: u16,
    is_put: bool,
    derived: &LastDerived,
    holders: &mut H,
) -> Result<Between, NoMemory>
    requires form { InForm here.domain.now }
    requires ap { IsListed here.domain.now (Ap ap) }
    requires station { IsListed here.domain.now (Sta station) }
    requires has { is_in ap (H.has holders.old) ≡ true }
    ensures opened { IfOk result (λ b. b.opened.items ≡ []) }
    ensures put { IfOk result (λ b. PutsWhere is_put here.entry.domain.now ap station
        (H.rows holders.old ap) (H.rows holders.new ap) b.put.items) }
    ensures few { IfOk result (λ b. length b.opened.items + length b.put.items ≤ 1) }
    ensures kept { OnErr result (H.rows holders.new ap ≡ H.rows holders.old ap) }
    ensures others { LeavesOthers ap (H.ids holders.old) (H.ids holders.new) (H.has holders.old)
        (H.has holders.new) (H.rows holders.old) (H.rows holders.new) }
    ensures change { OneChange H H.puts H.revokes ap holders.old holders.new }
    ensures no_less { H.no_less holders.old holders.new }
{
    let mut between = Between::nothing(here.alloc);
    if !is_put {
        return Ok(between);
    }
    between.put.reserve(1)?;
    let act = put_row(here, ap, station, derived, holders)?;
    between.put.push_reserved(act);
    Ok(between)
}

/// Makes ready what an access point needs to take that message of a station. Where it is the last
/// of the attempt the PMK-R0 of the station is put, with suite 4; where memory runs out nothing is.
pub fn prepare<H: Holders>(
    here: Here<'_>,
    ap: u16,
    station: u16,
    heard: &Heard<'_>,
    is_final: bool,
    derived: &LastDerived,
    holders: &mut H,
) -> Result<Ready, NoMemory>
    requires form { InForm here.domain.now }
    requires node { here.node ≡ Ap ap }
    requires ap { IsListed here.domain.now (Ap ap) }
    requires station { IsListed here.domain.now (Sta station) }
    requires has { is_in ap (H.has holders.old) ≡ true }
    ensures ready { IfOk result (λ r. IsReady here.entry.domain.now ap station
        heard.now.octets.now (message_fields heard.now.message) is_final (H.rows holders.old ap)
        (H.rows holders.new ap) r) }
    ensures few { IfOk result (λ r. length r.between.opened.items + length r.between.put.items
        ≤ 1) }
    ensures kept { OnErr result (H.rows holders.new ap ≡ H.rows holders.old ap) }
    ensures others { LeavesOthers ap (H.ids holders.old) (H.ids holders.new) (H.has holders.old)
        (H.has holders.new) (H.rows holders.old) (H.rows holders.new) }
    ensures change { OneChange H H.puts H.revokes ap holders.old holders.new }
    ensures no_less { H.no_less holders.old holders.new }
{
    let peer = Node::Sta(station);
    let room = Room::take(here, peer, r0kh_id(here.domain, ap), heard)?;
    let is_put = puts(here.domain.akm, is_final);
    let between = between(here, ap, station, is_put, derived, holders)?;
    Ok(Ready {
        is_final,
        room,
        between,
    })
}
