//! An access point is to have the key of a station revoked.

ghost use Rattle.std.specs.Prelude.{◌≡◌, ◌≤◌, ◌+◌, ◌++◌, List, [], ◌∷◌, true, length, replicate};
ghost use Rattle.std.specs.Prelude.{IfOk, OnOk, OnErr};
ghost use Rattle.domain_base.specs.declared.names.Akm.TheVariants.{FtPsk};
ghost use Rattle.domain_base.specs.declared.names.Node.TheVariants.{Ap, Sta};
ghost use Rattle.key_hierarchy.specs.declared.answers.RevokeAnswer.TheVariants.{Absent};
ghost use Rattle.key_holders.specs.Rows.{is_in};
ghost use Rattle.run_journal.specs.declared.acts.Act.{Act as AnyAct};
ghost use Rattle.run_journal.specs.declared.acts.Act.TheVariants.{Revoked};
ghost use Rattle.run_journal.specs.declared.acts.Outcome.TheVariants.{Done};
ghost use Rattle.domain_rules.specs.Network.{InForm};
ghost use Rattle.run_journal.specs.Events.{IsListed};
ghost use Rattle.ap_node.specs.Changing.{RevokesOld};
ghost use Rattle.ap_node.specs.Putting.{Revokes, RevokesWhere, LeavesOthers, OneChange};

use act_memory::Outbox;
use domain_base::{Akm, NoMemory, Node, ShortOctets};
use key_hierarchy::{LastDerived, RevokeAnswer};
use key_holders::Holders;
use node_base::{Here, address, psk, r0kh_id};
use run_journal::{Act, Outcome};

// With suite 4 the row is that of the PMK-R0 of the station (IEEE Std 802.11-2020, 12.7.1.6.3).
// Takes no memory.
fn revoke_row<H: Holders>(
    here: Here<'_>,
    ap: u16,
    station: u16,
    derived: &LastDerived,
    holders: &mut H,
) -> Act
    requires form { InForm here.domain.now }
    requires ap { IsListed here.domain.now (Ap ap) }
    requires station { IsListed here.domain.now (Sta station) }
    requires has { is_in ap (H.has holders.old) ≡ true }
    ensures revoked { Revokes here.entry.domain.now ap station (H.rows holders.old ap)
        (H.rows holders.new ap) result }
    ensures others { LeavesOthers ap (H.ids holders.old) (H.ids holders.new) (H.has holders.old)
        (H.has holders.new) (H.rows holders.old) (H.rows holders.new) }
    ensures change { OneChange H H.puts H.revokes ap holders.old holders.new }
    ensures no_less { H.no_less holders.old holders.new }
{
    let domain = here.domain;
    let peer = Node::Sta(station);
    let (sta, psk) = (address(domain, peer), psk(domain, Node::Ap(ap), peer));
    let r0kh_id = r0kh_id(domain, ap);
    let r0 = derived.r0(&psk, domain.ssid.as_slice(), domain.mdid, r0kh_id, sta);
    let name = r0.name();
    let answer = holders.revoke(ap, &name);
    Act::Revoked {
        r0kh_id: ShortOctets::of(r0kh_id),
        name,
        sta: Node::Sta(station),
        answer,
    }
}

// With suites 2 and 6 the key holder holds none: the name is 16 zero octets.
fn revoke_none(station: u16, id: &[u8]) -> Act
    requires { length id.now ≤ 48 }
    ensures { result ≡ Revoked id.now (replicate 16 0) (Sta station) Absent }
{
    Act::Revoked {
        r0kh_id: ShortOctets::of(id),
        name: [0; 16],
        sta: Node::Sta(station),
        answer: RevokeAnswer::Absent,
    }
}

/// Revokes the key of a station at the key holder of that access point, with suite 4 by the name of
/// its PMK-R0.
pub fn revoke<H: Holders>(
    here: Here<'_>,
    ap: u16,
    station: u16,
    derived: &LastDerived,
    holders: &mut H,
    out: &mut Outbox,
) -> Result<Outcome, NoMemory>
    requires form { InForm here.domain.now }
    requires ap { IsListed here.domain.now (Ap ap) }
    requires station { IsListed here.domain.now (Sta station) }
    requires has { is_in ap (H.has holders.old) ≡ true }
    ensures outcome { IfOk result (λ came. came ≡ Done) }
    ensures acts { OnOk result (RevokesWhere here.entry.domain.now.akm here.entry.domain.now ap
        station (H.rows holders.old ap) (H.rows holders.new ap) out.old.acts out.new.acts) }
    ensures same { OnErr result (H.rows holders.new ap ≡ H.rows holders.old ap) }
    ensures kept { OnErr result (out.new.acts ≡ out.old.acts) }
    ensures others { LeavesOthers ap (H.ids holders.old) (H.ids holders.new) (H.has holders.old)
        (H.has holders.new) (H.rows holders.old) (H.rows holders.new) }
    ensures change { OneChange H H.puts H.revokes ap holders.old holders.new }
    ensures no_less { H.no_less holders.old holders.new }
{
    out.reserve(1)?;
    match here.domain.akm {
        Akm::FtPsk => out.add(revoke_row(here, ap, station, derived, holders)),
        Akm::Psk | Akm::PskSha256 => out.add(revoke_none(station, r0kh_id(here.domain, ap))),
    }
    Ok(Outcome::Done)
}

/// Revokes the row of a station's key with suite 4, before that is changed. With suites 2 and 6 no
/// key holder has any, and nothing is told. Takes no memory.
pub fn revoke_old<H: Holders>(
    here: Here<'_>,
    ap: u16,
    station: u16,
    derived: &LastDerived,
    holders: &mut H,
    out: &mut Outbox,
)
    requires form { InForm here.domain.now }
    requires ap { IsListed here.domain.now (Ap ap) }
    requires station { IsListed here.domain.now (Sta station) }
    requires has { is_in ap (H.has holders.old) ≡ true }
    requires room { 1 ≤ out.old.spare }
    ensures revoked { (g : List AnyAct) × (out.new.acts ≡ out.old.acts ++ g)
        × RevokesOld here.entry.domain.now.akm here.entry.domain.now ap station
        (H.rows holders.old ap) (H.rows holders.new ap) g }
    ensures others { LeavesOthers ap (H.ids holders.old) (H.ids holders.new) (H.has holders.old)
        (H.has holders.new) (H.rows holders.old) (H.rows holders.new) }
    ensures no_less { H.no_less holders.old holders.new }
    ensures spare { out.old.spare ≤ out.new.spare + 1 }
{
    match here.domain.akm {
        Akm::FtPsk => out.add(revoke_row(here, ap, station, derived, holders)),
        Akm::Psk | Akm::PskSha256 => {}
    }
}
