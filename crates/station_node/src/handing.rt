//! A message handed to a supplicant.

ghost use Rattle.std.specs.Prelude.{◌≡◌, ◌≤◌, length, option_map, IfOk, OnErr};
ghost use Rattle.run_journal.specs.declared.reply.Keyed.{Keyed as AnyKeyed};
ghost use Rattle.domain_base.specs.declared.names.Node.TheVariants.{Ap};
ghost use Rattle.eapol_key.specs.Fields.{IsKeyFrame};
ghost use Rattle.run_journal.specs.Events.{IsListed, IsPeerOf};
ghost use Rattle.supplicant.specs.State.{both};
ghost use Rattle.station_node.specs.Handed.{IsHanded, handing};

use act_memory::{Between, Outbox, Room};
use domain_base::{NoMemory, Node, ShortOctets};
use frame_intake::Heard;
use group_key::GroupMemory;
use key_hierarchy::LastDerived;
use node_base::Here;
use run_journal::{Outcome, Reply};
use supplicant::Supplicant;

/// What came of a message.
#[derive(Clone, Copy)]
pub struct Came {
    /// What came of it.
    pub outcome: Outcome,
    /// The temporal key that it installed, if it did: then it made an attempt a session.
    pub installed: Option<[u8; 16]>,
}

/// Hands a message of that access point to the supplicant of the station with it, and to the group
/// keys that are kept of it. `derived` has the keys that the station derived last.
pub fn hand(
    here: Here<'_>,
    ap: u16,
    heard: &Heard<'_>,
    supplicant: &mut Supplicant,
    memory: &mut GroupMemory,
    derived: &mut LastDerived,
    out: &mut Outbox,
) -> Result<Came, NoMemory>
    requires listed { IsListed here.domain.now here.node }
    requires peer { IsPeerOf here.domain.now here.node (Ap ap) }
    requires frame { IsKeyFrame heard.now.message.frame }
    ensures handed { IfOk result (λ came.
        IsHanded here.entry.domain.now here.entry.node (Ap ap) heard.now
        (handing (both supplicant.old memory.old) (both supplicant.new memory.new)
        out.old.acts out.new.acts) came) }
    ensures same { OnErr result ((supplicant.new ≡ supplicant.old) × (memory.new ≡ memory.old)) }
    ensures kept { OnErr result (out.new.acts ≡ out.old.acts) }
{
    let message = &heard.message;
    out.reserve(8)?;
    let room = Room::take(here, Node::Ap(ap), supplicant.r0kh_id(), heard)?;
    let had_session = supplicant.has_session();
    let mut reply = Reply::empty();
    let outcome = supplicant.step(message.message, &message.frame, memory, derived, &mut reply);
    let between = Between::nothing(here.alloc);
    room.add_reply(outcome, had_session, &reply, between, out);
    let installed = installed_key(&reply);
    Ok(Came { outcome, installed })
}

// The temporal key that a reply installs.
fn installed_key(reply: &Reply) -> Option<[u8; 16]>
    ensures { result ≡ option_map (λ (y : AnyKeyed). y.ptk.tk) reply.now.installed }
{
    let Some(key) = reply.installed else {
        return None;
    };
    let tk = key.ptk.tk;
    Some(tk)
}

/// The R0KH-ID of a supplicant's association, which has one with suite 4.
pub fn holder_of(supplicant: &Supplicant) -> ShortOctets<48>
    ensures { length supplicant.now.base.r0kh_id ≤ 48 → result ≡ supplicant.now.base.r0kh_id }
{
    let id = supplicant.r0kh_id();
    if id.len() > 48 {
        return ShortOctets::of(&[]);
    }
    ShortOctets::of(id)
}
