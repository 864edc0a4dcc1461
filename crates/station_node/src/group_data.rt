//! Protected data and action frames for a group of stations.

ghost use Rattle.std.specs.Prelude.{◌≡◌, true, false, IfOk, OnErr, MatchOption};
ghost use Rattle.bip_guard.specs.Bip.{EndsInMme};
ghost use Rattle.bip_guard.specs.Bip as bip;
ghost use Rattle.frame_intake.specs.ActionFields.{IsActionFrame};
ghost use Rattle.frame_intake.specs.SealedFields.{IsSealedData};
ghost use Rattle.frame_intake.specs.Views.{action_fields, sealed_fields};
ghost use Rattle.group_key.specs.Keys.{is_integrity_id};
ghost use Rattle.node_base.specs.Events.{seen};
ghost use Rattle.station_node.specs.GroupData.{IsActionTaken, IsGroupTaken};

use crate::refusing::refuse;
use act_memory::Outbox;
use air_frame::Action;
use bip_guard::ipn_in;
use ccmp_guard::{key_id_in, packet_number};
use data_frames::{KeptKey, take_action};
use domain_base::{NoMemory, Node};
use frame_intake::SealedData;
use group_key::GroupMemory;
use run_journal::{Kind, Outcome, Reason};
use std::alloc::Global;

/// Takes protected data for a group from that access point, under the later of the keys with its
/// key id that are kept of it.
pub fn take_group(
    alloc: Global,
    ap: u16,
    octets: &[u8],
    frame: &SealedData<'_>,
    memory: &mut GroupMemory,
    out: &mut Outbox,
) -> Result<Outcome, NoMemory>
    requires whole { IsSealedData (sealed_fields frame.now) }
    ensures taken { IfOk result (λ outcome. IsGroupTaken ap octets.now (sealed_fields frame.now)
        memory.old memory.new (seen out.old.acts out.new.acts outcome)) }
    ensures same { OnErr result (memory.new ≡ memory.old) }
    ensures kept { OnErr result (out.new.acts ≡ out.old.acts) }
{
    let id = key_id_in(frame.body);
    let Some(found) = memory.find(id) else {
        return refuse(alloc, ap, octets, Kind::Data, Reason::NoKey, out);
    };
    let (key, counter) = found;
    let kept = KeptKey { key, id, counter };
    let outcome = kept.take(alloc, Node::Ap(ap), octets, frame, out)?;
    if let Outcome::Accepted = outcome {
        memory.take(id, packet_number(frame.body));
    }
    Ok(outcome)
}

// The key id in the MME of a body, where it is one of IGTKs.
fn integrity_id(body: &[u8]) -> Option<u8>
    requires { EndsInMme body.now }
    ensures { MatchOption result (is_integrity_id (bip.key_id_in body.now) ≡ false)
        (λ id. (id ≡ bip.key_id_in body.now) × (is_integrity_id id ≡ true)) }
{
    match bip_guard::key_id_in(body) {
        4 => Some(4),
        5 => Some(5),
        _ => None,
    }
}

/// Takes an action frame for a group from that access point, under the later of the IGTKs with its
/// key id that are kept of it.
pub fn take_integrity(
    alloc: Global,
    ap: u16,
    octets: &[u8],
    frame: &Action<'_>,
    memory: &mut GroupMemory,
    out: &mut Outbox,
) -> Result<Outcome, NoMemory>
    requires whole { IsActionFrame (action_fields frame.now) }
    ensures taken { IfOk result (λ outcome. IsActionTaken ap octets.now (action_fields frame.now)
        memory.old memory.new (seen out.old.acts out.new.acts outcome)) }
    ensures same { OnErr result (memory.new ≡ memory.old) }
    ensures kept { OnErr result (out.new.acts ≡ out.old.acts) }
{
    let Some(id) = integrity_id(frame.body) else {
        return refuse(alloc, ap, octets, Kind::Action, Reason::NoKey, out);
    };
    let Some(found) = memory.find(id) else {
        return refuse(alloc, ap, octets, Kind::Action, Reason::NoKey, out);
    };
    let (key, counter) = found;
    let kept = KeptKey { key, id, counter };
    let outcome = take_action(&kept, alloc, Node::Ap(ap), octets, frame, out)?;
    if let Outcome::Accepted = outcome {
        memory.take(id, ipn_in(frame.body));
    }
    Ok(outcome)
}
