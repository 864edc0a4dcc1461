//! Action frames to a group, taken under an IGTK that a station keeps (IEEE Std 802.11-2020,
//! 12.5.4.6).

ghost use Rattle.std.specs.Prelude.{◌≡◌, ◌<◌, ◌≤◌, ◌++◌, nat_lt, [], ◌∷◌, Some, IfOk, IfErr, OnOk};
ghost use Rattle.std.specs.Prelude.{OnErr};
ghost use Rattle.bip_guard.specs.Bip.{EndsInMme, ipn_in};
ghost use Rattle.run_journal.specs.declared.acts.Kind.TheVariants.{Action as OfAction};
ghost use Rattle.run_journal.specs.declared.acts.Outcome.TheVariants.{Accepted, Refused};
ghost use Rattle.run_journal.specs.declared.acts.Act.TheVariants.{Took, HandedUp};
ghost use Rattle.act_memory.specs.Templates.{seal_over};
ghost use Rattle.frame_intake.specs.ActionFields.{IsActionFrame};
ghost use Rattle.frame_intake.specs.Views.{action_fields};
ghost use Rattle.data_frames.specs.Actions.{integrity, action_outcome, action_acts};

use crate::action_rooms::ActionRoom;
use crate::group::KeptKey;
use act_memory::{Outbox, settle};
use air_frame::Action;
use bip_guard::{ipn_in, open_frame};
use domain_base::{NoMemory, Node, Octets};
use run_journal::{Act, Kind, Outcome, Reason, Seal};
use std::alloc::Global;

/// Takes an action frame to a group from that access point, under an IGTK that is kept of it: hands
/// up what stands before the Management MIC element, or refuses the frame. The counter of the key is
/// the caller's to move.
pub fn take_action(
    igtk: &KeptKey,
    alloc: Global,
    from: Node,
    octets: &[u8],
    frame: &Action<'_>,
    out: &mut Outbox,
) -> Result<Outcome, NoMemory>
    requires whole { IsActionFrame (action_fields frame.now) }
    ensures outcome { IfOk result (λ outcome. outcome ≡ action_outcome (action_fields frame.now)
        (integrity igtk.now.key igtk.now.id) igtk.now.counter) }
    ensures acts { OnOk result (out.new.acts ≡ out.old.acts
        ++ action_acts from octets.now (action_fields frame.now)
        (integrity igtk.now.key igtk.now.id) (action_outcome (action_fields frame.now)
        (integrity igtk.now.key igtk.now.id) igtk.now.counter)) }
    ensures above { IfOk result (λ outcome. outcome ≡ Accepted
        → igtk.now.counter < ipn_in frame.now.body.now) }
    ensures kept { OnErr result (out.new.acts ≡ out.old.acts) }
{
    match judged(igtk, frame) {
        Ok(()) => hand_up(igtk, alloc, from, octets, frame, out),
        Err(why) => {
            let outcome = Outcome::Refused(why);
            settle(alloc, Some(from), octets, Kind::Action, outcome, out)
        }
    }
}

// Is the packet number of a body above that one?
fn is_above(kept: u64, body: &[u8]) -> bool
    requires { EndsInMme body.now }
    ensures { result ≡ nat_lt kept (ipn_in body.now) }
{
    kept < ipn_in(body)
}

// Why a frame is refused, if it is: by its packet number, and then by its MIC.
fn judged(igtk: &KeptKey, frame: &Action<'_>) -> Result<(), Reason>
    requires whole { IsActionFrame (action_fields frame.now) }
    ensures accepted { OnOk result (action_outcome (action_fields frame.now)
        (integrity igtk.now.key igtk.now.id) igtk.now.counter ≡ Accepted) }
    ensures above { OnOk result (igtk.now.counter < ipn_in frame.now.body.now) }
    ensures refused { IfErr result (λ why. action_outcome (action_fields frame.now)
        (integrity igtk.now.key igtk.now.id) igtk.now.counter ≡ Refused why) }
{
    if !is_above(igtk.counter, frame.body) {
        return Err(Reason::Replayed(igtk.counter));
    }
    match open_frame(&igtk.key, frame.header.octets, frame.body) {
        Ok(_) => Ok(()),
        Err(_) => Err(Reason::Seal),
    }
}

// Hands up what stands before the Management MIC element of a frame that is accepted.
fn hand_up(
    igtk: &KeptKey,
    alloc: Global,
    from: Node,
    octets: &[u8],
    frame: &Action<'_>,
    out: &mut Outbox,
) -> Result<Outcome, NoMemory>
    requires whole { IsActionFrame (action_fields frame.now) }
    ensures outcome { IfOk result (λ outcome. outcome ≡ Accepted) }
    ensures acts { OnOk result (out.new.acts ≡ out.old.acts
        ++ action_acts from octets.now (action_fields frame.now)
        (integrity igtk.now.key igtk.now.id) Accepted) }
    ensures kept { OnErr result (out.new.acts ≡ out.old.acts) }
{
    let number = ipn_in(frame.body);
    out.reserve(2)?;
    let room = ActionRoom::take(alloc, octets, frame)?;
    add_handed_up(igtk, from, number, room, out);
    Ok(Outcome::Accepted)
}

// The frame was taken, and what stands in it is handed up.
fn add_handed_up(igtk: &KeptKey, from: Node, number: u64, room: ActionRoom, out: &mut Outbox)
    requires { 2 ≤ out.old.spare }
    ensures { out.new.acts ≡ out.old.acts
        ++ Took (Some from) room.taken.items OfAction Accepted
        (Some (seal_over room.covered.items igtk.now.key))
        ∷ HandedUp from igtk.now.key igtk.now.id 0 number room.content.items ∷ [] }
{
    let ActionRoom {
        taken,
        content,
        covered,
        seal,
    } = room;
    let under = igtk.used_here();
    let key = under.tk;
    out.add(Act::Took {
        from: Some(from),
        octets: Octets(taken),
        kind: Kind::Action,
        outcome: Outcome::Accepted,
        seal: Some(seal.filled(Seal {
            octets: Octets(covered),
            key,
        })),
    });
    out.add(Act::HandedUp {
        peer: from,
        key,
        id: under.id,
        tid: under.tid,
        number,
        octets: Octets(content),
    });
}
