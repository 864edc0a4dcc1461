//! What is told of protected data that was opened, or refused.

ghost use Rattle.std.specs.Prelude.{◌≡◌, ◌≤◌, ◌<◌, ◌+◌, ◌++◌, [], ◌∷◌, Some, vec_len};
ghost use Rattle.std.specs.Vec.{vec_capacity};
ghost use Rattle.ccmp_guard.specs.Ccmp.{packet_number};
ghost use Rattle.run_journal.specs.declared.acts.Kind.TheVariants.{Data as OfData};
ghost use Rattle.run_journal.specs.declared.acts.Outcome.TheVariants.{Accepted, Refused};
ghost use Rattle.run_journal.specs.declared.acts.Act.TheVariants.{Took, HandedUp};
ghost use Rattle.domain_rules.specs.DataFrames.{data_seal};
ghost use Rattle.frame_intake.specs.SealedFields.{IsSealedData};
ghost use Rattle.frame_intake.specs.Views.{sealed_fields};
ghost use Rattle.data_frames.specs.Taking.{reason_of, covered_front, refusal};

use crate::rooms::Plain;
use act_memory::{Outbox, append};
use ccmp_guard::{GuardFault, packet_number};
use domain_base::{Node, Octets, Tid};
use frame_intake::SealedData;
use run_journal::{Act, Kind, Outcome, Reason, Seal};

/// The key under which a frame was opened: its octets, its key id, and the TID of the receive
/// counter.
#[derive(Clone, Copy)]
pub struct OpenedUnder {
    /// Its octets.
    pub tk: [u8; 16],
    /// Its key id.
    pub id: u8,
    /// The TID of its counter, which is 0 for a group key.
    pub tid: Tid,
}

/// Why protected data is refused that came as far as its key.
pub fn reason(fault: GuardFault) -> Reason
    ensures { result ≡ reason_of fault }
{
    match fault {
        GuardFault::Replayed(kept) => Reason::Replayed(kept),
        GuardFault::NoKey | GuardFault::KeyId => Reason::NoKey,
        GuardFault::Seal | GuardFault::Header | GuardFault::Spent => Reason::Seal,
    }
}

/// The frame was taken, and its payload, which was opened, is handed up.
pub fn add_opened(
    from: Node,
    taken: Vec<u8>,
    frame: &SealedData<'_>,
    key: OpenedUnder,
    opened: Plain,
    out: &mut Outbox,
)
    requires whole { IsSealedData (sealed_fields frame.now) }
    requires covered { opened.covered.items
        ≡ covered_front frame.now.header.octets.now (packet_number frame.now.body.now) }
    requires capacity { vec_len opened.covered + vec_len opened.plain
        ≤ vec_capacity opened.covered }
    requires room { 2 ≤ out.old.spare }
    ensures acts { out.new.acts ≡ out.old.acts
        ++ Took (Some from) taken.items OfData Accepted (Some (data_seal key.tk
        frame.now.header.octets.now (packet_number frame.now.body.now) opened.plain.items))
        ∷ HandedUp from key.tk key.id key.tid (packet_number frame.now.body.now) opened.plain.items
        ∷ [] }
{
    let Plain {
        plain,
        covered,
        seal,
    } = opened;
    let OpenedUnder { tk, id, tid } = key;
    let number = packet_number(frame.body);
    let mut covered = covered;
    append(&mut covered, &plain);
    out.add(Act::Took {
        from: Some(from),
        octets: Octets(taken),
        kind: Kind::Data,
        outcome: Outcome::Accepted,
        seal: Some(seal.filled(Seal {
            octets: Octets(covered),
            key: tk,
        })),
    });
    out.add(Act::HandedUp {
        peer: from,
        key: tk,
        id,
        tid,
        number,
        octets: Octets(plain),
    });
}

/// The frame was taken, and is refused for that fault.
pub fn add_refused(from: Node, taken: Vec<u8>, fault: GuardFault, out: &mut Outbox) -> Outcome
    requires { 0 < out.old.spare }
    ensures outcome { result ≡ Refused (reason_of fault) }
    ensures acts { out.new.acts ≡ out.old.acts ++ refusal from taken.items (reason_of fault) }
{
    let outcome = Outcome::Refused(reason(fault));
    out.add(Act::Took {
        from: Some(from),
        octets: Octets(taken),
        kind: Kind::Data,
        outcome,
        seal: None,
    });
    outcome
}
