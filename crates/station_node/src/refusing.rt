//! Frames that a station refuses, and does nothing else about.

ghost use Rattle.std.specs.Prelude.{◌≡◌, ◌++◌, [], ◌∷◌, Some, None, IfOk, OnOk, OnErr};
ghost use Rattle.domain_base.specs.declared.names.Node.TheVariants.{Ap};
ghost use Rattle.run_journal.specs.declared.acts.Outcome.TheVariants.{Refused};
ghost use Rattle.run_journal.specs.declared.acts.Kind.TheVariants.{Key};
ghost use Rattle.run_journal.specs.declared.acts.Reason.TheVariants.{Unawaited};
ghost use Rattle.run_journal.specs.declared.acts.Act.TheVariants.{Took};

use act_memory::{Outbox, settle};
use domain_base::{NoMemory, Node};
use frame_intake::Heard;
use run_journal::{Kind, Outcome, Reason};
use std::alloc::Global;

/// A frame of that access point refused.
pub fn refuse(
    alloc: Global,
    ap: u16,
    octets: &[u8],
    kind: Kind,
    why: Reason,
    out: &mut Outbox,
) -> Result<Outcome, NoMemory>
    ensures outcome { IfOk result (λ came. came ≡ Refused why) }
    ensures acts { OnOk result (out.new.acts ≡ out.old.acts
        ++ Took (Some (Ap ap)) octets.now kind (Refused why) None ∷ []) }
    ensures kept { OnErr result (out.new.acts ≡ out.old.acts) }
{
    settle(
        alloc,
        Some(Node::Ap(ap)),
        octets,
        kind,
        Outcome::Refused(why),
        out,
    )
}

/// An EAPOL-Key message of that access point which nothing awaits.
pub fn refuse_message(
    alloc: Global,
    ap: u16,
    heard: &Heard<'_>,
    out: &mut Outbox,
) -> Result<Outcome, NoMemory>
    ensures outcome { IfOk result (λ came. came ≡ Refused Unawaited) }
    ensures acts { OnOk result (out.new.acts ≡ out.old.acts
        ++ Took (Some (Ap ap)) heard.now.octets.now (Key heard.now.message.message)
        (Refused Unawaited) None ∷ []) }
    ensures kept { OnErr result (out.new.acts ≡ out.old.acts) }
{
    let kind = Kind::Key(heard.message.message);
    refuse(alloc, ap, heard.octets, kind, Reason::Unawaited, out)
}
