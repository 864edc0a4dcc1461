//! Events that do nothing.

ghost use Rattle.std.specs.Prelude.{◌≡◌, ◌≤◌, ◌+◌, [], ◌∷◌, ◌++◌, IfOk, OnOk, OnErr};
ghost use Rattle.run_journal.specs.declared.acts.Act.TheVariants.{Idle};
ghost use Rattle.run_journal.specs.declared.acts.Outcome.TheVariants as outcome;

use crate::outbox::Outbox;
use domain_base::NoMemory;
use run_journal::{Act, Outcome, Why};

/// Nothing is done, and that is why. Room for one more act is left.
pub fn idle(why: Why, out: &mut Outbox) -> Result<Outcome, NoMemory>
    ensures outcome { IfOk result (λ came. came ≡ outcome.Idle why) }
    ensures acts { OnOk result (out.new.acts ≡ out.old.acts ++ Idle why ∷ []) }
    ensures kept { OnErr result (out.new.acts ≡ out.old.acts) }
    ensures room { OnOk result (1 ≤ out.new.spare) }
{
    out.reserve(2)?;
    Ok(stay_idle(why, out))
}

/// The same, where there is room. Takes no memory.
pub fn stay_idle(why: Why, out: &mut Outbox) -> Outcome
    requires { 1 ≤ out.old.spare }
    ensures outcome { result ≡ outcome.Idle why }
    ensures acts { out.new.acts ≡ out.old.acts ++ Idle why ∷ [] }
    ensures spare { out.old.spare ≤ out.new.spare + 1 }
{
    out.add(Act::Idle { why });
    Outcome::Idle(why)
}
