//! What ends and what begins with a fast transition.

ghost use Rattle.std.specs.Prelude.{◌≡◌, ◌<◌, ◌≤◌, ◌+◌, ◌++◌, List, [], ◌∷◌, Option, is_some};
ghost use Rattle.run_journal.specs.declared.acts.Act.{Act as AnyAct};
ghost use Rattle.run_journal.specs.declared.acts.Act.TheVariants.{Opened, Drew};
ghost use Rattle.run_journal.specs.declared.acts.Start.TheVariants.{Roam};
ghost use Rattle.run_journal.specs.declared.acts.Drawn.TheVariants.{Nonce};
ghost use Rattle.domain_rules.specs.Closing.{close_attempt};
ghost use Rattle.ft_exchange.specs.Told.{begun_acts, left_acts};

use act_memory::Outbox;
use domain_base::Node;
use run_journal::{Act, Drawn, Keyed, Part, Start};

// The attempt that there was is closed.
#[tactic(auto, using(crate::proofs::Asking::closes_it, crate::proofs::Asking::closes_none))]
fn add_closed(peer: Node, had_attempt: bool, out: &mut Outbox)
    requires { 0 < out.old.spare }
    ensures acts { (part : Option (List AnyAct)) → is_some part ≡ had_attempt
        → out.new.acts ≡ out.old.acts ++ close_attempt peer part }
    ensures spare { out.old.spare ≤ out.new.spare + 1 }
{
    if had_attempt {
        let part = Part::Attempt;
        out.add(Act::Closed { peer, part });
    }
}

// An attempt began with that nonce, in place of the one that there was.
fn add_attempt(peer: Node, had_attempt: bool, anonce: [u8; 32], out: &mut Outbox)
    requires { 3 ≤ out.old.spare }
    ensures acts { (part : Option (List AnyAct)) → is_some part ≡ had_attempt
        → out.new.acts ≡ out.old.acts
        ++ (close_attempt peer part ++ Opened peer Roam ∷ Drew (Nonce anonce) ∷ []) }
    ensures spare { out.old.spare ≤ out.new.spare + 3 }
{
    add_closed(peer, had_attempt, out);
    let start = Start::Roam;
    out.add(Act::Opened { peer, start });
    let value = Drawn::Nonce(anonce);
    out.add(Act::Drew { value });
}

/// An attempt began in place of the one that there was, where a key was derived.
pub fn add_begun(peer: Node, had_attempt: bool, derived: Option<Keyed>, out: &mut Outbox)
    requires { 3 ≤ out.old.spare }
    ensures acts { (part : Option (List AnyAct)) → is_some part ≡ had_attempt
        → out.new.acts ≡ out.old.acts ++ begun_acts peer part derived }
    ensures spare { out.old.spare ≤ out.new.spare + 3 }
{
    let Some(key) = derived else { return };
    add_attempt(peer, had_attempt, key.anonce, out);
}

/// The session with the access point that a station leaves is closed, where a key was installed.
pub fn add_left(left: Option<Node>, installed: Option<Keyed>, out: &mut Outbox)
    requires { 0 < out.old.spare }
    ensures acts { out.new.acts ≡ out.old.acts ++ left_acts left installed }
    ensures spare { out.old.spare ≤ out.new.spare + 1 }
{
    let Some(_) = installed else { return };
    let Some(peer) = left else { return };
    let part = Part::Session;
    out.add(Act::Closed { peer, part });
}
