//! Looks, and whether they are answered rightly.

ghost use Rattle.std.specs.Prelude.{◌≡◌, ◌↔◌, ◌++◌, IfSome, IsTrue, Some, bytes_eq, option_map};
ghost use Rattle.std.specs.Prelude.{position, reverse, suc};
ghost use Rattle.domain_base.specs.declared.names.Node.TheVariants.{Ap};
ghost use Rattle.key_hierarchy.specs.declared.answers.PullAnswer.TheVariants.{NoHolder};
ghost use Rattle.run_journal.specs.declared.domain.ListedAp.{ListedAp as AnyAp};
ghost use Rattle.run_journal.specs.Events.{IsListed};
ghost use Rattle.domain_rules.specs.Network.{InForm, holder_of, r0kh_id};
ghost use Rattle.domain_rules.specs.HeldRight.{AnsweredBy, AnsweredElsewhere, AnswersAt};
ghost use Rattle.domain_rules.specs.HeldRight.{GivesRightKey};
ghost use Rattle.look_audit.specs.Own.{HeldIn};
ghost use Rattle.look_audit.specs.Asked.{IsAskable, bound_of, looking_of};

use crate::keys::{is_r1, right_key};
use crate::rows::{Bound, same, stands, stands_here};
use domain_base::Node;
use key_hierarchy::PullAnswer;
use run_journal::{Domain, Entry, ListedAp};

/// A look, where it stands: its access point, its round, what it asked, for whom, and the answer.
#[derive(Clone, Copy)]
pub struct Look<'a> {
    /// The access point that asks.
    pub node: Node,
    /// The round.
    pub round: u64,
    /// The R0KH-ID that is asked for.
    pub r0kh_id: &'a [u8],
    /// PMKR0Name.
    pub name: &'a [u8; 16],
    /// The station.
    pub sta: Node,
    /// What was answered.
    pub answer: PullAnswer,
}

// The rounds before that of the look.
fn before(look: &Look<'_>) -> Bound
    ensures { bound_of result ≡ look.now.round }
{
    Bound {
        round: look.round,
        itself: false,
    }
}

// With that one too.
fn up_to(look: &Look<'_>) -> Bound
    ensures { bound_of result ≡ suc look.now.round }
{
    Bound {
        round: look.round,
        itself: true,
    }
}

// By another access point's holder.
fn is_answered_elsewhere(holder: Node, look: &Look<'_>, theirs: &[Entry], later: &[Entry]) -> bool
    ensures { IsTrue result ↔ AnsweredElsewhere holder (looking_of look.now) look.now.answer
        (reverse later.now ++ reverse theirs.now) }
{
    let (name, sta) = (look.name, look.sta);
    let (first, last) = (before(look), up_to(look));
    match look.answer {
        PullAnswer::Found(_) => stands(theirs, later, holder, name, sta, last, first),
        PullAnswer::Absent => !stands(theirs, later, holder, name, sta, first, last),
        PullAnswer::NoHolder => false,
    }
}

// By the own holder.
fn is_answered_here(holder: Node, look: &Look<'_>, own: &[Entry]) -> bool
    ensures { IsTrue result
        ↔ AnswersAt holder (looking_of look.now) look.now.answer (reverse own.now) }
{
    match look.answer {
        PullAnswer::Found(_) => stands_here(own, holder, look.name, look.sta),
        PullAnswer::Absent => !stands_here(own, holder, look.name, look.sta),
        PullAnswer::NoHolder => false,
    }
}

// By the holder that an access point is.
fn is_answered(
    holder: u16,
    look: &Look<'_>,
    own: &[Entry],
    theirs: &[Entry],
    later: &[Entry],
) -> bool
    ensures { IsTrue result ↔ AnsweredBy (Some (Ap holder)) (looking_of look.now) look.now.answer
        (reverse own.now) (reverse later.now ++ reverse theirs.now) }
{
    let holder = Node::Ap(holder);
    if same(holder, look.node) {
        is_answered_here(holder, look, own)
    } else {
        is_answered_elsewhere(holder, look, theirs, later)
    }
}

// That no access point is asked.
fn is_no_holder(answer: PullAnswer) -> bool
    ensures { IsTrue result ↔ (answer ≡ NoHolder) }
{
    match answer {
        PullAnswer::NoHolder => true,
        PullAnswer::Found(_) | PullAnswer::Absent => false,
    }
}

// The place of the first of these access points that has this R0KH-ID.
fn place_of(aps: &[ListedAp], asked: &[u8]) -> Option<usize>
    ensures { result ≡ position (λ (a : AnyAp). bytes_eq a.r0kh_id asked.now) aps.now }
{
    aps.iter().position(|ap| ap.r0kh_id.as_slice() == asked)
}

/// The place of the first listed access point that has this R0KH-ID.
#[tactic(auto, using(crate::proofs::Own::found_at))]
pub fn holder_of(domain: &Domain, asked: &[u8]) -> Option<u16>
    requires { InForm domain.now }
    ensures place { option_map (λ k. Ap k) result ≡ holder_of domain.now asked.now }
    ensures listed { IfSome result (λ k. IsListed domain.now (Ap k)) }
    ensures id { IfSome result (λ k. asked.now ≡ r0kh_id domain.now (Ap k)) }
{
    match place_of(&domain.aps.0, asked) {
        Some(place) => Some(place as u16),
        None => None,
    }
}

// Whether a key that was found is the right one.
fn gives_right_key(domain: &Domain, holder: u16, look: &Look<'_>) -> bool
    requires form { InForm domain.now }
    requires holder { IsListed domain.now (Ap holder) }
    ensures { IsAskable domain.now look.now → IsTrue result
        ↔ GivesRightKey domain.now (r0kh_id domain.now (Ap holder)) (looking_of look.now)
        look.now.answer }
{
    let PullAnswer::Found(found) = look.answer else {
        return true;
    };
    let (Node::Ap(ap), Node::Sta(sta)) = (look.node, look.sta) else {
        return false;
    };
    if usize::from(ap) >= domain.aps.0.len() || usize::from(sta) >= domain.stas.len() {
        return false;
    }
    is_r1(found, right_key(domain, holder, ap, sta))
}

/// Whether the look is answered rightly, by the entries of its access point before it, by those of
/// the holder, and by later ones up to the end of its round, among which may be those of other
/// nodes; in the network as it was before the round. What it answers counts where a listed access
/// point asks for a listed station.
pub fn is_held_right(
    domain: &Domain,
    look: &Look<'_>,
    own: &[Entry],
    theirs: &[Entry],
    later: &[Entry],
) -> bool
    requires form { InForm domain.now }
    ensures { IsAskable domain.now look.now → IsTrue result ↔ HeldIn domain.now
        look.now.r0kh_id.now (looking_of look.now) look.now.answer (reverse own.now)
        (reverse later.now ++ reverse theirs.now) }
{
    let Some(holder) = holder_of(domain, look.r0kh_id) else {
        return is_no_holder(look.answer);
    };
    is_answered(holder, look, own, theirs, later) && gives_right_key(domain, holder, look)
}
