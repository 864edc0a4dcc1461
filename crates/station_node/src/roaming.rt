//! Whether a station roams, and how it begins to.

ghost use Rattle.std.specs.Prelude.{◌≡◌, ◌<◌, ◌≤◌, ◌++◌, ◌∷◌, [], IfOk, OnErr, false, true};
ghost use Rattle.std.specs.Prelude.{ℕ, length, OnOk};
ghost use Rattle.domain_base.specs.declared.names.Akm.{Akm as AnyAkm};
ghost use Rattle.domain_base.specs.declared.names.Node.TheVariants.{Ap, Sta};
ghost use Rattle.run_journal.specs.declared.acts.Act.TheVariants.{Opened, Drew};
ghost use Rattle.run_journal.specs.declared.acts.Drawn.TheVariants.{Nonce};
ghost use Rattle.run_journal.specs.declared.acts.Start.TheVariants.{Roam};
ghost use Rattle.run_journal.specs.declared.reply.Reply.{Reply};
ghost use Rattle.key_hierarchy.specs.Sizes.{IsSsid};
ghost use Rattle.domain_rules.specs.Closing.{close_pending};
ghost use Rattle.run_journal.specs.Events.{IsListed, IsPeerOf};
ghost use Rattle.ft_exchange.specs.OriginatorSteps.{IsBegun};
ghost use Rattle.ft_exchange.specs.Told.{transition_sent};
ghost use Rattle.transition_acts.specs.Rooms.{IsSendRoom};
ghost use Rattle.station_node.specs.State.{memory_at, is_there, KeepsPlaces};
ghost use Rattle.station_node.specs.Parts.{peer_of_attempt, roams_from, CanRoam};

use crate::attempt::Attempt;
use crate::memories::Memories;
use crate::session::Session;
use act_memory::Outbox;
use domain_base::{NoMemory, Node};
use ft_exchange::Originator;
use key_hierarchy::LastDerived;
use node_base::{DRAW_END, Here};
use run_journal::{Domain, Reply, Why};
use transition_acts::TransitionSend;

// The octets of an R0KH-ID at most (IEEE Std 802.11-2020, 9.4.2.47).
const MOST_R0KH_ID: usize = 48;

/// From which access point's session a station that has drawn so often roams to that access point,
/// or why it does not.
pub fn roams_from(session: &Option<Session>, ap: u16, drawn: u64) -> Result<u16, Why>
    ensures { result ≡ roams_from session.now ap drawn }
{
    let Some(session) = session else {
        return Err(Why::NoSession);
    };
    if ap == session.ap {
        return Err(Why::SamePeer);
    }
    if drawn >= DRAW_END {
        return Err(Why::Spent);
    }
    Ok(session.ap)
}

/// Whether that access point is listed, and that is an R0KH-ID.
pub fn can_roam(domain: &Domain, current: u16, r0kh_id: &[u8]) -> bool
    ensures right { result ≡ true → CanRoam domain.now current r0kh_id.now }
    ensures wrong { result ≡ false → CanRoam domain.now current r0kh_id.now → ⊥ }
{
    let listed = usize::from(current) < domain.aps.0.len();
    listed && !r0kh_id.is_empty() && r0kh_id.len() <= MOST_R0KH_ID
}

/// Takes the memory for a fast transition to that access point, and makes a place for it.
pub fn reserve_transition(
    here: Here<'_>,
    ap: u16,
    memories: &mut Memories,
    out: &mut Outbox,
) -> Result<TransitionSend, NoMemory>
    requires listed { IsListed here.domain.now here.node }
    requires peer { IsPeerOf here.domain.now here.node (Ap ap) }
    requires ssid { IsSsid here.domain.now.ssid }
    ensures room { IfOk result (λ send.
        IsSendRoom here.entry.domain.now here.entry.node (Ap ap) send) }
    ensures spare { OnOk result (4 ≤ out.new.spare) }
    ensures acts { out.new.acts ≡ out.old.acts }
    ensures place { OnOk result (is_there memories.new ap ≡ true) }
    ensures same { (k : ℕ) → memory_at memories.new k ≡ memory_at memories.old k }
    ensures more { KeepsPlaces memories.old memories.new }
    ensures err { OnErr result (memories.new ≡ memories.old) }
{
    out.reserve(4)?;
    let send = TransitionSend::take(here, Node::Ap(ap))?;
    memories.make_place(ap)?;
    Ok(send)
}

/// A fast transition that a station begins.
#[derive(Clone, Copy)]
pub struct Transition<'a> {
    /// The number of the station.
    pub sta: u16,
    /// The access point to which it leads.
    pub ap: u16,
    /// The access point of the session, from which it leads.
    pub current: u16,
    /// The R0KH-ID that its keys go back to.
    pub r0kh_id: &'a [u8],
    /// The SNonce drawn for it.
    pub snonce: &'a [u8; 32],
}

impl Transition<'_> {
    /// Ends the attempt, where there is one, and sends the authentication request.
    pub fn begin(
        &self,
        domain: &Domain,
        attempt: &Option<Attempt>,
        derived: &LastDerived,
        send: TransitionSend,
        out: &mut Outbox,
    ) -> Originator
        requires suite { domain.now.akm ≡ AnyAkm.FtPsk }
        requires ssid { IsSsid domain.now.ssid }
        requires sta { self.now.sta < length domain.now.stas }
        requires ap { self.now.ap < length domain.now.aps }
        requires can { CanRoam domain.now self.now.current self.now.r0kh_id.now }
        requires room { IsSendRoom domain.now (Sta self.now.sta) (Ap self.now.ap) send }
        requires spare { 4 ≤ out.old.spare }
        ensures { (reply : Reply)
            × IsBegun domain.now (Sta self.now.sta) (Ap self.now.ap) (Ap self.now.current)
            self.now.r0kh_id.now self.now.snonce.now result reply
            × (out.new.acts ≡ ((out.old.acts ++ close_pending (peer_of_attempt attempt.now))
            ++ Opened (Ap self.now.ap) Roam ∷ Drew (Nonce self.now.snonce.now) ∷ [])
            ++ transition_sent domain.now (Sta self.now.sta) (Ap self.now.ap) reply) }
    {
        let Transition {
            sta,
            ap,
            current,
            r0kh_id,
            snonce,
        } = *self;
        let mut reply = Reply::empty();
        let originator = Originator::roam(
            domain, sta, ap, current, r0kh_id, snonce, derived, &mut reply,
        );
        Attempt::leave(attempt, out);
        Attempt::roam(ap, *snonce, out);
        send.add_sent(&reply, out);
        originator
    }
}
