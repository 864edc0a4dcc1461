//! The requests of a station in a fast transition.

ghost use Rattle.std.specs.Prelude.{◌≡◌, ◌≤◌, ◌<◌, ◌+◌, ◌++◌, ℕ, List, Option, Some, None, true};
ghost use Rattle.std.specs.Prelude.{length, is_some, IfOk, OnOk, OnErr};
ghost use Rattle.std.specs.Option.{option_copied};
ghost use Rattle.domain_base.specs.declared.names.Node.{Node as AnyNode};
ghost use Rattle.domain_base.specs.declared.names.Node.TheVariants.{Ap, Sta};
ghost use Rattle.key_hierarchy.specs.Sizes.{IsSsid};
ghost use Rattle.key_holders.specs.Rows.{is_in};
ghost use Rattle.key_holders.specs.Pulls.{Answers, IsNamed};
ghost use Rattle.mac_prf.specs.declared.reassociation.Reassociation.TheVariants.{Request};
ghost use Rattle.rsn_elements.specs.Elements.{ElementFields, HasRaw};
ghost use Rattle.rsn_elements.specs.Fields.{element_fields};
ghost use Rattle.run_journal.specs.declared.domain.Domain.{Domain as AnyDomain};
ghost use Rattle.run_journal.specs.declared.acts.Act.{Act as AnyAct};
ghost use Rattle.run_journal.specs.Replies.{IsWhole};
ghost use Rattle.domain_rules.specs.Network.{InForm, Root, mac, root_at, station_of};
ghost use Rattle.run_journal.specs.Events.{IsListed, IsPeerOf};
ghost use Rattle.domain_rules.specs.TransitionKeys.{asked};
ghost use Rattle.ft_exchange.specs.Asking.{ids_of};
ghost use Rattle.ft_exchange.specs.TargetSteps.{root_asked, LooksBy};
ghost use Rattle.ft_exchange.specs.Told.{came, auth_request_acts, reassoc_request_acts};
ghost use Rattle.group_key.specs.News.{news_of};
ghost use Rattle.transition_acts.specs.Rooms.{IsRoom};
ghost use Rattle.targets.specs.State.{no_moves};
ghost use Rattle.targets.specs.Steps.{request, AuthTaken, ReassocTaken};

use crate::moves::Moves;
use crate::taken::Taken;
use act_memory::Outbox;
use domain_base::{NoMemory, Node};
use ft_exchange::Target;
use group_key::GroupKey;
use key_holders::Holders;
use mac_prf::Reassociation;
use node_base::Here;
use rsn_elements::Elements;
use run_journal::{Outcome, Reply};
use transition_acts::TransitionRoom;

// The R0KH-ID that an authentication request asks for, and no octets where it asks for nothing.
fn asked_id<'a>(elements: &Elements<'a>) -> &'a [u8]
    ensures { (d : AnyDomain) (s : AnyNode) → root_asked d s (asked (element_fields elements.now))
        ≡ root_at d s result.now }
{
    let Some(fte) = elements.fte else { return &[] };
    match fte.r0kh_id {
        Some(r0kh_id) => r0kh_id,
        None => &[],
    }
}

// Room for so many acts, and the memory for those of a request of that station, with these octets
// and elements. The keys go back to that R0KH-ID with suite 4.
fn prepare(
    here: Here<'_>,
    sta: Node,
    octets: &[u8],
    elements: &Elements<'_>,
    r0kh_id: &[u8],
    acts: usize,
    out: &mut Outbox,
) -> Result<TransitionRoom, NoMemory>
    requires listed { IsListed here.domain.now here.node }
    requires peer { IsPeerOf here.domain.now here.node sta }
    requires ssid { IsSsid here.domain.now.ssid }
    ensures taken { IfOk result (λ room. let d = here.entry.domain.now
        in IsRoom d (root_at d (station_of here.entry.node sta) r0kh_id.now)
        here.entry.node sta octets.now (element_fields elements.now) Request room) }
    ensures room { OnOk result (acts ≤ out.new.spare) }
    ensures same { out.new.acts ≡ out.old.acts }
{
    out.reserve(acts)?;
    let frame = Reassociation::Request;
    TransitionRoom::take(here, sta, octets, elements, frame, r0kh_id)
}

// Adds the acts of an authentication request with that outcome and reply, where there was an
// attempt or not, and tells what came of it.
fn add_auth(
    room: TransitionRoom,
    outcome: Outcome,
    had_attempt: bool,
    reply: &Reply,
    out: &mut Outbox,
) -> Taken
    requires room { 7 ≤ out.old.spare }
    requires whole { IsWhole reply.now }
    ensures acts { (d : AnyDomain) (root : Root) (n p : AnyNode) (octets : List ℕ)
        (e : ElementFields) (part : Option (List AnyAct)) → IsRoom d root n p octets e Request room
        → is_some part ≡ had_attempt → out.new.acts ≡ out.old.acts
        ++ auth_request_acts d root n p part (came octets e result.outcome) reply.now }
    ensures spare { out.old.spare ≤ out.new.spare + 7 }
    ensures outcome { result.outcome ≡ outcome }
    ensures key { result.key ≡ reply.now.derived }
{
    room.add_auth_request(outcome, had_attempt, reply, out);
    let key = reply.derived;
    Taken { outcome, key }
}

// Adds the acts of a reassociation request with that outcome and reply, where there was a session
// or not, and tells what came of it.
fn add_reassoc(
    room: TransitionRoom,
    outcome: Outcome,
    had_session: bool,
    reply: &Reply,
    out: &mut Outbox,
) -> Taken
    requires room { 5 ≤ out.old.spare }
    requires whole { IsWhole reply.now }
    ensures acts { (d : AnyDomain) (root : Root) (n p : AnyNode) (octets : List ℕ)
        (e : ElementFields) → IsRoom d root n p octets e Request room → out.new.acts ≡ out.old.acts
        ++ reassoc_request_acts d root n p had_session (came octets e result.outcome) reply.now }
    ensures spare { out.old.spare ≤ out.new.spare + 5 }
    ensures outcome { result.outcome ≡ outcome }
    ensures key { result.key ≡ reply.now.installed }
{
    room.add_reassoc_request(outcome, had_session, reply, out);
    let key = reply.installed;
    Taken { outcome, key }
}

/// Takes an authentication request of a station at access point number `ap`, by its octets and what
/// its elements say. The access point had an attempt with the station or not, of whatever kind;
/// `anonce` is the nonce that it draws next, and `None` where it can draw none. Where a key is
/// derived an attempt by fast transition has taken the place of the one that there was, and the
/// nonce is drawn. There is room for one more act then (IEEE Std 802.11-2020, 13.8.2 and 13.8.3).
///
/// Where memory runs out nothing was done, and key holders were not asked.
pub fn take_auth<H: Holders>(
    moves: &mut Moves,
    here: Here<'_>,
    ap: u16,
    station: u16,
    octets: &[u8],
    elements: &Elements<'_>,
    had_attempt: bool,
    anonce: Option<&[u8; 32]>,
    holders: &mut H,
    out: &mut Outbox,
) -> Result<Taken, NoMemory>
    requires form { InForm here.domain.now }
    requires node { here.node ≡ Ap ap }
    requires ap { ap < length here.domain.now.aps }
    requires sta { station < length here.domain.now.stas }
    requires raw { HasRaw (element_fields elements.now) }
    requires ids { H.ids holders.old ≡ ids_of here.domain.now }
    ensures taken { IfOk result (λ taken. AuthTaken (request here.entry.domain.now ap station
        octets.now (element_fields elements.now)) (option_copied anonce.entry) had_attempt
        (LooksBy (element_fields elements.now)
        (λ id name answer. H.pulls holders.old id name (mac here.entry.domain.now (Ap ap))
        (mac here.entry.domain.now (Sta station)) holders.new answer
        × Answers (H.ids holders.old) (H.has holders.old) (H.rows holders.old) id name
        (mac here.entry.domain.now (Ap ap)) (mac here.entry.domain.now (Sta station)) answer
        × IsNamed name (mac here.entry.domain.now (Ap ap))
        (mac here.entry.domain.now (Sta station)) answer)
        (holders.new ≡ holders.old)) out.old.acts out.new.acts moves.old moves.new taken) }
    ensures same { OnErr result (moves.new ≡ moves.old) }
    ensures unasked { OnErr result (holders.new ≡ holders.old) }
    ensures kept { OnErr result (out.new.acts ≡ out.old.acts) }
    ensures room { OnOk result (1 ≤ out.new.spare) }
    ensures rows { (r : ℕ) → is_in r (H.has holders.old) ≡ true
        → H.rows holders.new r ≡ H.rows holders.old r }
    ensures ids { H.ids holders.new ≡ H.ids holders.old }
    ensures still_has { H.has holders.new ≡ H.has holders.old }
    ensures no_less { H.no_less holders.old holders.new }
{
    let sta = Node::Sta(station);
    let room = prepare(here, sta, octets, elements, asked_id(elements), 8, out)?;
    let mut reply = Reply::empty();
    let pending = &mut moves.pending;
    let outcome = Target::on_auth(
        pending,
        here.domain,
        ap,
        station,
        elements,
        anonce,
        holders,
        &mut reply,
    );
    Ok(add_auth(room, outcome, had_attempt, &reply, out))
}

/// Takes a reassociation request of a station at access point number `ap`, by its octets and what
/// its elements say. The access point had a session with the station or not; `newest` is its newest
/// GTK, and `rsc` the count of packet numbers used under that; `igtk` is its newest IGTK with the
/// count used under that, where management frames are protected. Where a key is installed the
/// session has come of the attempt that was pending. There is room for two more acts then
/// (IEEE Std 802.11-2020, 13.8.4 and 13.8.5).
///
/// Where memory runs out nothing was done.
pub fn take_reassoc(
    moves: &mut Moves,
    here: Here<'_>,
    ap: u16,
    station: u16,
    octets: &[u8],
    elements: &Elements<'_>,
    newest: &GroupKey,
    rsc: u64,
    igtk: Option<(&GroupKey, u64)>,
    had_session: bool,
    out: &mut Outbox,
) -> Result<Taken, NoMemory>
    requires form { InForm here.domain.now }
    requires node { here.node ≡ Ap ap }
    requires ap { ap < length here.domain.now.aps }
    requires sta { station < length here.domain.now.stas }
    requires raw { HasRaw (element_fields elements.now) }
    ensures taken { IfOk result (λ taken. ReassocTaken (request here.entry.domain.now ap station
        octets.now (element_fields elements.now)) (news_of newest.now rsc igtk.entry) had_session
        out.old.acts out.new.acts moves.old moves.new taken) }
    // without one it is refused
    ensures none { moves.old ≡ no_moves
        → IfOk result (λ taken. (taken.key ≡ None) × (moves.new ≡ no_moves)) }
    ensures same { OnErr result (moves.new ≡ moves.old) }
    ensures kept { OnErr result (out.new.acts ≡ out.old.acts) }
    ensures room { OnOk result (2 ≤ out.new.spare) }
{
    let sta = Node::Sta(station);
    let room = prepare(here, sta, octets, elements, moves.r0kh_id(elements), 7, out)?;
    let mut reply = Reply::empty();
    let outcome = moves.on_reassoc(elements, newest, rsc, igtk, &mut reply);
    Ok(add_reassoc(room, outcome, had_session, &reply, out))
}
