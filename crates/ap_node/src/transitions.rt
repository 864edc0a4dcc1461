//! What the frames of a fast transition do to the place of a station
//! (IEEE Std 802.11-2020, 13.7.1 and 13.8).

ghost use Rattle.std.specs.Prelude.{◌≡◌, ◌≢◌, ◌<◌, ◌≤◌, ◌-◌, ◌^◌, ◌+◌, ◌++◌, ℕ, None, true, false};
ghost use Rattle.std.specs.Prelude.{length, is_some, IfOk, OnOk, OnErr};
ghost use Rattle.std.specs.Map.{set_value};
ghost use Rattle.std.specs.BTreeMap.{is_at};
ghost use Rattle.std.specs.Ordering.{nat_cmp};
ghost use Rattle.std.specs.Option.{option_copied};
ghost use Rattle.domain_base.specs.declared.names.Node.TheVariants.{Ap, Sta};
ghost use Rattle.key_holders.specs.Rows.{is_in};
ghost use Rattle.key_holders.specs.Pulls.{Answers, IsNamed};
ghost use Rattle.rsn_elements.specs.Elements.{HasRaw};
ghost use Rattle.rsn_elements.specs.Fields.{element_fields};
ghost use Rattle.run_journal.specs.declared.acts.Reason.{Reason as AnyReason};
ghost use Rattle.run_journal.specs.declared.acts.Outcome.TheVariants.{Refused};
ghost use Rattle.domain_rules.specs.Network.{InForm, is_ap, mac};
ghost use Rattle.run_journal.specs.Events.{IsListed};
ghost use Rattle.ft_exchange.specs.Asking.{ids_of};
ghost use Rattle.ft_exchange.specs.TargetSteps.{LooksBy};
ghost use Rattle.targets.specs.declared.moves.Moves.{Moves as AnyMoves};
ghost use Rattle.targets.specs.State.{no_moves};
ghost use Rattle.targets.specs.Steps.{request, AuthTaken, ReassocTaken};
ghost use Rattle.ap_node.specs.declared.station.Station.{Station as AnyStation};
ghost use Rattle.ap_node.specs.State.{station_at, is_there, has_attempt, has_session, moves_in};
ghost use Rattle.ap_node.specs.State.{without_moves};
ghost use Rattle.ap_node.specs.Moving.{begun_key, begun_of, drawn_for, next_drawn, pending_beside};
ghost use Rattle.ap_node.specs.Moving.{IsSeated, IsPlaced};

use crate::boxed::BoxedStation;
use crate::newest::igtk_in;
use crate::places::{make_place, unmake_place};
use crate::station::{Session, Station};
use act_memory::Outbox;
use authenticator::{ApStart, Authenticator};
use data_frames::DataKey;
use domain_base::{NoMemory, Node};
use ft_exchange::Target;
use group_key::News;
use key_hierarchy::{LastDerived, Ptk};
use key_holders::Holders;
use node_base::{DRAW_END, Here, nonce};
use rsn_elements::Elements;
use run_journal::{Domain, Keyed, Outcome, Reply};
use std::collections::BTreeMap;
use targets::{Moves, Taken, take_auth, take_reassoc};

/// The number of a station.
pub fn number_of(peer: Node) -> u16
    requires { is_ap peer ≡ false }
    ensures { peer ≡ Sta result }
{
    match peer {
        Node::Sta(number) => number,
        Node::Ap(_) => unreachable!(),
    }
}

/// The nonce that an access point draws next, where it has drawn so often and draws one more.
pub fn next_nonce(here: Here<'_>, drawn: u64) -> Option<[u8; 32]>
    requires { IsListed here.domain.now here.node }
    ensures { result ≡ next_drawn here.entry.domain.now here.entry.node drawn }
{
    if drawn >= DRAW_END {
        None
    } else {
        Some(nonce(here.domain, here.node, drawn))
    }
}

/// The key that was derived or installed, where the request was not refused: a refusal changes
/// nothing.
pub fn begun_key(taken: Taken) -> Option<Keyed>
    ensures { result ≡ begun_key taken.outcome taken.key }
{
    match taken.outcome {
        Outcome::Refused(_) => None,
        _ => taken.key,
    }
}

/// How many values were drawn, with the nonce of the attempt in which a key was derived, if one
/// was. It is far from its end.
pub fn drawn_with(drawn: u64, key: Option<Keyed>) -> u64
    ensures exact { drawn < 2 ^ 64 - 1 → result ≡ drawn + drawn_for key }
    ensures same { key ≡ None → result ≡ drawn }
    ensures no_less { drawn ≤ result }
{
    match key {
        Some(_) => drawn.saturating_add(1),
        None => drawn,
    }
}

// An authentication request is for the place of its station: an attempt by fast transition that it
// begins takes the place of the one that there is, of whatever kind. The session goes on.
fn ask<H: Holders>(
    place: &mut Station,
    here: Here<'_>,
    ap: u16,
    station: u16,
    octets: &[u8],
    elements: &Elements<'_>,
    anonce: Option<&[u8; 32]>,
    holders: &mut H,
    out: &mut Outbox,
) -> Result<Taken, NoMemory>
    requires form { InForm here.domain.now }
    requires node { here.node ≡ Ap ap }
    requires ap { ap < length here.domain.now.aps }
    requires sta { station < length here.domain.now.stas }
    requires raw { HasRaw (element_fields elements.now) }
    requires ids { H.ids holders.old ≡ ids_of here.domain.now }
    ensures taken { IfOk result (λ taken. AuthTaken (request here.entry.domain.now ap station
        octets.now (element_fields elements.now)) (option_copied anonce.entry)
        (has_attempt place.old)
        (LooksBy (element_fields elements.now)
        (λ id name answer. H.pulls holders.old id name (mac here.entry.domain.now (Ap ap))
        (mac here.entry.domain.now (Sta station)) holders.new answer
        × Answers (H.ids holders.old) (H.has holders.old) (H.rows holders.old) id name
        (mac here.entry.domain.now (Ap ap)) (mac here.entry.domain.now (Sta station)) answer
        × IsNamed name (mac here.entry.domain.now (Ap ap))
        (mac here.entry.domain.now (Sta station)) answer)
        (holders.new ≡ holders.old)) out.old.acts out.new.acts (moves_in place.old)
        (moves_in place.new) taken) }
    ensures beside { OnOk result
        (place.new ≡ pending_beside (moves_in place.new).pending place.old) }
    ensures same { OnErr result (place.new ≡ place.old) }
    ensures unasked { OnErr result (holders.new ≡ holders.old) }
    ensures kept { OnErr result (out.new.acts ≡ out.old.acts) }
    ensures room { OnOk result (1 ≤ out.new.spare) }
    ensures rows { (r : ℕ) → is_in r (H.has holders.old) ≡ true
        → H.rows holders.new r ≡ H.rows holders.old r }
    ensures ids { H.ids holders.new ≡ H.ids holders.old }
    ensures still_has { H.has holders.new ≡ H.has holders.old }
    ensures no_less { H.no_less holders.old holders.new }
{
    let had_attempt = place.has_attempt();
    let mut moves = place.take_moves();
    let taken = take_auth(
        &mut moves,
        here,
        ap,
        station,
        octets,
        elements,
        had_attempt,
        anonce,
        holders,
        out,
    );
    place.put_moves(moves);
    taken
}

// The same of a station that has a place.
fn ask_at<H: Holders>(
    stations: &mut BTreeMap<u16, BoxedStation>,
    here: Here<'_>,
    ap: u16,
    station: u16,
    octets: &[u8],
    elements: &Elements<'_>,
    anonce: Option<&[u8; 32]>,
    holders: &mut H,
    out: &mut Outbox,
) -> Result<Taken, NoMemory>
    requires form { InForm here.domain.now }
    requires node { here.node ≡ Ap ap }
    requires ap { ap < length here.domain.now.aps }
    requires sta { station < length here.domain.now.stas }
    requires raw { HasRaw (element_fields elements.now) }
    requires ids { H.ids holders.old ≡ ids_of here.domain.now }
    requires there { is_there station stations.old.entries ≡ true }
    ensures taken { IfOk result (λ taken. AuthTaken (request here.entry.domain.now ap station
        octets.now (element_fields elements.now)) (option_copied anonce.entry)
        (has_attempt (station_at stations.old.entries station))
        (LooksBy (element_fields elements.now)
        (λ id name answer. H.pulls holders.old id name (mac here.entry.domain.now (Ap ap))
        (mac here.entry.domain.now (Sta station)) holders.new answer
        × Answers (H.ids holders.old) (H.has holders.old) (H.rows holders.old) id name
        (mac here.entry.domain.now (Ap ap)) (mac here.entry.domain.now (Sta station)) answer
        × IsNamed name (mac here.entry.domain.now (Ap ap))
        (mac here.entry.domain.now (Sta station)) answer)
        (holders.new ≡ holders.old)) out.old.acts out.new.acts
        (moves_in (station_at stations.old.entries station))
        (moves_in (station_at stations.new.entries station)) taken) }
    ensures beside { OnOk result (station_at stations.new.entries station
        ≡ pending_beside (moves_in (station_at stations.new.entries station)).pending
        (station_at stations.old.entries station)) }
    ensures set { stations.new.entries ≡ set_value (is_at (nat_cmp station))
        stations.old.entries (station_at stations.new.entries station) }
    ensures same { OnErr result (stations.new.entries ≡ stations.old.entries) }
    ensures unasked { OnErr result (holders.new ≡ holders.old) }
    ensures kept { OnErr result (out.new.acts ≡ out.old.acts) }
    ensures room { OnOk result (1 ≤ out.new.spare) }
    ensures rows { (r : ℕ) → is_in r (H.has holders.old) ≡ true
        → H.rows holders.new r ≡ H.rows holders.old r }
    ensures ids { H.ids holders.new ≡ H.ids holders.old }
    ensures still_has { H.has holders.new ≡ H.has holders.old }
    ensures no_less { H.no_less holders.old holders.new }
{
    let Some(place) = stations.get_mut(&station) else {
        unreachable!()
    };
    ask(
        place.station_mut(),
        here,
        ap,
        station,
        octets,
        elements,
        anonce,
        holders,
        out,
    )
}

/// Whether an attempt was begun by an authentication request.
fn has_begun(taken: &Result<Taken, NoMemory>) -> bool
    ensures { result ≡ is_some (begun_of taken.now) }
{
    match taken {
        Ok(taken) => begun_key(*taken).is_some(),
        Err(_) => false,
    }
}

/// An access point takes an authentication request of a station. Where an attempt is begun it has
/// the place of the station, which is made where there was none; else all is as it was. There is
/// room for one more act then (IEEE Std 802.11-2020, 13.8.2 and 13.8.3).
pub fn take_request<H: Holders>(
    stations: &mut BTreeMap<u16, BoxedStation>,
    here: Here<'_>,
    ap: u16,
    station: u16,
    octets: &[u8],
    elements: &Elements<'_>,
    anonce: Option<&[u8; 32]>,
    holders: &mut H,
    out: &mut Outbox,
) -> Result<Taken, NoMemory>
    requires form { InForm here.domain.now }
    requires node { here.node ≡ Ap ap }
    requires ap { ap < length here.domain.now.aps }
    requires sta { station < length here.domain.now.stas }
    requires raw { HasRaw (element_fields elements.now) }
    requires ids { H.ids holders.old ≡ ids_of here.domain.now }
    ensures taken { IfOk result (λ taken. AuthTaken (request here.entry.domain.now ap station
        octets.now (element_fields elements.now)) (option_copied anonce.entry)
        (has_attempt (station_at stations.old.entries station))
        (LooksBy (element_fields elements.now)
        (λ id name answer. H.pulls holders.old id name (mac here.entry.domain.now (Ap ap))
        (mac here.entry.domain.now (Sta station)) holders.new answer
        × Answers (H.ids holders.old) (H.has holders.old) (H.rows holders.old) id name
        (mac here.entry.domain.now (Ap ap)) (mac here.entry.domain.now (Sta station)) answer
        × IsNamed name (mac here.entry.domain.now (Ap ap))
        (mac here.entry.domain.now (Sta station)) answer)
        (holders.new ≡ holders.old)) out.old.acts out.new.acts
        (moves_in (station_at stations.old.entries station))
        (moves_in (station_at stations.new.entries station)) taken) }
    ensures beside { OnOk result (station_at stations.new.entries station
        ≡ pending_beside (moves_in (station_at stations.new.entries station)).pending
        (station_at stations.old.entries station)) }
    ensures others { (k : ℕ) → k ≢ station
        → station_at stations.new.entries k ≡ station_at stations.old.entries k }
    ensures refused { IfOk result (λ taken. (why : AnyReason) → taken.outcome ≡ Refused why
        → stations.new.entries ≡ stations.old.entries) }
    ensures same { OnErr result (stations.new.entries ≡ stations.old.entries) }
    ensures unasked { OnErr result (holders.new ≡ holders.old) }
    ensures kept { OnErr result (out.new.acts ≡ out.old.acts) }
    ensures room { OnOk result (1 ≤ out.new.spare) }
    ensures rows { (r : ℕ) → is_in r (H.has holders.old) ≡ true
        → H.rows holders.new r ≡ H.rows holders.old r }
    ensures ids { H.ids holders.new ≡ H.ids holders.old }
    ensures still_has { H.has holders.new ≡ H.has holders.old }
    ensures no_less { H.no_less holders.old holders.new }
{
    let is_new = make_place(stations, here.alloc, station)?;
    let taken = ask_at(
        stations, here, ap, station, octets, elements, anonce, holders, out,
    );
    let is_in_vain = !has_begun(&taken);
    unmake_place(stations, station, is_new, is_in_vain);
    taken
}

// The session with a station that a fast transition installed, under its key.
fn seated(domain: &Domain, ap: u16, station: u16, ptk: &Ptk, came_of: Option<Target>) -> Station
    requires form { InForm domain.now }
    requires ap { ap < length domain.now.aps }
    requires station { station < length domain.now.stas }
    ensures { IsSeated domain.now (Ap ap) (Sta station) ptk.now came_of result }
{
    let mut reply = Reply::empty();
    let start = ApStart::Ft { ptk };
    let mut derived = LastDerived::none();
    let part = Authenticator::begin(domain, ap, station, start, &mut derived, &mut reply);
    let key = DataKey::pairwise(&ptk.tk);
    Station {
        attempt: None,
        session: Some(Session { part, key, came_of }),
    }
}

// What came of a reassociation request for the place of its station, out of which the fast
// transitions were taken: where a key is installed its session has come of that fast transition,
// and takes the place of all that there was.
fn settle_moves(
    place: &mut Station,
    domain: &Domain,
    ap: u16,
    station: u16,
    key: Option<Keyed>,
    moves: Moves,
)
    requires form { InForm domain.now }
    requires ap { ap < length domain.now.aps }
    requires sta { station < length domain.now.stas }
    ensures { (x : AnyStation) → place.old ≡ without_moves x
        → IsPlaced domain.now (Ap ap) (Sta station) key moves x place.new }
{
    match key {
        Some(key) => {
            let Moves { held, .. } = moves;
            *place = seated(domain, ap, station, &key.ptk, held);
        }
        None => place.put_moves(moves),
    }
}

// A reassociation request is for the place of its station.
fn move_place(
    place: &mut Station,
    here: Here<'_>,
    ap: u16,
    station: u16,
    octets: &[u8],
    elements: &Elements<'_>,
    newest: &News,
    out: &mut Outbox,
) -> Result<Taken, NoMemory>
    requires form { InForm here.domain.now }
    requires node { here.node ≡ Ap ap }
    requires ap { ap < length here.domain.now.aps }
    requires sta { station < length here.domain.now.stas }
    requires raw { HasRaw (element_fields elements.now) }
    ensures moved { IfOk result (λ taken. (m : AnyMoves)
        × ReassocTaken (request here.entry.domain.now ap station octets.now
        (element_fields elements.now)) newest.now (has_session place.old)
        out.old.acts out.new.acts (moves_in place.old) m taken
        × IsPlaced here.entry.domain.now (Ap ap) (Sta station)
        (begun_key taken.outcome taken.key) m place.old place.new) }
    ensures refused { IfOk result (λ taken. (why : AnyReason) → taken.outcome ≡ Refused why
        → place.new ≡ place.old) }
    ensures same { OnErr result (place.new ≡ place.old) }
    ensures kept { OnErr result (out.new.acts ≡ out.old.acts) }
    ensures room { OnOk result (2 ≤ out.new.spare) }
{
    let had_session = place.session.is_some();
    let mut moves = place.take_moves();
    match take_reassoc(
        &mut moves,
        here,
        ap,
        station,
        octets,
        elements,
        &newest.gtk,
        newest.rsc,
        igtk_in(newest),
        had_session,
        out,
    ) {
        Ok(taken) => {
            settle_moves(place, here.domain, ap, station, begun_key(taken), moves);
            Ok(taken)
        }
        Err(none) => {
            place.put_moves(moves);
            Err(none)
        }
    }
}

// A reassociation request of a station that has no place: it installs no key.
fn move_nothing(
    here: Here<'_>,
    ap: u16,
    station: u16,
    octets: &[u8],
    elements: &Elements<'_>,
    newest: &News,
    out: &mut Outbox,
) -> Result<Taken, NoMemory>
    requires form { InForm here.domain.now }
    requires node { here.node ≡ Ap ap }
    requires ap { ap < length here.domain.now.aps }
    requires sta { station < length here.domain.now.stas }
    requires raw { HasRaw (element_fields elements.now) }
    ensures moved { IfOk result (λ taken. ReassocTaken (request here.entry.domain.now ap station
        octets.now (element_fields elements.now)) newest.now false
        out.old.acts out.new.acts no_moves no_moves taken × (taken.key ≡ None)) }
    ensures kept { OnErr result (out.new.acts ≡ out.old.acts) }
    ensures room { OnOk result (2 ≤ out.new.spare) }
{
    let mut moves = Moves::none();
    take_reassoc(
        &mut moves,
        here,
        ap,
        station,
        octets,
        elements,
        &newest.gtk,
        newest.rsc,
        igtk_in(newest),
        false,
        out,
    )
}

/// An access point takes a reassociation request of a station: where a key is installed the session
/// with it has come of that fast transition. There is room for two more acts then
/// (IEEE Std 802.11-2020, 13.8.4 and 13.8.5).
pub fn take_move(
    stations: &mut BTreeMap<u16, BoxedStation>,
    here: Here<'_>,
    ap: u16,
    station: u16,
    octets: &[u8],
    elements: &Elements<'_>,
    newest: &News,
    out: &mut Outbox,
) -> Result<Taken, NoMemory>
    requires form { InForm here.domain.now }
    requires node { here.node ≡ Ap ap }
    requires ap { ap < length here.domain.now.aps }
    requires sta { station < length here.domain.now.stas }
    requires raw { HasRaw (element_fields elements.now) }
    ensures moved { IfOk result (λ taken. (m : AnyMoves)
        × ReassocTaken (request here.entry.domain.now ap station octets.now
        (element_fields elements.now)) newest.now
        (has_session (station_at stations.old.entries station)) out.old.acts out.new.acts
        (moves_in (station_at stations.old.entries station)) m taken
        × IsPlaced here.entry.domain.now (Ap ap) (Sta station)
        (begun_key taken.outcome taken.key) m (station_at stations.old.entries station)
        (station_at stations.new.entries station)) }
    ensures others { (k : ℕ) → k ≢ station
        → station_at stations.new.entries k ≡ station_at stations.old.entries k }
    ensures refused { IfOk result (λ taken. (why : AnyReason) → taken.outcome ≡ Refused why
        → stations.new.entries ≡ stations.old.entries) }
    ensures same { OnErr result (stations.new.entries ≡ stations.old.entries) }
    ensures kept { OnErr result (out.new.acts ≡ out.old.acts) }
    ensures room { OnOk result (2 ≤ out.new.spare) }
{
    match stations.get_mut(&station) {
        Some(place) => move_place(
            place.station_mut(),
            here,
            ap,
            station,
            octets,
            elements,
            newest,
            out,
        ),
        None => move_nothing(here, ap, station, octets, elements, newest, out),
    }
}
