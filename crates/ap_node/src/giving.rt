//! New group keys are given to each session (IEEE Std 802.11-2020, 12.7.7.2).

ghost use Rattle.std.specs.Prelude.{◌≡◌, ◌≢◌, ◌≤◌, ◌+◌, ◌++◌, ℕ, List, IfOk, vec_len, is_some};
ghost use Rattle.std.specs.Prelude.{true};
ghost use Rattle.run_journal.specs.declared.acts.Act.{Act as AnyAct};
ghost use Rattle.run_journal.specs.Replies.{IsWhole};
ghost use Rattle.group_key.specs.News.{FitsNews};
ghost use Rattle.authenticator.specs.Beside.{GivesBeside};
ghost use Rattle.authenticator.specs.Kinds.{kinds};
ghost use Rattle.ap_node.specs.State.{station_at};
ghost use Rattle.ap_node.specs.Counts.{owes_part, owing_below};
ghost use Rattle.ap_node.specs.Giving.{IsGivenAt, AreGiven};

use crate::boxed::BoxedStation;
use crate::newest::igtk_in;
use crate::station::{Session, Station};
use act_memory::{Outbox, SendRoom};
use authenticator::Authenticator;
use domain_base::{NoMemory, Node};
use group_key::News;
use run_journal::Reply;
use std::alloc::Global;
use std::collections::BTreeMap;

/// The memory for so many acts of sending, taken before anything is done.
pub fn take_rooms(alloc: Global, count: usize) -> Result<Vec<SendRoom>, NoMemory>
    ensures { IfOk result (λ rooms. vec_len rooms ≡ count) }
{
    let mut rooms = Vec::with_capacity(alloc, count)?;
    while rooms.len() < count {
        rooms.push_reserved(SendRoom::take(alloc)?);
    }
    Ok(rooms)
}

// Gives the group keys to the part of a session.
fn give_news(part: &mut Authenticator, newest: &News, reply: &mut Reply)
    requires session { is_some part.old.session ≡ true }
    requires news { FitsNews newest.now }
    ensures beside { GivesBeside part.old part.new newest.now reply.new }
    ensures attempt { part.new.attempt ≡ part.old.attempt }
    ensures session { is_some part.new.session ≡ true }
    ensures kinds { kinds part.new ≡ kinds part.old }
    ensures whole { IsWhole reply.new }
{
    part.group(&newest.gtk, newest.rsc, igtk_in(newest), reply);
}

// Gives the group keys to the part of the session in that place, where there is one, and tells
// whether that owes a G2 now.
fn give(place: &mut Station, station: u16, newest: &News, room: SendRoom, out: &mut Outbox) -> bool
    requires news { FitsNews newest.now }
    requires room { 1 ≤ out.old.spare }
    ensures given { (acts : List AnyAct) × (out.new.acts ≡ out.old.acts ++ acts)
        × IsGivenAt station newest.now place.old place.new acts }
    ensures owes { result ≡ owes_part newest.now.gtk.place place.new }
    ensures spare { out.old.spare ≤ out.new.spare + 1 }
{
    let Some(Session { part, .. }) = &mut place.session else {
        return false;
    };
    if !part.has_session() {
        return false;
    }
    let mut reply = Reply::empty();
    give_news(part, newest, &mut reply);
    room.add_sent(Node::Sta(station), &reply, out);
    part.owes(&newest.gtk)
}

// Gives them to the session with that station, where there is a place for it.
fn give_at(
    stations: &mut BTreeMap<u16, BoxedStation>,
    station: u16,
    newest: &News,
    room: SendRoom,
    out: &mut Outbox,
) -> bool
    requires news { FitsNews newest.now }
    requires room { 1 ≤ out.old.spare }
    ensures given { (acts : List AnyAct) × (out.new.acts ≡ out.old.acts ++ acts)
        × IsGivenAt station newest.now (station_at stations.old.entries station)
        (station_at stations.new.entries station) acts }
    ensures owes { result
        ≡ owes_part newest.now.gtk.place (station_at stations.new.entries station) }
    ensures others { (k : ℕ) → k ≢ station
        → station_at stations.new.entries k ≡ station_at stations.old.entries k }
    ensures spare { out.old.spare ≤ out.new.spare + 1 }
{
    match stations.get_mut(&station) {
        Some(place) => give(place.station_mut(), station, newest, room, out),
        None => false,
    }
}

/// Gives the newest group keys to each session with one of the first so many stations, in their
/// order, and counts those that owe a G2 now. Takes no memory.
pub fn give_all(
    stations: &mut BTreeMap<u16, BoxedStation>,
    count: u16,
    newest: &News,
    rooms: Vec<SendRoom>,
    out: &mut Outbox,
) -> u64
    requires news { FitsNews newest.now }
    requires rooms { count ≤ vec_len rooms }
    requires room { count ≤ out.old.spare }
    ensures given { (acts : List AnyAct) × (out.new.acts ≡ out.old.acts ++ acts)
        × AreGiven newest.now stations.old.entries stations.new.entries count acts }
    ensures owing { result ≡ owing_below newest.now.gtk.place stations.new.entries count }
    ensures behind { (k : ℕ) → count ≤ k
        → station_at stations.new.entries k ≡ station_at stations.old.entries k }
    ensures spare { out.old.spare ≤ out.new.spare + count }
{
    let mut rooms = rooms;
    let mut owing = 0;
    let mut station: u16 = 0;
    while station < count {
        let Some(room) = rooms.pop() else {
            unreachable!()
        };
        owing += u64::from(give_at(stations, station, newest, room, out));
        station += 1;
    }
    owing
}
