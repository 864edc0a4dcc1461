//! The key management for programs in C: one handle, and what it stands for. `kehtrop.h` declares
//! it: `tools/header.py` makes its declarations from what stands here.
#![tactic(auto)]

ghost use Rattle.std.specs.Prelude.{◌≡◌, ◌&&◌, true, None};
ghost use Rattle.std.specs.Prelude.{take, drop, length, min, cond};
ghost use Rattle.mac_prf.specs.Pbkdf2.{pbkdf2};
ghost use Rattle.embedded_node.specs.Starts.{is_ssid};
ghost use Rattle.kehtrop_c.specs.Crossing.{can_access_point, can_station};
ghost use Rattle.kehtrop_c.specs.Going.{AnsweredIn, IsAccessPoint, IsStation, Started};
ghost use Rattle.kehtrop_c.specs.Going.{ListedApIn, ListedStaIn, PushedIn, TellsIn, octets_in};
ghost use Rattle.kehtrop_c.specs.Passphrases.{is_passphrase};
ghost use Rattle.kehtrop_c.specs.Transfers.{makes_r1, r1_in};

mod configs;
mod counters;
mod crossing;
mod events;
mod handle;
mod inner;
mod items;
mod loose;
mod statuses;
mod transfers;

use configs::{header_of, makes_psk};
pub use crossing::{Address, Config, Item, Psk, R1Key};
use domain_base::Mac;
use embedded_node::{EmbeddedAp, EmbeddedStation};
pub use handle::Handle;
pub use inner::{Inner, Role};
use items::octets_of;
use key_hierarchy::psk_of;
use statuses::{NO_MEMORY, NO_NODE, OK, UNFIT, status_untaken};
use std::alloc::Global;
use transfers::{makes_r1, r1_of};

/// The pre-shared key of a passphrase of 8 to 63 characters with codes from 32 to 126, and the name
/// of a network.
#[unsafe(no_mangle)]
pub extern "C" fn kehtrop_psk(passphrase: &[u8], ssid: &[u8], psk: &mut Psk) -> u8
    ensures status { result
        ≡ cond (is_passphrase passphrase.now && is_ssid ssid.now) OK UNFIT }
    ensures psk { psk.new.octets ≡ cond (is_passphrase passphrase.now && is_ssid ssid.now)
        (pbkdf2 passphrase.now ssid.now) psk.old.octets }
{
    if !makes_psk(passphrase, ssid) {
        return UNFIT;
    }
    psk.octets = psk_of(passphrase, ssid);
    OK
}

// Puts in a node that starts.
fn put_in(node: &mut Handle, alloc: Global, role: Role) -> u8
    ensures { Started (λ r. r ≡ role) true node.old.value node.new.value result }
{
    match Box::new(alloc, Inner { role, told: None }) {
        Ok(inner) => {
            node.put(alloc, inner);
            OK
        }
        Err(_) => NO_MEMORY,
    }
}

/// A station starts, with the key that it shares with the network. What the handle was before is
/// freed.
#[unsafe(no_mangle)]
pub extern "C" fn kehtrop_station(
    node: &mut Handle,
    alloc: Global,
    config: &Config,
    psk: &Psk,
    first_draw: u64,
) -> u8
    ensures { Started (IsStation config.now psk.now.octets first_draw)
        (can_station config.now first_draw) node.old.value node.new.value result }
{
    let Some(header) = header_of(config) else {
        return UNFIT;
    };
    let address = Mac(config.address);
    match EmbeddedStation::start(alloc, &header, address, &psk.octets, first_draw) {
        Ok(station) => put_in(node, alloc, Role::Station(station)),
        Err(why) => status_untaken(why),
    }
}

/// An access point starts, with its R0KH-ID of 1 to 48 octets. What the handle was before is freed.
#[unsafe(no_mangle)]
pub extern "C" fn kehtrop_access_point(
    node: &mut Handle,
    alloc: Global,
    config: &Config,
    r0kh_id: &[u8],
    first_draw: u64,
) -> u8
    ensures { Started (IsAccessPoint config.now r0kh_id.now first_draw)
        (can_access_point config.now r0kh_id.now first_draw)
        node.old.value node.new.value result }
{
    let Some(header) = header_of(config) else {
        return UNFIT;
    };
    match EmbeddedAp::start(alloc, &header, Mac(config.address), r0kh_id, first_draw) {
        Ok(ap) => put_in(node, alloc, Role::Ap(ap)),
        Err(why) => status_untaken(why),
    }
}

/// A station lists an access point that it found, and an access point another one of its mobility
/// domain, with its R0KH-ID of 1 to 48 octets (which suite 4 alone looks at).
#[unsafe(no_mangle)]
pub extern "C" fn kehtrop_list_ap(
    node: &mut Handle,
    alloc: Global,
    address: &Address,
    r0kh_id: &[u8],
) -> u8
    ensures { ListedApIn node.old.value node.new.value (record { 0 = address.now.octets })
        r0kh_id.now result }
{
    let Some(mut inner) = node.take(alloc) else {
        return NO_NODE;
    };
    let status = inner.role.list_ap(alloc, Mac(address.octets), r0kh_id);
    node.put(alloc, inner);
    status
}

/// The PMK-R1 that the R0 key holder of an R0KH-ID makes for a station and an access point, its R1 key
/// holder, from the key that the station shares with the network. `config` is of a node of that
/// network, of suite 4; its seed and address are not looked at.
#[unsafe(no_mangle)]
pub extern "C" fn kehtrop_r1(
    config: &Config,
    psk: &Psk,
    r0kh_id: &[u8],
    station: &Address,
    access_point: &Address,
    key: &mut R1Key,
) -> u8
    ensures status { result ≡ cond (makes_r1 config.now r0kh_id.now) OK UNFIT }
    ensures key { key.new ≡ cond (makes_r1 config.now r0kh_id.now)
        (r1_in config.now psk.now.octets r0kh_id.now station.now.octets access_point.now.octets)
        key.old }
{
    if !makes_r1(config, r0kh_id) {
        return UNFIT;
    }
    *key = r1_of(config, psk, r0kh_id, station, access_point);
    OK
}

/// An access point takes a PMK-R1 that the R0 key holder of a listed other one made for it and a listed
/// station (`kehtrop_r1` there), for a fast transition from it. It is believed. The one that the same
/// holder gave for the station before is forgotten, and each is as the station is revoked
/// (`KEHTROP_REVOKE`) or has another pre-shared key (`KEHTROP_SECRET`).
#[unsafe(no_mangle)]
pub extern "C" fn kehtrop_push_r1(
    node: &mut Handle,
    alloc: Global,
    r0kh_id: &[u8],
    key: &R1Key,
) -> u8
    ensures { PushedIn node.old.value node.new.value r0kh_id.now key.now result }
{
    let Some(mut inner) = node.take(alloc) else {
        return NO_NODE;
    };
    let status = inner.role.push(r0kh_id, key);
    node.put(alloc, inner);
    status
}

/// An access point lists a station, with the key that it shares with the network.
#[unsafe(no_mangle)]
pub extern "C" fn kehtrop_list_station(
    node: &mut Handle,
    alloc: Global,
    address: &Address,
    psk: &Psk,
) -> u8
    ensures { ListedStaIn node.old.value node.new.value (record { 0 = address.now.octets })
        psk.now.octets result }
{
    let Some(mut inner) = node.take(alloc) else {
        return NO_NODE;
    };
    let status = inner.role.list_station(Mac(address.octets), &psk.octets);
    node.put(alloc, inner);
    status
}

/// One event. `peer` and `octets` are never null; an event that has none passes over them. `tid` is
/// 0 to 15, else the payload goes without one.
#[unsafe(no_mangle)]
pub extern "C" fn kehtrop_event(
    node: &mut Handle,
    alloc: Global,
    what: u8,
    peer: &Address,
    tid: u8,
    octets: &[u8],
) -> u8
    ensures { AnsweredIn node.old.value node.new.value what peer.now.octets tid octets.now
        result }
{
    let Some(mut inner) = node.take(alloc) else {
        return NO_NODE;
    };
    let status = inner.role.ask(alloc, what, &peer.octets, tid, octets);
    node.put(alloc, inner);
    status
}

/// The next item, while the answer is `KEHTROP_OK`.
#[unsafe(no_mangle)]
pub extern "C" fn kehtrop_next(node: &mut Handle, alloc: Global, item: &mut Item) -> u8
    ensures { TellsIn node.old.value node.new.value item.old item.new result }
{
    let Some(mut inner) = node.take(alloc) else {
        return NO_NODE;
    };
    inner.tell();
    let status = inner.say(item);
    node.put(alloc, inner);
    status
}

// Copies as many octets to the front of `out` as there are and it has room for.
fn copy_front(octets: &[u8], out: &mut [u8]) -> usize
    ensures len { result ≡ min (length octets.now) (length out.old) }
    ensures front { take result out.new ≡ take result octets.now }
    ensures rest { drop result out.new ≡ drop result out.old }
{
    let len = octets.len().min(out.len());
    out[..len].copy_from_slice(&octets[..len]);
    len
}

/// The octets of the item told last: copies as many as there is room for, and answers how many.
#[unsafe(no_mangle)]
pub extern "C" fn kehtrop_octets(node: &mut Handle, alloc: Global, out: &mut [u8]) -> usize
    ensures same { node.new.value ≡ node.old.value }
    ensures len { result ≡ min (length (octets_in node.old.value)) (length out.old) }
    ensures front { take result out.new ≡ take result (octets_in node.old.value) }
    ensures rest { drop result out.new ≡ drop result out.old }
{
    let Some(inner) = node.take(alloc) else {
        return 0;
    };
    let len = copy_front(octets_of(&inner.told), out);
    node.put(alloc, inner);
    len
}

/// Frees the node. The handle is `KEHTROP_NONE` again, so a second call does nothing.
#[unsafe(no_mangle)]
pub extern "C" fn kehtrop_free(node: &mut Handle, alloc: Global)
    ensures { node.new.value ≡ None }
{
    let _ = node.take(alloc);
}
