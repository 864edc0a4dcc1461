//! The current group keys of an access point in use (IEEE Std 802.11-2020, 12.7.7).

ghost use Rattle.std.specs.Prelude.{◌≡◌, ◌<◌, ◌≤◌, ◌+◌, ◌^◌, ◌++◌, option_map, length};
ghost use Rattle.std.specs.Prelude.{IfOk, OnOk, OnErr};
ghost use Rattle.domain_base.specs.declared.names.Peer.TheVariants.{All};
ghost use Rattle.run_journal.specs.Events.{IsListed, IsReceiverOf, most_payload};
ghost use Rattle.domain_rules.specs.ManagementFrames.{announced, announce_acts_by};
ghost use Rattle.data_frames.specs.Announcing.{announced_once};
ghost use Rattle.ap_node.specs.InUse.{unannounced, made, made_act, made_acts, announced_in};
ghost use Rattle.ap_node.specs.InUse.{announced_by};

use act_memory::{Outbox, idle};
use data_frames::{DataKey, IntegrityKey};
use domain_base::{Mac, NoMemory, Peer};
use group_key::GroupKey;
use node_base::Here;
use run_journal::{Act, GroupKind, Key, Outcome, Why};

/// The current group keys of an access point, under which it sends to all.
#[derive(Drop)]
pub struct Sending {
    /// The GTK: data is sent under it.
    pub gtk: DataKey,
    /// The IGTK, where management frames are protected: announcements are sent under it.
    pub igtk: Option<IntegrityKey>,
}

// The IGTK as it comes into use, where there is one.
fn made_igtk(igtk: Option<GroupKey>) -> Option<IntegrityKey>
    ensures { result ≡ option_map unannounced igtk }
{
    match igtk {
        Some(key) => Some(IntegrityKey::made(&key.key, key.id)),
        None => None,
    }
}

impl Sending {
    /// Those keys, as they come into use.
    pub fn made(gtk: &GroupKey, igtk: Option<GroupKey>) -> Self
        requires { (1 ≤ gtk.now.id) × (gtk.now.id < 4) }
        ensures { result ≡ made gtk.now igtk }
    {
        let key = DataKey::group(&gtk.key, gtk.id, 0);
        let igtk = made_igtk(igtk);
        Sending { gtk: key, igtk }
    }

    /// How many packet numbers were used under the IGTK: none where there is none.
    pub fn announced(&self) -> u64
        ensures value { result ≡ announced_in self.now.igtk }
        ensures range { result < 2 ^ 48 }
    {
        match &self.igtk {
            Some(key) => key.used(),
            None => 0,
        }
    }
}

// That group key becomes the current one of its kind, of the access point with that address.
fn made_act(kind: GroupKind, group: &GroupKey, bssid: Mac) -> Act
    ensures { result ≡ made_act kind group.now bssid }
{
    let (key, id) = (group.key, group.id);
    Act::Installed {
        peer: Peer::All,
        key: Key::Group {
            kind,
            key,
            id,
            bssid,
        },
    }
}

/// Adds the acts of group keys that become the current ones, of the access point with that address.
/// Takes no memory.
#[tactic(auto, using(crate::proofs::BothDrawn::made_one, crate::proofs::BothDrawn::made_two))]
pub fn add_made(gtk: &GroupKey, igtk: Option<GroupKey>, bssid: Mac, out: &mut Outbox)
    requires room { 2 ≤ out.old.spare }
    ensures acts { out.new.acts ≡ out.old.acts ++ made_acts gtk.now igtk bssid }
    ensures spare { out.old.spare ≤ out.new.spare + 2 }
{
    out.add(made_act(GroupKind::Gtk, gtk, bssid));
    match igtk {
        Some(igtk) => out.add(made_act(GroupKind::Igtk, &igtk, bssid)),
        None => {}
    }
}

/// Sends an announcement with that payload to all under the next packet number of the IGTK; without
/// one nothing is sent (IEEE Std 802.11-2020, 12.5.4.4).
pub fn announce_under(
    igtk: &mut Option<IntegrityKey>,
    here: Here<'_>,
    payload: &[u8],
    out: &mut Outbox,
) -> Result<Outcome, NoMemory>
    requires listed { IsListed here.domain.now here.node }
    requires receiver { IsReceiverOf here.domain.now here.node All }
    requires short { length payload.now ≤ most_payload }
    ensures acts { OnOk result (out.new.acts ≡ out.old.acts ++ announce_acts_by
        here.entry.domain.now here.entry.node (announced payload.now) igtk.old) }
    ensures outcome { IfOk result (λ came. came ≡ announced_by igtk.old) }
    ensures used { OnOk result (igtk.new ≡ option_map announced_once igtk.old) }
    ensures same { OnErr result (igtk.new ≡ igtk.old) }
    ensures kept { OnErr result (out.new.acts ≡ out.old.acts) }
{
    match igtk {
        Some(key) => key.announce(here, payload, out),
        None => idle(Why::NoKey, out),
    }
}
