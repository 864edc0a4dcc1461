//! Key data in its wrap, and the group keys that it carries (IEEE Std 802.11-2020, 12.7.2). No
//! memory is taken.

ghost use Rattle.std.specs.Prelude.{◌≡◌, ◌≤◌, Some, false, true, length};
ghost use Rattle.std.specs.Prelude.{MatchOption, MatchResult, option_map, option_copied};
ghost use Rattle.rsn_elements.specs.Fields.{gtk_kde_fields, igtk_kde_fields};
ghost use Rattle.eapol_key.specs.Fields.{IsKeyFrame};
ghost use Rattle.eapol_key.specs.KeyFrame.{SpellsKeyFrame, KeyFields};
ghost use Rattle.run_journal.specs.declared.acts.KeyDataFault.TheVariants as faults;
ghost use Rattle.run_journal.specs.declared.acts.Reason.TheVariants as reasons;
ghost use Rattle.run_journal.specs.declared.acts.Outcome.TheVariants.{Accepted, Refused};
ghost use Rattle.domain_rules.specs.IntegrityKeys.{ipn_value, kde_ipn};
ghost use Rattle.domain_rules.specs.StationKeys.{is_group_key, is_integrity_key, igtk_data};
ghost use Rattle.domain_rules.specs.StationRows.{carried_in, carried_igtk_in};
ghost use Rattle.group_key.specs.Keys.{is_integrity_id};
ghost use Rattle.rsn_elements.specs.Fields.{mde_fields, element_fields};
ghost use Rattle.supplicant.specs.KeyData.{packet_number_of, group_key, has_rsne, has_mdid};
ghost use Rattle.supplicant.specs.KeyData.{has_fte};
ghost use Rattle.domain_rules.specs.Facts.{is_same};
ghost use Rattle.supplicant.specs.KeyData.{element_fault, CarriesIgtk, IsPlain, IsOpened};

use crate::base::Base;
use domain_base::{array_at, big_u16_at};
use eapol_key::{KEY_DATA_LEN_AT, KeyFrame, open_key_data};
use frame_making::{named_rsne, rsne};
use rsn_elements::{Elements, GtkKde, IgtkKde, Mde, Within, read_elements};
use run_journal::{KeyDataFault, Reason};

// The octets of a group key.
const KEY_LEN: usize = 16;

// Key data of up to so many octets is opened in a small buffer.
const SHORT_KEY_DATA: usize = 512;

// The most that the two octets of the key data's length can say.
const MOST_KEY_DATA: usize = 65_535;

/// A group key as key data carries it.
#[derive(Clone, Copy)]
pub struct CarriedKey {
    /// The key.
    pub key: [u8; 16],
    /// Its key id: of a GTK from 1 to 3, of an IGTK 4 or 5.
    pub id: u8,
}

/// An IGTK as key data carries it.
#[derive(Clone, Copy)]
pub struct CarriedIgtk {
    /// The key.
    pub igtk: CarriedKey,
    /// The packet number used last under it.
    pub ipn: u64,
}

/// The group keys that key data carries: an IGTK where management frames are protected.
#[derive(Clone, Copy)]
pub struct CarriedKeys {
    /// The GTK.
    pub gtk: CarriedKey,
    /// The IGTK.
    pub igtk: Option<CarriedIgtk>,
}

// The group key of a GTK KDE, where it is one.
fn key_of(found: Option<GtkKde<'_>>) -> Option<CarriedKey>
    ensures { let gtk = option_map gtk_kde_fields found.entry in
        MatchOption result (is_group_key gtk ≡ false)
        (λ c. (is_group_key gtk ≡ true) × (carried_in gtk ≡ group_key c)) }
{
    let Some(gtk) = found else { return None };
    if gtk.key.len() != KEY_LEN || gtk.id == 0 {
        return None;
    }
    Some(CarriedKey {
        key: array_at(gtk.key, 0),
        id: gtk.id,
    })
}

// The packet number of six octets, the lowest first.
fn ipn_of(ipn: [u8; 6]) -> u64
    ensures { result ≡ ipn_value ipn }
{
    let [a, b, c, d, e, f] = ipn;
    u64::from_le_bytes([a, b, c, d, e, f, 0, 0])
}

// The key id of an IGTK, where it is one.
fn igtk_id(id: u16) -> Option<u8>
    ensures { MatchOption result (is_integrity_id id ≡ false)
        (λ i. (is_integrity_id id ≡ true) × (i ≡ id)) }
{
    match id {
        4 => Some(4),
        5 => Some(5),
        _ => None,
    }
}

// The IGTK of an IGTK KDE, where it is one.
fn igtk_of(found: Option<IgtkKde<'_>>) -> Option<CarriedIgtk>
    ensures { let igtk = option_map igtk_kde_fields found.entry in
        MatchOption result (is_integrity_key igtk ≡ false)
        (λ k. (is_integrity_key igtk ≡ true) × ((carried_igtk_in igtk ≡ group_key k.igtk)
        × (kde_ipn igtk ≡ k.ipn))) }
{
    let Some(kde) = found else { return None };
    if kde.key.len() != KEY_LEN {
        return None;
    }
    let Some(id) = igtk_id(kde.id) else {
        return None;
    };
    let igtk = CarriedKey {
        key: array_at(kde.key, 0),
        id,
    };
    Some(CarriedIgtk {
        igtk,
        ipn: ipn_of(kde.ipn),
    })
}

// That IGTK, where management frames are protected; else none is looked at.
fn igtk_where(mfp: bool, found: Option<IgtkKde<'_>>) -> Result<Option<CarriedIgtk>, KeyDataFault>
    ensures { let igtk = option_map igtk_kde_fields found.entry in
        MatchResult result (λ k. (igtk_data mfp igtk ≡ Accepted) × CarriesIgtk mfp igtk k)
        (λ what. (what ≡ faults.Igtk)
        × (igtk_data mfp igtk ≡ Refused (reasons.KeyData faults.Igtk))) }
{
    if !mfp {
        return Ok(None);
    }
    match igtk_of(found) {
        Some(igtk) => Ok(Some(igtk)),
        None => Err(KeyDataFault::Igtk),
    }
}

// Whether the octets were found, and are these.
fn is_same(found: Option<&[u8]>, octets: &[u8]) -> bool
    ensures { result ≡ is_same (option_copied found.entry) (Some octets.now) }
{
    match found {
        Some(found) => found == octets,
        None => false,
    }
}

// Whether the RSNE that is asked for was found, where one is.
fn has_rsne(asked: Option<&Base>, mfp: bool, found: Option<&[u8]>) -> bool
    ensures { result ≡ has_rsne mfp (option_copied asked.entry) (option_copied found.entry) }
{
    let Some(base) = asked else { return true };
    match &base.mobility {
        None => {
            let plain = rsne(base.akm, mfp);
            is_same(found, plain.as_slice())
        }
        Some(mobility) => {
            let named = named_rsne(base.akm, mfp, mobility.name());
            is_same(found, named.as_slice())
        }
    }
}

// Whether the mobility domain that is asked for was found, where one is.
fn has_mdid(asked: Option<&Base>, found: Option<Mde>) -> bool
    ensures { result ≡ has_mdid (option_copied asked.entry) (option_map mde_fields found) }
{
    let Some(base) = asked else { return true };
    let Some(mobility) = &base.mobility else {
        return true;
    };
    match found {
        Some(mde) => mde.mdid == mobility.mdid(),
        None => false,
    }
}

// Whether the FTE that is asked for was found, where one is.
fn has_fte(asked: Option<&Base>, found: Option<&[u8]>) -> bool
    ensures { result ≡ has_fte (option_copied asked.entry) (option_copied found.entry) }
{
    let Some(base) = asked else { return true };
    let Some(mobility) = &base.mobility else {
        return true;
    };
    is_same(found, mobility.fte())
}

// The first of the elements that is not the one that is asked for.
fn element_fault(asked: Option<&Base>, mfp: bool, elements: &Elements<'_>) -> Option<KeyDataFault>
    ensures { result
        ≡ element_fault mfp (option_copied asked.entry) (element_fields elements.now) }
{
    if !has_rsne(asked, mfp, elements.rsne_octets) {
        return Some(KeyDataFault::Rsne);
    }
    if !has_mdid(asked, elements.mde) {
        return Some(KeyDataFault::Mde);
    }
    if !has_fte(asked, elements.fte_octets) {
        return Some(KeyDataFault::Fte);
    }
    None
}

// The group keys that plain key data carries, or what is wrong with it.
#[tactic(auto, using(crate::proofs::KeyDataRead::plain_unreadable, crate::proofs::KeyDataRead::plain_gtk, crate::proofs::KeyDataRead::plain_igtk, crate::proofs::KeyDataRead::plain_keys))]
fn carried(asked: Option<&Base>, mfp: bool, plain: &[u8]) -> Result<CarriedKeys, KeyDataFault>
    ensures { IsPlain mfp (option_copied asked.entry) plain.now result }
{
    let Ok(elements) = read_elements(plain, Within::KeyData) else {
        return Err(KeyDataFault::Unreadable);
    };
    if let Some(fault) = element_fault(asked, mfp, &elements) {
        return Err(fault);
    }
    let Some(gtk) = key_of(elements.gtk) else {
        return Err(KeyDataFault::Gtk);
    };
    match igtk_where(mfp, elements.igtk) {
        Ok(igtk) => Ok(CarriedKeys { gtk, igtk }),
        Err(fault) => Err(fault),
    }
}

// The group keys that wrapped key data carries, or why it is refused. The plain key data comes into
// the slice.
#[tactic(auto, using(crate::proofs::KeyDataRead::opened_not))]
fn open_into(
    asked: Option<&Base>,
    mfp: bool,
    kek: &[u8; 16],
    key_data: &[u8],
    out: &mut [u8],
) -> Result<CarriedKeys, Reason>
    requires { length key_data.now ≤ length out.old }
    ensures { IsOpened mfp (option_copied asked.entry) kek.now key_data.now result }
{
    let Ok(size) = open_key_data(kek, key_data, out) else {
        return Err(Reason::Wrap);
    };
    let (plain, _) = out.split_at(size);
    match carried(asked, mfp, plain) {
        Ok(keys) => Ok(keys),
        Err(fault) => Err(Reason::KeyData(fault)),
    }
}

// The most octets that a frame has behind its fixed fields.
fn most_key_data(octets: &[u8]) -> usize
    requires long { 99 ≤ length octets.now }
    ensures few { result ≤ 65535 }
    ensures most { (f : KeyFields) → SpellsKeyFrame octets.now f (length octets.now)
        → length f.key_data ≤ result }
{
    usize::from(big_u16_at(octets, KEY_DATA_LEN_AT))
}

/// The group keys that the wrapped key data of a frame carries, or why it is refused: where
/// management frames are protected an IGTK too. In message 3 the RSNE has to stand there, as this
/// network sends it; with suite 4 with PMKR1Name, beside the MDE and the FTE of the association
/// response.
pub fn open(
    asked: Option<&Base>,
    mfp: bool,
    kek: &[u8; 16],
    frame: &KeyFrame<'_>,
) -> Result<CarriedKeys, Reason>
    requires { IsKeyFrame frame.now }
    ensures { IsOpened mfp (option_copied asked.entry) kek.now frame.now.key_data.now result }
{
    let key_data = frame.key_data;
    if key_data.len() > SHORT_KEY_DATA {
        return open_long(asked, mfp, kek, frame);
    }
    open_into(asked, mfp, kek, key_data, &mut [0; SHORT_KEY_DATA])
}

// That of key data of any length. The buffer is large, so it stands apart.
fn open_long(
    asked: Option<&Base>,
    mfp: bool,
    kek: &[u8; 16],
    frame: &KeyFrame<'_>,
) -> Result<CarriedKeys, Reason>
    requires { IsKeyFrame frame.now }
    ensures { IsOpened mfp (option_copied asked.entry) kek.now frame.now.key_data.now result }
{
    let (octets, key_data) = (frame.octets, frame.key_data);
    let mut buffer = [0; MOST_KEY_DATA];
    let (out, _) = buffer.split_at_mut(most_key_data(octets));
    open_into(asked, mfp, kek, key_data, out)
}

/// The packet number in the RSC field: six octets, the lowest first (IEEE Std 802.11-2020, 12.7.2).
pub fn packet_number(rsc: [u8; 8]) -> u64
    ensures { result ≡ packet_number_of rsc }
{
    let [a, b, c, d, e, f, _, _] = rsc;
    u64::from_le_bytes([a, b, c, d, e, f, 0, 0])
}
