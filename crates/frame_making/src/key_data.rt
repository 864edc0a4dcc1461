//! The key data of messages 2 and 3 of the four-way handshake.

ghost use Rattle.std.specs.Prelude.{◌≡◌, ◌≤◌, ◌<◌, ◌^◌, ◌++◌, Some, None, length};
ghost use Rattle.rsn_elements.specs.Sent.{rsne_octets, rsne_mfp_octets, mde_octets};
ghost use Rattle.rsn_elements.specs.Sent.{gtk_kde_octets, igtk_kde_octets};
ghost use Rattle.domain_rules.specs.Frames.{timeouts, group_kdes};
ghost use Rattle.group_key.specs.News.{FitsNews, carried_news};
ghost use Rattle.frame_making.specs.KeyData.{rsne_by, m2_data, m3_data, HasShortFte};

use domain_base::{Akm, ShortOctets, put};
use group_key::{IgtkNews, News};
use rsn_elements::ElementWriter;
use std::marker::Model;

// The octets of an RSNE without a PMKID list, and with one PMKID, where management frames are
// protected; else there are six less, and four.
const MOST_RSNE: usize = 28;

const MOST_NAMED_RSNE: usize = 44;

// The octets of an element at most: its id, its length, and 255 more (IEEE Std 802.11-2020,
// 9.4.2.1).
const MOST_ELEMENT: usize = 257;

/// The octets of the FTE of an association response of an access point at most.
pub(crate) const MOST_FTE: usize = 142;

/// The octets of the key data of message 2 at most: an RSNE with one PMKID, an MDE and an FTE.
pub const MOST_M2_DATA: usize = MOST_NAMED_RSNE + 5 + MOST_ELEMENT;

// The octets of the KDEs of group keys at most: of a GTK, and of an IGTK.
pub(crate) const MOST_KDES: usize = 24 + 30;

// The octets of an RSNE with one PMKID, an MDE and the KDEs at most.
const MOST_FRONT: usize = MOST_NAMED_RSNE + 5 + MOST_KDES;

/// The octets of the key data of message 3 at most, before padding: an RSNE with one PMKID, an MDE,
/// the KDEs of group keys, the FTE of the association response, and two timeout intervals.
pub const MOST_M3_DATA: usize = MOST_FRONT + MOST_FTE + 14;

/// What suite 4 adds to the key data of messages 2 and 3 (IEEE Std 802.11-2020, 13.4.2).
#[derive(Drop)]
pub struct Mobility {
    name: [u8; 16],
    mdid: [u8; 2],
    fte: ShortOctets<MOST_ELEMENT>,
}

impl Model for Mobility {
    ghost use Rattle.std.specs.Prelude.{◌≤◌, length};
    ghost use Rattle.frame_making.specs.Mobile.{Mobility as Added};

    ghost Value = { Added };

    ghost view = { λ m. record {
      name = m.name;
      mdid = m.mdid;
      fte = m.fte;
    } };

    ghost invariant = { λ m. length m.fte ≤ 257 };
}

impl Mobility {
    /// Of PMKR1Name, the mobility domain, and the FTE of the association response, whole: at most
    /// 257 octets.
    pub fn of(name: &[u8; 16], mdid: [u8; 2], fte: &[u8]) -> Self
        requires { length fte.now ≤ 257 }
        ensures { result ≡ record { name = name.now; mdid = mdid; fte = fte.now } }
    {
        Mobility {
            name: *name,
            mdid,
            fte: ShortOctets::of(fte),
        }
    }

    /// PMKR1Name.
    pub fn name(&self) -> &[u8; 16]
        ensures { result.now ≡ self.now.name }
    {
        &self.name
    }

    /// The mobility domain.
    pub fn mdid(&self) -> [u8; 2]
        ensures { result ≡ self.now.mdid }
    {
        self.mdid
    }

    /// The FTE of the association response, whole.
    pub fn fte(&self) -> &[u8]
        ensures octets { result.now ≡ self.now.fte }
        ensures few { length result.now ≤ 257 }
    {
        self.fte.as_slice()
    }
}

// The RSNE of the suite without a PMKID list, where management frames are not protected
// (IEEE Std 802.11-2020, 9.4.2.24).
fn plain_rsne(akm: Akm) -> [u8; 22]
    ensures { result ≡ rsne_octets akm None }
{
    let mut out = [0; 22];
    ElementWriter::over(&mut out).rsne(akm, None);
    out
}

// And where they are protected.
fn mfp_rsne(akm: Akm) -> [u8; MOST_RSNE]
    ensures { result ≡ rsne_mfp_octets akm None }
{
    let mut out = [0; MOST_RSNE];
    ElementWriter::over(&mut out).rsne_mfp(akm, None);
    out
}

/// The RSNE of the suite, as this network sends it: without a PMKID list, and where management
/// frames are protected with an empty one (IEEE Std 802.11-2020, 9.4.2.24).
pub fn rsne(akm: Akm, mfp: bool) -> ShortOctets<MOST_RSNE>
    ensures octets { result ≡ rsne_by mfp akm None }
    ensures some { 0 < length result }
    ensures few { length result ≤ 28 }
{
    if mfp {
        ShortOctets::of(&mfp_rsne(akm))
    } else {
        ShortOctets::of(&plain_rsne(akm))
    }
}

// With the name of a key in its PMKID list, where management frames are not protected.
fn named_plain_rsne(akm: Akm, name: &[u8; 16]) -> [u8; 40]
    ensures { result ≡ rsne_octets akm (Some name.now) }
{
    let mut out = [0; 40];
    ElementWriter::over(&mut out).rsne(akm, Some(name));
    out
}

// And where they are protected.
fn named_mfp_rsne(akm: Akm, name: &[u8; 16]) -> [u8; MOST_NAMED_RSNE]
    ensures { result ≡ rsne_mfp_octets akm (Some name.now) }
{
    let mut out = [0; MOST_NAMED_RSNE];
    ElementWriter::over(&mut out).rsne_mfp(akm, Some(name));
    out
}

/// With the name of a key in its PMKID list.
pub fn named_rsne(akm: Akm, mfp: bool, name: &[u8; 16]) -> ShortOctets<MOST_NAMED_RSNE>
    ensures octets { result ≡ rsne_by mfp akm (Some name.now) }
    ensures some { 0 < length result }
    ensures few { length result ≤ 44 }
{
    if mfp {
        ShortOctets::of(&named_mfp_rsne(akm, name))
    } else {
        ShortOctets::of(&named_plain_rsne(akm, name))
    }
}

// The MDE.
fn mde(mdid: [u8; 2]) -> [u8; 5]
    ensures { result ≡ mde_octets mdid }
{
    let mut out = [0; 5];
    ElementWriter::over(&mut out).mde(mdid);
    out
}

// A GTK KDE (IEEE Std 802.11-2020, 12.7.2).
fn gtk_kde(id: u8, key: &[u8; 16]) -> [u8; 24]
    requires { id < 4 }
    ensures octets { result ≡ gtk_kde_octets id key.now }
    ensures size { length result ≡ 24 }
{
    let mut out = [0; 24];
    ElementWriter::over(&mut out).gtk_kde(id, key);
    out
}

// An IGTK KDE (IEEE Std 802.11-2020, 12.7.2).
#[tactic(auto, using(crate::proofs::GroupKdes::igtk_kde_size))]
fn igtk_kde(id: u8, ipn: u64, key: &[u8; 16]) -> [u8; 30]
    requires { ipn < 2 ^ 48 }
    ensures octets { result ≡ igtk_kde_octets id ipn key.now }
    ensures size { length result ≡ 30 }
{
    let mut out = [0; 30];
    ElementWriter::over(&mut out).igtk_kde(u16::from(id), ipn, key);
    out
}

// The KDE of a GTK, and after it that of an IGTK.
fn both_kdes(gtk: &[u8; 24], igtk: &IgtkNews) -> ShortOctets<MOST_KDES>
    requires { igtk.now.ipn < 2 ^ 48 }
    ensures octets { result
        ≡ gtk.now ++ igtk_kde_octets igtk.now.igtk.id igtk.now.ipn igtk.now.igtk.key }
    ensures few { length result ≤ MOST_KDES }
{
    let key = igtk.igtk;
    let mut out = [0; MOST_KDES];
    let end = put(&mut out, 0, gtk);
    let end = put(&mut out, end, &igtk_kde(key.id, igtk.ipn, &key.key));
    let (octets, _) = out.split_at(end);
    ShortOctets::of(octets)
}

/// The KDEs of group keys, before padding and wrap (IEEE Std 802.11-2020, 12.7.2): of the GTK, and
/// of the IGTK, where there is one.
#[tactic(auto, using(crate::proofs::GroupKdes::id_low, crate::proofs::GroupKdes::ipn_low, crate::proofs::GroupKdes::one_kde, crate::proofs::GroupKdes::two_kdes))]
pub(crate) fn group_kdes(news: &News) -> ShortOctets<MOST_KDES>
    requires { FitsNews news.now }
    ensures octets { result ≡ group_kdes (carried_news news.now) }
    ensures few { length result ≤ MOST_KDES }
{
    let gtk = gtk_kde(news.gtk.id, &news.gtk.key);
    match news.igtk {
        None => ShortOctets::of(&gtk),
        Some(igtk) => both_kdes(&gtk, &igtk),
    }
}

// The deadline of a reassociation and the lifetime of the key (IEEE Std 802.11-2020, 9.4.2.48):
// written, and looked at by none.
fn timeouts() -> [u8; 14]
    ensures { result ≡ timeouts }
{
    let mut out = [0; 14];
    let mut writer = ElementWriter::over(&mut out);
    writer.timeout(1, 1000);
    writer.timeout(2, 86400);
    out
}

// Of message 2 with suite 4.
fn mobile_m2_data(akm: Akm, mfp: bool, mobility: &Mobility) -> ShortOctets<MOST_M2_DATA>
    ensures octets { result ≡ rsne_by mfp akm (Some mobility.now.name)
        ++ mde_octets mobility.now.mdid ++ mobility.now.fte }
    ensures some { 0 < length result }
    ensures few { length result ≤ MOST_M2_DATA }
{
    let named = named_rsne(akm, mfp, mobility.name());
    let mut out = [0; MOST_M2_DATA];
    let end = put(&mut out, 0, named.as_slice());
    let end = put(&mut out, end, &mde(mobility.mdid()));
    let end = put(&mut out, end, mobility.fte());
    let (octets, _) = out.split_at(end);
    ShortOctets::of(octets)
}

/// The key data of message 2 (IEEE Std 802.11-2020, 12.7.6.3 and 13.4.2): the RSNE; with suite 4
/// with PMKR1Name, the MDE, and the FTE of the association response.
pub fn m2_key_data(akm: Akm, mfp: bool, mobility: &Option<Mobility>) -> ShortOctets<MOST_M2_DATA>
    ensures octets { result ≡ m2_data mfp akm mobility.now }
    ensures some { 0 < length result }
    ensures few { length result ≤ MOST_M2_DATA }
{
    match mobility {
        None => {
            let plain = rsne(akm, mfp);
            ShortOctets::of(plain.as_slice())
        }
        Some(mobility) => mobile_m2_data(akm, mfp, mobility),
    }
}

// Of message 3 with suites 2 and 6.
fn plain_m3_data(akm: Akm, mfp: bool, news: &News) -> ShortOctets<MOST_M3_DATA>
    requires { FitsNews news.now }
    ensures octets { result ≡ rsne_by mfp akm None ++ group_kdes (carried_news news.now) }
    ensures few { length result ≤ MOST_M3_DATA }
{
    let plain = rsne(akm, mfp);
    let kdes = group_kdes(news);
    let mut out = [0; MOST_M3_DATA];
    let end = put(&mut out, 0, plain.as_slice());
    let end = put(&mut out, end, kdes.as_slice());
    let (octets, _) = out.split_at(end);
    ShortOctets::of(octets)
}

// What stands before the FTE in that of message 3 with suite 4.
fn mobile_front(akm: Akm, mfp: bool, mobility: &Mobility, news: &News) -> ShortOctets<MOST_FRONT>
    requires { FitsNews news.now }
    ensures octets { result ≡ rsne_by mfp akm (Some mobility.now.name)
        ++ mde_octets mobility.now.mdid ++ group_kdes (carried_news news.now) }
    ensures few { length result ≤ MOST_FRONT }
{
    let named = named_rsne(akm, mfp, mobility.name());
    let kdes = group_kdes(news);
    let mut out = [0; MOST_FRONT];
    let end = put(&mut out, 0, named.as_slice());
    let end = put(&mut out, end, &mde(mobility.mdid()));
    let end = put(&mut out, end, kdes.as_slice());
    let (octets, _) = out.split_at(end);
    ShortOctets::of(octets)
}

// Of message 3 with suite 4.
fn mobile_m3_data(
    akm: Akm,
    mfp: bool,
    mobility: &Mobility,
    news: &News,
) -> ShortOctets<MOST_M3_DATA>
    requires news { FitsNews news.now }
    requires fte { length mobility.now.fte ≤ 142 }
    ensures octets { result ≡ rsne_by mfp akm (Some mobility.now.name)
        ++ mde_octets mobility.now.mdid ++ group_kdes (carried_news news.now)
        ++ mobility.now.fte ++ timeouts }
    ensures few { length result ≤ MOST_M3_DATA }
{
    let front = mobile_front(akm, mfp, mobility, news);
    let mut out = [0; MOST_M3_DATA];
    let end = put(&mut out, 0, front.as_slice());
    let end = put(&mut out, end, mobility.fte());
    let end = put(&mut out, end, &timeouts());
    let (octets, _) = out.split_at(end);
    ShortOctets::of(octets)
}

/// The key data of message 3 with the group keys, before padding and wrap (IEEE Std 802.11-2020,
/// 12.7.6.4 and 13.4.2): the RSNE and the group keys; with suite 4 the RSNE with PMKR1Name, the MDE,
/// the group keys, the FTE of the association response, and both timeout intervals.
#[tactic(auto, using(crate::proofs::MobileData::short_fte))]
pub fn m3_key_data(
    akm: Akm,
    mfp: bool,
    mobility: &Option<Mobility>,
    news: &News,
) -> ShortOctets<MOST_M3_DATA>
    requires news { FitsNews news.now }
    requires fte { HasShortFte mobility.now }
    ensures octets { result ≡ m3_data mfp akm mobility.now (carried_news news.now) }
    ensures few { length result ≤ MOST_M3_DATA }
{
    match mobility {
        None => plain_m3_data(akm, mfp, news),
        Some(mobility) => mobile_m3_data(akm, mfp, mobility, news),
    }
}
