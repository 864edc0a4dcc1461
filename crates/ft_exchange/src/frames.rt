//! The frames of a fast transition, written into replies. No memory is taken.

ghost use Rattle.std.specs.Prelude.{◌≡◌, ◌≤◌, ◌+◌, Some, None, [], length, take, option_map};
ghost use Rattle.std.specs.Option.{ForSome};
ghost use Rattle.mac_prf.specs.Cmac.{cmac};
ghost use Rattle.mac_prf.specs.FteMic.{transaction_number};
ghost use Rattle.air_frame.specs.Sent.{ft_req_octets, ft_resp_octets, re_req_octets};
ghost use Rattle.air_frame.specs.Sent.{re_resp_octets, IsAddress};
ghost use Rattle.rsn_elements.specs.Fields.{fte_fields, wrapped_gtk_fields};
ghost use Rattle.rsn_elements.specs.Fields.{wrapped_igtk_fields};
ghost use Rattle.rsn_elements.specs.Sent.{mde_octets, fte_octets};
ghost use Rattle.rsn_elements.specs.Writer.{HasRoom, Appends};
ghost use Rattle.key_hierarchy.specs.Sizes.{IsSsid, IsR0khId};
ghost use Rattle.run_journal.specs.declared.acts.Kind.TheVariants as kind;
ghost use Rattle.domain_rules.specs.FastTransition.{no_nonce, plain_fte};
ghost use Rattle.ft_exchange.specs.Sent.{FitsFte, counted, named_elements, input_between, Sends};
ghost use Rattle.ft_exchange.specs.Sent.{sealed_of, re_req_elements_of, re_resp_elements_of};
ghost use Rattle.ft_exchange.specs.Sent.{AreSized, named_rsne, named_rsne_len, covered_in};

use crate::fields::{NO_NONCE, counted_fte, plain_fte, with_mic};
use crate::mic::Between;
use air_frame::{write_ft_req, write_ft_resp, write_re_req, write_re_resp};
use domain_base::{Akm, Mac};
use mac_prf::{FteCovered, KeptMicKey, Reassociation, fte_mic};
use rsn_elements::{ElementWriter, Fte, WrappedGtk, WrappedIgtk};
use run_journal::{Keyed, Kind, Reply};

// The octets of an RSNE with a name, of an MDE, and of an FTE at most.
const MOST_RSNE: usize = 44;

const MDE_LEN: usize = 5;

const MOST_FTE: usize = 214;

// The octets of the elements of a frame at most: an SSID, rates, RSNE, MDE and FTE.
const MOST_ELEMENTS: usize = 34 + 6 + MOST_RSNE + MDE_LEN + MOST_FTE;

/// What every frame has of a part of a node with its peer.
#[derive(Clone, Copy)]
pub struct Side<'a> {
    /// The own address.
    pub own: Mac,
    /// The peer's address.
    pub peer: Mac,
    /// Whether management frames are protected.
    pub mfp: bool,
    /// The mobility domain.
    pub mdid: [u8; 2],
    /// The R0KH-ID, of 1 to 48 octets.
    pub r0kh_id: &'a [u8],
}

// An address has six octets.
fn whole(address: Mac) -> Mac
    ensures { IsAddress address.0 }
{
    address
}

// Adds the RSNE with that name: where management frames are protected it says so
// (IEEE Std 802.11-2020, 9.4.2.24).
#[tactic(auto, using(crate::proofs::Written::protected_written, crate::proofs::Written::plain_written))]
fn add_rsne(mfp: bool, name: &[u8; 16], writer: &mut ElementWriter<'_>)
    requires { HasRoom writer.old MOST_RSNE }
    ensures written { Appends writer.old writer.new (named_rsne mfp name.now) }
    ensures name { length name.now ≡ 16 }
{
    if mfp {
        writer.rsne_mfp(Akm::FtPsk, Some(name));
    } else {
        writer.rsne(Akm::FtPsk, Some(name));
    }
}

// Writes the RSNE with that name to the front of `out`, and answers how many octets it takes.
fn put_rsne(mfp: bool, name: &[u8; 16], out: &mut [u8]) -> usize
    requires { MOST_RSNE ≤ length out.old }
    ensures front { take result out.new ≡ named_rsne mfp name.now }
    ensures few { result ≤ MOST_RSNE }
{
    let mut writer = ElementWriter::over(out);
    add_rsne(mfp, name, &mut writer);
    writer.len()
}

// The MDE.
fn mde(mdid: [u8; 2]) -> [u8; MDE_LEN]
    ensures { result ≡ mde_octets mdid }
{
    let mut out = [0; MDE_LEN];
    ElementWriter::over(&mut out).mde(mdid);
    out
}

// Writes the FTE to the front of `out`, and answers how many octets it takes.
fn put_fte(fte: &Fte<'_>, out: &mut [u8]) -> usize
    requires fits { FitsFte fte.now }
    requires room { MOST_FTE ≤ length out.old }
    ensures front { take result out.new ≡ fte_octets (fte_fields fte.now) }
    ensures few { result ≤ MOST_FTE }
    ensures some { 84 ≤ result }
{
    let mut writer = ElementWriter::over(out);
    writer.fte(fte);
    writer.len()
}

// The MIC under the KCK of these elements between the two ends.
fn mic_over(
    kept: &KeptMicKey,
    kck: &[u8; 16],
    between: Between,
    mfp: bool,
    name: &[u8; 16],
    mdid: [u8; 2],
    fte: &Fte<'_>,
) -> [u8; 16]
    requires fits { FitsFte fte.now }
    ensures { result ≡ cmac kck.now (input_between mfp between.station between.bssid
        (transaction_number between.frame) name.now mdid (fte_fields fte.now)) }
{
    let mut buffer = [0; MOST_FTE];
    let size = put_fte(fte, &mut buffer);
    let (fte, _) = buffer.split_at(size);
    let mut room = [0; MOST_RSNE];
    let size = put_rsne(mfp, name, &mut room);
    let (rsne, _) = room.split_at(size);
    fte_mic(
        kept,
        kck,
        &FteCovered {
            station: between.station,
            bssid: between.bssid,
            frame: between.frame,
            rsne,
            mde: &mde(mdid),
            fte,
        },
    )
}

// The FTE with the MIC that it has between the two ends.
fn sealed<'a>(
    kept: &KeptMicKey,
    kck: &[u8; 16],
    between: Between,
    mfp: bool,
    name: &[u8; 16],
    mdid: [u8; 2],
    fte: &Fte<'a>,
) -> Fte<'a>
    requires { FitsFte fte.now }
    ensures fields { fte_fields result ≡ sealed_of mfp kck.now between.station between.bssid
        (transaction_number between.frame) name.now mdid (fte_fields fte.now) }
    ensures fits { FitsFte result }
    ensures mic { length (cmac kck.now (input_between mfp between.station between.bssid
        (transaction_number between.frame) name.now mdid (fte_fields fte.now))) ≡ 16 }
{
    let mic = mic_over(kept, kck, between, mfp, name, mdid, fte);
    with_mic(mic, fte)
}

// Writes RSNE, MDE and FTE to the front of `out`, and answers how many octets they take.
fn put_elements(mfp: bool, name: &[u8; 16], mdid: [u8; 2], fte: &Fte<'_>, out: &mut [u8]) -> usize
    requires fits { FitsFte fte.now }
    requires room { MOST_ELEMENTS ≤ length out.old }
    ensures front { take result out.new ≡ named_elements mfp name.now mdid (fte_fields fte.now) }
    ensures few { result ≤ MOST_ELEMENTS }
    ensures some { 101 ≤ result }
{
    let mut writer = ElementWriter::over(out);
    add_rsne(mfp, name, &mut writer);
    writer.mde(mdid);
    writer.fte(fte);
    writer.len()
}

// The same behind an SSID and rates.
fn put_request(
    ssid: &[u8],
    mfp: bool,
    name: &[u8; 16],
    mdid: [u8; 2],
    fte: &Fte<'_>,
    out: &mut [u8],
) -> usize
    requires ssid { IsSsid ssid.now }
    requires fits { FitsFte fte.now }
    requires room { MOST_ELEMENTS ≤ length out.old }
    ensures front { take result out.new
        ≡ re_req_elements_of mfp ssid.now name.now mdid (fte_fields fte.now) }
    ensures name { length name.now ≡ 16 }
    ensures mdid { length mdid ≡ 2 }
    ensures few { result ≤ MOST_ELEMENTS }
    ensures some { 101 ≤ result }
{
    let mut writer = ElementWriter::over(out);
    writer.ssid(ssid);
    writer.rates();
    add_rsne(mfp, name, &mut writer);
    writer.mde(mdid);
    writer.fte(fte);
    writer.len()
}

// The same behind rates.
fn put_response(mfp: bool, name: &[u8; 16], mdid: [u8; 2], fte: &Fte<'_>, out: &mut [u8]) -> usize
    requires fits { FitsFte fte.now }
    requires room { MOST_ELEMENTS ≤ length out.old }
    ensures front { take result out.new
        ≡ re_resp_elements_of mfp name.now mdid (fte_fields fte.now) }
    ensures name { length name.now ≡ 16 }
    ensures mdid { length mdid ≡ 2 }
    ensures few { result ≤ MOST_ELEMENTS }
    ensures some { 101 ≤ result }
{
    let mut writer = ElementWriter::over(out);
    writer.rates();
    add_rsne(mfp, name, &mut writer);
    writer.mde(mdid);
    writer.fte(fte);
    writer.len()
}

// The frame of that length is in the reply, of that kind, and sealed under that KCK or not.
fn set_sent(len: usize, kind: Kind, sealed: Option<[u8; 16]>, reply: &mut Reply)
    ensures { reply.new ≡ record reply.old { len = len; kind = kind; sealed = sealed } }
{
    reply.len = len;
    reply.kind = kind;
    reply.sealed = sealed;
}

/// The authentication request of a station, with PMKR0Name and its nonce
/// (IEEE Std 802.11-2020, 13.8.2).
pub fn send_ft_req(side: Side<'_>, name: &[u8; 16], snonce: &[u8; 32], reply: &mut Reply)
    requires { IsR0khId side.r0kh_id.now }
    ensures { Sends (ft_req_octets side.entry.peer.0 side.entry.own.0 side.entry.peer.0
        (named_elements side.entry.mfp name.now side.entry.mdid
        (plain_fte no_nonce snonce.now None side.entry.r0kh_id.now)))
        kind.FtReq None reply.old reply.new }
{
    let fte = plain_fte(NO_NONCE, *snonce, None, side.r0kh_id);
    let mut buffer = [0; MOST_ELEMENTS];
    let size = put_elements(side.mfp, name, side.mdid, &fte, &mut buffer);
    let (elements, _) = buffer.split_at(size);
    let len = write_ft_req(side.peer, side.own, side.peer, elements, &mut reply.octets);
    set_sent(len, Kind::FtReq, None, reply);
}

/// The authentication response of an access point, with PMKR0Name as it was asked and both nonces
/// (IEEE Std 802.11-2020, 13.8.3).
pub fn send_ft_resp(side: Side<'_>, name: &[u8; 16], key: &Keyed, reply: &mut Reply)
    requires { IsR0khId side.r0kh_id.now }
    ensures sends { Sends (ft_resp_octets side.entry.peer.0 side.entry.own.0 side.entry.own.0 0
        (named_elements side.entry.mfp name.now side.entry.mdid
        (plain_fte key.now.anonce key.now.snonce
        (Some side.entry.own.0) side.entry.r0kh_id.now)))
        kind.FtResp None reply.old reply.new }
    ensures least { 131 ≤ reply.new.len }
{
    let fte = plain_fte(key.anonce, key.snonce, Some(side.own.0), side.r0kh_id);
    let mut buffer = [0; MOST_ELEMENTS];
    let size = put_elements(side.mfp, name, side.mdid, &fte, &mut buffer);
    let (elements, _) = buffer.split_at(size);
    let len = write_ft_resp(
        side.peer,
        side.own,
        side.own,
        0,
        elements,
        &mut reply.octets,
    );
    set_sent(len, Kind::FtResp, None, reply);
}

// The elements of a reassociation request under the MIC, to the front of `out`.
fn put_sealed_request(
    side: Side<'_>,
    kept: &KeptMicKey,
    ssid: &[u8],
    name: &[u8; 16],
    key: &Keyed,
    out: &mut [u8],
) -> usize
    requires id { IsR0khId side.r0kh_id.now }
    requires ssid { IsSsid ssid.now }
    requires room { MOST_ELEMENTS ≤ length out.old }
    ensures front { let f = counted side.entry.peer.0 key.now side.entry.r0kh_id.now None None
        in take result out.new ≡ re_req_elements_of side.entry.mfp ssid.now name.now side.entry.mdid
        (sealed_of side.entry.mfp key.now.ptk.kck side.entry.own side.entry.peer 5 name.now
        side.entry.mdid f) }
    ensures sizes { let f = counted side.entry.peer.0 key.now side.entry.r0kh_id.now None None
        in AreSized name.now side.entry.mdid
        (cmac key.now.ptk.kck (input_between side.entry.mfp side.entry.own side.entry.peer 5
        name.now side.entry.mdid f)) }
    ensures few { result ≤ MOST_ELEMENTS }
    ensures some { 101 ≤ result }
{
    let between = Between {
        station: side.own,
        bssid: side.peer,
        frame: Reassociation::Request,
    };
    let kck = key.ptk.kck;
    let fte = counted_fte(key, side.peer.0, side.r0kh_id, None, None);
    let fte = sealed(kept, &kck, between, side.mfp, name, side.mdid, &fte);
    put_request(ssid, side.mfp, name, side.mdid, &fte, out)
}

/// The reassociation request of a station, with PMKR1Name, under the MIC, from its session with an
/// access point (IEEE Std 802.11-2020, 13.8.4).
pub fn send_re_req(
    side: Side<'_>,
    kept: &KeptMicKey,
    ssid: &[u8],
    current: Mac,
    name: &[u8; 16],
    key: &Keyed,
    reply: &mut Reply,
)
    requires id { IsR0khId side.r0kh_id.now }
    requires ssid { IsSsid ssid.now }
    ensures sends { let f = counted side.entry.peer.0 key.now side.entry.r0kh_id.now None None
        in let z = sealed_of side.entry.mfp key.now.ptk.kck side.entry.own side.entry.peer 5
        name.now side.entry.mdid f
        in let e = re_req_elements_of side.entry.mfp ssid.now name.now side.entry.mdid z
        in Sends (re_req_octets side.entry.peer.0 side.entry.own.0 side.entry.peer.0 current.0 e)
        kind.ReReq (Some key.now.ptk.kck) reply.old reply.new }
    ensures covers { let f = counted side.entry.peer.0 key.now side.entry.r0kh_id.now None None
        in let z = sealed_of side.entry.mfp key.now.ptk.kck side.entry.own side.entry.peer 5
        name.now side.entry.mdid f
        in let e = re_req_elements_of side.entry.mfp ssid.now name.now side.entry.mdid z
        in covered_in side.entry.own.0 side.entry.peer.0 5 (42 + length ssid.now)
        (named_rsne_len side.entry.mfp)
        (re_req_octets side.entry.peer.0 side.entry.own.0 side.entry.peer.0 current.0 e)
        ≡ input_between side.entry.mfp side.entry.own side.entry.peer 5 name.now
        side.entry.mdid f }
{
    whole(side.own);
    whole(side.peer);
    whole(current);
    let mut buffer = [0; MOST_ELEMENTS];
    let size = put_sealed_request(side, kept, ssid, name, key, &mut buffer);
    let (elements, _) = buffer.split_at(size);
    let len = write_re_req(
        side.peer,
        side.own,
        side.peer,
        current,
        elements,
        &mut reply.octets,
    );
    let kck = key.ptk.kck;
    set_sent(len, Kind::ReReq, Some(kck), reply);
}

// The elements of a reassociation response under the MIC, to the front of `out`.
fn put_sealed_response(
    side: Side<'_>,
    kept: &KeptMicKey,
    name: &[u8; 16],
    key: &Keyed,
    gtk: WrappedGtk<'_>,
    igtk: Option<WrappedIgtk<'_>>,
    out: &mut [u8],
) -> usize
    requires id { IsR0khId side.r0kh_id.now }
    requires gtk { length gtk.wrapped.now ≤ 24 }
    requires igtk { ForSome igtk (λ g. length g.wrapped.now ≤ 24) }
    requires room { MOST_ELEMENTS ≤ length out.old }
    ensures front { let g = Some (wrapped_gtk_fields gtk.entry)
        in let k = option_map wrapped_igtk_fields igtk.entry
        in let f = counted side.entry.own.0 key.now side.entry.r0kh_id.now g k
        in take result out.new ≡ re_resp_elements_of side.entry.mfp name.now side.entry.mdid
        (sealed_of side.entry.mfp key.now.ptk.kck side.entry.peer side.entry.own 6 name.now
        side.entry.mdid f) }
    ensures sizes { let g = Some (wrapped_gtk_fields gtk.entry)
        in let k = option_map wrapped_igtk_fields igtk.entry
        in let f = counted side.entry.own.0 key.now side.entry.r0kh_id.now g k
        in AreSized name.now side.entry.mdid
        (cmac key.now.ptk.kck (input_between side.entry.mfp side.entry.peer side.entry.own 6
        name.now side.entry.mdid f)) }
    ensures few { result ≤ MOST_ELEMENTS }
    ensures some { 101 ≤ result }
{
    let between = Between {
        station: side.peer,
        bssid: side.own,
        frame: Reassociation::Response,
    };
    let kck = key.ptk.kck;
    let fte = counted_fte(key, side.own.0, side.r0kh_id, Some(gtk), igtk);
    let fte = sealed(kept, &kck, between, side.mfp, name, side.mdid, &fte);
    put_response(side.mfp, name, side.mdid, &fte, out)
}

/// The reassociation response of an access point, with PMKR1Name and the wrapped group keys, an IGTK
/// where there is one, under the MIC (IEEE Std 802.11-2020, 13.8.5).
pub fn send_re_resp(
    side: Side<'_>,
    kept: &KeptMicKey,
    aid: u16,
    name: &[u8; 16],
    key: &Keyed,
    gtk: WrappedGtk<'_>,
    igtk: Option<WrappedIgtk<'_>>,
    reply: &mut Reply,
)
    requires id { IsR0khId side.r0kh_id.now }
    requires gtk { length gtk.wrapped.now ≤ 24 }
    requires igtk { ForSome igtk (λ g. length g.wrapped.now ≤ 24) }
    ensures sends { let g = Some (wrapped_gtk_fields gtk.entry)
        in let k = option_map wrapped_igtk_fields igtk.entry
        in let f = counted side.entry.own.0 key.now side.entry.r0kh_id.now g k
        in let z = sealed_of side.entry.mfp key.now.ptk.kck side.entry.peer side.entry.own 6
        name.now side.entry.mdid f
        in let e = re_resp_elements_of side.entry.mfp name.now side.entry.mdid z
        in Sends (re_resp_octets side.entry.peer.0 side.entry.own.0 side.entry.own.0 0 aid e)
        kind.ReResp (Some key.now.ptk.kck) reply.old reply.new }
    ensures covers { let g = Some (wrapped_gtk_fields gtk.entry)
        in let k = option_map wrapped_igtk_fields igtk.entry
        in let f = counted side.entry.own.0 key.now side.entry.r0kh_id.now g k
        in let z = sealed_of side.entry.mfp key.now.ptk.kck side.entry.peer side.entry.own 6
        name.now side.entry.mdid f
        in let e = re_resp_elements_of side.entry.mfp name.now side.entry.mdid z
        in covered_in side.entry.peer.0 side.entry.own.0 6 36 (named_rsne_len side.entry.mfp)
        (re_resp_octets side.entry.peer.0 side.entry.own.0 side.entry.own.0 0 aid e)
        ≡ input_between side.entry.mfp side.entry.peer side.entry.own 6 name.now
        side.entry.mdid f }
    ensures least { 131 ≤ reply.new.len }
{
    whole(side.own);
    whole(side.peer);
    let mut buffer = [0; MOST_ELEMENTS];
    let size = put_sealed_response(side, kept, name, key, gtk, igtk, &mut buffer);
    let (elements, _) = buffer.split_at(size);
    let len = write_re_resp(
        side.peer,
        side.own,
        side.own,
        0,
        aid,
        elements,
        &mut reply.octets,
    );
    let kck = key.ptk.kck;
    set_sent(len, Kind::ReResp, Some(kck), reply);
}

/// The authentication response of an access point that refuses, with that status and no elements.
pub fn send_ft_refusal(own: Mac, peer: Mac, status: u16, reply: &mut Reply)
    ensures { Sends (ft_resp_octets peer.0 own.0 own.0 status [])
        kind.FtResp None reply.old reply.new }
{
    let len = write_ft_resp(peer, own, own, status, &[], &mut reply.octets);
    set_sent(len, Kind::FtResp, None, reply);
}

/// The reassociation response of an access point that refuses, with that status and no elements.
pub fn send_re_refusal(own: Mac, peer: Mac, status: u16, reply: &mut Reply)
    ensures { Sends (re_resp_octets peer.0 own.0 own.0 status 0 [])
        kind.ReResp None reply.old reply.new }
{
    let len = write_re_resp(peer, own, own, status, 0, &[], &mut reply.octets);
    set_sent(len, Kind::ReResp, None, reply);
}
