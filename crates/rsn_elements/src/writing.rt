//! Writing elements into the caller's octets, each with the fields and values that this project
//! sends.

ghost use Rattle.std.specs.Prelude.{◌≡◌, ◌≤◌, ◌<◌, ◌+◌, ◌^◌, ◌++◌, ◌∷◌, [], length, take, drop};
ghost use Rattle.std.specs.Prelude.{option_map, Some, IfSome};
ghost use Rattle.std.specs.Option.{ForSome, option_copied};
ghost use Rattle.std.specs.Int.{w16, to_le_bytes};
ghost use Rattle.domain_base.specs.Padding.{padding};
ghost use Rattle.rsn_elements.specs.Fields.{fte_fields, wrapped_gtk_fields};
ghost use Rattle.rsn_elements.specs.Fields.{wrapped_igtk_fields};
ghost use Rattle.rsn_elements.specs.Sent.{ssid_octets, rates_octets, akm_type, rsne_with};
ghost use Rattle.rsn_elements.specs.Sent.{rsne_octets, rsne_mfp_octets, mde_octets, fte_body};
ghost use Rattle.rsn_elements.specs.Sent.{fte_octets, ipn_octets, igtk_kde_octets};
ghost use Rattle.rsn_elements.specs.Sent.{wrapped_igtk_octets, wrapped_igtk_subelement};
ghost use Rattle.rsn_elements.specs.Sent.{subelement_octets, wrapped_gtk_octets};
ghost use Rattle.rsn_elements.specs.Sent.{wrapped_gtk_subelement, gtk_kde_octets, timeout_octets};
ghost use Rattle.rsn_elements.specs.Sent.{pad_octets};
ghost use Rattle.rsn_elements.specs.Pieces.{FitsPiece, FitsWrappedGtk, SentRsne, SentMde, SentFte};
ghost use Rattle.rsn_elements.specs.Pieces.{SentGtkKde, SentTimeout, SentRsneMfp};
ghost use Rattle.rsn_elements.specs.Pieces.{SentIgtkKde, FitsWrappedIgtk};
ghost use Rattle.rsn_elements.specs.Writer.{size, octets, HasRoom, Appends};

use crate::transition::{Fte, WrappedGtk, WrappedIgtk};
use domain_base::{Akm, put};

// The lowest octet of the capabilities as they are sent (9.4.2.24.4).
const CAPABILITIES: u8 = 0x0c;

// The same with the bit that management frame protection is possible.
const MFP_CAPABILITIES: u8 = 0x8c;

// Padding of key data, of any length that is needed.
const PADDING: [u8; 16] = [0xdd, 0, 0, 0, 0, 0, 0, 0, 0, 0, 0, 0, 0, 0, 0, 0];

/// Writes elements one after the other into octets of the caller's, from their front on. Takes no
/// memory.
///
/// Each call asks for room, and that lengths fit their fields.
#[derive(Drop)]
pub struct ElementWriter<'a> {
    out: &'a mut [u8],
    len: usize,
}

impl<'a> ElementWriter<'a> {
    /// A writer over these octets, with nothing written.
    pub fn over(out: &'a mut [u8]) -> ElementWriter<'a>
        ensures same { result.out.ghost_name ≡ out.entry.ghost_name }
        ensures empty { size result ≡ 0 }
        ensures before { octets result ≡ out.old }
    {
        ElementWriter { out, len: 0 }
    }

    /// How many octets were written.
    pub fn len(&self) -> usize
        ensures { result ≡ size self.now }
    {
        self.len
    }

    // Writes a piece behind what was written.
    fn append(&mut self, piece: &[u8])
        requires { HasRoom self.old (length piece.now) }
        ensures { Appends self.old self.new piece.now }
    {
        self.len = put(self.out, self.len, piece);
    }

    /// The name of the network, of 1 to 32 octets (IEEE Std 802.11-2020, 9.4.2.2).
    pub fn ssid(&mut self, ssid: &[u8])
        requires some { 1 ≤ length ssid.now }
        requires few { length ssid.now ≤ 32 }
        requires room { HasRoom self.old (length (ssid_octets ssid.now)) }
        ensures { Appends self.old self.new (ssid_octets ssid.now) }
    {
        self.append(&[0x00, ssid.len() as u8]);
        self.append(ssid);
    }

    /// The rates 1, 2, 5.5 and 11 Mbit/s (9.4.2.3).
    pub fn rates(&mut self)
        requires { HasRoom self.old (length rates_octets) }
        ensures { Appends self.old self.new rates_octets }
    {
        self.append(&[0x01, 4, 0x82, 0x84, 0x8b, 0x96]);
    }

    /// An RSN element with CCMP-128 for pairwise and group traffic and this AKM, and with the name
    /// of a key, if one is given (9.4.2.24).
    pub fn rsne(&mut self, akm: Akm, pmkid: Option<&[u8; 16]>)
        requires { HasRoom self.old (length (rsne_octets akm (option_copied pmkid))) }
        ensures written { Appends self.old self.new (rsne_octets akm (option_copied pmkid.entry)) }
        ensures fits { FitsPiece (SentRsne akm (option_copied pmkid.entry)) }
    {
        let size = if pmkid.is_none() { 20 } else { 38 };
        self.rsne_front(size, akm, CAPABILITIES);
        if let Some(pmkid) = pmkid {
            self.append(&[1, 0]);
            self.append(pmkid);
        }
    }

    /// The same where management frames are protected: capable of it, with a list of the names of
    /// keys also where none is given, and with BIP-CMAC-128 for group management frames (9.4.2.24).
    pub fn rsne_mfp(&mut self, akm: Akm, pmkid: Option<&[u8; 16]>)
        requires { HasRoom self.old (length (rsne_mfp_octets akm (option_copied pmkid))) }
        ensures written { Appends self.old self.new
            (rsne_mfp_octets akm (option_copied pmkid.entry)) }
        ensures fits { FitsPiece (SentRsneMfp akm (option_copied pmkid.entry)) }
    {
        match pmkid {
            None => {
                self.rsne_front(26, akm, MFP_CAPABILITIES);
                self.append(&[0, 0, 0x00, 0x0f, 0xac, 6]);
            }
            Some(pmkid) => {
                self.rsne_front(42, akm, MFP_CAPABILITIES);
                self.append(&[1, 0]);
                self.append(pmkid);
                self.append(&[0x00, 0x0f, 0xac, 6]);
            }
        }
    }

    // An RSNE whose body has this size, as far as the capabilities, of which this is the lowest
    // octet.
    fn rsne_front(&mut self, size: u8, akm: Akm, capabilities: u8)
        requires { HasRoom self.old 22 }
        ensures { Appends self.old self.new (0x30 ∷ size ∷ rsne_with capabilities akm) }
    {
        self.append(&[0x30, size, 1, 0, 0x00, 0x0f, 0xac, 4]);
        self.append(&[1, 0, 0x00, 0x0f, 0xac, 4]);
        self.append(&[1, 0, 0x00, 0x0f, 0xac, akm_type(akm), capabilities, 0]);
    }

    /// A mobility domain element with capability and policy 0 (9.4.2.46).
    pub fn mde(&mut self, mdid: [u8; 2])
        requires { HasRoom self.old (length (mde_octets mdid)) }
        ensures written { Appends self.old self.new (mde_octets mdid) }
        ensures fits { FitsPiece (SentMde mdid) }
    {
        self.append(&[0x36, 3]);
        self.append(&mdid);
        self.append(&[0]);
    }

    /// A timeout interval of this type: 1 is the reassociation deadline in time units, 2 the
    /// lifetime of the key in seconds (9.4.2.48).
    pub fn timeout(&mut self, kind: u8, value: u32)
        requires { HasRoom self.old (length (timeout_octets kind value)) }
        ensures written { Appends self.old self.new (timeout_octets kind value) }
        ensures fits { FitsPiece (SentTimeout kind value) }
    {
        self.append(&[0x38, 5, kind]);
        self.append(&value.to_le_bytes());
    }

    /// A fast BSS transition element, with the subelements that it has in the order 1, 3, 2,
    /// 4 (9.4.2.47).
    pub fn fte(&mut self, fte: &Fte<'_>)
        requires fits { length (fte_body (fte_fields fte.now)) ≤ 255 }
        requires r0kh_id { ForSome fte.now.r0kh_id
            (λ id. (1 ≤ length id.now) × (length id.now ≤ 48)) }
        requires room { HasRoom self.old (length (fte_octets (fte_fields fte.now))) }
        ensures written { Appends self.old self.new (fte_octets (fte_fields fte.now)) }
        ensures fits { FitsPiece (SentFte (fte_fields fte.now)) }
    {
        let fte = *fte;
        self.append(&[0x37, fte_size(&fte)]);
        self.fixed_part(&fte);
        self.r1kh_id(fte.r1kh_id);
        self.r0kh_id(fte.r0kh_id);
        self.gtk(fte.gtk);
        self.igtk(fte.igtk);
    }

    // The part of an FTE that has one length.
    fn fixed_part(&mut self, fte: &Fte<'_>)
        requires { HasRoom self.old 82 }
        ensures { Appends self.old self.new
            (fte.now.mic_control ++ (fte.now.mic ++ (fte.now.anonce ++ fte.now.snonce))) }
    {
        let fte = *fte;
        self.append(&fte.mic_control);
        self.append(&fte.mic);
        self.append(&fte.anonce);
        self.append(&fte.snonce);
    }

    // Subelement 1, where there is one.
    fn r1kh_id(&mut self, id: Option<[u8; 6]>)
        requires { HasRoom self.old (length (subelement_octets 1 id)) }
        ensures written { Appends self.old self.new (subelement_octets 1 id) }
        ensures fits { IfSome id (λ id. length id ≡ 6) }
    {
        if let Some(id) = id {
            self.append(&[1, 6]);
            self.append(&id);
        }
    }

    // Subelement 3, where there is one.
    fn r0kh_id(&mut self, id: Option<&[u8]>)
        requires fits { ForSome id (λ id. (1 ≤ length id.now) × (length id.now ≤ 48)) }
        requires room { HasRoom self.old (length (subelement_octets 3 (option_copied id))) }
        ensures written { Appends self.old self.new (subelement_octets 3 (option_copied id.entry)) }
        ensures fits { IfSome (option_copied id.entry) (λ id. (1 ≤ length id) × (length id ≤ 48)) }
    {
        if let Some(id) = id {
            self.append(&[3, id.len() as u8]);
            self.append(id);
        }
    }

    // Subelement 2, where there is one.
    fn gtk(&mut self, gtk: Option<WrappedGtk<'_>>)
        requires fits { length (wrapped_gtk_subelement (option_map wrapped_gtk_fields gtk)) ≤ 255 }
        requires room { HasRoom self.old
            (length (wrapped_gtk_subelement (option_map wrapped_gtk_fields gtk))) }
        ensures written { Appends self.old self.new
            (wrapped_gtk_subelement (option_map wrapped_gtk_fields gtk.entry)) }
        ensures fits { IfSome (option_map wrapped_gtk_fields gtk.entry) FitsWrappedGtk }
    {
        if let Some(gtk) = gtk {
            self.wrapped_gtk(&gtk);
        }
    }

    // Subelement 2, which is there.
    fn wrapped_gtk(&mut self, gtk: &WrappedGtk<'_>)
        requires fits { length (wrapped_gtk_octets (wrapped_gtk_fields gtk.now)) ≤ 255 }
        requires room { HasRoom self.old
            (2 + length (wrapped_gtk_octets (wrapped_gtk_fields gtk.now))) }
        ensures written { Appends self.old self.new
            (subelement_octets 2 (Some (wrapped_gtk_octets (wrapped_gtk_fields gtk.now)))) }
        ensures fits { FitsWrappedGtk (wrapped_gtk_fields gtk.now) }
    {
        let gtk = *gtk;
        let wrapped = gtk.wrapped;
        self.append(&[2, 11 + wrapped.len() as u8]);
        self.key_information(&gtk);
        self.append(&gtk.rsc);
        self.append(wrapped);
    }

    // The key information and the length of the key.
    fn key_information(&mut self, gtk: &WrappedGtk<'_>)
        requires { HasRoom self.old 3 }
        ensures { Appends self.old self.new
            (to_le_bytes w16 gtk.now.information ++ gtk.now.key_length ∷ []) }
    {
        let gtk = *gtk;
        self.append(&gtk.information.to_le_bytes());
        self.append(&[gtk.key_length]);
    }

    // Subelement 4, where there is one.
    fn igtk(&mut self, igtk: Option<WrappedIgtk<'_>>)
        requires fits { length (wrapped_igtk_subelement (option_map wrapped_igtk_fields igtk)) ≤ 255 }
        requires room { HasRoom self.old
            (length (wrapped_igtk_subelement (option_map wrapped_igtk_fields igtk))) }
        ensures written { Appends self.old self.new
            (wrapped_igtk_subelement (option_map wrapped_igtk_fields igtk.entry)) }
        ensures fits { IfSome (option_map wrapped_igtk_fields igtk.entry) FitsWrappedIgtk }
    {
        if let Some(igtk) = igtk {
            self.wrapped_igtk(&igtk);
        }
    }

    // Subelement 4, which is there.
    fn wrapped_igtk(&mut self, igtk: &WrappedIgtk<'_>)
        requires fits { length (wrapped_igtk_octets (wrapped_igtk_fields igtk.now)) ≤ 255 }
        requires room { HasRoom self.old
            (2 + length (wrapped_igtk_octets (wrapped_igtk_fields igtk.now))) }
        ensures written { Appends self.old self.new
            (subelement_octets 4 (Some (wrapped_igtk_octets (wrapped_igtk_fields igtk.now)))) }
        ensures fits { FitsWrappedIgtk (wrapped_igtk_fields igtk.now) }
    {
        let igtk = *igtk;
        let wrapped = igtk.wrapped;
        self.append(&[4, 9 + wrapped.len() as u8]);
        self.igtk_front(&igtk);
        self.append(&[igtk.key_length]);
        self.append(wrapped);
    }

    // The key id and the IPN.
    fn igtk_front(&mut self, igtk: &WrappedIgtk<'_>)
        requires { HasRoom self.old 8 }
        ensures { Appends self.old self.new (to_le_bytes w16 igtk.now.id ++ igtk.now.ipn) }
    {
        let igtk = *igtk;
        self.append(&igtk.id.to_le_bytes());
        self.append(&igtk.ipn);
    }

    /// A GTK KDE with this key id, from 0 to 3, and Tx clear (12.7.2).
    pub fn gtk_kde(&mut self, id: u8, key: &[u8; 16])
        requires id { id < 4 }
        requires room { HasRoom self.old (length (gtk_kde_octets id key.now)) }
        ensures written { Appends self.old self.new (gtk_kde_octets id key.now) }
        ensures fits { FitsPiece (SentGtkKde id key.now) }
    {
        self.append(&[0xdd, 22, 0x00, 0x0f, 0xac, 1, id, 0]);
        self.append(key);
    }

    /// An IGTK KDE with this key id, and the packet number used last under the key (12.7.2).
    pub fn igtk_kde(&mut self, id: u16, ipn: u64, key: &[u8; 16])
        requires packet_number { ipn < 2 ^ 48 }
        requires room { HasRoom self.old (length (igtk_kde_octets id ipn key.now)) }
        ensures written { Appends self.old self.new (igtk_kde_octets id ipn key.now) }
        ensures fits { FitsPiece (SentIgtkKde id ipn key.now) }
    {
        self.append(&[0xdd, 28, 0x00, 0x0f, 0xac, 9]);
        self.append(&id.to_le_bytes());
        self.append(&ipn_octets(ipn));
        self.append(key);
    }

    /// Padding: `dd`, and then zeros, up to a multiple of 8 that is at least 16 (12.7.2). Nothing,
    /// where the octets written are as many.
    pub fn pad(&mut self)
        requires { HasRoom self.old (length (pad_octets (size self.old))) }
        ensures { Appends self.old self.new (pad_octets (size self.old)) }
    {
        let lacking = lacking(self.len);
        let (padding, _) = PADDING.split_at(lacking);
        self.append(padding);
    }
}

// A packet number in six octets, lowest first.
fn ipn_octets(ipn: u64) -> [u8; 6]
    ensures { result ≡ ipn_octets ipn }
{
    let [a, b, c, d, e, f, _, _] = ipn.to_le_bytes();
    [a, b, c, d, e, f]
}

// How many octets key data lacks that is to be wrapped.
fn lacking(size: usize) -> usize
    ensures count { result ≡ padding size }
    ensures few { result ≤ 16 }
{
    if size < 16 {
        16 - size
    } else {
        (8 - size % 8) % 8
    }
}

// How many octets the body of an FTE has.
fn fte_size(fte: &Fte<'_>) -> u8
    requires { length (fte_body (fte_fields fte.now)) ≤ 255 }
    ensures { result ≡ length (fte_body (fte_fields fte.now)) }
{
    let fte = *fte;
    let size = 82 + r1kh_id_size(fte.r1kh_id) + r0kh_id_size(fte.r0kh_id);
    let size = size + gtk_size(fte.gtk) + igtk_size(fte.igtk);
    size as u8
}

// How many octets subelement 1 has, where there is one.
fn r1kh_id_size(id: Option<[u8; 6]>) -> usize
    ensures { result ≡ length (subelement_octets 1 id) }
{
    match id {
        Some(id) => 2 + id.len(),
        None => 0,
    }
}

// How many octets subelement 3 has, where there is one.
fn r0kh_id_size(id: Option<&[u8]>) -> usize
    ensures { result ≡ length (subelement_octets 3 (option_copied id.entry)) }
{
    match id {
        Some(id) => 2 + id.len(),
        None => 0,
    }
}

// How many octets subelement 2 has, where there is one.
fn gtk_size(gtk: Option<WrappedGtk<'_>>) -> usize
    ensures { result ≡ length (wrapped_gtk_subelement (option_map wrapped_gtk_fields gtk.entry)) }
{
    match gtk {
        Some(gtk) => 13 + gtk.wrapped.len(),
        None => 0,
    }
}

// How many octets subelement 4 has, where there is one.
fn igtk_size(igtk: Option<WrappedIgtk<'_>>) -> usize
    ensures { result
        ≡ length (wrapped_igtk_subelement (option_map wrapped_igtk_fields igtk.entry)) }
{
    match igtk {
        Some(igtk) => 11 + igtk.wrapped.len(),
        None => 0,
    }
}

/// The type of the suite of an AKM in RSNEs (IEEE Std 802.11-2020, 9.4.2.24.3).
pub fn akm_type(akm: Akm) -> u8
    ensures { result ≡ akm_type akm }
{
    match akm {
        Akm::Psk => 2,
        Akm::PskSha256 => 6,
        Akm::FtPsk => 4,
    }
}
