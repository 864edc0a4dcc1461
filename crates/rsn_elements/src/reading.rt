//! Reading the elements of a frame body or of key data.

ghost use Rattle.std.specs.Prelude.{◌≡◌, ◌<◌, ◌+◌, ◌^◌, ◌++◌, ◌∷◌, [], ℕ, List, IfOk, IsOkAnd};
ghost use Rattle.std.specs.Prelude.{IfErr, OnOk, Err, IsTrue, false, slice_index_or};
ghost use Rattle.rsn_elements.specs.declared.faults.FaultKind.{FaultKind as AnyKind};
ghost use Rattle.rsn_elements.specs.Framing.{Element, element_octets, EndsReading};
ghost use Rattle.rsn_elements.specs.declared.framing.Within.TheVariants.{KeyData};
ghost use Rattle.rsn_elements.specs.Fields.{element_of, element_fields};
ghost use Rattle.rsn_elements.specs.Elements.{ElementFields, SpellsElements, HasRaw, AGtkKde};
ghost use Rattle.rsn_elements.specs.Elements.{AnIgtkKde, is};
ghost use Rattle.rsn_elements.specs.Faults.{HasFirstFault, HasElementFault};
ghost use Rattle.rsn_elements.specs.ElementSteps.{Gathers, Takes, TakesIn, Refuses, RefusesIn};

use crate::faults::{ElementFault, FaultKind};
use crate::framing::{Found, Next, VENDOR, Within, next_element};
use crate::keys::{GtkKde, IgtkKde, read_gtk_kde, read_igtk_kde};
use crate::security::{Rsne, read_rsne};
use crate::transition::{Fte, Mde, read_fte, read_mde, read_timeout};

// The id of the RSN element.
const RSNE: u8 = 0x30;
// The id of the mobility domain element.
const MDE: u8 = 0x36;
// The id of the fast BSS transition element.
const FTE: u8 = 0x37;
// The id of the timeout interval element.
const TIMEOUT: u8 = 0x38;

// OUI and type with which the body of a GTK KDE begins.
const GTK: [u8; 4] = [0x00, 0x0f, 0xac, 0x01];
// OUI and type with which the body of an IGTK KDE begins.
const IGTK: [u8; 4] = [0x00, 0x0f, 0xac, 0x09];

/// What elements say.
#[derive(Clone, Copy)]
pub struct Elements<'a> {
    /// The RSN element.
    pub rsne: Option<Rsne<'a>>,
    /// The mobility domain element.
    pub mde: Option<Mde>,
    /// The fast BSS transition element.
    pub fte: Option<Fte<'a>>,
    /// The GTK KDE, which stands in key data alone.
    pub gtk: Option<GtkKde<'a>>,
    /// The IGTK KDE, which stands in key data alone.
    pub igtk: Option<IgtkKde<'a>>,
    /// The timeout interval of type 1: the reassociation deadline, in time units of 1024
    /// microseconds.
    pub deadline: Option<u32>,
    /// The timeout interval of type 2: the lifetime of the key, in seconds.
    pub lifetime: Option<u32>,
    /// The RSNE as it stands, from its id on.
    pub rsne_octets: Option<&'a [u8]>,
    /// The MDE as it stands, from its id on.
    pub mde_octets: Option<&'a [u8]>,
    /// The FTE as it stands, from its id on.
    pub fte_octets: Option<&'a [u8]>,
}

// What the elements so far say.
#[derive(Drop)]
struct Gathered<'a> {
    elements: Elements<'a>,
    // which types of timeout intervals stand among them
    types: [bool; 256],
}

// A fault of the element itself.
fn fault_of(kind: FaultKind) -> ElementFault
    ensures { result ≡ record { place = 0; kind = kind } }
{
    ElementFault { place: 0, kind }
}

impl<'a> Gathered<'a> {
    fn nothing(within: Within) -> Self
        ensures { Gathers within [] result }
    {
        let elements = Elements {
            rsne: None,
            mde: None,
            fte: None,
            gtk: None,
            igtk: None,
            deadline: None,
            lifetime: None,
            rsne_octets: None,
            mde_octets: None,
            fte_octets: None,
        };
        let types = [false; 256];
        Gathered { elements, types }
    }

    // An RSNE.
    fn take_rsne(&mut self, element: Found<'a>) -> Result<(), ElementFault>
        requires id { element.id ≡ 0x30 }
        requires whole { element.whole.now ≡ element_octets (element_of element) }
        ensures ok { OnOk result (Takes (element_of element.entry) self.old self.new) }
        ensures err { IfErr result (Refuses (element_of element.entry) self.old) }
    {
        let rsne = match read_rsne(element.body) {
            Ok(rsne) => rsne,
            Err(kind) => return Err(fault_of(kind)),
        };
        if self.elements.rsne.is_some() {
            return Err(fault_of(FaultKind::Repeated));
        }
        self.elements.rsne = Some(rsne);
        self.elements.rsne_octets = Some(element.whole);
        Ok(())
    }

    // An MDE.
    fn take_mde(&mut self, element: Found<'a>) -> Result<(), ElementFault>
        requires id { element.id ≡ 0x36 }
        requires whole { element.whole.now ≡ element_octets (element_of element) }
        ensures ok { OnOk result (Takes (element_of element.entry) self.old self.new) }
        ensures err { IfErr result (Refuses (element_of element.entry) self.old) }
    {
        let Some(mde) = read_mde(element.body) else {
            return Err(fault_of(FaultKind::Length));
        };
        if self.elements.mde.is_some() {
            return Err(fault_of(FaultKind::Repeated));
        }
        self.elements.mde = Some(mde);
        self.elements.mde_octets = Some(element.whole);
        Ok(())
    }

    // An FTE. That it is the second is tried before that a subelement is.
    fn take_fte(&mut self, element: Found<'a>) -> Result<(), ElementFault>
        requires id { element.id ≡ 0x37 }
        requires whole { element.whole.now ≡ element_octets (element_of element) }
        ensures ok { OnOk result (Takes (element_of element.entry) self.old self.new) }
        ensures err { IfErr result (Refuses (element_of element.entry) self.old) }
    {
        let read = match read_fte(element.body) {
            Ok(read) => read,
            Err(fault) => return Err(fault),
        };
        if self.elements.fte.is_some() {
            return Err(fault_of(FaultKind::Repeated));
        }
        if let Some(place) = read.repeated {
            let kind = FaultKind::Repeated;
            return Err(ElementFault { place, kind });
        }
        self.elements.fte = Some(read.fte);
        self.elements.fte_octets = Some(element.whole);
        Ok(())
    }

    // A GTK KDE.
    fn take_gtk(&mut self, element: Found<'a>) -> Result<(), ElementFault>
        requires { IsTrue (is KeyData AGtkKde (element_of element)) }
        ensures ok { OnOk result (TakesIn KeyData (element_of element.entry) self.old self.new) }
        ensures err { IfErr result (RefusesIn KeyData (element_of element.entry) self.old) }
    {
        let Some(gtk) = read_gtk_kde(element.body) else {
            return Err(fault_of(FaultKind::Length));
        };
        if self.elements.gtk.is_some() {
            return Err(fault_of(FaultKind::Repeated));
        }
        self.elements.gtk = Some(gtk);
        Ok(())
    }

    // An IGTK KDE.
    fn take_igtk(&mut self, element: Found<'a>) -> Result<(), ElementFault>
        requires { IsTrue (is KeyData AnIgtkKde (element_of element)) }
        ensures ok { OnOk result (TakesIn KeyData (element_of element.entry) self.old self.new) }
        ensures err { IfErr result (RefusesIn KeyData (element_of element.entry) self.old) }
    {
        let Some(igtk) = read_igtk_kde(element.body) else {
            return Err(fault_of(FaultKind::Length));
        };
        if self.elements.igtk.is_some() {
            return Err(fault_of(FaultKind::Repeated));
        }
        self.elements.igtk = Some(igtk);
        Ok(())
    }

    // A vendor-specific element of key data, of which the KDEs of group keys alone are kept.
    fn take_kde(&mut self, element: Found<'a>) -> Result<(), ElementFault>
        requires { element.id ≡ 0xdd }
        ensures ok { OnOk result (TakesIn KeyData (element_of element.entry) self.old self.new) }
        ensures err { IfErr result (RefusesIn KeyData (element_of element.entry) self.old) }
    {
        if element.body.starts_with(&GTK) {
            self.take_gtk(element)
        } else if element.body.starts_with(&IGTK) {
            self.take_igtk(element)
        } else {
            Ok(())
        }
    }

    // A vendor-specific element, which is kept in key data alone.
    fn take_vendor(&mut self, element: Found<'a>, within: Within) -> Result<(), ElementFault>
        requires { element.id ≡ 0xdd }
        ensures ok { OnOk result (TakesIn within (element_of element.entry) self.old self.new) }
        ensures err { IfErr result (RefusesIn within (element_of element.entry) self.old) }
    {
        match within {
            Within::KeyData => self.take_kde(element),
            Within::Body => Ok(()),
        }
    }

    // A timeout interval of that type stands among the elements.
    fn has_type(&self, kind: u8) -> bool
        ensures { result ≡ slice_index_or self.now.types kind false }
    {
        let place = usize::from(kind);
        self.types[place]
    }

    // A timeout interval, of any type.
    fn take_timeout(&mut self, element: Found<'a>) -> Result<(), ElementFault>
        requires { element.id ≡ 0x38 }
        ensures ok { OnOk result (Takes (element_of element.entry) self.old self.new) }
        ensures err { IfErr result (Refuses (element_of element.entry) self.old) }
    {
        let body = element.body;
        let Some(value) = read_timeout(body) else {
            return Err(fault_of(FaultKind::Length));
        };
        let kind = body[0];
        if self.has_type(kind) {
            return Err(fault_of(FaultKind::Repeated));
        }
        self.types[usize::from(kind)] = true;
        match kind {
            1 => self.elements.deadline = Some(value),
            2 => self.elements.lifetime = Some(value),
            _ => {}
        }
        Ok(())
    }

    // Any element that does not end the reading.
    fn take(&mut self, element: Found<'a>, within: Within) -> Result<(), ElementFault>
        requires { element.whole.now ≡ element_octets (element_of element) }
        ensures ok { OnOk result (TakesIn within (element_of element.entry) self.old self.new) }
        ensures err { IfErr result (RefusesIn within (element_of element.entry) self.old) }
    {
        match element.id {
            RSNE => self.take_rsne(element),
            MDE => self.take_mde(element),
            FTE => self.take_fte(element),
            TIMEOUT => self.take_timeout(element),
            VENDOR => self.take_vendor(element, within),
            _ => Ok(()),
        }
    }
}

// A fault of the element that stands at a place.
fn moved(fault: ElementFault, place: usize) -> ElementFault
    requires { place + fault.place < 2 ^ 64 }
    ensures { result ≡ record { place = place + fault.place; kind = fault.kind } }
{
    ElementFault {
        place: place + fault.place,
        kind: fault.kind,
    }
}

// Reads elements one after the other.
fn gathered_from(bytes: &[u8], within: Within) -> Result<Elements<'_>, ElementFault>
    ensures found { IfOk result (λ e. SpellsElements within bytes.now (element_fields e)) }
    ensures fault { IfErr result (λ e. HasElementFault within bytes.now e.place e.kind) }
{
    let mut gathered = Gathered::nothing(within);
    let mut rest = bytes;
    loop {
        let place = bytes.len() - rest.len();
        let (element, behind) = match next_element(rest, within) {
            Next::Whole(element, behind) => (element, behind),
            Next::End => return Ok(gathered.elements),
            Next::Truncated => {
                let kind = FaultKind::Truncated;
                return Err(ElementFault { place, kind });
            }
        };
        if let Err(fault) = gathered.take(element, within) {
            return Err(moved(fault, place));
        }
        rest = behind;
    }
}

/// Reads elements in any order, each kind at most once, and passes over those of other kinds. In
/// key data the reading ends at `dd` with length 0, and at `dd` as the last octet.
///
/// The fault is the first in reading order; within one element Truncated, Version, Length,
/// SubelementLength, Repeated. Its place is that of the id of the element in the octets given, and
/// for a subelement of a wrong length, or a repeated one, that of the id of the subelement. Takes
/// no memory.
pub fn read_elements(bytes: &[u8], within: Within) -> Result<Elements<'_>, ElementFault>
    // What is read is spelled so.
    ensures found { IfOk result (λ e. SpellsElements within bytes.now (element_fields e)) }
    // What is spelled so is read.
    ensures only { (f : ElementFields) → SpellsElements within bytes.now f
        → IsOkAnd result (λ e. element_fields e ≡ f) }
    // The octets that are kept of an element are those of the element.
    ensures raw { IfOk result (λ e. HasRaw (element_fields e)) }
    // A fault that is answered is there.
    ensures fault { IfErr result (λ e. HasElementFault within bytes.now e.place e.kind) }
    // A fault that is there is answered.
    ensures first { (place : ℕ) (kind : AnyKind) → HasElementFault within bytes.now place kind
        → result ≡ Err (record { place = place; kind = kind }) }
{
    gathered_from(bytes, within)
}
