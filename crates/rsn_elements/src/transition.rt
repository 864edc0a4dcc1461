//! Elements of fast transition (IEEE Std 802.11-2020, 9.4.2.46 to 9.4.2.48).

ghost use Rattle.std.specs.Prelude.{◌≡◌, ◌≢◌, ◌<◌, ◌≤◌, ◌+◌, ◌++◌, ◌∷◌, ◌↔◌, IsTrue, false, [], ℕ};
ghost use Rattle.std.specs.Prelude.{List, length, drop, filter, MatchOption, MatchResult};
ghost use Rattle.rsn_elements.specs.Framing.{Element, element_octets, joined};
ghost use Rattle.rsn_elements.specs.Fields.{element_of, mde_fields, wrapped_gtk_fields, fte_fields};
ghost use Rattle.rsn_elements.specs.Fields.{wrapped_igtk_fields};
ghost use Rattle.rsn_elements.specs.Transition.{SpellsMde, SpellsTimeout, SpellsWrappedGtk};
ghost use Rattle.rsn_elements.specs.Transition.{SpellsWrappedIgtk, IsRight, has_id};
ghost use Rattle.rsn_elements.specs.TransitionSteps.{Say, Reached, BeginsWrong, IsSubelementsRead};
ghost use Rattle.rsn_elements.specs.TransitionSteps.{IsFteRead};

use crate::faults::{ElementFault, FaultKind};
use crate::framing::{Found, Next, Within, next_element};
use domain_base::{array_at, little_u16_at};

/// A mobility domain element (9.4.2.46).
#[derive(Clone, Copy)]
pub struct Mde {
    /// The mobility domain identifier.
    pub mdid: [u8; 2],
    /// The capability and policy of fast transition.
    pub capability: u8,
}

/// The MDE that a body spells.
pub(crate) fn read_mde(body: &[u8]) -> Option<Mde>
    ensures { MatchOption result (length body.now ≢ 3) (λ m. SpellsMde body.now (mde_fields m)) }
{
    if body.len() != 3 {
        return None;
    }
    Some(Mde {
        mdid: array_at::<2>(body, 0),
        capability: body[2],
    })
}

/// The value of a timeout interval that a body spells, whatever its type (9.4.2.48).
pub(crate) fn read_timeout(body: &[u8]) -> Option<u32>
    ensures { MatchOption result (length body.now ≢ 5) (SpellsTimeout body.now) }
{
    if body.len() != 5 {
        return None;
    }
    Some(u32::from_le_bytes([body[1], body[2], body[3], body[4]]))
}

/// A GTK under key wrap, as a subelement of an FTE (9.4.2.47).
#[derive(Clone, Copy)]
pub struct WrappedGtk<'a> {
    /// Key information: the key id in bits 0 and 1.
    pub information: u16,
    /// How many octets the key has.
    pub key_length: u8,
    /// The receive sequence counter, lowest octet first.
    pub rsc: [u8; 8],
    /// The wrapped key.
    pub wrapped: &'a [u8],
}

/// An IGTK under key wrap, as a subelement of an FTE (9.4.2.47).
#[derive(Clone, Copy)]
pub struct WrappedIgtk<'a> {
    /// The key id, 4 or 5 where the key is one of BIP.
    pub id: u16,
    /// The IGTK packet number: the number used last under the key, lowest octet first.
    pub ipn: [u8; 6],
    /// How many octets the key has.
    pub key_length: u8,
    /// The wrapped key.
    pub wrapped: &'a [u8],
}

/// A fast BSS transition element (9.4.2.47).
#[derive(Clone, Copy)]
pub struct Fte<'a> {
    /// MIC control: the second octet is the number of elements under the MIC.
    pub mic_control: [u8; 2],
    /// The MIC.
    pub mic: [u8; 16],
    /// The ANonce.
    pub anonce: [u8; 32],
    /// The SNonce.
    pub snonce: [u8; 32],
    /// Subelement 1: the identifier of the holder of the PMK-R1.
    pub r1kh_id: Option<[u8; 6]>,
    /// Subelement 2: the GTK under key wrap.
    pub gtk: Option<WrappedGtk<'a>>,
    /// Subelement 3: the identifier of the holder of the PMK-R0, of 1 to 48 octets.
    pub r0kh_id: Option<&'a [u8]>,
    /// Subelement 4: the IGTK under key wrap.
    pub igtk: Option<WrappedIgtk<'a>>,
}

// The subelements read so far, up to the first that is the second of its id.
#[derive(Clone, Copy)]
struct Subelements<'a> {
    r1kh_id: Option<[u8; 6]>,
    gtk: Option<WrappedGtk<'a>>,
    r0kh_id: Option<&'a [u8]>,
    igtk: Option<WrappedIgtk<'a>>,
    // where that one stands
    repeated: Option<usize>,
}

// Whether a subelement has a right length.
fn is_right(subelement: &Found<'_>) -> bool
    ensures { IsTrue result ↔ IsRight (element_of subelement.now) }
{
    let size = subelement.body.len();
    match subelement.id {
        1 => size == 6,
        2 => size >= 11,
        3 => (1..=48).contains(&size),
        4 => size >= 9,
        _ => true,
    }
}

// The subelement at the front, if it has a right length, and the octets behind it.
fn right_subelement(octets: &[u8]) -> Option<(Found<'_>, &[u8])>
    ensures { MatchOption result (BeginsWrong octets.now)
        (λ r. (octets.now ≡ element_octets (element_of r.0) ++ r.1.now)
        × IsRight (element_of r.0)) }
{
    match next_element(octets, Within::Body) {
        Next::Whole(subelement, behind) if is_right(&subelement) => Some((subelement, behind)),
        _ => None,
    }
}

// The GTK of subelement 2.
fn wrapped_gtk(body: &[u8]) -> WrappedGtk<'_>
    requires { 11 ≤ length body.now }
    ensures { SpellsWrappedGtk body.now (wrapped_gtk_fields result) }
{
    let (_, wrapped) = body.split_at(11);
    WrappedGtk {
        information: little_u16_at(body, 0),
        key_length: body[2],
        rsc: array_at::<8>(body, 3),
        wrapped,
    }
}

// The IGTK of subelement 4.
fn wrapped_igtk(body: &[u8]) -> WrappedIgtk<'_>
    requires { 9 ≤ length body.now }
    ensures { SpellsWrappedIgtk body.now (wrapped_igtk_fields result) }
{
    let (_, wrapped) = body.split_at(9);
    WrappedIgtk {
        id: little_u16_at(body, 0),
        ipn: array_at::<6>(body, 2),
        key_length: body[8],
        wrapped,
    }
}

impl<'a> Subelements<'a> {
    fn none() -> Self
        ensures { (octets : List ℕ) → Reached octets [] result }
    {
        Subelements {
            r1kh_id: None,
            gtk: None,
            r0kh_id: None,
            igtk: None,
            repeated: None,
        }
    }

    // Keeps the subelement, unless it is the second of its id: then all stays.
    fn keep(&mut self, subelement: Found<'a>) -> bool
        requires { IsRight (element_of subelement) }
        ensures kept { IsTrue result → (es : List Element) → Say es self.old
            → Say (es ++ element_of subelement.entry ∷ []) self.new }
        ensures repeated { self.new.repeated ≡ self.old.repeated }
        ensures stays { result ≡ false → self.new ≡ self.old }
        ensures second { result ≡ false → (es : List Element) → Say es self.old
            → (1 ≤ subelement.entry.id) × (subelement.entry.id ≤ 4)
            × (filter (has_id subelement.entry.id) es ≢ []) }
    {
        let body = subelement.body;
        match subelement.id {
            1 if self.r1kh_id.is_none() => self.r1kh_id = Some(array_at::<6>(body, 0)),
            2 if self.gtk.is_none() => self.gtk = Some(wrapped_gtk(body)),
            3 if self.r0kh_id.is_none() => self.r0kh_id = Some(body),
            4 if self.igtk.is_none() => self.igtk = Some(wrapped_igtk(body)),
            1..=4 => return false,
            _ => {}
        }
        true
    }

    // Takes the subelement at a place.
    fn take(&mut self, subelement: Found<'a>, place: usize)
        requires { IsRight (element_of subelement) }
        ensures { (octets : List ℕ) (es : List Element) (behind : List ℕ)
            → octets ≡ joined es ++ (element_octets (element_of subelement.entry) ++ behind)
            → place ≡ length (joined es)
            → Reached octets es self.old
            → Reached octets (es ++ element_of subelement.entry ∷ []) self.new }
    {
        if self.repeated.is_none() && !self.keep(subelement) {
            self.repeated = Some(place);
        }
    }
}

// What subelements say, or the place of the first that has a wrong length or runs past the end.
fn read_subelements(octets: &[u8]) -> Result<Subelements<'_>, usize>
    ensures { IsSubelementsRead octets.now result }
{
    let mut found = Subelements::none();
    let mut rest = octets;
    while !rest.is_empty() {
        let place = octets.len() - rest.len();
        let Some((subelement, behind)) = right_subelement(rest) else {
            return Err(place);
        };
        found.take(subelement, place);
        rest = behind;
    }
    Ok(found)
}

/// An FTE that was read, and where the first subelement stands that is the second of its id, if
/// there is one: then the body spells no FTE. Places are counted from the id of the FTE, two octets
/// before its body.
#[derive(Clone, Copy)]
pub(crate) struct FteRead<'a> {
    /// What the body says.
    pub fte: Fte<'a>,
    /// The place of a repeated subelement.
    pub repeated: Option<usize>,
}

/// Reads the body of an FTE, or answers its fault: Length, or SubelementLength at its place counted
/// from the id of the FTE.
pub(crate) fn read_fte(body: &[u8]) -> Result<FteRead<'_>, ElementFault>
    ensures { IsFteRead body.now result }
{
    if body.len() < 82 {
        let kind = FaultKind::Length;
        return Err(ElementFault { place: 0, kind });
    }
    let (_, octets) = body.split_at(82);
    let subelements = match read_subelements(octets) {
        Ok(subelements) => subelements,
        Err(at) => {
            let kind = FaultKind::SubelementLength;
            return Err(ElementFault {
                place: 84 + at,
                kind,
            });
        }
    };
    let fte = Fte {
        mic_control: array_at::<2>(body, 0),
        mic: array_at::<16>(body, 2),
        anonce: array_at::<32>(body, 18),
        snonce: array_at::<32>(body, 50),
        r1kh_id: subelements.r1kh_id,
        gtk: subelements.gtk,
        r0kh_id: subelements.r0kh_id,
        igtk: subelements.igtk,
    };
    let repeated = match subelements.repeated {
        None => None,
        Some(at) => Some(84 + at),
    };
    Ok(FteRead { fte, repeated })
}
