//! Delivered frames read.

ghost use Rattle.std.specs.Prelude.{◌≡◌, ◌&&◌, not, List, ℕ, Some};
ghost use Rattle.domain_base.specs.declared.names.Akm.{Akm as AnyAkm};
ghost use Rattle.air_frame.specs.Control.{is_action};
ghost use Rattle.air_frame.specs.Fields.{AirFields};
ghost use Rattle.air_frame.specs.Spelled.{SpellsAir};
ghost use Rattle.air_frame.specs.Views.{header_of};
ghost use Rattle.domain_rules.specs.Reading.{management_of, IsEapol, Reads, ReadsBy};
ghost use Rattle.frame_intake.specs.Views.{reading_of, IsWhole};

use crate::delivered::{Delivered, KeyMessage, Management, SealedData};
use air_frame::{AirFrame, Direction, Header, is_action};
use domain_base::{Akm, Tid};
use eapol_key::classify;
use rsn_elements::{Within, read_elements};
use run_journal::Kind;

// A management frame and what its elements say.
fn managed<'a>(kind: Kind, header: Header<'a>, status: u16, elements: &'a [u8]) -> Delivered<'a>
    ensures reads { (akm : AnyAkm) (octets : List ℕ) (f : AirFields) → SpellsAir octets f
        → management_of f ≡ Some (record {
          kind = kind;
          header = header_of header.entry;
          status = status;
          elements = elements.now;
        })
        → Reads akm octets (reading_of result) }
    ensures whole { IsWhole result }
{
    let frame = Management {
        kind,
        header,
        status,
        elements,
    };
    match read_elements(elements, Within::Body) {
        Ok(elements) => Delivered::Managed(frame, elements),
        Err(fault) => Delivered::NoElements(frame, fault),
    }
}

// An EAPOL data frame of that body.
fn keyed<'a>(akm: Akm, header: Header<'a>, direction: Direction, body: &'a [u8]) -> Delivered<'a>
    ensures reads { (octets : List ℕ) → IsEapol octets (header_of header.entry) direction body.now
        → Reads akm octets (reading_of result) }
    ensures whole { IsWhole result }
{
    let (frame, _) = match eapol_key::read(body) {
        Ok(read) => read,
        Err(fault) => return Delivered::NoKeyFrame(header, fault),
    };
    match classify(&frame, akm) {
        Some(message) => Delivered::Keyed(KeyMessage {
            header,
            direction,
            message,
            frame,
        }),
        None => Delivered::NoMessage(header),
    }
}

// The number of a TID.
fn number_of(tid: Option<Tid>) -> Option<u8>
    ensures { result ≡ tid }
{
    match tid {
        Some(tid) => Some(tid.number()),
        None => None,
    }
}

// What octets are that are not passed over before they are read.
fn read_frame(akm: Akm, octets: &[u8]) -> Delivered<'_>
    ensures reads { Reads akm octets.now (reading_of result) }
    ensures whole { IsWhole result }
{
    let frame = match air_frame::read(octets) {
        Ok(frame) => frame,
        Err(fault) => return Delivered::NoFrame(fault),
    };
    match frame {
        AirFrame::AssocReq(f) => managed(Kind::AssocReq, f.header, 0, f.elements),
        AirFrame::AssocResp(f) => managed(Kind::AssocResp, f.header, f.status, f.elements),
        AirFrame::FtReq(f) => managed(Kind::FtReq, f.header, 0, f.elements),
        AirFrame::FtResp(f) => managed(Kind::FtResp, f.header, f.status, f.elements),
        AirFrame::ReReq(f) => managed(Kind::ReReq, f.header, 0, f.elements),
        AirFrame::ReResp(f) => managed(Kind::ReResp, f.header, f.status, f.elements),
        AirFrame::Action(f) => Delivered::Acting(f),
        AirFrame::Eapol(f) => keyed(akm, f.header, f.direction, f.body),
        AirFrame::Protected(f) => Delivered::Sealed(SealedData {
            header: f.header,
            direction: f.direction,
            tid: number_of(f.tid),
            body: f.body,
        }),
        AirFrame::Ignored => Delivered::PassedOver,
    }
}

// Whether octets are passed over before they are read: those of an action frame, where management
// frames are not protected.
fn is_passed_over(mfp: bool, octets: &[u8]) -> bool
    ensures { result ≡ (is_action octets.now && not mfp) }
{
    is_action(octets) && !mfp
}

/// What the octets of a delivered frame are to a node under that suite, by whether management frames
/// are protected: where they are not, an action frame is passed over before it is read. Takes no
/// memory.
pub fn read(akm: Akm, mfp: bool, octets: &[u8]) -> Delivered<'_>
    ensures reads { ReadsBy (is_action octets.now && not mfp) akm octets.now (reading_of result) }
    ensures whole { IsWhole result }
{
    if is_passed_over(mfp, octets) {
        Delivered::PassedOver
    } else {
        read_frame(akm, octets)
    }
}
