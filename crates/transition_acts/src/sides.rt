//! The two ends of the frames of a node with its peer, and where such a frame has what its MIC
//! covers.

ghost use Rattle.std.specs.Prelude.{◌≡◌, ◌≤◌, length, option_map};
ghost use Rattle.std.specs.Option.{ForSome};
ghost use Rattle.mac_prf.specs.FteMic.{input_of};
ghost use Rattle.rsn_elements.specs.Fields.{element_fields};
ghost use Rattle.ft_exchange.specs.Sent.{named_rsne_len};
ghost use Rattle.transition_acts.specs.Sizes.{covered_size};

use crate::covering::cut;
use domain_base::Mac;
use mac_prf::{FteCovered, Reassociation};
use rsn_elements::Elements;
use run_journal::Kind;

// The octets of an RSNE with one name, where management frames are not protected and where they
// are, and of an MDE.
const RSNE_LEN: usize = 40;

const MFP_RSNE_LEN: usize = 44;

const MDE_LEN: usize = 5;

// Where the RSNE of a frame begins: behind the header, the fixed fields and the rates, and in a
// request behind an SSID too.
const IN_REQUEST: usize = 42;

const IN_RESPONSE: usize = 36;

/// What a node has of its peer for the frames between them.
#[derive(Clone, Copy)]
pub struct Side {
    /// The own address.
    pub own: Mac,
    /// The peer's address.
    pub peer: Mac,
    /// The octets of the SSID, at most 32.
    pub ssid_len: usize,
    /// Whether management frames are protected.
    pub mfp: bool,
}

/// Where a frame of reassociation has what its MIC covers.
#[derive(Clone, Copy)]
pub struct Place {
    /// The station.
    pub station: Mac,
    /// The access point.
    pub bssid: Mac,
    /// Which frame it is.
    pub frame: Reassociation,
    /// Where its RSNE begins, with MDE and FTE behind it.
    pub rsne_at: usize,
    /// The octets of its RSNE.
    pub rsne_len: usize,
}

// The octets of an RSNE with one name.
fn rsne_len(mfp: bool) -> usize
    ensures { result ≡ named_rsne_len mfp }
{
    if mfp { MFP_RSNE_LEN } else { RSNE_LEN }
}

impl Side {
    ghost use Rattle.transition_acts.specs.Seals.{place_in, came_ends, came_covered};

    /// Where a frame of that kind, sent by the node, has what its MIC covers, where it has one.
    pub fn place(self, kind: Kind) -> Option<Place>
        requires few { self.ssid_len ≤ 32 }
        ensures place { result ≡ place_in self kind }
        ensures low { ForSome result (λ w. 30 ≤ w.rsne_at) }
    {
        let rsne_len = rsne_len(self.mfp);
        match kind {
            Kind::ReReq => Some(Place {
                station: self.own,
                bssid: self.peer,
                frame: Reassociation::Request,
                rsne_at: IN_REQUEST + self.ssid_len,
                rsne_len,
            }),
            Kind::ReResp => Some(Place {
                station: self.peer,
                bssid: self.own,
                frame: Reassociation::Response,
                rsne_at: IN_RESPONSE,
                rsne_len,
            }),
            _ => None,
        }
    }

    // The ends of a frame of the peer: its station, and its access point.
    fn ends(self, frame: Reassociation) -> (Mac, Mac)
        ensures { result ≡ came_ends self frame }
    {
        match frame {
            Reassociation::Request => (self.peer, self.own),
            Reassociation::Response => (self.own, self.peer),
        }
    }

    /// What the MIC of that frame of the peer covers, where all of it is there.
    pub fn covered<'a>(
        self,
        frame: Reassociation,
        elements: &Elements<'a>,
    ) -> Option<FteCovered<'a>>
        ensures { option_map input_of result
            ≡ came_covered self frame (element_fields elements.now) }
    {
        let Some(rsne) = elements.rsne_octets else {
            return None;
        };
        let Some(mde) = elements.mde_octets else {
            return None;
        };
        let Some(fte) = elements.fte_octets else {
            return None;
        };
        let (station, bssid) = self.ends(frame);
        Some(FteCovered {
            station,
            bssid,
            frame,
            rsne,
            mde,
            fte,
        })
    }
}

impl Place {
    ghost use Rattle.transition_acts.specs.Seals.{covered_at};

    /// What the MIC of the frame with these octets covers.
    pub fn covered(self, octets: &[u8]) -> FteCovered<'_>
        ensures input { input_of result ≡ covered_at self octets.now }
        ensures few { 30 ≤ self.rsne_at → length octets.now ≤ 512 → covered_size result ≤ 512 }
    {
        let (_, elements) = cut(octets, self.rsne_at);
        let (rsne, behind) = cut(elements, self.rsne_len);
        let (mde, fte) = cut(behind, MDE_LEN);
        FteCovered {
            station: self.station,
            bssid: self.bssid,
            frame: self.frame,
            rsne,
            mde,
            fte,
        }
    }
}
