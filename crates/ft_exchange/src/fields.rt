//! FTEs as they are sent.

ghost use Rattle.std.specs.Prelude.{◌≡◌, ◌≤◌, Some, length, option_map};
ghost use Rattle.std.specs.Option.{ForSome};
ghost use Rattle.rsn_elements.specs.Fields.{fte_fields, wrapped_gtk_fields};
ghost use Rattle.rsn_elements.specs.Fields.{wrapped_igtk_fields};
ghost use Rattle.rsn_elements.specs.Sent.{fte_body};
ghost use Rattle.domain_rules.specs.FastTransition.{plain_fte, no_nonce};
ghost use Rattle.domain_rules.specs.TransitionFrames.{with_mic};
ghost use Rattle.key_hierarchy.specs.Sizes.{IsR0khId};
ghost use Rattle.ft_exchange.specs.Sent.{counted, FitsFte};

use rsn_elements::{Fte, WrappedGtk, WrappedIgtk};
use run_journal::Keyed;

/// No nonce.
pub const NO_NONCE: [u8; 32] = [0; 32];

// A MIC that is not there, or not yet.
const NO_MIC: [u8; 16] = [0; 16];

/// An FTE without MIC, with these nonces and key holders.
pub fn plain_fte<'a>(
    anonce: [u8; 32],
    snonce: [u8; 32],
    r1kh_id: Option<[u8; 6]>,
    r0kh_id: &'a [u8],
) -> Fte<'a>
    requires { IsR0khId r0kh_id.now }
    ensures fields { fte_fields result ≡ plain_fte anonce snonce r1kh_id r0kh_id.now }
    ensures fits { FitsFte result }
{
    Fte {
        mic_control: [0, 0],
        mic: NO_MIC,
        anonce,
        snonce,
        r1kh_id,
        gtk: None,
        r0kh_id: Some(r0kh_id),
        igtk: None,
    }
}

/// An FTE of three elements under the MIC, which it does not have yet, with the nonces of the key.
pub fn counted_fte<'a>(
    key: &Keyed,
    r1kh_id: [u8; 6],
    r0kh_id: &'a [u8],
    gtk: Option<WrappedGtk<'a>>,
    igtk: Option<WrappedIgtk<'a>>,
) -> Fte<'a>
    requires id { IsR0khId r0kh_id.now }
    requires gtk { ForSome gtk (λ g. length g.wrapped.now ≤ 24) }
    requires igtk { ForSome igtk (λ g. length g.wrapped.now ≤ 24) }
    ensures fields { fte_fields result
        ≡ counted r1kh_id key.now r0kh_id.now (option_map wrapped_gtk_fields gtk.entry)
        (option_map wrapped_igtk_fields igtk.entry) }
    ensures fits { FitsFte result }
{
    Fte {
        mic_control: [0, 3],
        mic: NO_MIC,
        anonce: key.anonce,
        snonce: key.snonce,
        r1kh_id: Some(r1kh_id),
        gtk,
        r0kh_id: Some(r0kh_id),
        igtk,
    }
}

/// The FTE with that MIC.
pub fn with_mic<'a>(mic: [u8; 16], fte: &Fte<'a>) -> Fte<'a>
    requires { FitsFte fte.now }
    ensures fields { fte_fields result ≡ with_mic mic (fte_fields fte.now) }
    ensures fits { FitsFte result }
{
    Fte { mic, ..*fte }
}
