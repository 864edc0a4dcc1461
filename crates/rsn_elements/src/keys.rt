//! The KDEs of group keys in key data (IEEE Std 802.11-2020, 12.7.2).

ghost use Rattle.std.specs.Prelude.{◌<◌, length, MatchOption};
ghost use Rattle.rsn_elements.specs.KeyData.{SpellsGtkKde, SpellsIgtkKde};
ghost use Rattle.rsn_elements.specs.Fields.{gtk_kde_fields, igtk_kde_fields};

use domain_base::{array_at, little_u16_at};

/// A GTK as it stands in key data.
#[derive(Clone, Copy)]
pub struct GtkKde<'a> {
    /// The key id, from 0 to 3.
    pub id: u8,
    /// The Tx bit.
    pub transmit: bool,
    /// The key.
    pub key: &'a [u8],
}

/// The GTK KDE that a body spells, which begins with its OUI and type.
pub(crate) fn read_gtk_kde(body: &[u8]) -> Option<GtkKde<'_>>
    ensures { MatchOption result (length body.now < 6)
        (λ g. SpellsGtkKde body.now (gtk_kde_fields g)) }
{
    if body.len() < 6 {
        return None;
    }
    let (_, key) = body.split_at(6);
    Some(GtkKde {
        id: body[4] % 4,
        transmit: body[4] / 4 % 2 == 1,
        key,
    })
}

/// An IGTK as it stands in key data.
#[derive(Clone, Copy)]
pub struct IgtkKde<'a> {
    /// The key id, 4 or 5 where the key is one of BIP.
    pub id: u16,
    /// The IGTK packet number: the number used last under the key, lowest octet first.
    pub ipn: [u8; 6],
    /// The key.
    pub key: &'a [u8],
}

/// The IGTK KDE that a body spells, which begins with its OUI and type.
pub(crate) fn read_igtk_kde(body: &[u8]) -> Option<IgtkKde<'_>>
    ensures { MatchOption result (length body.now < 12)
        (λ g. SpellsIgtkKde body.now (igtk_kde_fields g)) }
{
    if body.len() < 12 {
        return None;
    }
    let (_, key) = body.split_at(12);
    Some(IgtkKde {
        id: little_u16_at(body, 4),
        ipn: array_at::<6>(body, 6),
        key,
    })
}
