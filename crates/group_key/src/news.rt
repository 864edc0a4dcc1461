//! What a message of an access point carries of its group keys (IEEE Std 802.11-2020, 12.7.2).

ghost use Rattle.std.specs.Prelude.{◌≡◌};
ghost use Rattle.group_key.specs.News.{igtk_of, news_of};

use crate::keys::GroupKey;

/// An IGTK, and how many packet numbers were used under it.
#[derive(Clone, Copy)]
pub struct IgtkNews {
    /// The key.
    pub igtk: GroupKey,
    /// The count, which is the last number used.
    pub ipn: u64,
}

/// The group keys that a message of an access point carries, and how many packet numbers were used
/// under each: an IGTK only where management frames are protected.
#[derive(Clone, Copy)]
pub struct News {
    /// The GTK.
    pub gtk: GroupKey,
    /// The count of packet numbers under it.
    pub rsc: u64,
    /// The IGTK.
    pub igtk: Option<IgtkNews>,
}

// An IGTK with its count, where there is one.
fn igtk_of(igtk: Option<(&GroupKey, u64)>) -> Option<IgtkNews>
    ensures { result ≡ igtk_of igtk.entry }
{
    match igtk {
        Some((key, ipn)) => Some(IgtkNews { igtk: *key, ipn }),
        None => None,
    }
}

impl News {
    /// Of a GTK with its count, and of an IGTK with its count, where there is one.
    pub fn of(gtk: &GroupKey, rsc: u64, igtk: Option<(&GroupKey, u64)>) -> News
        ensures { result ≡ news_of gtk.now rsc igtk.entry }
    {
        let igtk = igtk_of(igtk);
        News {
            gtk: *gtk,
            rsc,
            igtk,
        }
    }
}
