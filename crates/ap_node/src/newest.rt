//! The newest group keys, as calls take them.

ghost use Rattle.std.specs.Prelude.{◌≡◌};
ghost use Rattle.group_key.specs.News.{news_of};
ghost use Rattle.ap_node.specs.Newest.{unused_igtk, unused_news};

use group_key::{GroupKey, IgtkNews, News};

// How many packet numbers were used under a group key that was just drawn.
const NO_USES: u64 = 0;

// The IGTK, where there is one.
fn unused_igtk(igtk: Option<GroupKey>) -> Option<IgtkNews>
    ensures { result ≡ unused_igtk igtk }
{
    match igtk {
        Some(igtk) => Some(IgtkNews { igtk, ipn: NO_USES }),
        None => None,
    }
}

/// Group keys that were just drawn: no packet number was used under them.
pub fn unused_news(gtk: GroupKey, igtk: Option<GroupKey>) -> News
    ensures { result ≡ unused_news gtk igtk }
{
    let igtk = unused_igtk(igtk);
    News {
        gtk,
        rsc: NO_USES,
        igtk,
    }
}

/// The newest IGTK with its count of packet numbers, where there is one.
#[tactic(auto, using(crate::proofs::Naming::news_found, crate::proofs::Naming::news_absent))]
pub fn igtk_in(news: &News) -> Option<(&GroupKey, u64)>
    ensures { news_of news.now.gtk news.now.rsc result ≡ news.now }
{
    match &news.igtk {
        Some(kept) => Some((&kept.igtk, kept.ipn)),
        None => None,
    }
}
