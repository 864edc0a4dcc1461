//! Frames that come by the link of a node.

ghost use Rattle.std.specs.Prelude.{◌≡◌, ◌<◌, ◌≤◌, ℕ, List, OnOk, OnErr, IfOk, IfSome, length};
ghost use Rattle.domain_base.specs.declared.names.Node.{Node};
ghost use Rattle.run_journal.specs.Limits.{most_octets};
ghost use Rattle.domain_links.specs.Sends.{Send};
ghost use Rattle.domain_links.specs.Telling.{Tell, Polls, HasFailed, SameFaults};

use domain_base::{Failed, Link};

/// Asks the link at a place for a frame, and answers how many of its octets stand in the front of
/// `buf`, which has `MOST_OCTETS`: a longer frame is cut. None says that no frame has come.
///
/// Failed says that this link's count of faults rose; else every count is as it was.
pub fn poll<L: Link + Drop>(
    links: &mut Vec<L>,
    place: usize,
    buf: &mut [u8],
) -> Result<Option<usize>, Failed>
    requires within { place < length links.old.items }
    requires room { length buf.old ≡ most_octets }
    ensures len { length links.new.items ≡ length links.old.items }
    ensures bound { IfOk result (λ given. IfSome given (λ size. size ≤ length buf.new)) }
    ensures polled { (nodes : ℕ → Node) (left : ℕ → List (List ℕ)) (all : List Send)
        → Tell L.told nodes links.old.items left all
        → Polls L.told nodes links.new.items place left all result buf.new }
    ensures cause { OnErr result (HasFailed L.faults links.new.items) }
    ensures unfailed { OnOk result (SameFaults L.faults links.old.items links.new.items) }
{
    let link = &mut links[place];
    link.poll(buf)
}
