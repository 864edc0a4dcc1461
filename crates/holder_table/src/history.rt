//! What happens at the key holders of all access points, in one order.

use key_holders::HolderRow;

/// What changes the rows of an access point, which is named by its place among all.
#[derive(Clone, Copy)]
pub enum HolderEvent {
    /// The row is put behind the rows of that access point.
    Put(u64, HolderRow),
    /// Of that access point's rows the one at this place is live no longer.
    Revoke(u64, u64),
}
