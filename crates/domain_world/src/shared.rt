//! The key holders of all access points, and the pass that has them between events.

ghost use Rattle.std.specs.Prelude.{◌≡◌};

use holder_table::{HolderPass, SharedHolders};

/// The key holders, and a pass of theirs.
#[derive(Drop)]
pub(crate) struct Shared {
    /// The key holders.
    pub(crate) table: SharedHolders,
    /// The pass.
    pub(crate) pass: HolderPass,
    pub(crate) ghost its: { pass.table ≡ table.table },
}
