//! What a pass knows, the rule that ties it to the words, and what each step tells.

use crate::history::HolderEvent;
use atomic_table::{Join, Play, Seat, Split, Table, TableRule};
use std::alloc::Global;
use std::collections::LinkedList;

/// A load of the state word of a row: the access point, the row's place there, and the word.
pub struct Load {
    /// The access point.
    pub ap: u64,
    /// The place of the row.
    pub place: u64,
    /// The state word.
    pub state: u64,
}

/// What a pass knows. No value of it is made.
pub struct View {
    /// The access points that it has.
    pub has: LinkedList<u64>,
    /// The history as it was last seen.
    pub seen: LinkedList<HolderEvent>,
    /// The loads of state words, the newest first.
    pub loads: LinkedList<Load>,
    /// The access point of the row that it writes.
    pub writes: u64,
    /// The words of that row that it has written.
    pub draft: LinkedList<u64>,
    /// The access points of a pass that was joined, until the next look.
    pub brought: LinkedList<u64>,
    /// The history as that pass saw it.
    pub told: LinkedList<HolderEvent>,
    /// The access point that the next split gives away.
    pub gives: u64,
}

/// The rule of the table.
pub struct Holding;

impl TableRule<(), View, usize> for Holding {
    ghost use Rattle.holder_table.specs.Rule.{Kept, first_view};

    ghost holds = { Kept };

    ghost first = { first_view };
}

/// The load of a state word.
pub struct Looks;

impl Play<(), View> for Looks {
    ghost use Rattle.holder_table.specs.Steps.{Looked};

    ghost then = { Looked };
}

/// The load of a word of a row that is known.
pub struct Reads;

impl Play<(), View> for Reads {
    ghost use Rattle.holder_table.specs.Steps.{ReadWord};

    ghost then = { ReadWord };
}

/// The store of a word of a row that is not yet published.
pub struct Writes;

impl Play<(), View> for Writes {
    ghost use Rattle.holder_table.specs.Steps.{Wrote};

    ghost then = { Wrote };
}

/// The step that publishes a row.
pub struct Publishes;

impl Play<(), View> for Publishes {
    ghost use Rattle.holder_table.specs.Steps.{Published};

    ghost then = { Published };
}

/// The step that revokes a row.
pub struct Revokes;

impl Play<(), View> for Revokes {
    ghost use Rattle.holder_table.specs.Steps.{Ended};

    ghost then = { Ended };
}

/// The load of word 0 after a join.
pub struct Settles;

impl Play<(), View> for Settles {
    ghost use Rattle.holder_table.specs.Steps.{Settled};

    ghost then = { Settled };
}

/// How a pass gives an access point away.
pub struct Hand;

impl Split<View> for Hand {
    ghost use Rattle.holder_table.specs.Steps.{kept_part, given_part};

    ghost left = { kept_part };

    ghost right = { given_part };
}

/// How a pass gives its access points away from one on.
pub struct HandFrom;

impl Split<View> for HandFrom {
    ghost use Rattle.holder_table.specs.Steps.{below_part, from_part};

    ghost left = { below_part };

    ghost right = { from_part };
}

/// How a pass takes another in.
pub struct Unite;

impl Join<View> for Unite {
    ghost use Rattle.holder_table.specs.Steps.{united, nobody};

    ghost both = { united };

    ghost spent = { nobody };
}

pub type Board = Table<(), View, usize, Holding, Global>;

pub type HolderSeat = Seat<(), View>;
