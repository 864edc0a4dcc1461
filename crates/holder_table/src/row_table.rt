//! The rows of all access points in one table: single steps, and the calls that are made of them.

ghost use Rattle.std.specs.Prelude.{◌≡◌, ◌+◌, ◌*◌, ◌<◌, ◌≤◌, ◌↔◌, ℕ, [], ◌∷◌, Option, Some, IfOk};
ghost use Rattle.std.specs.Prelude.{IsTrue, slice_get, length, true};
ghost use Rattle.key_holders.specs.declared.rows.HolderRow.{HolderRow};
ghost use Rattle.key_holders.specs.declared.rows.HeldRow.{HeldRow};
ghost use Rattle.key_holders.specs.Rows.{is_in, live, put_answer, revoke_answer};
ghost use Rattle.holder_table.specs.declared.history.HolderEvent.TheVariants.{Put, Revoke};
ghost use Rattle.holder_table.specs.Histories.{held_at};
ghost use Rattle.holder_table.specs.Words.{octets_in, piece, state_of, row_of, row_words};
ghost use Rattle.holder_table.specs.Words.{name_octets};
ghost use Rattle.holder_table.specs.Rule.{first_view, LoadsLast};
ghost use Rattle.holder_table.specs.Steps.{Adds, GoesOn, load_of, drafted, written};
ghost use Rattle.holder_table.specs.Knowledge.{NoLess, KnowsMore, Finds, PullsAt, AfterPut};
ghost use Rattle.holder_table.specs.Knowledge.{AfterRevoke, Gave, GaveFrom, TookIn};
ghost use Rattle.holder_table.specs.Scans.{Asked, Spotted};
ghost use Rattle.holder_table.specs.Caches.{CacheAfterPull};

use crate::view::{
    Board, Hand, HandFrom, HolderSeat, Looks, Publishes, Reads, Revokes, Settles, Unite, Writes,
};
use crate::words::{NameWords, RowWords, mac_in};
use atomic_table::Table;
use domain_base::Mac;
use key_hierarchy::{PullAnswer, PutAnswer, RevokeAnswer};
use key_holders::{HolderRow, R1Cache, ROWS};
use std::alloc::{AllocError, Global};

/// The table, by the number of access points.
#[derive(Drop)]
pub(crate) struct RowTable {
    table: Board,
    aps: usize,
    ghost sized: { table.shared.table_id.words ≡ 1 + 512 * aps },
    ghost kept: { table.shared.key ≡ aps },
    ghost few: { aps ≤ 65536 },
}

// Where a walk over the rows ends: at a live row that was asked for, or behind all rows.
enum Spot {
    Live(usize),
    Free(usize),
}

impl RowTable {
    // Makes the table, in which no row stands.
    pub(crate) fn make(alloc: Global, aps: usize) -> Result<(RowTable, HolderSeat), AllocError>
        requires { aps ≤ 65536 }
        ensures { IfOk result (λ r. (r.0.aps ≡ aps) × (r.1.table_id ≡ r.0.table.shared.table_id)
            × (r.1.me ≡ (first_view aps, []))) }
    {
        let words = Vec::from_elem(alloc, 0u64, 1 + 512 * aps)?;
        let (table, seat): (Board, HolderSeat) = Table::of_words(alloc, words.as_slice(), &aps)?;
        Ok((RowTable { table, aps }, seat))
    }

    // Loads the state word of a row.
    fn look_at(&self, seat: &mut HolderSeat, ap: usize, place: usize) -> u64
        requires pass { seat.old.table_id ≡ self.now.table.shared.table_id }
        requires settled { seat.old.me.0.brought ≡ [] }
        requires ap { ap < self.now.aps }
        requires place { place < 64 }
        ensures pass { (seat.new.table_id ≡ seat.old.table_id) × (seat.new.me.1 ≡ seat.old.me.1) }
        ensures more { KnowsMore seat.old.me.0 seat.new.me.0 }
        ensures state { result ≡ state_of (held_at ap seat.new.me.0.seen) place }
        ensures load { seat.new.me.0.loads ≡ load_of ap place result ∷ seat.old.me.0.loads }
        ensures gives { seat.new.me.0.gives ≡ ap }
        ensures room { length (held_at ap seat.new.me.0.seen) ≤ 64 }
        ensures lasting { LoadsLast seat.new.me.0 }
    {
        self.table
            .shared
            .load::<Looks>(seat, 1 + 8 * (64 * ap + place))
    }

    // Loads a word of a row that is known.
    fn word_of(&self, seat: &mut HolderSeat, ap: usize, place: usize, word: usize) -> u64
        requires pass { seat.old.table_id ≡ self.now.table.shared.table_id }
        requires ap { ap < self.now.aps }
        requires place { place < 64 }
        requires word { word < 7 }
        ensures pass { (seat.new.table_id ≡ seat.old.table_id) × (seat.new.me ≡ seat.old.me) }
        ensures word { (p : HeldRow) → slice_get (held_at ap seat.old.me.0.seen) place ≡ Some p →
            octets_in word result ≡ piece p.row word }
    {
        self.table
            .shared
            .load::<Reads>(seat, 2 + 8 * (64 * ap + place) + word)
    }

    // Whether a row that is known has that name.
    fn is_named(&self, seat: &mut HolderSeat, ap: usize, place: usize, name: NameWords) -> bool
        requires pass { seat.old.table_id ≡ self.now.table.shared.table_id }
        requires ap { ap < self.now.aps }
        requires place { place < 64 }
        ensures pass { (seat.new.table_id ≡ seat.old.table_id) × (seat.new.me ≡ seat.old.me) }
        ensures named { (p : HeldRow) → slice_get (held_at ap seat.old.me.0.seen) place ≡ Some p →
            IsTrue result ↔ (p.row.name ≡ name_octets name) }
    {
        let high = self.word_of(seat, ap, place, 0);
        if high != name.high {
            return false;
        }
        let low = self.word_of(seat, ap, place, 1);
        low == name.low
    }

    // Whether a row that is known has that name and, where one is given, that station.
    fn is_asked(
        &self,
        seat: &mut HolderSeat,
        ap: usize,
        place: usize,
        name: NameWords,
        sta: Option<Mac>,
    ) -> bool
        requires pass { seat.old.table_id ≡ self.now.table.shared.table_id }
        requires ap { ap < self.now.aps }
        requires place { place < 64 }
        ensures pass { (seat.new.table_id ≡ seat.old.table_id) × (seat.new.me ≡ seat.old.me) }
        ensures asked { (p : HeldRow) → slice_get (held_at ap seat.old.me.0.seen) place ≡ Some p →
            IsTrue result ↔ Asked (name_octets name) sta p.row }
    {
        if !self.is_named(seat, ap, place, name) {
            return false;
        }
        match sta {
            Some(sta) => {
                let word = self.word_of(seat, ap, place, 6);
                mac_in(word).0 == sta.0
            }
            None => true,
        }
    }

    // The words of a row that is known.
    fn row_words(&self, seat: &mut HolderSeat, ap: usize, place: usize) -> RowWords
        requires pass { seat.old.table_id ≡ self.now.table.shared.table_id }
        requires ap { ap < self.now.aps }
        requires place { place < 64 }
        ensures pass { (seat.new.table_id ≡ seat.old.table_id) × (seat.new.me ≡ seat.old.me) }
        ensures row { (p : HeldRow) → slice_get (held_at ap seat.old.me.0.seen) place ≡ Some p →
            row_of (row_words result) ≡ p.row }
    {
        let high = self.word_of(seat, ap, place, 0);
        let low = self.word_of(seat, ap, place, 1);
        let first = self.word_of(seat, ap, place, 2);
        let second = self.word_of(seat, ap, place, 3);
        let third = self.word_of(seat, ap, place, 4);
        let fourth = self.word_of(seat, ap, place, 5);
        let sta = self.word_of(seat, ap, place, 6);
        RowWords {
            name: NameWords { high, low },
            first,
            second,
            third,
            fourth,
            sta,
        }
    }

    // Walks over the rows of an access point, up to a live one that is asked for or the first free
    // place.
    fn scan(&self, seat: &mut HolderSeat, ap: usize, name: NameWords, sta: Option<Mac>) -> Spot
        requires pass { seat.old.table_id ≡ self.now.table.shared.table_id }
        requires settled { seat.old.me.0.brought ≡ [] }
        requires ap { ap < self.now.aps }
        ensures pass { (seat.new.table_id ≡ seat.old.table_id) × (seat.new.me.1 ≡ seat.old.me.1) }
        ensures more { KnowsMore seat.old.me.0 seat.new.me.0 }
        ensures spot { Spotted ap (name_octets name) sta seat.old.me.0 seat.new.me.0 result }
        ensures lasting { LoadsLast seat.old.me.0 → LoadsLast seat.new.me.0 }
    {
        for place in 0..ROWS {
            let state = self.look_at(seat, ap, place);
            if state == 0 {
                return Spot::Free(place);
            }
            if state == 1 && self.is_asked(seat, ap, place, name, sta) {
                return Spot::Live(place);
            }
        }
        Spot::Free(ROWS)
    }

    // Stores a word of the row that is to come.
    fn write_word(&self, seat: &mut HolderSeat, ap: usize, place: usize, word: usize, value: u64)
        requires pass { seat.old.table_id ≡ self.now.table.shared.table_id }
        requires ap { ap < self.now.aps }
        requires has { is_in ap seat.old.me.0.has ≡ true }
        requires place { place ≡ length (held_at ap seat.old.me.0.seen) }
        requires room { place < 64 }
        requires word { word < 7 }
        requires on { GoesOn seat.old.me.0 ap word }
        ensures pass { seat.new.table_id ≡ seat.old.table_id }
        ensures draft { seat.new.me ≡ (drafted seat.old.me.0 ap word value, seat.old.me.1) }
    {
        self.table
            .shared
            .store::<Writes>(seat, 2 + 8 * (64 * ap + place) + word, value);
    }

    // Stores the words of a row behind the rows of an access point.
    fn write_row(&self, seat: &mut HolderSeat, ap: usize, place: usize, words: &RowWords)
        requires pass { seat.old.table_id ≡ self.now.table.shared.table_id }
        requires ap { ap < self.now.aps }
        requires has { is_in ap seat.old.me.0.has ≡ true }
        requires place { place ≡ length (held_at ap seat.old.me.0.seen) }
        requires room { place < 64 }
        ensures pass { seat.new.table_id ≡ seat.old.table_id }
        ensures draft { seat.new.me ≡ (written seat.old.me.0 ap words.now, seat.old.me.1) }
    {
        self.write_word(seat, ap, place, 0, words.name.high);
        self.write_word(seat, ap, place, 1, words.name.low);
        self.write_word(seat, ap, place, 2, words.first);
        self.write_word(seat, ap, place, 3, words.second);
        self.write_word(seat, ap, place, 4, words.third);
        self.write_word(seat, ap, place, 5, words.fourth);
        self.write_word(seat, ap, place, 6, words.sta);
    }

    // Writes a row behind the rows of an access point, and publishes it.
    fn append(&self, seat: &mut HolderSeat, ap: usize, place: usize, words: &RowWords)
        requires pass { seat.old.table_id ≡ self.now.table.shared.table_id }
        requires ap { ap < self.now.aps }
        requires has { is_in ap seat.old.me.0.has ≡ true }
        requires place { place ≡ length (held_at ap seat.old.me.0.seen) }
        requires room { place < 64 }
        ensures pass { (seat.new.table_id ≡ seat.old.table_id) × (seat.new.me.1 ≡ seat.old.me.1) }
        ensures adds { Adds (Put ap (row_of (row_words words.now))) seat.old.me.0 seat.new.me.0 }
    {
        self.write_row(seat, ap, place, words);
        self.table
            .shared
            .store::<Publishes>(seat, 1 + 8 * (64 * ap + place), 1);
    }

    // Revokes a row.
    fn end_row(&self, seat: &mut HolderSeat, ap: usize, place: usize)
        requires pass { seat.old.table_id ≡ self.now.table.shared.table_id }
        requires ap { ap < self.now.aps }
        requires has { is_in ap seat.old.me.0.has ≡ true }
        requires place { place < 64 }
        requires there { (row : HolderRow)
            × (slice_get (held_at ap seat.old.me.0.seen) place ≡ Some (live row)) }
        ensures pass { (seat.new.table_id ≡ seat.old.table_id) × (seat.new.me.1 ≡ seat.old.me.1) }
        ensures adds { Adds (Revoke ap place) seat.old.me.0 seat.new.me.0 }
    {
        self.table
            .shared
            .fetch_or::<Revokes>(seat, 1 + 8 * (64 * ap + place), 2);
    }

    // Puts a row at an access point of the pass.
    pub(crate) fn put(&self, seat: &mut HolderSeat, ap: usize, row: &HolderRow) -> PutAnswer
        requires pass { seat.old.table_id ≡ self.now.table.shared.table_id }
        requires settled { seat.old.me.0.brought ≡ [] }
        requires ap { ap < self.now.aps }
        requires has { is_in ap seat.old.me.0.has ≡ true }
        ensures pass { (seat.new.table_id ≡ seat.old.table_id) × (seat.new.me.1 ≡ seat.old.me.1) }
        ensures answer { result ≡ put_answer row.now.name (held_at ap seat.old.me.0.seen) }
        ensures effect { AfterPut ap row.now seat.old.me.0 seat.new.me.0 result }
        ensures lasting { LoadsLast seat.old.me.0 → LoadsLast seat.new.me.0 }
    {
        let words = RowWords::of(row);
        match self.scan(seat, ap, words.name, None) {
            Spot::Live(_) => PutAnswer::HeldAlready,
            Spot::Free(place) => {
                if place >= ROWS {
                    return PutAnswer::Full;
                }
                self.append(seat, ap, place, &words);
                PutAnswer::Held
            }
        }
    }

    // Asks an access point, of the pass or not, for the live row of a name and a station.
    fn find(&self, seat: &mut HolderSeat, ap: usize, name: &[u8; 16], sta: Mac) -> Option<HolderRow>
        requires pass { seat.old.table_id ≡ self.now.table.shared.table_id }
        requires settled { seat.old.me.0.brought ≡ [] }
        requires ap { ap < self.now.aps }
        ensures pass { (seat.new.table_id ≡ seat.old.table_id) × (seat.new.me.1 ≡ seat.old.me.1) }
        ensures more { KnowsMore seat.old.me.0 seat.new.me.0 }
        ensures finds { Finds ap name.now sta seat.old.me.0 seat.new.me.0 result }
        ensures lasting { LoadsLast seat.old.me.0 → LoadsLast seat.new.me.0 }
    {
        match self.scan(seat, ap, NameWords::of(name), Some(sta)) {
            Spot::Live(place) => {
                let words = self.row_words(seat, ap, place);
                Some(words.row())
            }
            Spot::Free(_) => None,
        }
    }

    // Asks an access point, of the pass or not, for the PMK-R1 of such a row.
    pub(crate) fn pull(
        &self,
        seat: &mut HolderSeat,
        ap: usize,
        name: &[u8; 16],
        r1kh: Mac,
        sta: Mac,
    ) -> PullAnswer
        requires pass { seat.old.table_id ≡ self.now.table.shared.table_id }
        requires settled { seat.old.me.0.brought ≡ [] }
        requires ap { ap < self.now.aps }
        ensures pass { (seat.new.table_id ≡ seat.old.table_id) × (seat.new.me.1 ≡ seat.old.me.1) }
        ensures more { KnowsMore seat.old.me.0 seat.new.me.0 }
        ensures pulls { PullsAt ap name.now r1kh sta seat.old.me.0 seat.new.me.0 result }
        ensures lasting { LoadsLast seat.old.me.0 → LoadsLast seat.new.me.0 }
    {
        match self.find(seat, ap, name, sta) {
            Some(row) => PullAnswer::Found(row.r1(r1kh)),
            None => PullAnswer::Absent,
        }
    }

    // The same, with the key from a cache where it is there. The cache is asked only for a row whose
    // state word this call loaded.
    pub(crate) fn pull_cached(
        &self,
        seat: &mut HolderSeat,
        cache: &mut R1Cache,
        ap: usize,
        name: &[u8; 16],
        r1kh: Mac,
        sta: Mac,
    ) -> PullAnswer
        requires pass { seat.old.table_id ≡ self.now.table.shared.table_id }
        requires settled { seat.old.me.0.brought ≡ [] }
        requires ap { ap < self.now.aps }
        ensures pass { (seat.new.table_id ≡ seat.old.table_id) × (seat.new.me.1 ≡ seat.old.me.1) }
        ensures more { KnowsMore seat.old.me.0 seat.new.me.0 }
        ensures pulls { PullsAt ap name.now r1kh sta seat.old.me.0 seat.new.me.0 result }
        ensures lasting { LoadsLast seat.old.me.0 → LoadsLast seat.new.me.0 }
        ensures cache { CacheAfterPull name.now r1kh sta cache.old cache.new result }
    {
        let found = self.find(seat, ap, name, sta);
        match found {
            Some(row) => PullAnswer::Found(cache.r1(&row, r1kh).0),
            None => PullAnswer::Absent,
        }
    }

    // Revokes the live row of that name at an access point of the pass.
    pub(crate) fn revoke(&self, seat: &mut HolderSeat, ap: usize, name: &[u8; 16]) -> RevokeAnswer
        requires pass { seat.old.table_id ≡ self.now.table.shared.table_id }
        requires settled { seat.old.me.0.brought ≡ [] }
        requires ap { ap < self.now.aps }
        requires has { is_in ap seat.old.me.0.has ≡ true }
        ensures pass { (seat.new.table_id ≡ seat.old.table_id) × (seat.new.me.1 ≡ seat.old.me.1) }
        ensures answer { result ≡ revoke_answer name.now (held_at ap seat.old.me.0.seen) }
        ensures effect { AfterRevoke ap name.now seat.old.me.0 seat.new.me.0 result }
        ensures lasting { LoadsLast seat.old.me.0 → LoadsLast seat.new.me.0 }
    {
        match self.scan(seat, ap, NameWords::of(name), None) {
            Spot::Live(place) => {
                self.end_row(seat, ap, place);
                RevokeAnswer::Revoked
            }
            Spot::Free(_) => RevokeAnswer::Absent,
        }
    }

    // Gives an access point of the pass to a new pass.
    pub(crate) fn split(&self, seat: &mut HolderSeat, ap: usize) -> HolderSeat
        requires pass { seat.old.table_id ≡ self.now.table.shared.table_id }
        requires settled { seat.old.me.0.brought ≡ [] }
        requires ap { ap < self.now.aps }
        requires has { is_in ap seat.old.me.0.has ≡ true }
        ensures pass { (seat.new.table_id ≡ seat.old.table_id) × (seat.new.me.1 ≡ seat.old.me.1) }
        ensures given_pass { (result.table_id ≡ seat.old.table_id) × (result.me.1 ≡ []) }
        ensures gave { Gave ap seat.old.me.0 seat.new.me.0 result.me.0 }
        ensures lasting { (LoadsLast seat.new.me.0) × (LoadsLast result.me.0) }
    {
        self.look_at(seat, ap, 0);
        self.table.shared.split_seat::<Hand>(seat)
    }

    // Gives the access points of the pass from one on to a new pass.
    pub(crate) fn split_from(&self, seat: &mut HolderSeat, ap: usize) -> HolderSeat
        requires pass { seat.old.table_id ≡ self.now.table.shared.table_id }
        requires settled { seat.old.me.0.brought ≡ [] }
        requires ap { ap < self.now.aps }
        ensures pass { (seat.new.table_id ≡ seat.old.table_id) × (seat.new.me.1 ≡ seat.old.me.1) }
        ensures given_pass { (result.table_id ≡ seat.old.table_id) × (result.me.1 ≡ []) }
        ensures gave { GaveFrom ap seat.old.me.0 seat.new.me.0 result.me.0 }
        ensures lasting { (LoadsLast seat.new.me.0) × (LoadsLast result.me.0) }
    {
        self.look_at(seat, ap, 0);
        self.table.shared.split_seat::<HandFrom>(seat)
    }

    // Takes another pass in.
    pub(crate) fn join(&self, seat: &mut HolderSeat, other: HolderSeat)
        requires pass { seat.old.table_id ≡ self.now.table.shared.table_id }
        requires other_table { other.table_id ≡ self.now.table.shared.table_id }
        requires other_free { other.me.1 ≡ [] }
        ensures pass { (seat.new.table_id ≡ seat.old.table_id) × (seat.new.me.1 ≡ seat.old.me.1) }
        ensures took_in { TookIn seat.old.me.0 other.me.0 seat.new.me.0 }
        ensures lasting { LoadsLast seat.new.me.0 }
    {
        self.table.shared.join_seat::<Unite>(seat, other);
        self.table.shared.load::<Settles>(seat, 0);
    }
}
