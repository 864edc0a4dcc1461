//! What every kind of key holders has and owes.

ghost use Rattle.std.specs.Prelude.{◌≡◌, ◌≢◌, ℕ, List, true};
ghost use Rattle.domain_base.specs.declared.names.Mac.{Mac};
ghost use Rattle.key_hierarchy.specs.declared.answers.PullAnswer.{PullAnswer};
ghost use Rattle.key_hierarchy.specs.declared.answers.PutAnswer.{PutAnswer};
ghost use Rattle.key_hierarchy.specs.declared.answers.RevokeAnswer.{RevokeAnswer};
ghost use Rattle.key_holders.specs.declared.rows.HeldRow.{HeldRow};
ghost use Rattle.key_holders.specs.declared.rows.HolderRow.{HolderRow};
ghost use Rattle.key_holders.specs.Rows.{is_in, put_answer, after_put, revoke_answer, after_revoke};
ghost use Rattle.key_holders.specs.Pulls.{Answers, IsNamed};

use crate::rows::HolderRow;
use domain_base::Mac;
use key_hierarchy::{PullAnswer, PutAnswer, RevokeAnswer};

/// The key holders of all access points of a mobility domain, of which one has some: it may put and
/// revoke there, and ask all.
pub trait Holders {
    // The R0KH-IDs of all access points, in order.
    ghost ids: { Self → List (List ℕ) };

    // The access points that it has, by their places in that order.
    ghost has: { Self → List ℕ };

    // The rows of an access point that it has, in the order in which they were put.
    ghost rows: { Self → ℕ → List HeldRow };

    // The holders before a pull by an R0KH-ID, a PMKR0Name, an R1KH-ID and a station, the holders
    // after it, and its answer, by what the access point asked held at one moment.
    ghost pulls: { Self → List ℕ → List ℕ → Mac → Mac → Self → PullAnswer → Type 0 };

    // The holders before a put of a row at an access point, the holders after it, and its answer.
    ghost puts: { Self → ℕ → HolderRow → Self → PutAnswer → Type 0 };

    // The holders before a revocation by a PMKR0Name at an access point, the holders after it, and
    // its answer.
    ghost revokes: { Self → ℕ → List ℕ → Self → RevokeAnswer → Type 0 };

    // What is so where memory was wanted to put a row: nothing can be where none ever is.
    ghost wants: { Type 0 };

    // The second know all that the first did.
    ghost no_less: { Self → Self → Type 0 };

    /// Puts a row at an access point that it has. At most 64 rows have room there, revoked ones
    /// counted.
    fn put(&mut self, r0kh: u16, row: HolderRow) -> PutAnswer
        requires has { is_in r0kh (has self.old) ≡ true }
        ensures answer { result ≢ PutAnswer.NoMemory →
            result ≡ put_answer row.name (rows self.old r0kh) }
        ensures wants { result ≡ PutAnswer.NoMemory → wants }
        ensures puts { puts self.old r0kh row self.new result }
        ensures rows { rows self.new r0kh ≡ after_put row result (rows self.old r0kh) }
        ensures others { (r : ℕ) → r ≢ r0kh → is_in r (has self.old) ≡ true →
            rows self.new r ≡ rows self.old r }
        ensures ids { ids self.new ≡ ids self.old }
        ensures still_has { has self.new ≡ has self.old }
        ensures no_less { no_less self.old self.new };

    /// Asks the access point of an R0KH-ID for the PMK-R1 that its live row of a PMKR0Name and a
    /// station makes for an R1 key holder. Takes no memory.
    fn pull(&mut self, r0kh_id: &[u8], name: &[u8; 16], r1kh: Mac, sta: Mac) -> PullAnswer
        ensures pulls { pulls self.old r0kh_id.now name.now r1kh sta self.new result }
        ensures answer { Answers (ids self.old) (has self.old) (rows self.old) r0kh_id.now
            name.now r1kh sta result }
        ensures named { IsNamed name.now r1kh sta result }
        ensures rows { (r : ℕ) → is_in r (has self.old) ≡ true → rows self.new r ≡ rows self.old r }
        ensures ids { ids self.new ≡ ids self.old }
        ensures still_has { has self.new ≡ has self.old }
        ensures no_less { no_less self.old self.new };

    /// Revokes the live row of a PMKR0Name at an access point that it has. Takes no memory.
    fn revoke(&mut self, r0kh: u16, name: &[u8; 16]) -> RevokeAnswer
        requires has { is_in r0kh (has self.old) ≡ true }
        ensures answer { result ≡ revoke_answer name.now (rows self.old r0kh) }
        ensures revokes { revokes self.old r0kh name.now self.new result }
        ensures rows { rows self.new r0kh ≡ after_revoke name.now result (rows self.old r0kh) }
        ensures others { (r : ℕ) → r ≢ r0kh → is_in r (has self.old) ≡ true →
            rows self.new r ≡ rows self.old r }
        ensures ids { ids self.new ≡ ids self.old }
        ensures still_has { has self.new ≡ has self.old }
        ensures no_less { no_less self.old self.new };

    ghost same: { (h : Self) → no_less h h };

    ghost chain: { (g h k : Self) → no_less g h → no_less h k → no_less g k };
}
