//! Laws of rows and histories. The functions do nothing; their contracts are proved.

ghost use Rattle.std.specs.Prelude.{◌≡◌, ℕ, ◌<◌, true, List, [], ◌∷◌, length, Option, Some, None};
ghost use Rattle.std.specs.Prelude.{map};
ghost use Rattle.domain_base.specs.declared.names.Akm.TheVariants.{FtPsk};
ghost use Rattle.domain_base.specs.declared.names.Node.{Node};
ghost use Rattle.domain_base.specs.declared.names.Node.TheVariants.{Ap, Sta};
ghost use Rattle.key_hierarchy.specs.declared.answers.PutAnswer.{PutAnswer};
ghost use Rattle.key_hierarchy.specs.declared.answers.PullAnswer.{PullAnswer};
ghost use Rattle.key_hierarchy.specs.declared.answers.PullAnswer.TheVariants.{NoHolder};
ghost use Rattle.key_hierarchy.specs.declared.answers.RevokeAnswer.{RevokeAnswer};
ghost use Rattle.key_holders.specs.declared.rows.HeldRow.{HeldRow};
ghost use Rattle.key_holders.specs.Rows.{is_in, after_put, after_revoke};
ghost use Rattle.key_holders.specs.Rows.{put_answer as put_by, revoke_answer as revoke_by};
ghost use Rattle.key_holders.specs.Pulls.{MayPull, Answers};
ghost use Rattle.run_journal.specs.declared.domain.Domain.{Domain};
ghost use Rattle.run_journal.specs.declared.domain.ListedAp.{ListedAp};
ghost use Rattle.run_journal.specs.declared.acts.Act.{Act};
ghost use Rattle.run_journal.specs.declared.acts.Act.TheVariants.{Put, Revoked};
ghost use Rattle.run_journal.specs.declared.acts.Entry.{Entry};
ghost use Rattle.run_journal.specs.Changed.{changed};
ghost use Rattle.run_journal.specs.Holders.{row, rows};
ghost use Rattle.run_journal.specs.Questions.{add, history};
ghost use Rattle.domain_rules.specs.Network.{IsNamed, mac, r0kh_id, holder_of};
ghost use Rattle.domain_rules.specs.ChangedKeys.{IsNamedSta};
ghost use Rattle.domain_rules.specs.KeyHolders.{put_answer, revoke_answer};
ghost use Rattle.domain_rules.specs.HeldRight.{Looking, AnswersAt, GivesRightKey};
ghost use Rattle.held_rows.specs.Knows.{own_row, KnowsRows, LeaveRows};

/// A key holder without rows is that of an access point that did nothing yet.
pub fn no_rows_at_first()
    ensures { (d : Domain) (n : Node) → KnowsRows d n [] [] }
{}

/// The rows stay those of the history by acts that put and revoke none.
pub fn acts_that_leave_rows()
    ensures { (d : Domain) (n : Node) (xs : List HeldRow) (g h : List Act) → LeaveRows g
        → KnowsRows d n xs h → KnowsRows d n xs (add g h) }
{}

/// What a key holder answers where the PMK-R0 of a listed station is put is what the history says,
/// and the rows are those of the history still.
pub fn put_is_told()
    ensures answer { (d : Domain) (n : Node) (xs : List HeldRow) (h : List Act) (name : List ℕ)
        → KnowsRows d n xs h → put_by name xs ≡ put_answer (row name h) (rows h) }
    ensures rows { (d : Domain) (n : Node) (xs : List HeldRow) (h : List Act) (id name : List ℕ)
        (k : ℕ) (answer : PutAnswer) → IsNamed d → d.akm ≡ FtPsk → k < length d.stas
        → KnowsRows d n xs h → name ≡ (own_row d n (Sta k)).name → answer ≡ put_by name xs
        → KnowsRows d n (after_put (own_row d n (Sta k)) answer xs)
        (Put id name (Sta k) answer ∷ h) }
{}

/// What a key holder answers where a row is revoked is what the history says, and the rows are
/// those of the history still.
pub fn revocation_is_told()
    ensures answer { (d : Domain) (n : Node) (xs : List HeldRow) (h : List Act) (name : List ℕ)
        → KnowsRows d n xs h → revoke_by name xs ≡ revoke_answer (row name h) }
    ensures rows { (d : Domain) (n p : Node) (xs : List HeldRow) (h : List Act) (id name : List ℕ)
        (answer : RevokeAnswer) → KnowsRows d n xs h → answer ≡ revoke_by name xs
        → KnowsRows d n (after_revoke name answer xs) (Revoked id name p answer ∷ h) }
{}

/// The rows of an access point are those of its history in the network with a changed key too, where
/// with suite 4 the history has no row under the name of an old one.
pub fn rows_as_keys_change()
    ensures { (d : Domain) (n : Node) (named : Option ℕ) (psk : List ℕ) (xs : List HeldRow)
        (h : List Act) → KnowsRows d n xs h
        → ((k : ℕ) → IsNamedSta d named k → d.akm ≡ FtPsk
        → row (own_row d n (Sta k)).name h ≡ None)
        → KnowsRows (changed d named psk) n xs h }
{}

/// What a pull answers by the rows of an access point is right just then, where they are those of
/// its history: a row is found exactly where one stands, and the PMK-R1 is that of its station, its
/// R0KH and the access point that asks.
pub fn answers_are_right()
    ensures by_rows { (d : Domain) (n : Node) (xs : List HeldRow) (past : List Entry) (l : Looking)
        (k : ℕ) (answer : PullAnswer) → IsNamed d → k < length d.stas → l.sta ≡ Sta k
        → KnowsRows d n xs (history n past)
        → MayPull xs l.name (mac d l.node) (mac d l.sta) answer
        → AnswersAt n l answer past × GivesRightKey d (r0kh_id d n) l answer }
    ensures by_holder { (d : Domain) (has : List ℕ) (rows : ℕ → List HeldRow) (past : List Entry)
        (l : Looking) (k r : ℕ) (id : List ℕ) (answer : PullAnswer) → IsNamed d
        → k < length d.stas → l.sta ≡ Sta k → holder_of d id ≡ Some (Ap r)
        → is_in r has ≡ true → KnowsRows d (Ap r) (rows r) (history (Ap r) past)
        → Answers (map (λ (a : ListedAp). a.r0kh_id) d.aps) has rows id l.name (mac d l.node)
        (mac d l.sta) answer
        → AnswersAt (Ap r) l answer past × GivesRightKey d id l answer }
    ensures no_holder { (d : Domain) (has : List ℕ) (rows : ℕ → List HeldRow) (l : Looking)
        (id : List ℕ) (answer : PullAnswer) → holder_of d id ≡ None
        → Answers (map (λ (a : ListedAp). a.r0kh_id) d.aps) has rows id l.name (mac d l.node)
        (mac d l.sta) answer → answer ≡ NoHolder }
{}
