//! Laws of the definitions. The functions do nothing; their contracts are proved.

ghost use Rattle.std.specs.Prelude.{◌≡◌, ℕ, List, Bool, Option};
ghost use Rattle.run_journal.specs.declared.acts.Entry.{Entry};
ghost use Rattle.domain_links.specs.Turns.{Delivery};
ghost use Rattle.frame_script.specs.Script.{end_fault};
ghost use Rattle.script_lines.specs.Script.{Draft, Fault};
ghost use Rattle.frame_script.specs.declared.reader.Mode.{Mode as RunKind};
ghost use Rattle.script_runs.specs.Script.{Rounds, Spells, IsOf, IsScript, HasFault, point_of};
ghost use Rattle.text_lines.specs.Texts.{texts};

/// For each kind of run, each journal, each seed that was drawn and each list of turns: octets that
/// are a whole script have no fault in a line, are one list of lines, and may end there or not, for
/// one cause; octets have one first fault at most, in one line and of one kind; and lines tell one
/// thing at most. The journal says which frames a line may name. In a replay no seed is drawn, and
/// there are no turns.
pub fn one_fault()
    ensures script { (m : RunKind) (j : List Entry) (seed : Option (List ℕ))
        (turns : List (List Delivery)) (octets : List ℕ) (ended : Bool)
        (good said : List (List ℕ))
        (before draft : Draft) (earlier rounds : Rounds) (fault : Fault)
        → HasFault octets ended good (point_of m j before earlier) fault
        → Spells m j (texts good) before earlier → IsOf seed turns earlier → IsScript octets said
        → Spells m j said draft rounds → IsOf seed turns rounds → ⊥ }
    ensures place { (m : RunKind) (j : List Entry) (seed : Option (List ℕ))
        (turns : List (List Delivery)) (octets : List ℕ) (ended over : Bool)
        (good lines : List (List ℕ))
        (before draft : Draft) (earlier rounds : Rounds) (fault other : Fault)
        → HasFault octets ended good (point_of m j before earlier) fault
        → Spells m j (texts good) before earlier → IsOf seed turns earlier
        → HasFault octets over lines (point_of m j draft rounds) other
        → Spells m j (texts lines) draft rounds → IsOf seed turns rounds
        → (good ≡ lines) × (fault ≡ other) }
    ensures lines { (octets : List ℕ) (said other : List (List ℕ))
        → IsScript octets said → IsScript octets other → said ≡ other }
    ensures told { (m : RunKind) (j : List Entry) (seed : Option (List ℕ))
        (turns : List (List Delivery)) (said : List (List ℕ)) (one other : Draft)
        (rounds others : Rounds)
        → Spells m j said one rounds → IsOf seed turns rounds
        → Spells m j said other others → IsOf seed turns others
        → (one ≡ other) × (rounds ≡ others) }
    ensures end { (m : RunKind) (j : List Entry) (seed : Option (List ℕ))
        (turns : List (List Delivery)) (octets : List ℕ) (said lines : List (List ℕ))
        (one other : Draft) (rounds others : Rounds)
        → IsScript octets said → Spells m j said one rounds → IsOf seed turns rounds
        → IsScript octets lines → Spells m j lines other others → IsOf seed turns others
        → end_fault one ≡ end_fault other }
{}
