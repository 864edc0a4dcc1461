//! What holds of octets that are read.

ghost use Rattle.std.specs.Prelude.{◌≡◌, ℕ, ◌+◌, ◌≤◌, ◌%◌, List, ◌++◌, length};
ghost use Rattle.std.specs.List.{AllByRecursion};
ghost use Rattle.rsn_elements.specs.declared.framing.Within.{Within};
ghost use Rattle.rsn_elements.specs.declared.faults.FaultKind.{FaultKind};
ghost use Rattle.rsn_elements.specs.declared.framing.Within.TheVariants.{KeyData};
ghost use Rattle.rsn_elements.specs.Framing.{Element, joined, EndsReading};
ghost use Rattle.rsn_elements.specs.Sent.{pad_octets};
ghost use Rattle.rsn_elements.specs.Pieces.{Piece, pieces_octets, FitsPiece, AreApart, said};
ghost use Rattle.rsn_elements.specs.Pieces.{IsPassedOver};
ghost use Rattle.rsn_elements.specs.Elements.{ElementFields, SpellsElements, HasRaw};
ghost use Rattle.rsn_elements.specs.Faults.{HasElementFault};

/// Octets say one thing, or have one fault, and never both.
pub fn one_reading()
    ensures value { (within : Within) (octets : List ℕ) (f g : ElementFields)
        → SpellsElements within octets f → SpellsElements within octets g → f ≡ g }
    ensures either { (within : Within) (octets : List ℕ) (f : ElementFields) (place : ℕ)
        (kind : FaultKind) → SpellsElements within octets f
        → HasElementFault within octets place kind → ⊥ }
    ensures fault { (within : Within) (octets : List ℕ) (p q : ℕ) (j k : FaultKind)
        → HasElementFault within octets p j → HasElementFault within octets q k
        → (p ≡ q) × (j ≡ k) }
    ensures raw { (within : Within) (octets : List ℕ) (f : ElementFields)
        → SpellsElements within octets f → HasRaw f }
{}

/// Elements that are sent are spelled so, in any order without repeats, whatever elements that are
/// passed over follow, and wherever the reading then ends.
pub fn sent_is_spelled()
    ensures { (within : Within) (ps : List Piece) (others : List Element) (rest : List ℕ)
        → AllByRecursion FitsPiece ps → AreApart ps → AllByRecursion (IsPassedOver within) others
        → EndsReading within rest
        → SpellsElements within (pieces_octets ps ++ (joined others ++ rest)) (said within ps) }
{}

/// Padding ends the reading of key data, and makes it as long as a key wrap asks.
pub fn padding_ends()
    ensures ends { (size : ℕ) → EndsReading KeyData (pad_octets size) }
    ensures enough { (size : ℕ) → 16 ≤ size + length (pad_octets size) }
    ensures blocks { (size : ℕ) → (size + length (pad_octets size)) % 8 ≡ 0 }
    ensures least { (size more : ℕ) → 16 ≤ size + more → (size + more) % 8 ≡ 0
        → length (pad_octets size) ≤ more }
{}
