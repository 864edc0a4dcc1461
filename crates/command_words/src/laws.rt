//! Laws of the definitions. The functions do nothing; their contracts are proved.

ghost use Rattle.std.specs.Prelude.{◌≡◌, ◌≢◌, ℕ, List, [], ◌∷◌, None, Some, codes, option_map};
ghost use Rattle.command_words.specs.Words.{command_of, linked, port_number, storm_number};

use crate::Command;
use link_steps::LinkEnd;

/// `replay` and `journal` are commands. After `live` and `storm`, a word that does not begin with a
/// hyphen (45) is the port and the number, and after `link` one is the port, and the next the end.
/// No word is no command.
pub fn words_are_told()
    ensures none { command_of [] ≡ None }
    ensures replay { command_of (codes "replay" ∷ []) ≡ Some Command.Replay }
    ensures journal { command_of (codes "journal" ∷ []) ≡ Some Command.Journal }
    ensures live { (first : ℕ) (rest : List ℕ) → first ≢ 45
        → command_of (codes "live" ∷ (first ∷ rest) ∷ [])
        ≡ option_map Command.Live (port_number (first ∷ rest)) }
    ensures storm { (first : ℕ) (rest : List ℕ) → first ≢ 45
        → command_of (codes "storm" ∷ (first ∷ rest) ∷ [])
        ≡ option_map Command.Storm (storm_number (first ∷ rest)) }
    ensures link { (first : ℕ) (rest : List ℕ) → first ≢ 45
        → (command_of (codes "link" ∷ (first ∷ rest) ∷ codes "holder" ∷ [])
        ≡ linked (port_number (first ∷ rest)) (Some LinkEnd.Holder))
        × (command_of (codes "link" ∷ (first ∷ rest) ∷ codes "asker" ∷ [])
        ≡ linked (port_number (first ∷ rest)) (Some LinkEnd.Asker)) }
{}
