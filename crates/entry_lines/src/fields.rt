//! Values that several words of a line tell: those at the front of the text.

ghost use Rattle.std.specs.Prelude.{◌≡◌, ◌++◌, ◌∷◌, ℕ, List, IfOk};
ghost use Rattle.domain_base.specs.declared.names.Mac.{Mac as AnyMac};
ghost use Rattle.key_hierarchy.specs.declared.answers.PullAnswer.{PullAnswer as AnyAnswer};
ghost use Rattle.key_hierarchy.specs.declared.inputs.Inputs.{Inputs as AnyInputs};
ghost use Rattle.key_hierarchy.specs.declared.inputs.Ptk.{Ptk as AnyPtk};
ghost use Rattle.run_journal.specs.declared.acts.GroupKind.{GroupKind as AnyGroup};
ghost use Rattle.run_journal.specs.declared.acts.Drawn.{Drawn as AnyDrawn};
ghost use Rattle.run_journal.specs.declared.acts.Key.{Key as AnyKey};
ghost use Rattle.run_journal.specs.declared.acts.Key.TheVariants as keys;
ghost use Rattle.run_journal.specs.declared.acts.Seal.{Seal as AnySeal};
ghost use Rattle.std.specs.Prelude.{Option as AnyOption};
ghost use Rattle.run_journal.specs.Report.{hex, pull_text};
ghost use Rattle.entry_lines.specs.Entries.{FitsAnswer, FitsDrawn, FitsInputs, FitsKey, FitsPtk};
ghost use Rattle.entry_lines.specs.Entries.{FitsSeal, bare_answer};
ghost use Rattle.entry_lines.specs.Lines.{drawn_words, inputs_words, key_words, ptk_octets};
ghost use Rattle.entry_lines.specs.Lines.{r1_text, seal_words};
ghost use Rattle.entry_lines.specs.Splitting.{Joins};

use crate::names::{akm_of, group_kind_of};
use crate::splitting::{after_fields, field};
use crate::values::{array_of, byte_of, is_word, octets_of};
use domain_base::{Mac, NoMemory, Octets, array_at};
use key_hierarchy::{BoxedInputs, Inputs, PmkR1, Ptk, PullAnswer, SharedInputs};
use run_journal::{BoxedSeal, Drawn, Key, Seal};
use std::alloc::Global;

// What a pairwise key is derived from, its octets of any number apart.
fn inputs_with(text: &[u8], ssid: Octets, r0kh_id: Octets) -> Inputs
    ensures { (i : AnyInputs) (rest : List (List ℕ)) → FitsInputs i
        → Joins 32 text.now (inputs_words i ++ rest) → ssid ≡ i.ssid → r0kh_id ≡ i.r0kh_id
        → result ≡ i }
{
    let akm = field(text, 0);
    let psk = field(text, 1);
    let mdid = field(text, 3);
    let aa = field(text, 5);
    let spa = field(text, 6);
    let anonce = field(text, 7);
    let snonce = field(text, 8);
    Inputs {
        akm: akm_of(akm),
        psk: array_of(psk),
        ssid,
        mdid: array_of(mdid),
        r0kh_id,
        aa: Mac(array_of(aa)),
        spa: Mac(array_of(spa)),
        anonce: array_of(anonce),
        snonce: array_of(snonce),
    }
}

/// What a pairwise key is derived from: nine words.
pub(crate) fn inputs_of(alloc: Global, text: &[u8]) -> Result<SharedInputs, NoMemory>
    ensures { IfOk result (λ r. (i : AnyInputs) (rest : List (List ℕ)) → FitsInputs i
        → Joins 32 text.now (inputs_words i ++ rest) → r ≡ i) }
{
    let ssid = field(text, 2);
    let ssid = octets_of(alloc, ssid)?;
    let r0kh_id = field(text, 4);
    let r0kh_id = octets_of(alloc, r0kh_id)?;
    let inputs = inputs_with(text, ssid, r0kh_id);
    let inputs = BoxedInputs::new(alloc, inputs)?;
    Ok(SharedInputs::of(inputs))
}

/// A pairwise transient key: one word.
pub(crate) fn ptk_of(word: &[u8]) -> Ptk
    ensures { (k : AnyPtk) → FitsPtk k → word.now ≡ hex (ptk_octets k) → result ≡ k }
{
    let octets: [u8; 48] = array_of(word);
    Ptk {
        kck: array_at(&octets, 0),
        kek: array_at(&octets, 16),
        tk: array_at(&octets, 32),
    }
}

/// A value drawn: two words.
pub(crate) fn drawn_of(text: &[u8]) -> Drawn
    ensures { (v : AnyDrawn) (rest : List (List ℕ)) → FitsDrawn v
        → Joins 32 text.now (drawn_words v ++ rest) → result ≡ v }
{
    let value = field(text, 0);
    let kind = field(text, 1);
    if is_word(kind, b"nonce") {
        Drawn::Nonce(array_of(value))
    } else {
        Drawn::Group(group_kind_of(kind), array_of(value))
    }
}

/// What is sealed, and the key: two words.
pub(crate) fn seal_of(alloc: Global, text: &[u8]) -> Result<Option<BoxedSeal>, NoMemory>
    ensures { IfOk result (λ r. (s : AnyOption AnySeal) (rest : List (List ℕ)) → FitsSeal s
        → Joins 32 text.now (seal_words s ++ rest) → r ≡ s) }
{
    let octets = field(text, 0);
    let key = field(text, 1);
    if is_word(key, b"-") {
        return Ok(None);
    }
    let octets = octets_of(alloc, octets)?;
    let seal = BoxedSeal::new(
        alloc,
        Seal {
            octets,
            key: array_of(key),
        },
    )?;
    Ok(Some(seal))
}

// A group key: four words.
fn group_key_of(text: &[u8]) -> Key
    ensures { (which : AnyGroup) (key : List ℕ) (id : ℕ) (bssid : AnyMac) (rest : List (List ℕ))
        → FitsKey (keys.Group which key id bssid)
        → Joins 32 text.now (key_words (keys.Group which key id bssid) ++ rest)
        → result ≡ keys.Group which key id bssid }
{
    let kind = field(text, 0);
    let key = field(text, 1);
    let id = field(text, 2);
    let bssid = field(text, 3);
    Key::Group {
        kind: group_kind_of(kind),
        key: array_of(key),
        id: byte_of(id),
        bssid: Mac(array_of(bssid)),
    }
}

// A pairwise key: twelve words.
fn pairwise_key_of(alloc: Global, text: &[u8]) -> Result<Key, NoMemory>
    ensures { IfOk result (λ r. (tk : List ℕ) (i : AnyInputs) (rest : List (List ℕ))
        → FitsKey (keys.Pairwise tk i)
        → Joins 32 text.now (key_words (keys.Pairwise tk i) ++ rest)
        → r ≡ keys.Pairwise tk i) }
{
    let tk = field(text, 1);
    let rest = after_fields(text, 3);
    let inputs = inputs_of(alloc, rest)?;
    Ok(Key::Pairwise {
        tk: array_of(tk),
        inputs,
    })
}

/// A key, its key id, and its inputs or its BSSID: from four to twelve words.
pub(crate) fn key_of(alloc: Global, text: &[u8]) -> Result<Key, NoMemory>
    ensures { IfOk result (λ r. (k : AnyKey) (rest : List (List ℕ)) → FitsKey k
        → Joins 32 text.now (key_words k ++ rest) → r ≡ k) }
{
    let kind = field(text, 0);
    if is_word(kind, b"ptk") {
        let key = pairwise_key_of(alloc, text)?;
        Ok(key)
    } else {
        Ok(group_key_of(text))
    }
}

/// What the key holders answered to a pull: two words. The name of a key that was found is no part
/// of them.
pub(crate) fn answer_of(text: &[u8]) -> PullAnswer
    ensures read { (a : AnyAnswer) (rest : List (List ℕ)) → FitsAnswer a
        → Joins 32 text.now (pull_text a ∷ r1_text a ∷ rest) → result ≡ bare_answer a }
    ensures is_bare { bare_answer result ≡ result }
{
    let answer = field(text, 0);
    let key = field(text, 1);
    if is_word(answer, b"found") {
        PullAnswer::Found(PmkR1 {
            key: array_of(key),
            name: [0; 16],
        })
    } else if is_word(answer, b"no-holder") {
        PullAnswer::NoHolder
    } else {
        PullAnswer::Absent
    }
}
