//! The words of a text.

ghost use Rattle.std.specs.Prelude.{◌≡◌, ◌==◌, ℕ, List, [], drop, position, slice_index_or};
ghost use Rattle.entry_lines.specs.Splitting.{Joins};

// The place of the first separator.
fn first_place(text: &[u8], separator: u8) -> Option<usize>
    ensures { result ≡ position (λ c. c == separator) text.now }
{
    text.iter().position(|c| *c == separator)
}

// What stands before the first separator, and what stands after it: nothing where there is none.
fn first_word(text: &[u8], separator: u8) -> (&[u8], &[u8])
    ensures { (words : List (List ℕ)) → Joins separator text.now words
        → (result.0.now ≡ slice_index_or words 0 [])
        × Joins separator result.1.now (drop 1 words) }
{
    match first_place(text, separator) {
        Some(place) => {
            let (word, _) = text.split_at(place);
            let (_, rest) = text.split_at(place + 1);
            (word, rest)
        }
        None => (text, b"".as_slice()),
    }
}

/// What stands after so many words, and the separators after them.
pub(crate) fn after_words(text: &[u8], separator: u8, count: usize) -> &[u8]
    ensures { (words : List (List ℕ)) → Joins separator text.now words
        → Joins separator result.now (drop count words) }
{
    let mut rest = text;
    for _ in 0..count {
        let (_, after) = first_word(rest, separator);
        rest = after;
    }
    rest
}

/// The word at that place, counted from 0: nothing where there are fewer words.
pub(crate) fn word_at(text: &[u8], separator: u8, place: usize) -> &[u8]
    ensures { (words : List (List ℕ)) → Joins separator text.now words
        → result.now ≡ slice_index_or words place [] }
{
    let rest = after_words(text, separator, place);
    let (word, _) = first_word(rest, separator);
    word
}

/// The field at that place, counted from 0: nothing where there are fewer.
pub(crate) fn field(text: &[u8], place: usize) -> &[u8]
    ensures { (words : List (List ℕ)) → Joins 32 text.now words
        → result.now ≡ slice_index_or words place [] }
{
    word_at(text, b' ', place)
}

/// What stands after so many fields.
pub(crate) fn after_fields(text: &[u8], count: usize) -> &[u8]
    ensures { (words : List (List ℕ)) → Joins 32 text.now words
        → Joins 32 result.now (drop count words) }
{
    after_words(text, b' ', count)
}
