//! An end of a link, by its word.

ghost use Rattle.std.specs.Prelude.{◌≡◌};
ghost use Rattle.command_words.specs.Words.{end_of};

use link_steps::LinkEnd;

/// The end that the text names.
pub fn end_of(text: &[u8]) -> Option<LinkEnd>
    ensures { result ≡ end_of text.now }
{
    if text == b"holder".as_slice() {
        Some(LinkEnd::Holder)
    } else if text == b"asker".as_slice() {
        Some(LinkEnd::Asker)
    } else {
        None
    }
}
