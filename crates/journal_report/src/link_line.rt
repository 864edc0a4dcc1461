//! The line of a step of a link.

ghost use Rattle.std.specs.Prelude.{◌≡◌, ◌≤◌, ◌∷◌, codes, length, Option};
ghost use Rattle.domain_base.specs.Names.{node_text};
ghost use Rattle.domain_base.specs.declared.names.Mac.{Mac as AnyMac};
ghost use Rattle.run_journal.specs.Report.{address_text, answer_line, link_fault_words, words};
ghost use Rattle.journal_report.specs.Room.{IsQuestioning};
ghost use Rattle.journal_report.specs.Words.{word_room, word_text};
ghost use Rattle.journal_report.specs.Writing.{Writes};

use crate::layout::put_line;
use crate::line::LINE_ROOM;
use crate::words::{Word, pull_word, revoke_word};
use domain_base::{Mac, Node};
use link_steps::{Forgetting, LinkAnswer, LinkFault, Step};

// An address in twelve digits, where there is one.
fn address_word(address: Option<Mac>) -> Word
    ensures text { word_text result ≡ address_text address }
    ensures short { word_room result ≤ 24 }
{
    match address {
        Some(address) => Word::Address(address),
        None => Word::Text(b""),
    }
}

// That octets are not taken, and why.
fn refused_line(node: Node, fault: LinkFault, out: &mut [u8]) -> usize
    requires { LINE_ROOM ≤ length out.old }
    ensures written { Writes (words (codes "link-refused" ∷ node_text node ∷ link_fault_words fault)) 0
        out.old result out.new }
    ensures short { result ≤ LINE_ROOM }
{
    let node = Word::Node(node);
    match fault {
        LinkFault::Form(place) => {
            let place = Word::Number(place as u64);
            put_line(out, 0, b"link-refused", &[node, Word::Text(b"form"), place])
        }
        LinkFault::Unasked => put_line(out, 0, b"link-refused", &[node, Word::Text(b"unasked")]),
        LinkFault::Mac => put_line(out, 0, b"link-refused", &[node, Word::Text(b"mac")]),
        LinkFault::Wrap => put_line(out, 0, b"link-refused", &[node, Word::Text(b"wrap")]),
    }
}

// What became of a question: it was asked, or too many are open; or it is to be open no longer.
fn question_line(node: Node, answer: &LinkAnswer, sent: usize, out: &mut [u8]) -> usize
    requires question { IsQuestioning answer.now }
    requires room { LINE_ROOM ≤ length out.old }
    ensures written { (sta : Option AnyMac) → Writes (answer_line node sta sent answer.now) 0
        out.old result out.new }
    ensures short { result ≤ LINE_ROOM }
{
    let node = Word::Node(node);
    match answer {
        LinkAnswer::Asked(n) => {
            let words = [node, Word::Number(*n), Word::Number(sent as u64)];
            put_line(out, 0, b"ask", &words)
        }
        LinkAnswer::Full => put_line(out, 0, b"idle", &[node, Word::Text(b"full")]),
        LinkAnswer::Closed(Forgetting::Forgot) => 0,
        LinkAnswer::Closed(Forgetting::Nothing) => {
            put_line(out, 0, b"idle", &[node, Word::Text(b"nothing")])
        }
        _ => unreachable!(),
    }
}

/// The line of a step of that node, which names that station where it is a revocation: written to
/// the front, and its length, 0 for a step that is not printed.
pub(crate) fn link_line(node: Node, sta: Option<Mac>, step: &Step, out: &mut [u8]) -> usize
    requires { LINE_ROOM ≤ length out.old }
    ensures written { Writes (answer_line node sta (length step.now.sent) step.now.answer) 0
        out.old result out.new }
    ensures short { result ≤ LINE_ROOM }
{
    let sent = step.sent.as_slice().len();
    match &step.answer {
        LinkAnswer::Put(_) => 0,
        LinkAnswer::Revoked(answer) => {
            let words = [Word::Node(node), address_word(sta), revoke_word(*answer)];
            put_line(out, 0, b"revoke", &words)
        }
        LinkAnswer::Learnt(n, answer) => {
            let words = [Word::Node(node), Word::Number(*n), pull_word(answer)];
            put_line(out, 0, b"learn", &words)
        }
        LinkAnswer::Told(answer) => {
            let words = [
                Word::Node(node),
                pull_word(answer),
                Word::Number(sent as u64),
            ];
            put_line(out, 0, b"told", &words)
        }
        LinkAnswer::Refused(fault) => refused_line(node, *fault, out),
        LinkAnswer::Asked(_) | LinkAnswer::Full | LinkAnswer::Closed(_) => {
            question_line(node, &step.answer, sent, out)
        }
    }
}
