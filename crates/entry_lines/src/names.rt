//! Values by their names.

ghost use Rattle.std.specs.Prelude.{◌≡◌, bytes_eq};
ghost use Rattle.domain_base.specs.declared.names.Akm.{Akm as AnyAkm};
ghost use Rattle.eapol_key.specs.declared.messages.Message.{Message as AnyMessage};
ghost use Rattle.key_hierarchy.specs.declared.answers.PutAnswer.{PutAnswer as AnyPut};
ghost use Rattle.key_hierarchy.specs.declared.answers.RevokeAnswer.{RevokeAnswer as AnyRevoke};
ghost use Rattle.run_journal.specs.declared.acts.GroupKind.{GroupKind as AnyGroup};
ghost use Rattle.run_journal.specs.declared.acts.Start.{Start as AnyStart};
ghost use Rattle.run_journal.specs.declared.acts.Part.{Part as AnyPart};
ghost use Rattle.run_journal.specs.declared.acts.Kind.{Kind as AnyKind};
ghost use Rattle.run_journal.specs.declared.acts.Why.{Why as AnyWhy};
ghost use Rattle.run_journal.specs.Report.{group_text, kind_text, message_text, part_text};
ghost use Rattle.run_journal.specs.Report.{put_text, revoke_text, start_text, why_text};
ghost use Rattle.entry_lines.specs.Entries.{HasAnswerLine};
ghost use Rattle.entry_lines.specs.Lines.{akm_text};
ghost use Rattle.entry_lines.specs.declared.names.ActKind.TheVariants as acts;
ghost use Rattle.entry_lines.specs.Names.{act_kinds, listed, named};

use domain_base::Akm;
use eapol_key::Message;
use key_hierarchy::{PutAnswer, RevokeAnswer};
use run_journal::{GroupKind, Kind, Part, Start, Why};

/// The kind of an act.
#[derive(Clone, Copy)]
pub(crate) enum ActKind {
    /// An attempt began.
    Opened,
    /// An attempt or a session ended.
    Closed,
    /// A value was drawn.
    Drew,
    /// A pairwise key was derived.
    Derived,
    /// A frame left the node.
    Sent,
    /// A frame came.
    Took,
    /// A key was installed.
    Installed,
    /// A group key was taken into use again.
    Resumed,
    /// A packet number was used.
    Used,
    /// A payload was handed up.
    HandedUp,
    /// A final message was accepted.
    Finished,
    /// A PMK-R0 was put.
    Put,
    /// A PMK-R1 was asked for.
    Looked,
    /// A PMK-R0 was revoked.
    Revoked,
    /// A pre-shared key was changed.
    Secret,
    /// Four sends brought no answer.
    GaveUp,
    /// An event did nothing.
    Idle,
}

// Whether the word is that text.
fn is_same(word: &[u8], text: &[u8]) -> bool
    ensures { result ≡ bytes_eq word.now text.now }
{
    word == text
}

/// The value of the first of the names that the word is, or the other value where it is none.
pub(crate) fn named<T: Copy>(names: &[(&[u8], T)], word: &[u8], other: T) -> T
    ensures { result ≡ named (listed names.now) word.now other }
{
    for (text, value) in names {
        if is_same(word, text) {
            return *value;
        }
    }
    other
}

/// How an attempt began.
pub(crate) fn start_of(word: &[u8]) -> Start
    ensures { (s : AnyStart) → word.now ≡ start_text s → result ≡ s }
{
    let names: [(&[u8], Start); 3] = [
        (b"connect", Start::Connect),
        (b"roam", Start::Roam),
        (b"renew", Start::Renew),
    ];
    named(&names, word, Start::Connect)
}

/// What was closed.
pub(crate) fn part_of(word: &[u8]) -> Part
    ensures { (p : AnyPart) → word.now ≡ part_text p → result ≡ p }
{
    let names: [(&[u8], Part); 2] = [(b"attempt", Part::Attempt), (b"session", Part::Session)];
    named(&names, word, Part::Attempt)
}

/// An EAPOL-Key message.
pub(crate) fn message_of(word: &[u8]) -> Message
    ensures { (m : AnyMessage) → word.now ≡ message_text m → result ≡ m }
{
    let names: [(&[u8], Message); 6] = [
        (b"m1", Message::M1),
        (b"m2", Message::M2),
        (b"m3", Message::M3),
        (b"m4", Message::M4),
        (b"g1", Message::G1),
        (b"g2", Message::G2),
    ];
    named(&names, word, Message::M1)
}

/// The kind of a group key.
pub(crate) fn group_kind_of(word: &[u8]) -> GroupKind
    ensures { (k : AnyGroup) → word.now ≡ group_text k → result ≡ k }
{
    let names: [(&[u8], GroupKind); 2] = [(b"gtk", GroupKind::Gtk), (b"igtk", GroupKind::Igtk)];
    named(&names, word, GroupKind::Gtk)
}

/// The kind of a frame.
pub(crate) fn frame_kind_of(word: &[u8]) -> Kind
    ensures { (k : AnyKind) → word.now ≡ kind_text k → result ≡ k }
{
    let names: [(&[u8], Kind); 17] = [
        (b"assoc-req", Kind::AssocReq),
        (b"assoc-resp", Kind::AssocResp),
        (b"ft-req", Kind::FtReq),
        (b"ft-resp", Kind::FtResp),
        (b"re-req", Kind::ReReq),
        (b"re-resp", Kind::ReResp),
        (b"m1", Kind::Key(Message::M1)),
        (b"m2", Kind::Key(Message::M2)),
        (b"m3", Kind::Key(Message::M3)),
        (b"m4", Kind::Key(Message::M4)),
        (b"g1", Kind::Key(Message::G1)),
        (b"g2", Kind::Key(Message::G2)),
        (b"data", Kind::Data),
        (b"action", Kind::Action),
        (b"ignored", Kind::Ignored),
        (b"unread", Kind::Unread),
        (b"eapol", Kind::Eapol),
    ];
    named(&names, word, Kind::Unread)
}

/// The suite.
pub(crate) fn akm_of(word: &[u8]) -> Akm
    ensures { (a : AnyAkm) → word.now ≡ akm_text a → result ≡ a }
{
    let names: [(&[u8], Akm); 3] = [
        (b"psk", Akm::Psk),
        (b"psk-sha256", Akm::PskSha256),
        (b"ft-psk", Akm::FtPsk),
    ];
    named(&names, word, Akm::Psk)
}

/// Why an event did nothing.
pub(crate) fn why_of(word: &[u8]) -> Why
    ensures { (y : AnyWhy) → word.now ≡ why_text y → result ≡ y }
{
    let names: [(&[u8], Why); 6] = [
        (b"no-session", Why::NoSession),
        (b"same-peer", Why::SamePeer),
        (b"nothing", Why::Nothing),
        (b"rekey-pending", Why::RekeyPending),
        (b"no-key", Why::NoKey),
        (b"spent", Why::Spent),
    ];
    named(&names, word, Why::Spent)
}

/// What a key holder answered to a put.
pub(crate) fn put_of(word: &[u8]) -> PutAnswer
    ensures read { (a : AnyPut) → HasAnswerLine a → word.now ≡ put_text a → result ≡ a }
    ensures has { HasAnswerLine result }
{
    let names: [(&[u8], PutAnswer); 3] = [
        (b"held", PutAnswer::Held),
        (b"held-already", PutAnswer::HeldAlready),
        (b"full", PutAnswer::Full),
    ];
    named(&names, word, PutAnswer::Held)
}

/// What a key holder answered to a revocation.
pub(crate) fn revoke_of(word: &[u8]) -> RevokeAnswer
    ensures { (a : AnyRevoke) → word.now ≡ revoke_text a → result ≡ a }
{
    let names: [(&[u8], RevokeAnswer); 2] = [
        (b"revoked", RevokeAnswer::Revoked),
        (b"absent", RevokeAnswer::Absent),
    ];
    named(&names, word, RevokeAnswer::Absent)
}

/// The kind of an act.
pub(crate) fn act_kind_of(word: &[u8]) -> ActKind
    ensures { result ≡ named act_kinds word.now acts.Idle }
{
    let names: [(&[u8], ActKind); 17] = [
        (b"opened", ActKind::Opened),
        (b"closed", ActKind::Closed),
        (b"drew", ActKind::Drew),
        (b"derived", ActKind::Derived),
        (b"sent", ActKind::Sent),
        (b"took", ActKind::Took),
        (b"installed", ActKind::Installed),
        (b"resumed", ActKind::Resumed),
        (b"used", ActKind::Used),
        (b"handed", ActKind::HandedUp),
        (b"finished", ActKind::Finished),
        (b"put", ActKind::Put),
        (b"looked", ActKind::Looked),
        (b"revoked", ActKind::Revoked),
        (b"secret", ActKind::Secret),
        (b"gave-up", ActKind::GaveUp),
        (b"idle", ActKind::Idle),
    ];
    named(&names, word, ActKind::Idle)
}
