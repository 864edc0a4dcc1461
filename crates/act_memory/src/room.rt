//! The memory that the acts of one EAPOL-Key message take, taken before anything is done.

ghost use Rattle.std.specs.Prelude.{◌≡◌, ◌≤◌, ◌<◌, ◌+◌, ◌++◌, ℕ, List, [], ◌∷◌, length, IfOk};
ghost use Rattle.std.specs.Prelude.{Some, option_map};
ghost use Rattle.domain_base.specs.declared.names.Node.{Node as AnyNode};
ghost use Rattle.mac_prf.specs.Mic.{without_mic};
ghost use Rattle.run_journal.specs.declared.domain.Domain.{Domain as AnyDomain};
ghost use Rattle.run_journal.specs.declared.acts.Kind.TheVariants as kind;
ghost use Rattle.run_journal.specs.declared.acts.Act.TheVariants.{Took};
ghost use Rattle.run_journal.specs.Replies.{IsWhole};
ghost use Rattle.domain_rules.specs.Network.{mac, Root};
ghost use Rattle.run_journal.specs.Events.{IsListed, IsPeerOf};
ghost use Rattle.domain_rules.specs.Replies.{derived_acts, replaced_acts, installed_acts, group_acts};
ghost use Rattle.domain_rules.specs.Replies.{finished_acts};
ghost use Rattle.group_key.specs.Replied.{HasKeysOf, may_derive, may_install};
ghost use Rattle.act_memory.specs.Templates.{IsTemplate, IsTemplateAt, TemplateFor, TemplateWhere};
ghost use Rattle.act_memory.specs.Templates.{with_nonces, seal_over};

use crate::covered::{append_covered, covered_len};
use crate::outbox::Outbox;
use crate::send_room::SendRoom;
use crate::taking::add_took;
use domain_base::{Mac, NoMemory, Node, Octets, Peer};
use eapol_key::Message;
use frame_intake::Heard;
use key_hierarchy::{BoxedInputs, SharedInputs};
use node_base::{Here, address, pairwise_inputs};
use run_journal::{
    Act, BoxedSeal, GroupKind, GtkNews, Key, Keyed, Kind, Outcome, Part, Reply, Seal,
};
use std::alloc::Global;

// What the MIC of an EAPOL-Key frame covers, behind the form.
fn cover(alloc: Global, frame: &[u8]) -> Result<Vec<u8>, NoMemory>
    ensures { IfOk result (λ covered. covered.items ≡ 1 ∷ without_mic frame.now) }
{
    let mut octets = Vec::with_capacity(alloc, covered_len(frame))?;
    append_covered(&mut octets, frame);
    Ok(octets)
}

/// What the pairwise key of a node with its peer is made of, without nonces.
#[tactic(auto, using(crate::proofs::Templating::template_is))]
pub fn template(here: Here<'_>, peer: Node, r0kh_id: &[u8]) -> Result<BoxedInputs, NoMemory>
    requires listed { IsListed here.domain.now here.node }
    requires peer { IsPeerOf here.domain.now here.node peer }
    ensures { IfOk result (λ i. let d = here.entry.domain.now
        in IsTemplateAt d here.entry.node peer r0kh_id.now i) }
{
    let inputs = pairwise_inputs(here, peer, r0kh_id, &[0; 32], &[0; 32])?;
    BoxedInputs::new(here.alloc, inputs)
}

// The inputs with the nonces of that key.
fn with_nonces(inputs: BoxedInputs, key: &Keyed) -> SharedInputs
    ensures { result ≡ with_nonces inputs key.now }
{
    SharedInputs::of(inputs.with_nonces(&key.anonce, &key.snonce))
}

// The octets that came, what the MIC of their EAPOL frame covers, and the memory for a seal.
#[derive(Drop)]
struct Came {
    taken: Vec<u8>,
    covered: Vec<u8>,
    seal: BoxedSeal,
}

// They, of that message.
fn take_came(alloc: Global, heard: &Heard<'_>) -> Result<Came, NoMemory>
    ensures taken { IfOk result (λ came. came.taken.items ≡ heard.now.octets.now) }
    ensures covered { IfOk result (λ came. came.covered.items
        ≡ 1 ∷ without_mic heard.now.message.frame.octets.now) }
{
    let taken = Vec::from_slice(alloc, heard.octets)?;
    let covered = cover(alloc, heard.message.frame.octets)?;
    let seal = BoxedSeal::room(alloc)?;
    Ok(Came {
        taken,
        covered,
        seal,
    })
}

// Whether a key is derived by that message, at the node that takes it.
fn may_derive(message: Message) -> bool
    ensures { result ≡ may_derive message }
{
    match message {
        Message::M1 | Message::M2 => true,
        Message::M3 | Message::M4 => false,
        Message::G1 | Message::G2 => false,
    }
}

// Whether one is installed by it.
fn may_install(message: Message) -> bool
    ensures { result ≡ may_install message }
{
    match message {
        Message::M1 | Message::M2 => false,
        Message::M3 | Message::M4 => true,
        Message::G1 | Message::G2 => false,
    }
}

// What the pairwise key of a node with its peer is made of, where that is asked for.
fn template_where(
    is_wanted: bool,
    here: Here<'_>,
    peer: Node,
    r0kh_id: &[u8],
) -> Result<Option<BoxedInputs>, NoMemory>
    requires listed { IsListed here.domain.now here.node }
    requires peer { IsPeerOf here.domain.now here.node peer }
    ensures { IfOk result (λ i. let d = here.entry.domain.now
        in TemplateWhere is_wanted d here.entry.node peer r0kh_id.now i) }
{
    if !is_wanted {
        return Ok(None);
    }
    let inputs = template(here, peer, r0kh_id)?;
    Ok(Some(inputs))
}

// What a pairwise key is made of, without nonces, for three acts, as far as a message has them.
#[derive(Drop)]
struct Templates {
    derived: Option<BoxedInputs>,
    installed: Option<BoxedInputs>,
    finished: Option<BoxedInputs>,
}

// They, for the keys of a node with its peer.
fn templates_for(
    message: Message,
    here: Here<'_>,
    peer: Node,
    r0kh_id: &[u8],
) -> Result<Templates, NoMemory>
    requires listed { IsListed here.domain.now here.node }
    requires peer { IsPeerOf here.domain.now here.node peer }
    ensures derived { IfOk result (λ three. let d = here.entry.domain.now
        in TemplateWhere (may_derive message) d here.entry.node peer r0kh_id.now three.derived) }
    ensures installed { IfOk result (λ three. let d = here.entry.domain.now
        in TemplateWhere (may_install message) d here.entry.node peer r0kh_id.now
        three.installed) }
    ensures finished { IfOk result (λ three. let d = here.entry.domain.now
        in TemplateWhere (may_install message) d here.entry.node peer r0kh_id.now
        three.finished) }
{
    let derived = template_where(may_derive(message), here, peer, r0kh_id)?;
    let installed = template_where(may_install(message), here, peer, r0kh_id)?;
    let finished = template_where(may_install(message), here, peer, r0kh_id)?;
    Ok(Templates {
        derived,
        installed,
        finished,
    })
}

// The octets under that key, where there is one, in that room for a seal.
fn seal_over(covered: Vec<u8>, room: BoxedSeal, key: Option<[u8; 16]>) -> Option<BoxedSeal>
    ensures { result ≡ option_map (seal_over covered.items) key }
{
    let key = key?;
    Some(room.filled(Seal {
        octets: Octets(covered),
        key,
    }))
}

/// The key was derived.
pub fn add_derived(peer: Node, template: BoxedInputs, derived: Option<Keyed>, out: &mut Outbox)
    requires { 0 < out.old.spare }
    ensures acts { (d : AnyDomain) (r : Root) (n : AnyNode) → IsTemplate d r n peer template
        → out.new.acts ≡ out.old.acts ++ derived_acts d r n peer derived }
    ensures spare { out.old.spare ≤ out.new.spare + 1 }
{
    let Some(key) = derived else { return };
    out.add(Act::Derived {
        peer,
        inputs: with_nonces(template, &key),
        ptk: key.ptk,
    });
}

/// The session that was there is closed, where a key was installed.
pub fn add_replaced(peer: Node, had_session: bool, installed: Option<Keyed>, out: &mut Outbox)
    requires { 0 < out.old.spare }
    ensures acts { out.new.acts ≡ out.old.acts ++ replaced_acts peer had_session installed }
    ensures spare { out.old.spare ≤ out.new.spare + 1 }
{
    if !had_session {
        return;
    }
    let Some(_) = installed else { return };
    out.add(Act::Closed {
        peer,
        part: Part::Session,
    });
}

/// The key was installed.
pub fn add_installed(peer: Node, template: BoxedInputs, installed: Option<Keyed>, out: &mut Outbox)
    requires { 0 < out.old.spare }
    ensures acts { (d : AnyDomain) (r : Root) (n : AnyNode) → IsTemplate d r n peer template
        → out.new.acts ≡ out.old.acts ++ installed_acts d r n peer installed }
    ensures spare { out.old.spare ≤ out.new.spare + 1 }
{
    let Some(key) = installed else { return };
    let tk = key.ptk.tk;
    let inputs = with_nonces(template, &key);
    out.add(Act::Installed {
        peer: Peer::One(peer),
        key: Key::Pairwise { tk, inputs },
    });
}

/// The group key of that kind of that access point was installed, or taken into use again.
pub fn add_group_key(
    peer: Node,
    bssid: Mac,
    kind: GroupKind,
    group: Option<GtkNews>,
    out: &mut Outbox,
)
    requires { 0 < out.old.spare }
    ensures acts { (d : AnyDomain) → bssid ≡ mac d peer
        → out.new.acts ≡ out.old.acts ++ group_acts kind d peer group }
    ensures spare { out.old.spare ≤ out.new.spare + 1 }
{
    let Some(news) = group else { return };
    let octets = news.key;
    let id = news.id;
    let key = Key::Group {
        kind,
        key: octets,
        id,
        bssid,
    };
    if news.resumed {
        out.add(Act::Resumed { peer, key });
    } else {
        let peer = Peer::One(peer);
        out.add(Act::Installed { peer, key });
    }
}

/// The attempt became a session under the key that was installed.
pub fn add_finished(peer: Node, template: BoxedInputs, installed: Option<Keyed>, out: &mut Outbox)
    requires { 0 < out.old.spare }
    ensures acts { (d : AnyDomain) (r : Root) (n : AnyNode) → IsTemplate d r n peer template
        → out.new.acts ≡ out.old.acts ++ finished_acts d r n peer installed }
    ensures spare { out.old.spare ≤ out.new.spare + 1 }
{
    let Some(key) = installed else { return };
    out.add(Act::Finished {
        peer,
        inputs: with_nonces(template, &key),
    });
}

// The key was derived, where the message can derive one.
fn derive(peer: Node, template: Option<BoxedInputs>, derived: Option<Keyed>, out: &mut Outbox)
    requires { 0 < out.old.spare }
    ensures acts { (d : AnyDomain) (r : Root) (n : AnyNode)
        → TemplateFor d r n peer template derived
        → out.new.acts ≡ out.old.acts ++ derived_acts d r n peer derived }
    ensures spare { out.old.spare ≤ out.new.spare + 1 }
{
    let Some(template) = template else { return };
    add_derived(peer, template, derived, out);
}

// The key was installed, where the message can install one.
fn install(peer: Node, template: Option<BoxedInputs>, installed: Option<Keyed>, out: &mut Outbox)
    requires { 0 < out.old.spare }
    ensures acts { (d : AnyDomain) (r : Root) (n : AnyNode)
        → TemplateFor d r n peer template installed
        → out.new.acts ≡ out.old.acts ++ installed_acts d r n peer installed }
    ensures spare { out.old.spare ≤ out.new.spare + 1 }
{
    let Some(template) = template else { return };
    add_installed(peer, template, installed, out);
}

// The attempt became a session, where the message can install a key.
fn finish(peer: Node, template: Option<BoxedInputs>, installed: Option<Keyed>, out: &mut Outbox)
    requires { 0 < out.old.spare }
    ensures acts { (d : AnyDomain) (r : Root) (n : AnyNode)
        → TemplateFor d r n peer template installed
        → out.new.acts ≡ out.old.acts ++ finished_acts d r n peer installed }
    ensures spare { out.old.spare ≤ out.new.spare + 1 }
{
    let Some(template) = template else { return };
    add_finished(peer, template, installed, out);
}

/// Acts of a node that take their place among those of a reply, which does not tell of them.
#[derive(Drop)]
pub struct Between {
    /// Right after the frame was taken. No node puts an act there.
    pub opened: Vec<Act>,
    /// Right before a frame is sent: what is put with key holders.
    pub put: Vec<Act>,
}

impl Between {
    /// No acts. Takes no memory.
    pub fn nothing(alloc: Global) -> Self
        ensures opened { result.opened.items ≡ [] }
        ensures put { result.put.items ≡ [] }
    {
        Between {
            opened: Vec::new(alloc),
            put: Vec::new(alloc),
        }
    }
}

// These acts, in order.
fn add_all(acts: Vec<Act>, out: &mut Outbox)
    requires { length acts.items ≤ out.old.spare }
    ensures acts { out.new.acts ≡ out.old.acts ++ acts.items }
    ensures spare { out.old.spare ≤ out.new.spare + length acts.items }
{
    for act in acts {
        out.add(act);
    }
}

/// The memory that the acts of one EAPOL-Key message take.
#[derive(Drop)]
pub struct Room {
    peer: Node,
    address: Mac,
    message: Message,
    // The octets that came, and what the MIC of their EAPOL frame covers.
    taken: Vec<u8>,
    covered: Vec<u8>,
    seal: BoxedSeal,
    // What a pairwise key is made of, without nonces, for three acts, as far as the message has
    // them.
    derived: Option<BoxedInputs>,
    installed: Option<BoxedInputs>,
    finished: Option<BoxedInputs>,
    sent: SendRoom,
}

impl Room {
    ghost use Rattle.domain_rules.specs.Reading.{KeyMessage};
    ghost use Rattle.domain_rules.specs.Replies.{replied_acts, taken_as};
    ghost use Rattle.node_base.specs.Pairs.{pair_at};
    ghost use Rattle.frame_intake.specs.Views.{message_fields};
    ghost use Rattle.act_memory.specs.Rooms.{IsRoom, between_of};

    /// Takes it, for the node that stands here and takes that message of its peer, with suite 4 by
    /// the R0KH-ID that their keys go back to, which the other suites do not look at.
    pub fn take(
        here: Here<'_>,
        peer: Node,
        r0kh_id: &[u8],
        heard: &Heard<'_>,
    ) -> Result<Self, NoMemory>
        requires listed { IsListed here.domain.now here.node }
        requires peer { IsPeerOf here.domain.now here.node peer }
        ensures { IfOk result (λ room. IsRoom here.entry.domain.now r0kh_id.now here.entry.node peer
            heard.now.octets.now (message_fields heard.now.message) room) }
    {
        let came = take_came(here.alloc, heard)?;
        let message = heard.message.message;
        let templates = templates_for(message, here, peer, r0kh_id)?;
        let sent = SendRoom::take(here.alloc)?;
        let address = address(here.domain, peer);
        let Came {
            taken,
            covered,
            seal,
        } = came;
        let Templates {
            derived,
            installed,
            finished,
        } = templates;
        Ok(Room {
            peer,
            address,
            message,
            taken,
            covered,
            seal,
            derived,
            installed,
            finished,
            sent,
        })
    }

    /// Adds the acts of taking the message with that outcome and reply, where there was a session
    /// with the peer or not, and the acts between them that the reply does not tell of. No
    /// memory is wanted.
    pub fn add_reply(
        self,
        outcome: Outcome,
        had_session: bool,
        reply: &Reply,
        between: Between,
        out: &mut Outbox,
    )
        requires room { 8 + length between.opened.items + length between.put.items ≤ out.old.spare }
        requires whole { IsWhole reply.now }
        requires keys { HasKeysOf self.message reply.now }
        ensures acts { (d : AnyDomain) (id : List ℕ) (n p : AnyNode) (octets : List ℕ)
            (k : KeyMessage) → IsRoom d id n p octets k self
            → out.new.acts ≡ out.old.acts ++ replied_acts (pair_at d id n p) had_session
            (taken_as octets k outcome) reply.now (between_of between) }
        ensures spare { out.old.spare
            ≤ out.new.spare + (8 + length between.opened.items + length between.put.items) }
    {
        let Room {
            peer,
            address,
            message,
            taken,
            covered,
            seal,
            derived,
            installed,
            finished,
            sent,
        } = self;
        let seal = seal_over(covered, seal, reply.verified);
        add_took(Some(peer), taken, Kind::Key(message), outcome, seal, out);
        add_all(between.opened, out);
        derive(peer, derived, reply.derived, out);
        add_replaced(peer, had_session, reply.installed, out);
        install(peer, installed, reply.installed, out);
        add_group_key(peer, address, GroupKind::Gtk, reply.gtk, out);
        add_group_key(peer, address, GroupKind::Igtk, reply.igtk, out);
        finish(peer, finished, reply.installed, out);
        add_all(between.put, out);
        sent.add_sent(peer, reply, out);
    }
}
