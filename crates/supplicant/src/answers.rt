//! What a supplicant tells beside an outcome, written into replies. No memory is taken.

ghost use Rattle.std.specs.Prelude.{◌≡◌, Some, None, [], ◌∷◌};
ghost use Rattle.frame_making.specs.KeyData.{IsMobility};
ghost use Rattle.supplicant.specs.Bases.{fte_in, RenewsWhere};
ghost use Rattle.domain_base.specs.declared.names.Node.{Node as AnyNode};
ghost use Rattle.run_journal.specs.declared.domain.Domain.{Domain as AnyDomain};
ghost use Rattle.run_journal.specs.Replies.{IsEmpty, IsWhole};
ghost use Rattle.run_journal.specs.Acts.{Derivation};
ghost use Rattle.domain_rules.specs.Frames.{sent_m2_by, sent_m4, sent_g2};
ghost use Rattle.node_base.specs.Ends.{AreEnds};
ghost use Rattle.supplicant.specs.KeyData.{news_in, given_to, igtk_news_in, igtk_given};
ghost use Rattle.supplicant.specs.KeyData.{came, all_given};
ghost use Rattle.supplicant.specs.Told.{IsSilent, Tells, derives, repeats, installs, renews};

use crate::base::Base;
use crate::key_data::{CarriedIgtk, CarriedKey, CarriedKeys};
use frame_making::{m2_key_data, write_g2, write_m2, write_m4};
use group_key::GroupMemory;
use key_hierarchy::Ptk;
use mac_prf::KeptMicKey;
use node_base::Ends;
use run_journal::{GtkNews, Keyed, Reply};

/// What became of the group keys of a message.
#[derive(Clone, Copy)]
pub struct Came {
    /// The GTK.
    pub gtk: GtkNews,
    /// The IGTK, where management frames are protected.
    pub igtk: Option<GtkNews>,
}

/// The key was derived by M1: M2 is sent, with that counter, and with Secure set or not.
pub fn answer_m1(
    ends: &Ends,
    base: &Base,
    kept: &KeptMicKey,
    key: &Keyed,
    secure: bool,
    counter: u64,
    reply: &mut Reply,
)
    requires empty { IsEmpty reply.old }
    ensures tells { (d : AnyDomain) (n p : AnyNode) (x : Derivation) → AreEnds d n p ends.now
        → key.now.ptk ≡ x.ptk → x.inputs.snonce ≡ key.now.snonce
        → IsMobility d x.inputs (fte_in base.now) base.now.mobility → RenewsWhere secure d
        → Tells p reply.new
        (derives key.now (sent_m2_by secure d n p x counter (fte_in base.now) ∷ [])) }
    ensures keys { reply.new.installed ≡ None }
    ensures whole { IsWhole reply.new }
{
    let key_data = m2_key_data(ends.akm, ends.mfp, &base.mobility);
    write_m2(ends, kept, key, counter, secure, key_data.as_slice(), reply);
    reply.derived = Some(*key);
}

/// M3 verified under the KCK: M4 is sent, with that counter, and nothing is installed.
pub fn answer_m3(ends: &Ends, kept: &KeptMicKey, key: &Keyed, counter: u64, reply: &mut Reply)
    requires silent { IsSilent reply.old }
    requires verified { reply.old.verified ≡ Some key.now.ptk.kck }
    ensures tells { (d : AnyDomain) (n p : AnyNode) (x : Derivation) → AreEnds d n p ends.now
        → key.now.ptk ≡ x.ptk → Tells p reply.new (repeats key.now (sent_m4 d n p x counter ∷ [])) }
    ensures keys { reply.new.derived ≡ None }
    ensures whole { IsWhole reply.new }
{
    let ptk = key.ptk;
    write_m4(ends, kept, &ptk, counter, reply);
}

/// M3 was accepted: M4 is sent, with that counter, and the keys are installed.
pub fn accept_m3(
    ends: &Ends,
    kept: &KeptMicKey,
    key: &Keyed,
    keys: Came,
    counter: u64,
    reply: &mut Reply,
)
    requires silent { IsSilent reply.old }
    requires verified { reply.old.verified ≡ Some key.now.ptk.kck }
    ensures tells { (d : AnyDomain) (n p : AnyNode) (x : Derivation) → AreEnds d n p ends.now
        → key.now.ptk ≡ x.ptk
        → Tells p reply.new (installs key.now keys (sent_m4 d n p x counter ∷ [])) }
    ensures keys { reply.new.derived ≡ None }
    ensures whole { IsWhole reply.new }
{
    answer_m3(ends, kept, key, counter, reply);
    reply.installed = Some(*key);
    reply.gtk = Some(keys.gtk);
    reply.igtk = keys.igtk;
}

/// G1 was accepted: G2 is sent, with that counter, and each group key is installed or goes on.
pub fn accept_g1(
    ends: &Ends,
    kept: &KeptMicKey,
    key: &Ptk,
    keys: Came,
    counter: u64,
    reply: &mut Reply,
)
    requires silent { IsSilent reply.old }
    requires verified { reply.old.verified ≡ Some key.now.kck }
    ensures tells { (d : AnyDomain) (n p : AnyNode) (x : Derivation) → AreEnds d n p ends.now
        → key.now ≡ x.ptk
        → Tells p reply.new (renews key.now keys (sent_g2 d n p x counter ∷ [])) }
    ensures keys { (reply.new.derived ≡ None) × (reply.new.installed ≡ None) }
    ensures whole { IsWhole reply.new }
{
    write_g2(ends, kept, key, counter, reply);
    reply.gtk = Some(keys.gtk);
    reply.igtk = keys.igtk;
}

// Gives a group key to the memory, and answers what became of it: one that is kept goes on under
// the key id that it was installed with.
fn give(memory: &mut GroupMemory, group: CarriedKey, rsc: u64) -> GtkNews
    ensures news { result ≡ news_in group memory.old }
    ensures memory { memory.new ≡ given_to group rsc memory.old }
{
    let key = group.key;
    let news = match memory.id_of(&key, group.id) {
        None => GtkNews {
            resumed: false,
            id: group.id,
            key,
        },
        Some(id) => GtkNews {
            resumed: true,
            id,
            key,
        },
    };
    memory.give(&key, group.id, rsc);
    news
}

// The same of an IGTK with its IPN, where there is one.
fn give_igtk(memory: &mut GroupMemory, igtk: Option<CarriedIgtk>) -> Option<GtkNews>
    ensures news { result ≡ igtk_news_in igtk memory.old }
    ensures memory { memory.new ≡ igtk_given igtk memory.old }
{
    match igtk {
        None => None,
        Some(carried) => Some(give(memory, carried.igtk, carried.ipn)),
    }
}

/// Gives the group keys of a message to the memory, the GTK with that RSC, and answers what became
/// of them.
pub fn give_all(memory: &mut GroupMemory, group: CarriedKeys, rsc: u64) -> Came
    ensures news { result ≡ came group rsc memory.old }
    ensures memory { memory.new ≡ all_given group rsc memory.old }
{
    let gtk = give(memory, group.gtk, rsc);
    let igtk = give_igtk(memory, group.igtk);
    Came { gtk, igtk }
}
