//! The EAPOL-Key frames of the four-way handshake and of the group key handshake, written into
//! replies. No memory is taken.

ghost use Rattle.std.specs.Prelude.{◌≡◌, ◌≤◌, ◌<◌, ◌+◌, ◌^◌, ℕ, List, [], ◌∷◌, length, take};
ghost use Rattle.std.specs.Prelude.{Some, None, option_map};
ghost use Rattle.domain_base.specs.declared.names.Node.{Node as AnyNode};
ghost use Rattle.domain_base.specs.declared.names.Peer.TheVariants.{One};
ghost use Rattle.air_frame.specs.Sent.{IsAddress};
ghost use Rattle.run_journal.specs.declared.domain.Domain.{Domain as AnyDomain};
ghost use Rattle.run_journal.specs.declared.acts.Kind.TheVariants.{Key};
ghost use Rattle.run_journal.specs.declared.acts.Act.TheVariants.{Sent};
ghost use Rattle.run_journal.specs.Replies.{IsWhole};
ghost use Rattle.run_journal.specs.Acts.{Derivation};
ghost use Rattle.eapol_key.specs.KeyData.{padded};
ghost use Rattle.domain_rules.specs.Frames.{in_data, frame_seal};
ghost use Rattle.domain_rules.specs.Frames.{sent_m2_key_data, m3_key_data};
ghost use Rattle.domain_rules.specs.Frames.{sent_m1, sent_m2_by, sent_m3, sent_m4};
ghost use Rattle.domain_rules.specs.Frames.{sent_g1, sent_g2};
ghost use Rattle.domain_rules.specs.GroupKeys.{News as CarriedNews};
ghost use Rattle.domain_rules.specs.Replies.{sent_acts};
ghost use Rattle.group_key.specs.News.{FitsNews, carried_news};
ghost use Rattle.frame_making.specs.Between.{bssid_between, octets_between};
ghost use Rattle.frame_making.specs.Second.{carried_fte};
ghost use Rattle.node_base.specs.Ends.{AreEnds};
ghost use Rattle.frame_making.specs.Replied.{Keeps};

use crate::key_data::{MOST_M2_DATA, MOST_M3_DATA, group_kdes};
use crate::keying::{
    MOST_G1, MOST_M2, MOST_M3, Second, Third, g2_frame, m1_frame, m4_frame, put_g1, put_m2, put_m3,
};
use air_frame::{Direction, write_eapol_data};
use domain_base::Mac;
use eapol_key::Message;
use group_key::News;
use key_hierarchy::Ptk;
use mac_prf::KeptMicKey;
use node_base::Ends;
use run_journal::{Keyed, Kind, REPLY_LEN, Reply};

// The address, which has six octets.
fn whole(address: Mac) -> Mac
    ensures same { result ≡ address }
    ensures whole { IsAddress result.0 }
{
    address
}

// Of the two ends, the access point's address.
fn bssid(ends: &Ends) -> Mac
    ensures { result.0 ≡ bssid_between ends.now }
{
    match ends.direction {
        Direction::FromDs => ends.own,
        Direction::ToDs => ends.peer,
    }
}

// Writes an EAPOL-Key frame between the two ends, in a data frame, and answers how many octets it
// takes.
fn put_data(ends: &Ends, frame: &[u8], octets: &mut [u8; REPLY_LEN]) -> usize
    requires { length frame.now ≤ 480 }
    ensures size { result ≡ 32 + length frame.now }
    ensures octets { take result octets.new ≡ octets_between ends.now frame.now }
{
    write_eapol_data(
        ends.direction,
        ends.peer,
        ends.own,
        bssid(ends),
        frame,
        octets,
    )
}

// Writes the frame of the message, and under which key it is sealed.
fn write_frame(
    ends: &Ends,
    message: Message,
    sealed: Option<[u8; 16]>,
    frame: &[u8],
    reply: &mut Reply,
)
    requires least { 99 ≤ length frame.now }
    requires most { length frame.now ≤ 480 }
    ensures writes { (d : AnyDomain) (n p : AnyNode) → AreEnds d n p ends.now
        → sent_acts p reply.new ≡ Sent (One p) (Key message) (in_data d n p frame.now)
        (option_map (λ kck. frame_seal kck frame.now) sealed) ∷ [] }
    ensures keeps { Keeps reply.old reply.new }
    ensures fits { IsWhole reply.new }
    ensures whole { IsAddress ends.now.own.0 × IsAddress ends.now.peer.0 }
{
    whole(ends.own);
    whole(ends.peer);
    let len = put_data(ends, frame, &mut reply.octets);
    reply.len = len;
    reply.kind = Kind::Key(message);
    reply.sealed = sealed;
}

/// Message 1 of the four-way handshake with the ANonce (IEEE Std 802.11-2020, 12.7.6.2).
pub fn write_m1(ends: &Ends, counter: u64, anonce: &[u8; 32], reply: &mut Reply)
    ensures writes { (d : AnyDomain) (n p : AnyNode) → AreEnds d n p ends.now
        → sent_acts p reply.new ≡ sent_m1 d n p counter anonce.now ∷ [] }
    ensures keeps { Keeps reply.old reply.new }
    ensures fits { IsWhole reply.new }
    ensures whole { IsAddress ends.now.own.0 × IsAddress ends.now.peer.0 }
{
    let frame = m1_frame(ends.akm, counter, anonce);
    write_frame(ends, Message::M1, None, &frame, reply);
}

/// Message 2 of the four-way handshake under that key, with its SNonce and that key data, which with
/// suite 4 has the FTE of the association response (IEEE Std 802.11-2020, 12.7.6.3). Where Secure is
/// set it answers a message 1 that renews the key of a session, and its key data has no FTE.
pub fn write_m2(
    ends: &Ends,
    kept: &KeptMicKey,
    key: &Keyed,
    counter: u64,
    secure: bool,
    key_data: &[u8],
    reply: &mut Reply,
)
    requires some { 0 < length key_data.now }
    requires few { length key_data.now ≤ MOST_M2_DATA }
    ensures writes { (d : AnyDomain) (n p : AnyNode) (x : Derivation) (fte : List ℕ)
        → AreEnds d n p ends.now → key.now.ptk ≡ x.ptk → x.inputs.snonce ≡ key.now.snonce
        → key_data.now ≡ sent_m2_key_data d.akm d x (carried_fte secure fte)
        → sent_acts p reply.new ≡ sent_m2_by secure d n p x counter fte ∷ [] }
    ensures keeps { Keeps reply.old reply.new }
    ensures fits { IsWhole reply.new }
    ensures whole { IsAddress ends.now.own.0 × IsAddress ends.now.peer.0 }
{
    let kck = key.ptk.kck;
    let second = Second {
        snonce: key.snonce,
        secure,
    };
    let mut buffer = [0; MOST_M2];
    let size = put_m2(kept, ends.akm, &kck, counter, second, key_data, &mut buffer);
    let (frame, _) = buffer.split_at(size);
    write_frame(ends, Message::M2, Some(kck), frame, reply);
}

/// Message 3 of the four-way handshake under that key, with its ANonce, that key data, which comes
/// under key wrap, and the count of packet numbers that were used under its GTK
/// (IEEE Std 802.11-2020, 12.7.6.4).
pub fn write_m3(
    ends: &Ends,
    kept: &KeptMicKey,
    key: &Keyed,
    counter: u64,
    plain: &[u8],
    rsc: u64,
    reply: &mut Reply,
)
    requires few { length plain.now ≤ MOST_M3_DATA }
    requires packet_number { rsc < 2 ^ 48 }
    ensures writes { (d : AnyDomain) (n p : AnyNode) (x : Derivation) (keys : CarriedNews)
        → AreEnds d n p ends.now → key.now.ptk ≡ x.ptk → x.inputs.anonce ≡ key.now.anonce
        → keys.rsc ≡ rsc → padded plain.now ≡ m3_key_data d n x keys
        → sent_acts p reply.new ≡ sent_m3 d n p x counter keys ∷ [] }
    ensures keeps { Keeps reply.old reply.new }
    ensures fits { IsWhole reply.new }
    ensures whole { IsAddress ends.now.own.0 × IsAddress ends.now.peer.0 }
{
    let ptk = key.ptk;
    let third = Third {
        anonce: key.anonce,
        rsc,
    };
    let mut buffer = [0; MOST_M3];
    let size = put_m3(kept, ends.akm, &ptk, counter, third, plain, &mut buffer);
    let (frame, _) = buffer.split_at(size);
    write_frame(ends, Message::M3, Some(ptk.kck), frame, reply);
}

/// Message 4 of the four-way handshake under that key (IEEE Std 802.11-2020, 12.7.6.5).
pub fn write_m4(ends: &Ends, kept: &KeptMicKey, key: &Ptk, counter: u64, reply: &mut Reply)
    ensures writes { (d : AnyDomain) (n p : AnyNode) (x : Derivation) → AreEnds d n p ends.now
        → key.now ≡ x.ptk → sent_acts p reply.new ≡ sent_m4 d n p x counter ∷ [] }
    ensures keeps { Keeps reply.old reply.new }
    ensures fits { IsWhole reply.new }
    ensures whole { IsAddress ends.now.own.0 × IsAddress ends.now.peer.0 }
{
    let kck = key.kck;
    let frame = m4_frame(kept, ends.akm, &kck, counter);
    write_frame(ends, Message::M4, Some(kck), &frame, reply);
}

/// Message 1 of the group key handshake under that key, with the group keys and the counts of packet
/// numbers that were used under them (IEEE Std 802.11-2020, 12.7.7.2).
#[tactic(auto, using(crate::proofs::GroupKdes::rsc_low))]
pub fn write_g1(
    ends: &Ends,
    kept: &KeptMicKey,
    key: &Ptk,
    counter: u64,
    news: &News,
    reply: &mut Reply,
)
    requires { FitsNews news.now }
    ensures writes { (d : AnyDomain) (n p : AnyNode) (x : Derivation) → AreEnds d n p ends.now
        → key.now ≡ x.ptk
        → sent_acts p reply.new ≡ sent_g1 d n p x counter (carried_news news.now) ∷ [] }
    ensures keeps { Keeps reply.old reply.new }
    ensures fits { IsWhole reply.new }
    ensures whole { IsAddress ends.now.own.0 × IsAddress ends.now.peer.0 }
{
    let plain = group_kdes(news);
    let mut buffer = [0; MOST_G1];
    let size = put_g1(
        kept,
        ends.akm,
        key,
        counter,
        news.rsc,
        plain.as_slice(),
        &mut buffer,
    );
    let (frame, _) = buffer.split_at(size);
    write_frame(ends, Message::G1, Some(key.kck), frame, reply);
}

/// Message 2 of the group key handshake under that key (IEEE Std 802.11-2020, 12.7.7.3).
pub fn write_g2(ends: &Ends, kept: &KeptMicKey, key: &Ptk, counter: u64, reply: &mut Reply)
    ensures writes { (d : AnyDomain) (n p : AnyNode) (x : Derivation) → AreEnds d n p ends.now
        → key.now ≡ x.ptk → sent_acts p reply.new ≡ sent_g2 d n p x counter ∷ [] }
    ensures keeps { Keeps reply.old reply.new }
    ensures fits { IsWhole reply.new }
    ensures whole { IsAddress ends.now.own.0 × IsAddress ends.now.peer.0 }
{
    let kck = key.kck;
    let frame = g2_frame(kept, ends.akm, &kck, counter);
    write_frame(ends, Message::G2, Some(kck), &frame, reply);
}
