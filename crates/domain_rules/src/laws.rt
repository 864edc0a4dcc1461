//! Laws of the definitions. The functions do nothing; their contracts are proved.

ghost use Rattle.std.specs.Prelude.{◌≡◌, ◌≢◌, ◌↔◌, ℕ, suc, ◌<◌, true, false, List, ◌∷◌, length};
ghost use Rattle.std.specs.Prelude.{Option, Some, None};
ghost use Rattle.std.specs.List.{AllByRecursion};
ghost use Rattle.domain_base.specs.declared.names.Akm.{Akm};
ghost use Rattle.domain_base.specs.declared.names.Akm.TheVariants.{FtPsk};
ghost use Rattle.domain_base.specs.declared.names.Node.{Node};
ghost use Rattle.domain_base.specs.declared.names.Node.TheVariants.{Ap, Sta};
ghost use Rattle.domain_base.specs.declared.names.Peer.{Peer};
ghost use Rattle.air_frame.specs.Fields.{HeaderFields};
ghost use Rattle.air_frame.specs.declared.frame.Direction.{Direction};
ghost use Rattle.key_hierarchy.specs.Sizes.{IsSsid};
ghost use Rattle.key_hierarchy.specs.declared.fast_transition.PmkR1.{PmkR1};
ghost use Rattle.run_journal.specs.declared.domain.Domain.{Domain};
ghost use Rattle.run_journal.specs.declared.domain.Event.{Event};
ghost use Rattle.run_journal.specs.Events.{protects};
ghost use Rattle.run_journal.specs.declared.acts.Act.{Act};
ghost use Rattle.run_journal.specs.declared.acts.Act.TheVariants.{Closed, Took};
ghost use Rattle.run_journal.specs.declared.acts.Part.TheVariants.{Session};
ghost use Rattle.run_journal.specs.declared.acts.Kind.{Kind};
ghost use Rattle.run_journal.specs.declared.acts.Kind.TheVariants.{Data, Action};
ghost use Rattle.run_journal.specs.declared.acts.Outcome.{Outcome};
ghost use Rattle.run_journal.specs.declared.acts.Outcome.TheVariants.{Accepted, Refused};
ghost use Rattle.run_journal.specs.declared.acts.Reason.{Reason};
ghost use Rattle.run_journal.specs.Questions.{history, attempt, session, pending, associated, add};
ghost use Rattle.run_journal.specs.Secrets.{ChangesAlone};
ghost use Rattle.run_journal.specs.declared.acts.GroupKind.TheVariants as groups;
ghost use Rattle.domain_rules.specs.GroupKeys.{got};
ghost use Rattle.domain_rules.specs.IntegrityKeys.{IsGot};
ghost use Rattle.domain_rules.specs.PacketNumbers.{pairwise_got};
ghost use Rattle.run_journal.specs.declared.acts.Seal.{Seal};
ghost use Rattle.run_journal.specs.declared.acts.Entry.{Entry};
ghost use Rattle.run_journal.specs.Premises.{In};
ghost use Rattle.run_journal.specs.Holders.{row, answers, answers_in};
ghost use Rattle.domain_rules.specs.Network.{InForm, renews, renews_at, gtk, psk_of, peer_of};
ghost use Rattle.domain_rules.specs.ChangedKeys.{IsNamedSta, r0_name_of};
ghost use Rattle.domain_rules.specs.Present.{secret, present};
ghost use Rattle.domain_rules.specs.Reading.{Reading, Sealed, Acting, Reads, ReadsAt, kind_of};
ghost use Rattle.domain_rules.specs.Verified.{IsNoted, is_past_mic};
ghost use Rattle.domain_rules.specs.Facts.{Facts};
ghost use Rattle.domain_rules.specs.Verdict.{Knows, first_verdict, verdict};
ghost use Rattle.domain_rules.specs.Rows.{NodeEvent, Take, Begin, Retry, Rekey, Send, Expire};
ghost use Rattle.domain_rules.specs.Rows.{Leave, Roam, Revoke, Secret, Renew, Announce, Adds};
ghost use Rattle.domain_rules.specs.Rows.{outcome_of};
ghost use Rattle.domain_rules.specs.Closing.{sender};
ghost use Rattle.domain_rules.specs.Ended.{EndsRightly};
ghost use Rattle.domain_rules.specs.Explained.{Explained, Step};
ghost use Rattle.domain_rules.specs.Rounds.{Place};
ghost use Rattle.domain_rules.specs.Due.{GroupBy, CanCome, given_in, onto, Due, DueInRound, AllCanCome};
ghost use Rattle.run_journal.specs.declared.domain.Event.TheVariants as asks;
ghost use Rattle.domain_rules.specs.HeldRight.{HeldRight, AnsweredInTime};
ghost use Rattle.domain_rules.specs.Example.{small, AreWhole, HasHandshake, HasRenewal};
ghost use Rattle.domain_rules.specs.DataExample.{HaveOctets, Payloads, ArePayloads, HasExchange};
ghost use Rattle.domain_rules.specs.RenewedKey.{renewing, HasRenewedKey};
ghost use Rattle.domain_rules.specs.Here.{here};

/// Octets are one thing at most, and one to each node of a network, and so one outcome comes of
/// them, by the history of the node and what a key holder gives alone.
pub fn one_reading()
    ensures reading { (akm : Akm) (octets : List ℕ) (r s : Reading) → Reads akm octets r
        → Reads akm octets s → r ≡ s }
    ensures at_node { (d : Domain) (octets : List ℕ) (r s : Reading) → ReadsAt d octets r
        → ReadsAt d octets s → r ≡ s }
    ensures outcome { (d : Domain) (first : ℕ) (n : Node) (h : List Act) (octets : List ℕ)
        (r s : Reading) (f g : Facts) → f.pulled ≡ g.pulled
        → ReadsAt d octets r → ReadsAt d octets s → Knows d first n h r f
        → Knows d first n h s g
        → verdict d first n h r f ≡ verdict d first n h s g }
{}

/// An event adds one group of acts to the history of a node at most, by what key holders answer
/// where it asks one, and whatever octets read as, and at each begin of an attempt, by fast
/// transition with suite 4, each repeat, each payload to be sent, each dropping of what there is,
/// each revocation, each changed key of a station, each new group key and each announcement of an
/// access point, and each renewal of a pairwise key, where the network renews them, there is one.
pub fn one_group()
    ensures one { (d : Domain) (first : ℕ) (n : Node) (h : List Act) (event : NodeEvent)
        (f g : List Act)
        → Adds (here d first n) h event f → Adds (here d first n) h event g
        → answers f ≡ answers g → f ≡ g }
    ensures taken { (d : Domain) (first : ℕ) (n : Node) (h : List Act) (octets : List ℕ)
        (r : Reading) (facts : Facts) → ReadsAt d octets r
        → Knows d first n h r facts → (g : List Act) × Adds (here d first n) h (Take octets) g }
    ensures begun { (d : Domain) (first : ℕ) (n : Node) (h : List Act) (a : ℕ)
        → (g : List Act) × Adds (here d first n) h (Begin a) g }
    ensures roams { (d : Domain) (first : ℕ) (n : Node) (h : List Act) (a : ℕ) → d.akm ≡ FtPsk
        → (g : List Act) × Adds (here d first n) h (Roam a) g }
    ensures again { (d : Domain) (first : ℕ) (n : Node) (h : List Act) (s : ℕ)
        → (g : List Act) × Adds (here d first n) h (Retry s) g }
    ensures rekeyed { (d : Domain) (first a : ℕ) (h : List Act)
        → (g : List Act) × Adds (here d first (Ap a)) h Rekey g }
    ensures sends { (d : Domain) (first : ℕ) (n : Node) (h : List Act) (q : Peer) (tid : Option ℕ)
        (octets : List ℕ)
        → (g : List Act) × Adds (here d first n) h (Send q tid octets) g }
    ensures expired { (d : Domain) (first : ℕ) (n : Node) (h : List Act) (s : ℕ)
        → (g : List Act) × Adds (here d first n) h (Expire s) g }
    ensures revoked { (d : Domain) (first : ℕ) (n : Node) (h : List Act) (s : ℕ)
        → (g : List Act) × Adds (here d first n) h (Revoke s) g }
    ensures changed { (d : Domain) (first : ℕ) (n : Node) (h : List Act) (named : Option ℕ)
        (psk : List ℕ)
        → (g : List Act) × Adds (here d first n) h (Secret named psk) g }
    ensures renewed { (d : Domain) (first a : ℕ) (h : List Act) (s : ℕ) → renews d ≡ true
        → (g : List Act) × Adds (here d first (Ap a)) h (Renew s) g }
    ensures announced { (d : Domain) (first a : ℕ) (h : List Act) (octets : List ℕ)
        → (g : List Act) × Adds (here d first (Ap a)) h (Announce octets) g }
    ensures left { (d : Domain) (first : ℕ) (n : Node) (h : List Act)
        → (g : List Act) × Adds (here d first n) h Leave g }
{}

/// By what a key holder gives an event adds one group of acts to the history of a node at most. And
/// what an event adds it adds by the answer that the acts tell.
pub fn one_group_by()
    ensures one { (d : Domain) (first : ℕ) (n : Node) (h : List Act) (event : NodeEvent)
        (x : Option PmkR1) (f g : List Act)
        → GroupBy (here d first n) h event x f → GroupBy (here d first n) h event x g → f ≡ g }
    ensures told { (d : Domain) (first : ℕ) (n : Node) (h : List Act) (event : NodeEvent)
        (g : List Act)
        → Adds (here d first n) h event g ↔ GroupBy (here d first n) h event (given_in g) g }
{}

/// And one there is for each event that such a node can have: for all octets that come, whatever
/// they are, for every history and every answer.
pub fn some_group_by()
    ensures { (d : Domain) (first : ℕ) (n : Node) (h : List Act) (event : NodeEvent)
        (x : Option PmkR1) → CanCome d n event
        → (g : List Act) × GroupBy (here d first n) h event x g }
{}

/// Whatever entries are told of a round, at given nodes one list of entries is due: one at most,
/// and one where each event is one of its node.
pub fn one_list_is_due()
    ensures one { (d : Domain) (round : ℕ) (places : List Place) (old told f g : List Entry)
        → Due d round places old told f → Due d round places old told g → f ≡ g }
    ensures some { (d : Domain) (round : ℕ) (places : List Place) (old told : List Entry)
        → AllCanCome d places → (due : List Entry) × Due d round places old told due }
{}

/// A journal goes on by a round as it is explained exactly where the entries that it tells of the
/// round are those that are due.
pub fn explained_is_due()
    ensures { (d : Domain) (round : List Event) (rounds : List (List Event)) (j : List Entry)
        → Explained d (round ∷ rounds) j ↔ ((old : List Entry) × (Explained d rounds old
        × ((told : List Entry) × ((j ≡ onto told old)
        × DueInRound d (suc (length rounds)) round old told told)))) }
{}

/// A node notes what a frame had sealed where the MIC of the frame, or its CCM seal, verified, and
/// there alone. Whatever its history, a seal is noted of octets that came and read as an EAPOL-Key
/// message with the MIC of its octets under the key of the seal, as a reassociation frame whose FTE
/// has the MIC under it, as protected data that opens under it, or as an Action frame whose MME has
/// the MIC under it. And it is noted wherever a frame with a MIC (all EAPOL-Key messages but M1, and
/// both reassociation frames) is accepted or answered, or is refused for what its key data or its
/// elements hold, and wherever data or an Action frame is accepted.
pub fn seals_are_verified()
    ensures verified { (d : Domain) (first : ℕ) (n : Node) (h : List Act) (event : NodeEvent)
        (g : List Act)
        (from : Option Node) (octets : List ℕ) (k : Kind) (o : Outcome) (s : Seal)
        → Adds (here d first n) h event g → In (Took from octets k o (Some s)) g
        → (event ≡ Take octets) × IsNoted d.akm octets s }
    ensures noted { (d : Domain) (first : ℕ) (n : Node) (h : List Act) (octets : List ℕ)
        (r : Reading) (facts : Facts) (g : List Act)
        → ReadsAt d octets r → Knows d first n h r facts → Adds (here d first n) h (Take octets) g
        → is_past_mic (first_verdict d first n h r) r ≡ true
        → (s : Seal)
        × In (Took (sender d n r) octets (kind_of r) (verdict d first n h r facts) (Some s)) g }
    ensures opened { (d : Domain) (first : ℕ) (n : Node) (h : List Act) (octets : List ℕ)
        (header : HeaderFields) (way : Direction) (tid : Option ℕ) (body : List ℕ) (facts : Facts)
        (g : List Act)
        → ReadsAt d octets (Sealed header way tid body)
        → Knows d first n h (Sealed header way tid body) facts
        → Adds (here d first n) h (Take octets) g
        → verdict d first n h (Sealed header way tid body) facts ≡ Accepted
        → (s : Seal) × In (Took (peer_of d n header.a2) octets Data Accepted (Some s)) g }
    ensures announced { (d : Domain) (first : ℕ) (n : Node) (h : List Act) (octets : List ℕ)
        (header : HeaderFields) (body : List ℕ) (facts : Facts) (g : List Act)
        → ReadsAt d octets (Acting header body) → Knows d first n h (Acting header body) facts
        → Adds (here d first n) h (Take octets) g
        → verdict d first n h (Acting header body) facts ≡ Accepted
        → (s : Seal) × In (Took (peer_of d n header.a2) octets Action Accepted (Some s)) g }
{}

/// A frame that is refused moves no receive counter, whatever its packet number: so none whose seal
/// does not verify keeps a node from taking those that come after it.
pub fn refusals_move_no_counter()
    ensures pairwise { (d : Domain) (first : ℕ) (n : Node) (h : List Act) (octets : List ℕ)
        (why : Reason) (g : List Act)
        → Adds (here d first n) h (Take octets) g → outcome_of g ≡ Refused why → (p : Node)
        (key : List ℕ) (tid : ℕ)
        → pairwise_got p key tid (add g h) ≡ pairwise_got p key tid h }
    ensures group { (d : Domain) (first : ℕ) (n : Node) (h : List Act) (octets : List ℕ)
        (why : Reason) (g : List Act)
        → Adds (here d first n) h (Take octets) g → outcome_of g ≡ Refused why
        → (p : Node) (key : List ℕ) (id : ℕ)
        → got p key id (add g h) ≡ got p key id h }
    ensures integrity { (d : Domain) (first : ℕ) (n : Node) (h : List Act) (octets : List ℕ)
        (why : Reason) (g : List Act)
        → Adds (here d first n) h (Take octets) g → outcome_of g ≡ Refused why
        → (p : Node) (key : List ℕ) (id m : ℕ) → IsGot groups.Igtk p key id h m
        → IsGot groups.Igtk p key id (add g h) m }
{}

/// The pre-shared key of a station by the history of a node, that to which it was changed last, is
/// that of the network after the journal, by which the next round goes: at each access point that of
/// each station, and at a station its own. In a round in which keys are changed nothing else happens.
pub fn keys_are_present()
    ensures at_ap { (d : Domain) (rounds : List (List Event)) (j : List Entry) (a s : ℕ)
        → AllByRecursion ChangesAlone rounds → Explained d rounds j
        → a < length d.aps → s < length d.stas
        → secret d (Sta s) (history (Ap a) j) ≡ psk_of (present d j) (Sta s) }
    ensures at_sta { (d : Domain) (rounds : List (List Event)) (j : List Entry) (s : ℕ)
        → AllByRecursion ChangesAlone rounds → Explained d rounds j → s < length d.stas
        → secret d (Sta s) (history (Sta s) j) ≡ psk_of (present d j) (Sta s) }
{}

/// Where the key of a station is changed nothing goes on under the old one. An access point has
/// neither an attempt nor a session with the station after it and, with suite 4, no live row under
/// the name of its old key; the station has neither an attempt nor a session. In the journal of the
/// round the old key is that of the network as it was before the round, at each access point.
pub fn old_keys_end()
    ensures at_ap { (d : Domain) (first a : ℕ) (h : List Act) (named : Option ℕ) (psk : List ℕ)
        (s : ℕ) (g : List Act)
        → IsNamedSta d named s → Adds (here d first (Ap a)) h (Secret named psk) g
        → (attempt (Sta s) (add g h) ≡ None) × (session (Sta s) (add g h) ≡ None)
        × (d.akm ≡ FtPsk
        → row (r0_name_of d (Ap a) (Sta s)) (add g h) ≡ None) }
    ensures at_sta { (d : Domain) (first s : ℕ) (h : List Act) (named : Option ℕ) (psk : List ℕ)
        (g : List Act) → Adds (here d first (Sta s)) h (Secret named psk) g
        → (pending (add g h) ≡ None) × (associated (add g h) ≡ None) }
    ensures in_round { (d : Domain) (round : ℕ) (named : Option ℕ) (psk : List ℕ)
        (old new : List Entry) (a s : ℕ) → Step d round (asks.Secret named psk) old new
        → a < length d.aps → IsNamedSta d named s → d.akm ≡ FtPsk
        → row (r0_name_of (present d old) (Ap a) (Sta s)) (history (Ap a) new) ≡ None }
{}

/// The network, the rounds and the answers of the key holders determine the journal.
pub fn one_journal()
    ensures { (d : Domain) (rounds : List (List Event)) (j k : List Entry) → Explained d rounds j
        → Explained d rounds k → answers_in j ≡ answers_in k → j ≡ k }
{}

/// Where each look of a journal is answered by what the holder that is asked has at some moment of
/// the round, and at the own access point just then, and with the right key, the key holders
/// answered rightly.
pub fn looks_are_right()
    ensures { (d : Domain) (j : List Entry) → AnsweredInTime d j → HeldRight d j }
{}

/// A session ends only as its station connects anew, takes an M3 that renews its key or a
/// reassociation response, or is told to leave, or as its access point accepts an M4 of a new
/// attempt or a reassociation request, gives it up after four sends of G1 that brought no answer,
/// or is told to drop what it has with the station, or as the key of the station is changed. Each
/// of those frames has a MIC that verified under the KCK of a PTK which the node had derived with
/// the sender and of which it then installs the TK: so where no MIC is forged no frame that was
/// made without that key ends one.
pub fn sessions_end_by_a_key()
    ensures { (d : Domain) (first : ℕ) (n : Node) (h : List Act) (event : NodeEvent) (g : List Act)
        (p : Node)
        → Adds (here d first n) h event g → In (Closed p Session) g
        → EndsRightly d n h event g p }
{}

/// The definitions are not about nothing: by them, in every network in form with suite 2 or 6 that
/// protects no management frames, any station asks any access point for association, both end the
/// four-way handshake with one pairwise key of the same inputs installed, and the station with the
/// access point's group key, also where M3 is sent once more and answered once more; and both then
/// begin a second attempt, each with a new nonce. And there are such networks.
pub fn handshake_is_explained()
    ensures whole { (d : Domain) (a s : ℕ) → InForm d → AreWhole d → d.akm ≢ FtPsk
        → protects d ≡ false → a < length d.aps → s < length d.stas
        → HasHandshake d a s }
    ensures network { (akm : Akm) (seed ssid psk : List ℕ) → IsSsid ssid
        → InForm (small akm seed ssid psk) × AreWhole (small akm seed ssid psk)
        × (protects (small akm seed ssid psk) ≡ false) }
{}

/// Nor is the group key handshake: after such a handshake the access point, where the group keys
/// that it draws differ, draws a new one, the station installs it by G1 and answers with G2, by
/// which it becomes current; and as the station associates anew, it resumes that key.
pub fn renewal_is_explained()
    ensures { (d : Domain) (a s : ℕ) → InForm d → AreWhole d → d.akm ≢ FtPsk
        → protects d ≡ false → a < length d.aps → s < length d.stas
        → gtk d (Ap a) 2 ≢ gtk d (Ap a) 0 → HasRenewal d a s }
{}

/// Nor is the renewal of a pairwise key inside its session: after such a handshake, in every such
/// network that renews pairwise keys, the access point begins, both derive a new key of new nonces,
/// and while M3 is lost a new group key is given under the key in use and becomes current, where the
/// two differ; M3 comes again with that group key, and both leave the session for one of the new key.
/// And there are such networks.
pub fn pairwise_renewal_is_explained()
    ensures whole { (d : Domain) (a s : ℕ) → InForm d → AreWhole d → d.akm ≢ FtPsk
        → protects d ≡ false → a < length d.aps → s < length d.stas → renews d ≡ true
        → gtk d (Ap a) 3 ≢ gtk d (Ap a) 0 → HasRenewedKey d a s }
    ensures network { (akm : Akm) (at : Option ℕ) (seed ssid psk : List ℕ) → IsSsid ssid
        → akm ≢ FtPsk → InForm (renewing akm at seed ssid psk)
        × AreWhole (renewing akm at seed ssid psk) × (renews (renewing akm at seed ssid psk) ≡ true)
        × (protects (renewing akm at seed ssid psk) ≡ false) }
{}

/// Nor is protected data: after such a handshake, in every such network whose addresses are octets,
/// payloads of a station, of its access point for the station, and of the access point for all are
/// each sent under the first packet number of their key and handed up with it; and a frame that
/// comes once more is refused as replayed. That is so where no renewal of the pairwise key is due
/// with packet number 1. And there are such networks.
pub fn exchange_is_explained()
    ensures whole { (d : Domain) (a s : ℕ) (p : Payloads) → InForm d → AreWhole d → HaveOctets d
        → d.akm ≢ FtPsk → protects d ≡ false → a < length d.aps → s < length d.stas → ArePayloads p
        → renews_at d 1 ≡ false → HasExchange d a s p }
    ensures network { (akm : Akm) (seed ssid psk : List ℕ)
        → HaveOctets (small akm seed ssid psk) × (renews_at (small akm seed ssid psk) 1 ≡ false) }
{}
