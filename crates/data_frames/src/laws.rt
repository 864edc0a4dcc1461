//! What keys in use stand for, and that what they come to is the row of the rules. The functions do
//! nothing; their contracts are proved.

ghost use Rattle.std.specs.Prelude.{◌≡◌, ◌<◌, ◌≤◌, ℕ, true, false, suc, List, [], ◌∷◌, length};
ghost use Rattle.std.specs.Prelude.{replicate, Option, Some, None};
ghost use Rattle.std.specs.List.{AllByRecursion};
ghost use Rattle.domain_base.specs.declared.names.Node.{Node};
ghost use Rattle.domain_base.specs.declared.names.Peer.TheVariants.{One, All};
ghost use Rattle.ccmp_guard.specs.declared.guard.GuardFault.{GuardFault};
ghost use Rattle.ccmp_guard.specs.declared.guard.Role.TheVariants as roles;
ghost use Rattle.ccmp_guard.specs.Ccmp.{IsHeader, traffic_identifier, key_id_in};
ghost use Rattle.ccmp_guard.specs.Held.{Held, with_next, with_taken, kept_number};
ghost use Rattle.key_hierarchy.specs.declared.inputs.Inputs.{Inputs};
ghost use Rattle.run_journal.specs.declared.acts.GroupKind.TheVariants as groups;
ghost use Rattle.run_journal.specs.declared.acts.Key.TheVariants.{Pairwise, Group};
ghost use Rattle.run_journal.specs.declared.acts.Kind.TheVariants.{Action};
ghost use Rattle.run_journal.specs.declared.acts.Outcome.TheVariants.{Refused};
ghost use Rattle.run_journal.specs.declared.acts.Reason.TheVariants.{NoKey};
ghost use Rattle.run_journal.specs.declared.acts.Act.{Act};
ghost use Rattle.run_journal.specs.declared.acts.Act.TheVariants.{Took, Installed, Used, HandedUp};
ghost use Rattle.domain_base.specs.declared.names.Mac.{Mac};
ghost use Rattle.run_journal.specs.Acts.{Derivation, GroupKey};
ghost use Rattle.run_journal.specs.Questions.{session, add, group_uses};
ghost use Rattle.domain_rules.specs.Here.{Here};
ghost use Rattle.domain_rules.specs.GroupKeys.{newest, is_current};
ghost use Rattle.domain_rules.specs.IntegrityKeys.{IsGot};
ghost use Rattle.domain_rules.specs.ManagementFrames.{integrity_key};
ghost use Rattle.domain_rules.specs.PacketNumbers.{SendKey, send_key, group_send_key, current};
ghost use Rattle.domain_rules.specs.DataVerdict.{is_for_group};
ghost use Rattle.domain_rules.specs.Rows.{TakeRow};
ghost use Rattle.frame_intake.specs.ActionFields.{ActionFields};
ghost use Rattle.frame_intake.specs.SealedFields.{SealedFields, IsSealedData};
ghost use Rattle.data_frames.specs.Actions.{IsActionFrom, action_outcome, action_acts};
ghost use Rattle.data_frames.specs.Announcing.{with_used};
ghost use Rattle.data_frames.specs.Holding.{HoldsPairwise, HoldsGroup, LeavesPairwise, LeavesGroup};
ghost use Rattle.data_frames.specs.Holding.{HoldsIntegrity, LeavesIntegrity};
ghost use Rattle.data_frames.specs.Sending.{send_key_of};
ghost use Rattle.data_frames.specs.Taking.{reason_of, refusal, taken_acts, IsOpenedTo, IsStoppedBy};
ghost use Rattle.data_frames.specs.Rows.{IsDataFrom, OpensBy};

/// A pairwise key in use stands for what a history gains: its installation, packet numbers used
/// with the peer, payloads handed up from it, and acts that are about neither. By the rules a node
/// sends to the peer, and opens what the peer sent to it alone, under the key of its session, so
/// under this one.
pub fn pairwise_keys_stand()
    ensures installed { (p : Node) (tk : List ℕ) (i : Inputs) (h : List Act)
        → HoldsPairwise p tk
        (record { role = roles.Pairwise; key = tk; used = 0; kept = replicate 16 0 })
        (Installed (One p) (Pairwise tk i) ∷ h) }
    ensures used { (p : Node) (tk : List ℕ) (k : Held) (id number : ℕ) (plain : List ℕ)
        (h : List Act) → HoldsPairwise p tk k h
        → HoldsPairwise p tk (with_next k) (Used (One p) tk id number plain ∷ h) }
    ensures taken { (p : Node) (tk header : List ℕ) (k : Held) (number : ℕ) (plain : List ℕ)
        (h : List Act) → HoldsPairwise p tk k h → kept_number k header < number
        → HoldsPairwise p tk (with_taken header number k)
        (HandedUp p tk 0 (traffic_identifier header) number plain ∷ h) }
    ensures other { (p : Node) (tk : List ℕ) (k : Held) (e : Act) (h : List Act)
        → HoldsPairwise p tk k h → LeavesPairwise p tk e → HoldsPairwise p tk k (e ∷ h) }
    ensures others { (p : Node) (tk : List ℕ) (k : Held) (g h : List Act) → HoldsPairwise p tk k h
        → AllByRecursion (LeavesPairwise p tk) g → HoldsPairwise p tk k (add g h) }
    ensures sends { (p : Node) (k : Held) (x : Derivation) (h : List Act) → session p h ≡ Some x
        → HoldsPairwise p x.ptk.tk k h → send_key h (One p) ≡ Some (send_key_of k) }
    ensures opens { (w : Here) (h : List Act) (p : Node) (f : SealedFields) (k : Held)
        (x : Derivation) → session p h ≡ Some x → HoldsPairwise p x.ptk.tk k h → IsSealedData f
        → is_for_group w.node f.header ≡ false → OpensBy w h p f k }
{}

/// The current group key of an access point in use stands for what a history gains: the key made
/// current, packet numbers used to all under its key id, and other acts. By the rules the access point sends to all
/// under it.
pub fn group_keys_in_use_stand()
    ensures made { (b : Mac) (key rest : List ℕ) (id : ℕ) (kept : List ℕ) (h : List Act)
        → current groups.Gtk (Installed All (Group groups.Gtk key id b) ∷ h)
        ≡ Some (record { key = key; id = id })
        → HoldsGroup (record { role = roles.Group id; key = key; used = 0; kept = kept })
        (Installed All (Group groups.Gtk key id b) ∷ h) }
    ensures used { (k : Held) (key : List ℕ) (id number : ℕ) (plain : List ℕ) (h : List Act)
        → k.role ≡ roles.Group id → HoldsGroup k h
        → HoldsGroup (with_next k) (Used All key id number plain ∷ h) }
    ensures other { (k : Held) (e : Act) (h : List Act)
        → HoldsGroup k h → LeavesGroup e → HoldsGroup k (e ∷ h) }
    ensures others { (k : Held) (g h : List Act) → HoldsGroup k h → AllByRecursion LeavesGroup g
        → HoldsGroup k (add g h) }
    ensures sends { (k : Held) (h : List Act) → HoldsGroup k h
        → send_key h All ≡ Some (send_key_of k) }
{}

/// The current IGTK of an access point in use stands for what a history gains: the key made current,
/// packet numbers used to all under its key id, and other acts. By the rules the access point
/// announces under it.
pub fn integrity_keys_in_use_stand()
    ensures made { (b : Mac) (key : List ℕ) (id : ℕ) (h : List Act)
        → current groups.Igtk (Installed All (Group groups.Igtk key id b) ∷ h)
        ≡ Some (record { key = key; id = id })
        → HoldsIntegrity (record { key = key; id = id; used = 0 })
        (Installed All (Group groups.Igtk key id b) ∷ h) }
    ensures used { (k : SendKey) (key : List ℕ) (id number : ℕ) (plain : List ℕ) (h : List Act)
        → k.id ≡ id → HoldsIntegrity k h
        → HoldsIntegrity (with_used k) (Used All key id number plain ∷ h) }
    ensures others { (k : SendKey) (g h : List Act) → HoldsIntegrity k h
        → AllByRecursion LeavesIntegrity g → HoldsIntegrity k (add g h) }
    ensures announces { (k : SendKey) (h : List Act) → HoldsIntegrity k h
        → group_send_key groups.Igtk h (current groups.Igtk h) ≡ Some k }
{}

/// An action frame that is taken under the IGTK by which the rules try it, with the receive counter
/// that the history puts it to, adds the row of the rules; so does one for which there is no key.
pub fn actions_add_their_row()
    ensures taken { (w : Here) (h : List Act) (p : Node) (octets : List ℕ) (f : ActionFields)
        (g : GroupKey) (kept : ℕ) → IsActionFrom w h p octets f
        → integrity_key p h f.body ≡ Some g → IsGot groups.Igtk p g.key g.id h kept
        → TakeRow w h octets (action_acts p octets f g (action_outcome f g kept)) }
    ensures keyless { (w : Here) (h : List Act) (p : Node) (octets : List ℕ) (f : ActionFields)
        → IsActionFrom w h p octets f → integrity_key p h f.body ≡ None
        → TakeRow w h octets (Took (Some p) octets Action (Refused NoKey) None ∷ []) }
{}

/// Protected data that is taken under the key by which the rules open it adds the row of the rules.
pub fn data_adds_its_row()
    ensures opened { (w : Here) (h : List Act) (p : Node) (octets : List ℕ) (f : SealedFields)
        (k new : Held) (plain : List ℕ) → IsDataFrom w h p octets f → OpensBy w h p f k
        → IsOpenedTo f k new plain → TakeRow w h octets (taken_acts p octets f k plain) }
    ensures refused { (w : Here) (h : List Act) (p : Node) (octets : List ℕ) (f : SealedFields)
        (k : Held) (why : GuardFault) → IsDataFrom w h p octets f → OpensBy w h p f k
        → IsStoppedBy f k why → TakeRow w h octets (refusal p octets (reason_of why)) }
{}
