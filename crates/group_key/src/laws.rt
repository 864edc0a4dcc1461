//! What the calls do stands for what a history gains. The functions do nothing; their contracts are
//! proved.

ghost use Rattle.std.specs.Prelude.{◌≡◌, ℕ, ◌<◌, ◌==◌, nat_lt, if◌then◌else◌, suc, List, [], ◌∷◌};
ghost use Rattle.std.specs.Prelude.{map, Option, None, Some, option_map, Bool, true, false};
ghost use Rattle.std.specs.List.{AllByRecursion};
ghost use Rattle.domain_base.specs.declared.names.Mac.{Mac};
ghost use Rattle.domain_base.specs.declared.names.Node.{Node};
ghost use Rattle.domain_base.specs.declared.names.Peer.TheVariants.{All};
ghost use Rattle.eapol_key.specs.declared.messages.Message.{Message};
ghost use Rattle.run_journal.specs.declared.acts.Drawn.TheVariants as draw;
ghost use Rattle.run_journal.specs.declared.acts.Key.TheVariants.{Group};
ghost use Rattle.run_journal.specs.declared.acts.Kind.TheVariants.{Key, ReResp};
ghost use Rattle.run_journal.specs.declared.acts.Outcome.TheVariants.{Accepted};
ghost use Rattle.run_journal.specs.declared.acts.Seal.{Seal};
ghost use Rattle.run_journal.specs.declared.acts.Act.{Act};
ghost use Rattle.run_journal.specs.declared.acts.Act.TheVariants.{Drew, Took, Installed, HandedUp};
ghost use Rattle.run_journal.specs.Questions.{group_keys, switches, group_uses, draws, add};
ghost use Rattle.run_journal.specs.Acts.{GroupKey as Carried, given_from};
ghost use Rattle.run_journal.specs.declared.acts.GroupKind.{GroupKind};
ghost use Rattle.run_journal.specs.declared.acts.GroupKind.TheVariants as groups;
ghost use Rattle.run_journal.specs.declared.domain.Domain.{Domain};
ghost use Rattle.run_journal.specs.Events.{protects};
ghost use Rattle.run_journal.specs.GroupKinds.{same_group_kind};
ghost use Rattle.domain_rules.specs.GroupKeys.{newest, newest_uses, news, is_current, memory};
ghost use Rattle.domain_rules.specs.GroupKeys.{find_key, give, told, rsc_in, rsc_in_response};
ghost use Rattle.domain_rules.specs.IntegrityKeys.{IsTold, IsGot};
ghost use Rattle.domain_rules.specs.Network.{gtk};
ghost use Rattle.domain_rules.specs.Owing.{is_older, current_acts};
ghost use Rattle.domain_rules.specs.AccessPointRows.{draw_acts, start_acts};
ghost use Rattle.group_key.specs.declared.keys.GroupKey.{GroupKey};
ghost use Rattle.group_key.specs.declared.keys.Pair.{Pair};
ghost use Rattle.group_key.specs.declared.news.News.{News};
ghost use Rattle.group_key.specs.Keys.{Pairs, Kept, kept_id, given, found, taken};
ghost use Rattle.group_key.specs.Keys.{started as started_by, drawn as drawn_by};
ghost use Rattle.group_key.specs.Keys.{switched as switched_by, is_integrity_id};
ghost use Rattle.group_key.specs.Keys.{started_all, drawn_all, switched_all, igtk_drawn};
ghost use Rattle.group_key.specs.Holds.{IsLast, Holds, HoldsAll, LeavesGroupKeys};
ghost use Rattle.group_key.specs.Holds.{CarriesGroupKey, Remembers, is_integrity};
ghost use Rattle.group_key.specs.Holds.{carried, key_of, under};
ghost use Rattle.group_key.specs.News.{IsNewest, carried_news, newest_news};

/// The keys of an access point stand for its history: after the first key was drawn and made
/// current (`GroupKeys::new`), after one more was drawn (`rekey`), after the newest of the
/// definitions was made current (`switch`), and after acts that neither draw a group key nor make
/// one current.
///
/// The key drawn last is the newest of the definitions, and it is in use (`is_pending` is false,
/// `rekey` is not refused) exactly where the newest of the history is current. As many packet
/// numbers as the history used to all were used under the newest, but none as long as it is not in
/// use. A key drawn earlier is older where its number is less. Key ids of GTKs are below 4, and
/// a key's number is below the number of values drawn.
pub fn keys_stand()
    ensures started { (kind : GroupKind) (key : List ℕ) (h : List Act)
        → group_keys kind h ≡ key ∷ []
        → switches kind h ≡ key ∷ []
        → Holds kind (started_by kind key) h }
    ensures drawn { (kind : GroupKind) (s : Pair) (key : List ℕ) (h : List Act) → Holds kind s h
        → Holds kind (drawn_by kind key s) (Drew (draw.Group kind key) ∷ h) }
    ensures switched { (kind : GroupKind) (s : Pair) (b : Mac) (h : List Act) → Holds kind s h
        → s.newest.place ≡ suc s.current.place
        → Holds kind (switched_by s)
        (Installed All (Group kind (newest kind h).key (newest kind h).id b) ∷ h) }
    ensures other { (kind : GroupKind) (s : Pair) (e : Act) (h : List Act) → Holds kind s h
        → LeavesGroupKeys kind e
        → Holds kind s (e ∷ h) }
    ensures others { (kind : GroupKind) (s : Pair) (g h : List Act) → Holds kind s h
        → AllByRecursion (LeavesGroupKeys kind) g
        → Holds kind s (add g h) }
    ensures newest { (kind : GroupKind) (s : Pair) (h : List Act) → Holds kind s h
        → newest kind h ≡ carried s.newest }
    ensures in_use { (kind : GroupKind) (s : Pair) (h : List Act) → Holds kind s h
        → is_current kind h ≡ (s.newest.place == s.current.place) }
    ensures uses { (kind : GroupKind) (s : Pair) (h : List Act) → Holds kind s h
        → newest_uses kind h
        ≡ (if s.newest.place == s.current.place then group_uses kind h else 0) }
    ensures older { (kind : GroupKind) (k n : GroupKey) (past h : List Act)
        → IsLast kind k (group_keys kind past)
        → IsLast kind n (group_keys kind h)
        → is_older kind past h ≡ nat_lt k.place n.place }
    ensures id { (k : GroupKey) (h : List Act) → IsLast groups.Gtk k (group_keys groups.Gtk h)
        → k.id < 4 }
    ensures place { (kind : GroupKind) (k : GroupKey) (h : List Act)
        → IsLast kind k (group_keys kind h)
        → k.place < draws h }
{}

/// The keys of both kinds of an access point stand for its history together, where it protects
/// management frames: the IGTKs are drawn, and made current, with the GTKs. Else there is no IGTK.
/// So they stand as the access point starts (`GroupKeys::new`), as it draws (`rekey`), and as the
/// newest become current (`switch`).
///
/// With the counts of packet numbers that the history used under them they are what its messages
/// carry (`News`), which are the newest group keys of the definitions.
pub fn all_keys_stand()
    ensures started { (d : Domain) (n : Node) (first : ℕ)
        → HoldsAll (protects d)
        (started_all (gtk d n first) (igtk_drawn (protects d) d n (suc first)))
        (add (start_acts d first n) []) }
    ensures drawn { (d : Domain) (n : Node) (number : ℕ) (s : Pairs) (h : List Act)
        → HoldsAll (protects d) s h
        → HoldsAll (protects d)
        (drawn_all (gtk d n number) (igtk_drawn (protects d) d n (suc number)) s)
        (add (draw_acts d n number) h) }
    ensures switched { (d : Domain) (n : Node) (s : Pairs) (h : List Act)
        → HoldsAll (protects d) s h → s.gtk.newest.place ≡ suc s.gtk.current.place
        → HoldsAll (protects d) (switched_all s) (add (current_acts d n h) h) }
    ensures other { (protected : Bool) (s : Pairs) (e : Act) (h : List Act)
        → HoldsAll protected s h → LeavesGroupKeys groups.Gtk e → LeavesGroupKeys groups.Igtk e
        → HoldsAll protected s (e ∷ h) }
    ensures others { (protected : Bool) (s : Pairs) (g h : List Act) → HoldsAll protected s h
        → AllByRecursion (LeavesGroupKeys groups.Gtk) g
        → AllByRecursion (LeavesGroupKeys groups.Igtk) g
        → HoldsAll protected s (add g h) }
    ensures newest { (d : Domain) (s : Pairs) (rsc ipn : ℕ) (h : List Act)
        → HoldsAll (protects d) s h → newest_uses groups.Gtk h ≡ rsc
        → (protects d ≡ true → newest_uses groups.Igtk h ≡ ipn)
        → IsNewest d (newest_news s rsc ipn) h }
    ensures carried { (d : Domain) (n : News) (h : List Act) → IsNewest d n h
        → news d h ≡ carried_news n }
    ensures in_use { (s : Pairs) (t : Pair) (h : List Act) → HoldsAll true s h → s.igtk ≡ Some t
        → is_current groups.Igtk h ≡ is_current groups.Gtk h }
{}

/// The memory of the group keys of one kind of a station stands for its history: at first, after a
/// key of that kind was given (`give`) with what was told of it as its RSC, or as the IPN of an IGTK,
/// after the payload of a packet number above the counter of the key found (`find`) was handed up
/// and that number was taken (`take`), after a key of the other kind was given or a payload handed up
/// under a key id of the other kind, and after any act that installs no group key of that kind of
/// that access point and changes no receive counter.
///
/// A key is found in it as the definitions find it (`id_of`), and the counter that `find` gives is
/// that of the history. Which keys it holds depends on what was given alone, whatever numbers come
/// with it. An M3 and a G1 tell the number of a GTK in their RSC field as they are accepted, and a
/// reassociation response in the GTK subelement of its FTE.
pub fn memory_stands()
    ensures started { (kind : GroupKind) (p : Node) → Remembers kind p [] [] }
    ensures given { (kind : GroupKind) (p : Node) (b : Mac) (g : Carried) (rsc : ℕ)
        (ks : List Kept) (h : List Act)
        → Remembers kind p ks h → IsTold kind p h rsc → is_integrity_id g.id ≡ is_integrity kind
        → Remembers kind p (given g.key g.id rsc ks) (give kind p b g h ∷ h) }
    ensures taken { (kind : GroupKind) (p : Node) (id tid number : ℕ) (octets : List ℕ) (k : Kept)
        (ks : List Kept) (h : List Act)
        → Remembers kind p ks h → found id ks ≡ Some k → k.counter < number
        → Remembers kind p (taken id number ks) (HandedUp p k.key id tid number octets ∷ h) }
    ensures other { (kind : GroupKind) (p : Node) (e : Act) (ks : List Kept) (h : List Act)
        → Remembers kind p ks h → given_from kind p e ≡ None
        → ((key : List ℕ) (id n : ℕ) → is_integrity_id id ≡ is_integrity kind
        → IsGot kind p key id h n → IsGot kind p key id (e ∷ h) n)
        → Remembers kind p ks (e ∷ h) }
    ensures other_given { (kind other : GroupKind) (p q : Node) (b : Mac) (g : Carried)
        (ks : List Kept) (h k : List Act) → same_group_kind kind other ≡ false
        → Remembers kind p ks h → Remembers kind p ks (give other q b g k ∷ h) }
    ensures other_taken { (kind other : GroupKind) (p q : Node) (key : List ℕ)
        (id tid number : ℕ) (octets : List ℕ) (ks : List Kept) (h : List Act)
        → same_group_kind kind other ≡ false → is_integrity_id id ≡ is_integrity other
        → Remembers kind p ks h
        → Remembers kind p ks (HandedUp q key id tid number octets ∷ h) }
    ensures found { (kind : GroupKind) (p : Node) (key : List ℕ) (ks : List Kept) (h : List Act)
        → map key_of ks ≡ memory kind p h
        → find_key key (memory kind p h) ≡ option_map (under key) (kept_id key ks) }
    ensures counted { (kind : GroupKind) (p : Node) (id : ℕ) (k : Kept) (ks : List Kept)
        (h : List Act)
        → Remembers kind p ks h → found id ks ≡ Some k
        → (k.id ≡ id) × IsGot kind p k.key id h k.counter }
    ensures keys_given { (kind : GroupKind) (p : Node) (b : Mac) (g : Carried) (rsc : ℕ)
        (ks : List Kept) (h : List Act) → map key_of ks ≡ memory kind p h
        → map key_of (given g.key g.id rsc ks) ≡ memory kind p (give kind p b g h ∷ h) }
    ensures told { (p : Node) (m : Message) (octets : List ℕ) (s : Option Seal) (h : List Act)
        → CarriesGroupKey m
        → told p (Took (Some p) octets (Key m) Accepted s ∷ h) ≡ rsc_in octets }
    ensures told_in_response { (p : Node) (octets : List ℕ) (s : Option Seal) (h : List Act)
        → told p (Took (Some p) octets ReResp Accepted s ∷ h) ≡ rsc_in_response octets }
    ensures keys_taken { (id number : ℕ) (ks : List Kept)
        → map key_of (taken id number ks) ≡ map key_of ks }
{}
