//! Laws that inhabit the definitions of fast transition, those of data under a pairwise key that is
//! renewed, and those of protected management frames. The functions do nothing; their contracts are
//! proved.
//!
//! Each of fast transition has the same premises: a network in form with suite 4 that does not protect
//! management frames, whose addresses have six octets and whose mobility domain has two, all of octets,
//! as its R0KH-IDs are; two of its access points, and a station. The journal of each goes on from that
//! of the one before, and in each key holders answer rightly.

ghost use Rattle.std.specs.Prelude.{◌≡◌, ◌≢◌, ℕ, ◌<◌, Bool, true, false, List, ◌∷◌, length, Some, None};
ghost use Rattle.domain_base.specs.declared.names.Akm.{Akm};
ghost use Rattle.domain_base.specs.declared.names.Akm.TheVariants.{FtPsk};
ghost use Rattle.domain_base.specs.declared.names.Node.{Node};
ghost use Rattle.domain_base.specs.declared.names.Node.TheVariants.{Ap};
ghost use Rattle.domain_base.specs.Octets.{AreOctets};
ghost use Rattle.bip_guard.specs.Bip.{key_id_in};
ghost use Rattle.key_hierarchy.specs.Sizes.{IsSsid};
ghost use Rattle.run_journal.specs.declared.domain.Domain.{Domain};
ghost use Rattle.run_journal.specs.Events.{protects};
ghost use Rattle.run_journal.specs.declared.acts.Act.{Act};
ghost use Rattle.run_journal.specs.declared.acts.GroupKind.TheVariants as groups;
ghost use Rattle.run_journal.specs.Acts.{GroupKey, Derivation};
ghost use Rattle.run_journal.specs.Questions.{session, given};
ghost use Rattle.domain_rules.specs.DataExample.{IsPayload, HaveOctets};
ghost use Rattle.domain_rules.specs.Example.{AreWhole};
ghost use Rattle.domain_rules.specs.Network.{InForm, renews, renews_at, gtk};
ghost use Rattle.domain_rules.specs.RenewedKey.{renewing};
ghost use Rattle.domain_rules.specs.PacketNumbers.{open_key, group_open_key_by};
ghost use Rattle.domain_rules.specs.ManagementFrames.{integrity_key};
ghost use Rattle.example_domains.specs.Roaming.{CanRoam, HasAssociation, HasRoaming, HasService};
ghost use Rattle.example_domains.specs.Roaming.{HasReturn, HasRevocation, pair};
ghost use Rattle.example_domains.specs.EitherAnswer.{HasEitherAnswer};
ghost use Rattle.example_domains.specs.ChangedKey.{second_pair, HasChange, HasAnew};
ghost use Rattle.example_domains.specs.SecondChange.{HasSecondChange};
ghost use Rattle.example_domains.specs.Protection.{protecting, HasProtection};
ghost use Rattle.example_domains.specs.ProtectedRoaming.{protecting_pair, HasProtectedRoaming};
ghost use Rattle.example_domains.specs.UsedKeys.{Carried, AreCarried, HasUsedKeys};

use domain_rules::looks_are_right;

/// The definitions of fast transition are not about nothing: the station asks an access point for
/// association (IEEE Std 802.11-2020, 13.4.2), both end the four-way handshake with one pairwise
/// key of the same inputs installed, and the station with the access point's group key, and the
/// access point puts the station's PMK-R0 with its key holder. And there are such networks.
pub fn association_is_explained()
    ensures whole { (d : Domain) (k l m : ℕ) → CanRoam d k l m → HasAssociation d k m }
    ensures network { (seed ssid psk mdid : List ℕ) → IsSsid ssid → length mdid ≡ 2
        → AreOctets mdid → CanRoam (pair seed ssid psk mdid) 0 1 0 }
{
    looks_are_right();
}

/// Then it roams to the other access point over the air (13.5.2), which looks its key up with the
/// holder of the first and is given its PMK-R1: both install one pairwise key of it, of the nonces
/// of the fast transition, and the station the other access point's group key, as it leaves its
/// first session. The reassociation request comes once more, and is answered with the same octets.
pub fn roaming_is_explained()
    ensures { (d : Domain) (k l m : ℕ) → CanRoam d k l m → HasRoaming d k l m }
{
    looks_are_right();
}

/// Then a payload of the station and one of the other access point for it are each sent under the
/// first packet number of that key and handed up with it.
pub fn service_is_explained()
    ensures { (d : Domain) (k l m : ℕ) (up down : List ℕ) → CanRoam d k l m → IsPayload up
        → IsPayload down → HasService d k l m up down }
{
    looks_are_right();
}

/// Then it roams back to the first access point, whose own holder has its key: both install a new
/// pairwise key in place of the one of the association, and the station resumes the group key that
/// it has of that access point.
pub fn return_is_explained()
    ensures { (d : Domain) (k l m : ℕ) (up down : List ℕ) → CanRoam d k l m → IsPayload up
        → IsPayload down → HasReturn d k l m up down }
{
    looks_are_right();
}

/// Then the first access point revokes the key: where the station roams to the other one again, the
/// look finds none, and the request is refused with status 53, an invalid PMKID (9.4.1.9).
pub fn revocation_is_explained()
    ensures { (d : Domain) (k l m : ℕ) (up down : List ℕ) → CanRoam d k l m → IsPayload up
        → IsPayload down → HasRevocation d k l m up down }
{
    looks_are_right();
}

/// The order of what two access points do in one round is free: where the first one revokes the key in
/// the round in which the other one looks it up, two journals are explained by the same rounds, and key
/// holders answer rightly in both. In one the look finds the key, and the request is accepted; in the
/// other it finds none, and the request is refused.
pub fn either_answer_is_right()
    ensures { (d : Domain) (k l m : ℕ) → CanRoam d k l m → HasEitherAnswer d k l m }
{
    looks_are_right();
}

/// Where the key of a station is changed after it asked for a fast transition, the request is refused
/// with status 53: the first access point revokes the row of the old key, and the look finds none.
/// Both access points and the station end what they have under the old key and note the new one.
pub fn changed_key_is_explained()
    ensures { (seed ssid psk mdid key : List ℕ) → IsSsid ssid → length mdid ≡ 2 → AreOctets mdid
        → HasChange (second_pair seed ssid psk mdid) key }
{
    looks_are_right();
}

/// Then the station associates anew with the first access point: both install a pairwise key that is
/// made of the new key, the station resumes the group key that it has, and the access point puts the
/// PMK-R0 of the new key with its key holder.
pub fn association_anew_is_explained()
    ensures { (seed ssid psk mdid key : List ℕ) → IsSsid ssid → length mdid ≡ 2 → AreOctets mdid
        → HasAnew (second_pair seed ssid psk mdid) key }
{
    looks_are_right();
}

/// Then it asks the other access point for a fast transition, which is given a PMK-R1 of the new key, and
/// then its key is changed again. What a look finds is made of the station's key as the round began, which
/// here is neither that of the header nor the last one. At each access point the row of the old key is
/// revoked, or told to be absent, the attempt and the session with the station end, and the new key is noted,
/// in that order; the station drops its attempt and its session and notes it.
pub fn second_change_is_explained()
    ensures { (seed ssid psk mdid key last : List ℕ) → IsSsid ssid → length mdid ≡ 2
        → AreOctets mdid → HasSecondChange (second_pair seed ssid psk mdid) key last }
{
    looks_are_right();
}

/// Where management frames are protected, both access points give the station an IGTK beside the GTK: the
/// first one by M3 of the association (12.7.6.4), the other one in the FTE of its reassociation response
/// (13.8.5), as the station roams to it.
pub fn protected_roaming_is_explained()
    ensures { (seed ssid psk mdid : List ℕ) → IsSsid ssid → length mdid ≡ 2 → AreOctets mdid
        → HasProtectedRoaming (protecting_pair seed ssid psk mdid) 0 1 0 }
{
    looks_are_right();
}

/// The definitions of the renewal of a pairwise key and of data are met together: after a four-way
/// handshake, in every network in form with suite 2 or 6 that renews pairwise keys and does not
/// protect management frames, whose addresses are of six octets, a payload of the station is sent
/// under the first packet number of its key and handed up. The access point renews the key, M3 is
/// lost, a new group key is given under the key in use, where the two differ, and M3 comes again;
/// then a payload each way is sent under the first packet number of the new key and handed up. That
/// is so where no renewal is due with packet number 1. And there are such networks.
pub fn renewed_key_is_used()
    ensures whole { (d : Domain) (a s : ℕ) (p : Carried) → InForm d → AreWhole d → HaveOctets d
        → d.akm ≢ FtPsk → protects d ≡ false → a < length d.aps → s < length d.stas
        → AreCarried p → renews d ≡ true → renews_at d 1 ≡ false → gtk d (Ap a) 3 ≢ gtk d (Ap a) 0
        → HasUsedKeys d a s p }
    ensures network { (akm : Akm) (seed ssid psk : List ℕ) → IsSsid ssid → akm ≢ FtPsk
        → InForm (renewing akm None seed ssid psk) × AreWhole (renewing akm None seed ssid psk)
        × HaveOctets (renewing akm None seed ssid psk)
        × (renews (renewing akm None seed ssid psk) ≡ true)
        × (renews_at (renewing akm None seed ssid psk) 1 ≡ false)
        × (protects (renewing akm None seed ssid psk) ≡ false) }
{}

/// The definitions of protected management frames are met (IEEE Std 802.11-2020, 12.5.4, 12.7.7): in a
/// small network with suite 6 a station installs the GTK and the IGTK of the access point by M3, and an
/// announcement is sent under the first packet number of the IGTK and handed up with it; the next one
/// does not come yet. As the station associates anew it resumes both keys, and the receive counter goes
/// on with the IPN that M3 tells: the announcement that comes once more, and the one that comes late,
/// are refused as replayed, and the third is handed up. New keys of both kinds are given by G1, and
/// with G2 both become current, where they differ from the first. And the network is in form.
pub fn protection_is_explained()
    ensures whole { (seed ssid psk first second third : List ℕ)
        → gtk (protecting seed ssid psk) (Ap 0) 4 ≢ gtk (protecting seed ssid psk) (Ap 0) 0
        → gtk (protecting seed ssid psk) (Ap 0) 5 ≢ gtk (protecting seed ssid psk) (Ap 0) 1
        → HasProtection (protecting seed ssid psk) first second third }
    ensures network { (seed ssid psk : List ℕ) → IsSsid ssid → InForm (protecting seed ssid psk) }
{}

/// Of the group keys of one kind that a station was given by an access point it tries the last one where
/// a frame of that access point names its key id, also where it remembers an earlier one with that key
/// id: for data to a group (IEEE Std 802.11-2020, 12.5.3.4.4), and for an Action frame (12.5.4.4). And
/// without a session nothing is tried, neither a key of the session before it nor a group key.
pub fn last_group_key_is_tried()
    ensures payload { (p : Node) (h : List Act) (x : Derivation) (g : GroupKey) (older : List GroupKey)
        (tid : ℕ) → session p h ≡ Some x → given groups.Gtk p h ≡ g ∷ older
        → open_key p h true tid g.id ≡ group_open_key_by p h (Some g) }
    ensures announcement { (p : Node) (h : List Act) (x : Derivation) (g : GroupKey)
        (older : List GroupKey) (body : List ℕ) → session p h ≡ Some x
        → given groups.Igtk p h ≡ g ∷ older → key_id_in body ≡ g.id
        → integrity_key p h body ≡ Some g }
    ensures left { (p : Node) (h : List Act) (to_group : Bool) (tid id : ℕ) (body : List ℕ)
        → session p h ≡ None
        → (open_key p h to_group tid id ≡ None) × (integrity_key p h body ≡ None) }
{}
