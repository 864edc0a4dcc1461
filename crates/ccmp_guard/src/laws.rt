//! Laws of the definitions. The functions do nothing; their contracts are proved.

ghost use Rattle.std.specs.Prelude.{◌≡◌, ◌/◌, ℕ, List, drop, take, slice_index};
ghost use Rattle.domain_base.specs.Octets.{AreOctets};
ghost use Rattle.ccmp_guard.specs.Ccm.{Sealed};
ghost use Rattle.ccmp_guard.specs.Ccmp.{Protected, AgreeBodies};

/// Under one key, nonce and additional authenticated data a plain text is sealed to one list of
/// octets, and in a frame with one header, key id and packet number it is carried by bodies that
/// differ only where they are not looked at: in octet 2 and in bits 0 to 4 of octet 3.
pub fn a_plain_text_has_one_body()
    ensures sealed { (key nonce aad plain out other : List ℕ) → Sealed key nonce aad plain out
        → Sealed key nonce aad plain other → out ≡ other }
    ensures protected { (tk header : List ℕ) (id pn : ℕ) (plain body other : List ℕ)
        → AreOctets body → AreOctets other
        → Protected tk header id pn plain body → Protected tk header id pn plain other
        → AgreeBodies body other }
{}

/// Under one key, nonce and additional authenticated data no two plain texts are sealed to one list
/// of octets, and of a frame the header and body determine under one key the key id, the packet
/// number and the plain text.
pub fn a_body_has_one_plain_text()
    ensures sealed { (key nonce aad plain other out : List ℕ) → Sealed key nonce aad plain out
        → Sealed key nonce aad other out → plain ≡ other }
    ensures key_id { (tk header : List ℕ) (id pn other_id other_pn : ℕ) (plain other body : List ℕ)
        → Protected tk header id pn plain body → Protected tk header other_id other_pn other body
        → id ≡ other_id }
    ensures number { (tk header : List ℕ) (id pn other_id other_pn : ℕ) (plain other body : List ℕ)
        → Protected tk header id pn plain body → Protected tk header other_id other_pn other body
        → pn ≡ other_pn }
    ensures plain { (tk header : List ℕ) (id pn other_id other_pn : ℕ) (plain other body : List ℕ)
        → Protected tk header id pn plain body → Protected tk header other_id other_pn other body
        → plain ≡ other }
{}
