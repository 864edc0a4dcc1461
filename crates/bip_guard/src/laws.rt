//! A law of the definitions. The function does nothing; its contract is proved.

ghost use Rattle.std.specs.Prelude.{◌≡◌, ℕ, List};
ghost use Rattle.bip_guard.specs.Bip.{BipProtected};

/// A protected body determines its content, key id and packet number, whatever the key and header.
pub fn a_body_has_one_content()
    ensures content { (igtk header key other_header : List ℕ) (id ipn other_id other_ipn : ℕ)
        (content other body : List ℕ) → BipProtected igtk header id ipn content body
        → BipProtected key other_header other_id other_ipn other body → content ≡ other }
    ensures key_id { (igtk header key other_header : List ℕ) (id ipn other_id other_ipn : ℕ)
        (content other body : List ℕ) → BipProtected igtk header id ipn content body
        → BipProtected key other_header other_id other_ipn other body → id ≡ other_id }
    ensures number { (igtk header key other_header : List ℕ) (id ipn other_id other_ipn : ℕ)
        (content other body : List ℕ) → BipProtected igtk header id ipn content body
        → BipProtected key other_header other_id other_ipn other body → ipn ≡ other_ipn }
{}
