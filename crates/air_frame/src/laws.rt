//! Laws of the definitions. The functions do nothing; their contracts are proved.

ghost use Rattle.std.specs.Prelude.{◌≡◌, ◌≢◌, ◌≤◌, ◌<◌, ◌^◌, ◌%◌, ◌↔◌, ℕ, List, Option, None};
ghost use Rattle.std.specs.Prelude.{Some, IfSome, false, true, length, slice_index};
ghost use Rattle.std.specs.Int.{bit_at};
ghost use Rattle.domain_base.specs.Octets.{AreOctets};
ghost use Rattle.air_frame.specs.declared.frame.Direction.{Direction};
ghost use Rattle.air_frame.specs.Fields.{AirFields, assoc_req, assoc_resp, ft_req, ft_resp, re_req};
ghost use Rattle.air_frame.specs.Fields.{re_resp, action, eapol, protected, ignored, air_at};
ghost use Rattle.air_frame.specs.Control.{ends_in_mme};
ghost use Rattle.air_frame.specs.Faults.{air_fault};
ghost use Rattle.air_frame.specs.Spelled.{SpellsAir};
ghost use Rattle.air_frame.specs.Sent.{air_octets, IsAddress, management_header_octets};
ghost use Rattle.air_frame.specs.Sent.{data_header_octets, assoc_req_octets, assoc_resp_octets};
ghost use Rattle.air_frame.specs.Sent.{re_req_octets, re_resp_octets, ft_req_octets};
ghost use Rattle.air_frame.specs.Sent.{ft_resp_octets, action_octets, eapol_data_octets};
ghost use Rattle.air_frame.specs.Sent.{protected_data_octets};
ghost use Rattle.air_frame.specs.Sent.{sent_header};

/// Octets are a frame exactly where they have no fault, and then one frame alone. So a fault and a
/// frame exclude each other, and one of them is always there.
pub fn one_frame_or_one_fault()
    ensures { (octets : List ℕ) (f : AirFields)
        → SpellsAir octets f ↔ ((air_fault octets ≡ None) × (f ≡ air_at octets)) }
{}

/// The octets that are a frame are those that are written for it.
pub fn a_frame_has_one_spelling()
    ensures { (octets : List ℕ) (f : AirFields) → AreOctets octets → SpellsAir octets f
        → f ≢ ignored → air_octets f ≡ octets }
{}

/// Management frames as they are sent are the frames with just these fields.
pub fn sent_management_is_spelled()
    ensures assoc_req { (a1 a2 a3 elements : List ℕ) → IsAddress a1 → IsAddress a2 → IsAddress a3
        → SpellsAir (assoc_req_octets a1 a2 a3 elements)
        (assoc_req (sent_header (management_header_octets 0 a1 a2 a3) a1 a2 a3) 0x11 10 elements) }
    ensures assoc_resp { (a1 a2 a3 elements : List ℕ) (status aid : ℕ) → IsAddress a1 → IsAddress a2
        → IsAddress a3 → status < 2 ^ 16 → aid < 2 ^ 16
        → SpellsAir (assoc_resp_octets a1 a2 a3 status aid elements)
        (assoc_resp (sent_header (management_header_octets 1 a1 a2 a3) a1 a2 a3) 0x11 status aid
        elements) }
    ensures re_req { (a1 a2 a3 current_ap elements : List ℕ) → IsAddress a1 → IsAddress a2
        → IsAddress a3 → IsAddress current_ap
        → SpellsAir (re_req_octets a1 a2 a3 current_ap elements)
        (re_req (sent_header (management_header_octets 2 a1 a2 a3) a1 a2 a3) 0x11 10 current_ap
        elements) }
    ensures re_resp { (a1 a2 a3 elements : List ℕ) (status aid : ℕ) → IsAddress a1 → IsAddress a2
        → IsAddress a3 → status < 2 ^ 16 → aid < 2 ^ 16
        → SpellsAir (re_resp_octets a1 a2 a3 status aid elements)
        (re_resp (sent_header (management_header_octets 3 a1 a2 a3) a1 a2 a3) 0x11 status aid
        elements) }
    ensures ft_req { (a1 a2 a3 elements : List ℕ) → IsAddress a1 → IsAddress a2 → IsAddress a3
        → SpellsAir (ft_req_octets a1 a2 a3 elements)
        (ft_req (sent_header (management_header_octets 11 a1 a2 a3) a1 a2 a3) 0 elements) }
    ensures ft_resp { (a1 a2 a3 elements : List ℕ) (status : ℕ) → IsAddress a1 → IsAddress a2
        → IsAddress a3 → status < 2 ^ 16
        → SpellsAir (ft_resp_octets a1 a2 a3 status elements)
        (ft_resp (sent_header (management_header_octets 11 a1 a2 a3) a1 a2 a3) status elements) }
    ensures action { (a1 a2 a3 body : List ℕ) → IsAddress a1 → IsAddress a2 → IsAddress a3
        → slice_index a1 0 % 2 ≡ 1 → 19 ≤ length body → ends_in_mme body ≡ true
        → SpellsAir (action_octets a1 a2 a3 body)
        (action (sent_header (management_header_octets 13 a1 a2 a3) a1 a2 a3) body) }
{}

/// Data frames as they are sent are the frames with just these fields.
pub fn sent_data_is_spelled()
    ensures eapol { (direction : Direction) (a1 a2 a3 octets : List ℕ) → IsAddress a1 → IsAddress a2
        → IsAddress a3
        → SpellsAir (eapol_data_octets direction a1 a2 a3 octets)
        (eapol (sent_header (data_header_octets direction false None a1 a2 a3) a1 a2 a3) direction
        None octets) }
    ensures protected { (direction : Direction) (tid : Option ℕ) (a1 a2 a3 body : List ℕ)
        → IfSome tid (λ t. t < 16)
        → IsAddress a1 → IsAddress a2 → IsAddress a3 → 16 ≤ length body
        → bit_at (slice_index body 3) 5 ≡ 1
        → SpellsAir (protected_data_octets direction tid a1 a2 a3 body)
        (protected (sent_header (data_header_octets direction true tid a1 a2 a3) a1 a2 a3) direction
        tid body) }
{}
