//! Laws over the definitions, each as the contract of a function that does nothing.

ghost use Rattle.std.specs.Prelude.{◌≡◌, ℕ, ◌+◌, ◌^◌, ◌<◌, ◌≤◌, ◌++◌, List, None, length, take};
ghost use Rattle.std.specs.Prelude.{drop};
ghost use Rattle.std.specs.Int.{w16};
ghost use Rattle.domain_base.specs.Octets.{AreOctets};
ghost use Rattle.domain_base.specs.Places.{big_endian_at};
ghost use Rattle.domain_base.specs.declared.names.Akm.{Akm};
ghost use Rattle.mac_prf.specs.Mic.{mic};
ghost use Rattle.eapol_key.specs.declared.messages.Message.{Message};
ghost use Rattle.eapol_key.specs.KeyFrame.{KeyFields, SpellsKeyFrame, fields_at, key_frame_fault};
ghost use Rattle.eapol_key.specs.Messages.{IsMessage};
ghost use Rattle.eapol_key.specs.Octets.{FitsKeyFrame, frame_octets};
ghost use Rattle.eapol_key.specs.Sealed.{sealed};
ghost use Rattle.eapol_key.specs.Sent.{IsSentWith, sent_fields};

/// Fields that fit a frame are spelled by their octets, whatever stands behind these.
pub fn spelled_as_written()
    ensures { (f : KeyFields) (rest : List ℕ) → FitsKeyFrame f
        → SpellsKeyFrame (frame_octets f ++ rest) f (99 + length f.key_data) }
{}

/// Octets begin with one frame at most.
pub fn one_frame()
    ensures { (octets : List ℕ) (f g : KeyFields) (used taken : ℕ)
        → SpellsKeyFrame octets f used → SpellsKeyFrame octets g taken
        → (f ≡ g) × (used ≡ taken) }
{}

/// The octets of a frame alone decide that they spell it, and not what stands behind them.
pub fn front_decides()
    ensures { (octets other : List ℕ) (f : KeyFields) (used : ℕ)
        → SpellsKeyFrame octets f used → take used other ≡ take used octets
        → SpellsKeyFrame other f used }
{}

/// Octets begin with a frame exactly where they have no fault.
pub fn frame_or_fault()
    ensures frame { (octets : List ℕ) (f : KeyFields) (used : ℕ)
        → SpellsKeyFrame octets f used → key_frame_fault octets ≡ None }
    ensures faultless { (octets : List ℕ) → key_frame_fault octets ≡ None
        → let used = big_endian_at w16 2 octets + 4 in
        SpellsKeyFrame octets (fields_at used octets) used }
{}

/// A frame is one message at most.
pub fn one_message()
    ensures { (akm : Akm) (f : KeyFields) (m n : Message)
        → IsMessage akm m f → IsMessage akm n f → m ≡ n }
{}

/// A sealed frame is the frame of the same fields with its MIC.
pub fn sealed_octets()
    ensures { (akm : Akm) (kck : List ℕ) (f : KeyFields) → FitsKeyFrame f
        → sealed akm kck (frame_octets f)
        ≡ frame_octets (record f { mic = mic akm kck (frame_octets f) }) }
{}

/// The MIC of a sealed frame is the one that it carries.
pub fn sealed_verifies()
    ensures { (akm : Akm) (kck frame : List ℕ) → 97 ≤ length frame
        → mic akm kck (sealed akm kck frame) ≡ mic akm kck frame }
{}

/// Sixteen octets in its MIC field make a frame the one of the same fields with that MIC: this is
/// what sealing does, and taking the MIC as zero.
pub fn mic_alone_changes()
    ensures { (octets code : List ℕ) (f : KeyFields) (used : ℕ)
        → SpellsKeyFrame octets f used → length code ≡ 16
        → SpellsKeyFrame (take 81 octets ++ code ++ drop 97 octets) (record f { mic = code }) used }
{}

/// The octets of a frame are the fields that they spell, one after the other.
pub fn read_as_written()
    ensures { (octets : List ℕ) (f : KeyFields) (used : ℕ)
        → AreOctets octets → SpellsKeyFrame octets f used
        → take used octets ≡ frame_octets f }
{}

/// What is sent fits its frame, and is the message that it is sent as.
pub fn sent_is_message()
    ensures fits { (message : Message) (akm : Akm) (counter rsc : ℕ) (nonce key_data : List ℕ)
        → counter < 2 ^ 64 → length nonce ≡ 32 → length key_data ≤ 65440
        → FitsKeyFrame (sent_fields message akm counter nonce rsc key_data) }
    ensures message { (message : Message) (akm : Akm) (counter rsc : ℕ) (nonce key_data : List ℕ)
        → IsSentWith message key_data
        → IsMessage akm message (sent_fields message akm counter nonce rsc key_data) }
{}
