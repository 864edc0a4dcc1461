//! Keyed digests and what is made with them: HMAC, CMAC, the two functions that expand a key,
//! PBKDF2, and the MICs of EAPOL-Key frames and of fast transition.
#![tactic(auto)]

mod block_hash;
mod blocks;
mod chaining;
mod expansion;
mod hmac;
mod integrity;
mod passphrase;
mod reassociation;

pub use chaining::{cmac, cmac_of_pieces};
pub use expansion::{KdfKey, kdf, prf};
pub use hmac::{hmac_sha1, hmac_sha256};
pub use integrity::{KeptMicKey, mic};
pub use passphrase::pbkdf2;
pub use reassociation::{FteCovered, Reassociation, fte_mic, verify_fte_mic};
