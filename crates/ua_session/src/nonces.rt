//! Nonces: bytes that no client can foresee, and that are never given twice.

ghost use Rattle.std.specs.Prelude.{◌≡◌};
ghost use Rattle.ua_session.specs.Nonces.{nonce_of};

use sha2::{Digest, Sha256};

/// The nonce with this serial, for a client on a connection with this key: SHA-256 of the key and of the
/// serial's 8 bytes, the lowest first.
#[tactic(auto, unfolding(crate::specs::Nonces::nonce_of))]
pub fn nonce(key: &[u8; 32], serial: u64) -> [u8; 32]
    ensures { result ≡ nonce_of key.now serial }
{
    let mut hasher = Sha256::new();
    hasher.update(&key[..]);
    hasher.update(&serial.to_le_bytes()[..]);
    hasher.finalize()
}
