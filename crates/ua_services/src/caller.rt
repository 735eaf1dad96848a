//! A request whose header was read.

use server_messages::Origin;

/// Who asks, and how the client knows the answer.
#[derive(Clone, Copy, Debug, Drop)]
pub struct Caller {
    /// Of the request.
    pub origin: Origin,
    /// The random bytes with which its connection was opened.
    pub key: [u8; 32],
}
