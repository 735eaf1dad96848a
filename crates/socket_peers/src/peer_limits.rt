//! What is asked of each socket.

/// What a socket may do, and for how long. A socket that doesn't keep to it loses its place to others.
#[derive(Clone, Copy, Debug, PartialEq, Eq)]
pub struct PeerLimits {
    /// The seconds that a socket may stay to which nothing is sent. 0: for ever.
    pub idle: u64,
    /// The most sockets of one IP address, at whatever ports. 0: no bound.
    pub per_address: u64,
}

impl PeerLimits {
    /// None at all.
    pub const NONE: PeerLimits = PeerLimits {
        idle: 0,
        per_address: 0,
    };
}
