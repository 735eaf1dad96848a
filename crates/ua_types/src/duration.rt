//! Spans of time.

/// A span of time (Duration, IEC 62541-3, 8.13): the eight bytes of a double in milliseconds, as
/// they stand on the wire. The server carries them and never computes with them.
#[derive(Clone, Copy, Debug, PartialEq, Eq)]
pub struct Duration(pub [u8; 8]);
