//! How a connection ended.

use bytes::Bytes;
use std::io::ErrorKind;
use ua_types::Status;

/// How a connection ended, for whoever reads it. Nothing is promised of it.
#[derive(Clone, Copy, Debug, PartialEq, Eq)]
pub enum End {
    /// Its client's input came to an end.
    Client,
    /// The server closed it, with the status of the last Error message that it sent there, if it sent one (IEC 62541-6, 7.1.2.5).
    Server(Option<Status>),
    /// Nothing was sent to it for so many seconds, as long as a socket may stay so.
    Silent(u64),
    /// It was owed so many bytes, more than may stay unsent.
    Owed(usize),
    /// A read or a write of its socket failed, for this reason. None: the socket took no byte, and said none.
    Failed(Option<ErrorKind>),
}

/// The status of an Error message, if this frame is one.
pub(crate) fn status_of_error(frame: &Bytes) -> Option<Status> {
    match frame.as_slice() {
        [b'E', b'R', b'R', b'F', _, _, _, _, a, b, c, d, ..] => {
            Some(Status(u32::from_le_bytes([*a, *b, *c, *d])))
        }
        _ => None,
    }
}
