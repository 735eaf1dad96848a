//! A request.

use bytes::Bytes;

/// A request that came whole on a connection.
#[derive(Debug, Drop)]
pub struct Request {
    /// The number of the connection that it came by.
    pub conn: u64,
    /// The random bytes with which that connection was opened.
    pub key: [u8; 32],
    /// The request's number on that connection, chosen by the client. The reply has it too.
    pub id: u32,
    /// The type id and fields.
    pub body: Bytes,
}
