//! What a frame asks for.

use server_messages::Request;

/// What is left to do about a frame, once the connections have done their part.
#[derive(Debug, Drop)]
pub enum FrameOutcome {
    /// Nothing.
    Nothing,
    /// A request is to be served.
    Request(Request),
    /// The connection is closed, and is to be forgotten.
    Closed,
}
