//! The sockets of a server, and the bytes that each is owed.
//!
//! A [`Socket`] is any stream whose reads and writes don't wait, so that contracts can name its bytes. A
//! [`Peer`] is one socket with the queue of what the server sent on its connection and the socket hasn't
//! taken yet. [`Peers`] are all of them under the numbers of their connections; [`Peers::owe_all`] brings
//! what a step of the server sends to the right sockets.
//!
//! Nothing here waits, and nothing here knows what the bytes mean, or when a socket is ready.
//!
//! What a contract sees: of a [`Peer`] its stream, the bytes it is owed, whether it closes, failed, is full or
//! is to be looked at, when it was last owed something, and its client's address as a number; of [`Peers`] these under
//! their numbers, the last number, the lists of those to be looked at and to be flushed, the [`PeerLimits`], how many there
//! are of each address, the moment that was told last, and that at which silent sockets were last looked for. How a
//! connection ended ([`End`]) no contract sees.
#![tactic(auto)]

mod end;
mod peer;
mod peer_limits;
mod peers;
mod socket;
mod tally;

pub use end::End;
pub use peer::{Heard, Peer, Readiness};
pub use peer_limits::PeerLimits;
pub use peers::Peers;
pub use socket::{Missed, Socket};
