//! The server over sockets: one loop, one thread, and no call that waits but that of the loop itself.
//!
//! [`Serve::listen`] listens, and [`Serve::run`] takes turns: it waits until a socket is ready or 100 ms are
//! over, takes in who connects, hands each piece that is read to the [`server_core::Server`] as an event,
//! puts what the server sends into the queues of the sockets, and writes what they take. What the server stores is kept
//! by a [`server_messages::Keeper`] ([`KeptServer`]) before anything goes out that it sent then or later. An [`Observer`] is
//! told what is sent and which rows of the subscriptions' state table fire at each event, which connections come and go, and when
//! a turn is over. An [`Until`] says when to stop, and [`PeerLimits`] what is asked of each socket.
//!
//! Only `src/serve.rt` knows of `mio`. What a turn is made of stands in `src/events.rt`, over any stream
//! whose reads and writes don't wait, so that contracts can name the bytes. `docs/USING.md` has the loop as
//! a picture, and `docs/PROMISES.md` says which part of it is proved.
//!
//! What a contract sees: of [`Serve`] where it was asked to listen, its generator of keys, its peers with their limits,
//! and how many events there were; of a [`KeptServer`] what the server knows, what waits to be kept and what is kept
//! (`specs/Keeping`). A run is some turns, and a turn is a list of acts: sockets take bytes only in acts at which nothing waits.
#![tactic(auto)]

mod events;
mod kept_server;
mod observer;
mod serve;
mod serve_fault;
mod until;

pub use kept_server::KeptServer;
pub use observer::{Observer, Unobserved};
pub use serve::Serve;
pub use serve_fault::ServeFault;
pub use socket_peers::{End, PeerLimits};
pub use until::{Turns, Until};
