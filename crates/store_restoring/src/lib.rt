//! A server's address space with the values and histories that a store has kept, as a server begins with them.
//!
//! [`restore`] puts them into a [`Space`](ua_space::Space) before a server is made of it: a value that its variable takes becomes the
//! variable's, and a history that was kept is merged with the one that the node file gave. What doesn't fit is left out, and told
//! ([`LeftOut`]). [`latest_time`] says up to which time the server that kept them had come. Who opens a store is an
//! [`OpensStores`]. No file is named here.
//!
//! What a contract sees: the nodes before and after, by their ids (`specs/Restored`), what fits (`specs/Fitting`), and of a history
//! into which values are being put its values by rising time (`specs/Opened`).
//!
//! Read [`restore`] first, then [`LeftOut`].
#![tactic(auto)]

mod fitting;
mod histories;
mod left_out;
mod opened;
mod opening;
mod restoring;
mod times;

pub use left_out::{LeftOut, Misfit};
pub use opening::{NoStores, OpensStores};
pub use restoring::{Restoring, restore};
pub use times::latest_time;
