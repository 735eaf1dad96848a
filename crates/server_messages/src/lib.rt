//! What the parts of the server say to each other: requests one way, replies (responses and
//! ServiceFaults) the other.
//!
//! `server_connections` makes a [`Request`] of what comes by a secure channel, `ua_services` answers it
//! with what was [`Served`], now or at a later event, and `server_connections` sends each [`Reply`]: what
//! is then to be done on connections is a list of [`Out`].
//! What a store has to keep is a list of [`Stored`], and who keeps it a [`Keeper`].
//! Neither part knows the other. Both may read the [`Setting`], and both end by a [`Halt`] where they
//! can't go on.
//!
//! What a contract sees: plain records, which have no contracts of their own, and what a keeper keeps (`specs/Kept`).
#![tactic(auto)]

mod fired;
mod halt;
mod keeper;
mod kept_values;
mod origin;
mod out;
mod reply;
mod request;
mod served;
mod setting;
mod store_fault;
mod stored;

pub use fired::Fired;
pub use halt::Halt;
pub use keeper::{Keeper, NoKeeper};
pub use kept_values::{KeptValue, KeptValues};
pub use origin::Origin;
pub use out::Out;
pub use reply::Reply;
pub use request::Request;
pub use served::Served;
pub use setting::Setting;
pub use store_fault::StoreFault;
pub use stored::Stored;
