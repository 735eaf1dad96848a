//! The OPC UA services that are served, and what they keep between requests.
//!
//! ```text
//! a request ── its type: which service? ── its token: which session? ── its fields ── the service ── a reply, or none yet
//! ```
//!
//! [`Services::serve`] answers a request, now or at a later event; [`Services::tick`] does what is due
//! as time passes; [`Services::forget`] drops what a closed connection still waited for. Nothing here
//! knows of frames, channels and sizes. What drives it:
//!
//! ```text
//! let mut services = Services::new(alloc, &config, space)?;
//! let served = services.serve(&setting, &request)?;          // each request, as it is complete
//! let served = services.tick(&setting)?;                     // whenever time has passed
//! deliver(served.replies);                                   // each by the connection that its request came by
//! keep(served.stored);                                       // before that, where there is a store
//! services.forget(conn);                                     // once a connection is gone
//! ```
//!
//! Read [`Services`] first, and `service.rt`, then `browse.rt` for a whole service. Each service is a type that is a
//! [`Service`], by being a [`SessionService`] where it is one of a session, in a file of its
//! own, and its meaning is a file of `specs/` with the same name. Each looks at its requests in the bytes that came. Those of
//! monitored items are services of a session by what they do with the items (`item_serving.rt`), and those with continuation
//! points say how they answer one thing (`paging.rt`).
//!
//! What a contract sees: the address space, the sessions, the histories, the items and the subscriptions. `specs/Serving` has
//! what all services share, `InSession` what those of a
//! session begin with, `Services` the order in which a request is judged, and `Owing` to whom replies go. What the services leave of
//! other sessions, and that each comes by calls of subscriptions and items, the crate `server_laws` says;
//! `worked_examples` drives them.
#![tactic(auto)]

mod activate_session;
mod browse;
mod browse_next;
mod browse_results;
mod caller;
mod close_session;
mod create_monitored_items;
mod create_session;
mod create_subscription;
mod delete_monitored_items;
mod delete_subscriptions;
mod endpoint_list;
mod get_endpoints;
mod history_read;
mod history_results;
mod item_serving;
mod modify_monitored_items;
mod modify_subscription;
mod operations;
mod paging;
mod publish;
mod read;
mod republish;
mod service;
mod services;
mod session_service;
mod set_monitoring_mode;
mod set_publishing_mode;
mod set_triggering;
mod status_results;
mod sub_serving;
mod write;

pub use caller::Caller;
pub use service::Service;
pub use services::Services;
pub use session_service::SessionService;
