//! The messages of OPC UA (IEC 62541-4): headers, faults, GetEndpoints, and opening and closing a
//! secure channel; what the messages of several services share ([`ReadValueId`],
//! [`TimestampsToReturn`]); and the bodies in which all messages travel.
//!
//! A message is a struct of the standard's fields, in the standard's order, and is
//! [`ua_binary::Wire`]: its *reading* and its *encoding* in `specs/` are that list of fields, and the
//! trait says that what is written is read again. A *body* is the id of a message's encoding, and then
//! the message. [`message_id`] tells which message a body holds, [`message`] reads it, [`body`] writes
//! one, and [`fault`] writes the answer to a request that failed; both give a [`MessageBody`], which has room for what stands
//! before it in a frame. A request's struct has the fields of its kind, which follow a header: [`Requested`] is the two together.
//! The two requests of secure channels, which no session serves, have their header as a field. [`Results`] is the response that has one
//! result for each thing asked for, and [`results_body`] writes it from results that stand elsewhere.
//! [`structure`] reads what an ExtensionObject holds, [`extension_object`] makes one, and [`write_structure`] writes one
//! into the message that it stands in.
//!
//! What a client sent is looked at where it came, without memory: each structure in a request has a view beside it, as
//! [`ReadValueIdView`], which contracts see as that structure, by the same reading. [`header_view`] gives a request's header,
//! [`fields_view`] the fields behind it, and [`structure_view`] what an ExtensionObject holds.
//!
//! Nothing here decides anything: no field is judged beyond its form, no session is looked up, and no
//! clock is read. Frames and chunks are other crates' work.
//!
//! What a contract sees: a list of fields for each structure; of [`Requested`] a header and the fields of a
//! request.
//!
//! Read [`RequestHeader`] and [`ResponseHeader`] first, then [`GetEndpointsResponse`] for a whole
//! message. The numbers of all encodings that the server knows are in [`type_ids`].
#![tactic(auto)]

mod bodies;
mod descriptions;
mod diagnostics;
mod enumerations;
mod get_endpoints;
mod headers;
pub mod laws;
mod message_body;
mod read_value_ids;
mod requests;
mod results;
mod secure_channels;
mod security_policies;
mod service_faults;
mod structures;
mod structures_in_place;
pub mod type_ids;

pub use bodies::{body, message, message_id};
pub use descriptions::{
    ApplicationDescription, ApplicationDescriptionView, EndpointDescription, UserTokenPolicy,
};
pub use diagnostics::{DiagnosticInfo, DiagnosticInfos};
pub use enumerations::{
    ApplicationType, MessageSecurityMode, SecurityTokenRequestType, TimestampsToReturn,
    UserTokenType,
};
pub use get_endpoints::{GetEndpointsRequest, GetEndpointsRequestView, GetEndpointsResponse};
pub use headers::{RequestHeader, RequestHeaderView, ResponseHeader};
pub use message_body::{HEAD_SIZE, MessageBody};
pub use read_value_ids::{ReadValueId, ReadValueIdView, VALUE};
pub use requests::{Headed, Requested, fields_view, header_view};
pub use results::{Results, results_body};
pub use secure_channels::{
    CloseSecureChannelRequest, OpenSecureChannelRequest, OpenSecureChannelResponse,
};
pub use security_policies::SECURITY_POLICY_NONE;
pub use service_faults::{ServiceFault, fault};
pub use structures::{
    StructureFault, extension_object, object_of_bytes, structure, structure_view,
};
pub use structures_in_place::{put_number, write_structure};
