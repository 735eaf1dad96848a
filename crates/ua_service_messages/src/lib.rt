//! The messages of sessions and of the address space (IEC 62541-4): creating, activating and closing
//! a session, browsing, reading and writing, and the history of values (IEC 62541-11).
//!
//! One file a service, with its requests, its responses and the structures in them. Each is
//! [`ua_binary::Wire`]: its *reading* and its *encoding* in `specs/` are the standard's list of fields,
//! and the trait says that what is written is read again. A whole body is read and written by
//! `ua_messages`, where the headers and the type ids are too. What stands in a request has a view beside it, as
//! [`ReadRequestView`], by the same reading.
//!
//! Nothing here decides anything: no field is judged beyond its form, and no session or node is
//! looked up.
//!
//! What a contract sees: a list of fields for each structure.
//!
//! Read [`ReadRequest`] first.
#![tactic(auto)]

mod browsing;
mod history;
pub mod laws;
mod reading;
mod sessions;
mod writing;

pub use browsing::{
    BorrowedReferenceDescription, BrowseDescription, BrowseDescriptionView, BrowseDirection,
    BrowseNextRequest, BrowseNextRequestView, BrowseNextResponse, BrowseRequest, BrowseRequestView,
    BrowseResponse, BrowseResult, ReferenceDescription,
};
pub use history::{
    HistoryData, HistoryReadRequest, HistoryReadRequestView, HistoryReadResponse,
    HistoryReadResult, HistoryReadValueId, HistoryReadValueIdView, ReadRawModifiedDetails,
};
pub use reading::{ReadRequest, ReadRequestView, ReadResponse};
pub use sessions::{
    ActivateSessionRequest, ActivateSessionRequestView, ActivateSessionResponse,
    AnonymousIdentityToken, AnonymousIdentityTokenView, CloseSessionRequest, CloseSessionResponse,
    CreateSessionRequest, CreateSessionRequestView, CreateSessionResponse, SignatureData,
    SignatureDataView, SignedSoftwareCertificate, SignedSoftwareCertificateView,
};
pub use writing::{WriteRequest, WriteRequestView, WriteResponse, WriteValue, WriteValueView};
