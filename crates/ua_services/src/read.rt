//! The service Read (IEC 62541-4, "Read").

ghost use Rattle.ua_services.specs.Read.{read_meaning};

use crate::caller::Caller;
use crate::operations::operations;
use crate::service::reply;
use crate::services::Services;
use crate::session_service::SessionService;
use server_messages::{Served, Setting};
use ua_messages::ResponseHeader;
use ua_read_write::{Timestamps, read_body};
use ua_service_messages::ReadRequestView;
use ua_types::{Refusal, Status};

/// Reads attributes of nodes.
///
/// The faults, in this order: `BAD_TIMESTAMPS_TO_RETURN_INVALID` where the choice of times is none of the
/// four, `BAD_NOTHING_TO_DO` for a list that is null or empty, `BAD_TOO_MANY_OPERATIONS` for one with
/// more entries than the configuration's `operations`. What is wrong with one attribute is told in its
/// result ([`ua_read_write::read`]).
pub struct Read;

impl<'a> SessionService<'a> for Read {
    type Request = ReadRequestView<'a>;

    ghost meaning = { read_meaning };

    fn serve(
        setting: &Setting,
        caller: &Caller,
        _session: u32,
        request: ReadRequestView<'a>,
        services: &mut Services,
    ) -> Result<Served, Refusal> {
        let alloc = services.allocator();
        let Some(timestamps) = Timestamps::chosen(request.timestamps_to_return) else {
            return Err(Refusal::Service(Status::BAD_TIMESTAMPS_TO_RETURN_INVALID));
        };
        let nodes = operations(&setting.config, request.nodes_to_read)?;
        let header = ResponseHeader::good(caller.origin.handle, setting.clock);
        let space = &services.space;
        let body = read_body(alloc, space, setting.clock, timestamps, &header, nodes)?;
        Ok(reply(alloc, caller, body)?)
    }
}
