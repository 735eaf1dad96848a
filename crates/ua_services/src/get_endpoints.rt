//! The service GetEndpoints (IEC 62541-4, "GetEndpoints").

ghost use Rattle.ua_services.specs.GetEndpoints.{get_endpoints_meaning};

use crate::caller::Caller;
use crate::endpoint_list::endpoints_body;
use crate::service::{Service, reply};
use crate::services::Services;
use server_messages::{Served, Setting};
use ua_messages::GetEndpointsRequestView;
use ua_types::Refusal;
use ua_views::NodeIdView;

/// Says by which endpoints the server is reached.
pub struct GetEndpoints;

impl<'a> Service<'a> for GetEndpoints {
    type Request = GetEndpointsRequestView<'a>;

    ghost meaning = { get_endpoints_meaning };

    fn serve(
        setting: &Setting,
        caller: &Caller,
        _token: &NodeIdView<'_>,
        request: GetEndpointsRequestView<'a>,
        services: &mut Services,
    ) -> Result<Served, Refusal> {
        let alloc = services.allocator();
        let body = endpoints_body(
            alloc,
            &setting.config,
            setting.clock,
            caller.origin.handle,
            request.profile_uris,
        )?;
        Ok(reply(alloc, caller, body)?)
    }
}
