//! Responses that have one status for each thing that their request names.

ghost use Rattle.std.specs.Prelude.{◌≡◌, ◌<◌, ◌^◌, length, IfOk};
ghost use Rattle.ua_services.specs.StatusResults.{statuses_body as statuses_body_spec};

use crate::caller::Caller;
use server_messages::Setting;
use std::alloc::{AllocError, Global};
use ua_messages::{MessageBody, ResponseHeader, results_body};
use ua_types::Status;

/// The response with what became of each thing, in the order of the request.
pub(crate) fn statuses_body(
    alloc: Global,
    type_id: u32,
    setting: &Setting,
    caller: &Caller,
    statuses: &[Status],
) -> Result<MessageBody, AllocError>
    requires { length statuses.now < 2 ^ 31 }
    ensures { IfOk result (λ body. body ≡ statuses_body_spec type_id setting.now caller.now statuses.now) }
{
    let header = ResponseHeader::good(caller.origin.handle, setting.clock);
    results_body(alloc, type_id, &header, statuses)
}
