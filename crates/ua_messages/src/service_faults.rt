//! Responses of calls that failed as a whole.

ghost use Rattle.std.specs.Prelude.{◌≡◌, IfOk};
ghost use Rattle.ua_messages.specs.ServiceFaults.{service_fault_reading, service_fault_encoding, fault_body};

use crate::bodies::body;
use crate::headers::ResponseHeader;
use crate::message_body::MessageBody;
use crate::type_ids::SERVICE_FAULT;
use std::alloc::{AllocError, Global};
use ua_binary::{Cursor, TakeFault, Wire};
use ua_types::{Moment, Status};

/// The response of a call that failed as a whole (ServiceFault, IEC 62541-4, section 7).
#[derive(Debug, Drop)]
pub struct ServiceFault {
    pub response_header: ResponseHeader,
}

#[tactic(auto, using(ua_binary::proofs::Fields::fields1), unfolding(crate::specs::ServiceFaults::service_fault_reading, crate::specs::ServiceFaults::service_fault_encoding))]
impl Wire for ServiceFault {
    ghost reading = { service_fault_reading };

    ghost encoding = { service_fault_encoding };

    fn decode(alloc: Global, cursor: &mut Cursor<'_>) -> Result<ServiceFault, TakeFault> {
        Ok(ServiceFault {
            response_header: ResponseHeader::decode(alloc, cursor)?,
        })
    }

    fn encode(&self, out: &mut Vec<u8>) -> Result<(), AllocError> {
        self.response_header.encode(out)?;
        Ok(())
    }
}

/// The whole body of a fault: the answer to the request with this handle, which failed by this
/// status.
pub fn fault(
    alloc: Global,
    handle: u32,
    status: Status,
    moment: Moment,
) -> Result<MessageBody, AllocError>
    ensures { IfOk result (λ body. body ≡ fault_body handle status moment) }
{
    let response_header = ResponseHeader::new(handle, status, moment);
    body(alloc, SERVICE_FAULT, &ServiceFault { response_header })
}
