//! Responses that have one result for each thing that their request names.

ghost use Rattle.std.specs.Prelude.{◌≡◌, ◌<◌, ◌^◌, length, IfOk};
ghost use Rattle.ua_messages.specs.Bodies.{body_encoding};
ghost use Rattle.ua_messages.specs.ResultLists.{results_reading, results_encoding, results_of};

use crate::diagnostics::DiagnosticInfos;
use crate::headers::ResponseHeader;
use crate::message_body::MessageBody;
use std::alloc::{AllocError, Global};
use ua_binary::{Cursor, TakeFault, Wire, Written};
use ua_types::{Array, NodeId};

/// A response with one result for each thing that its request names, in the order of the request
/// (as ReadResponse and WriteResponse, IEC 62541-4, section 5).
#[derive(Debug, Drop)]
pub struct Results<T> {
    pub response_header: ResponseHeader,
    pub results: Array<T>,
    pub diagnostic_infos: DiagnosticInfos,
}

#[tactic(auto, using(ua_binary::proofs::Fields::fields3), unfolding(crate::specs::ResultLists::results_reading, crate::specs::ResultLists::results_encoding))]
impl<T: Wire> Wire for Results<T> {
    ghost reading = { results_reading T.reading };

    ghost encoding = { results_encoding T.encoding };

    fn decode(alloc: Global, cursor: &mut Cursor<'_>) -> Result<Results<T>, TakeFault> {
        Ok(Results {
            response_header: ResponseHeader::decode(alloc, cursor)?,
            results: Array::<T>::decode(alloc, cursor)?,
            diagnostic_infos: DiagnosticInfos::decode(alloc, cursor)?,
        })
    }

    fn encode(&self, out: &mut Vec<u8>) -> Result<(), AllocError> {
        self.response_header.encode(out)?;
        self.results.encode(out)?;
        self.diagnostic_infos.encode(out)?;
        Ok(())
    }
}

/// The whole body of a response with these results, which are written where they stand: no list of
/// them is made, and their parts may be borrowed (as [`ua_binary::BorrowedDataValue`]).
#[tactic(auto, using(ua_binary::proofs::Fields::fields3, crate::proofs::ResultLemmas::results_joined), unfolding(crate::specs::ResultLists::results_encoding))]
pub fn results_body<W: Written>(
    alloc: Global,
    type_id: u32,
    response_header: &ResponseHeader,
    results: &[W],
) -> Result<MessageBody, AllocError>
    requires { length results.now < 2 ^ 31 }
    ensures { IfOk result (λ body. body ≡ body_encoding (results_encoding W.encoding) type_id (results_of response_header.now results.now)) }
{
    let mut body = MessageBody::new(alloc)?;
    body.write(&NodeId::numeric(0, type_id))?;
    body.write(response_header)?;
    body.write_list(results)?;
    body.write(&DiagnosticInfos)?;
    Ok(body)
}
