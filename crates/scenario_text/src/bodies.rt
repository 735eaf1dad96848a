//! Bodies, which are read again whole.

ghost use Rattle.std.specs.Prelude.{◌≡◌, IfOk};
ghost use Rattle.ua_messages.specs.Bodies.{body_encoding};
ghost use Rattle.scenario_text.specs.Bodies.{IsWholeBody, IsWholeRequest, request_encoding};

use std::alloc::{AllocError, Global};
use ua_binary::Wire;
use ua_messages::{RequestHeader, Requested};
use ua_types::NodeId;

/// The body of a message: the id with this number in namespace 0, and then the fields. It is read again as
/// that, and nothing is behind it.
#[tactic(auto, using(crate::proofs::BodiesAgain::whole_again))]
pub(crate) fn whole_body<T: Wire>(
    alloc: Global,
    type_id: u32,
    message: &T,
) -> Result<Vec<u8>, AllocError>
    ensures ok { IfOk result (λ bytes. bytes.items ≡ body_encoding T.encoding type_id message.now) }
    ensures again { IfOk result (λ bytes. IsWholeBody T.reading type_id message.now bytes.items) }
{
    let mut out = Vec::new(alloc);
    NodeId::numeric(0, type_id).encode(&mut out)?;
    message.encode(&mut out)?;
    Ok(out)
}

/// The body of a request: the id with this number in namespace 0, then the header, and then the fields. It is read again as
/// that, and nothing is behind it.
pub(crate) fn whole_request<F: Wire>(
    alloc: Global,
    type_id: u32,
    request_header: RequestHeader,
    fields: F,
) -> Result<Vec<u8>, AllocError>
    ensures ok { IfOk result (λ bytes. bytes.items ≡ request_encoding F.encoding type_id request_header fields) }
    ensures again { IfOk result (λ bytes. IsWholeRequest F.reading type_id request_header fields bytes.items) }
{
    let request = Requested {
        request_header,
        fields,
    };
    whole_body(alloc, type_id, &request)
}
