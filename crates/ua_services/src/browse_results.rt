//! What Browse and BrowseNext answer of each thing.

ghost use Rattle.std.specs.Prelude.{◌≡◌, Err};
ghost use Rattle.ua_service_messages.specs.Browsing.{browse_result_encoding};
ghost use Rattle.ua_services.specs.BrowseResults.{result_of};
ghost use Rattle.ua_services.specs.Paging.{Tells};

use crate::service::status_told;
use server_messages::Halt;
use std::alloc::Global;
use ua_browse::Page;
use ua_messages::MessageBody;
use ua_service_messages::{BrowseResult, ReferenceDescription};
use ua_session::point_bytes;
use ua_types::{Array, ByteString, Refusal, Status};

// A result without references.
fn status_alone(alloc: Global, status_code: Status) -> BrowseResult
    ensures { result ≡ result_of (Err status_code) }
{
    BrowseResult {
        status_code,
        continuation_point: ByteString::null(),
        references: Array::new(Vec::new(alloc)),
    }
}

/// Writes the result that tells what was answered. Its references are written from where they stand, and once.
#[tactic(auto, unfolding(ua_service_messages::specs::Browsing::browse_result_encoding))]
pub(crate) fn tell(
    alloc: Global,
    answer: Result<Page<'_>, Refusal>,
    body: &mut MessageBody,
) -> Result<(), Halt>
    ensures { Tells browse_result_encoding result_of result body.old body.new answer.entry }
{
    let page = match answer {
        Ok(page) => page,
        Err(refusal) => return Ok(body.write(&status_alone(alloc, status_told(refusal)?))?),
    };
    body.write(&Status::GOOD)?;
    body.write(&point_bytes(alloc, page.point)?)?;
    match page.references.as_slice() {
        Some(references) => body.write_list(references)?,
        None => body.write(&Array::<ReferenceDescription>::null())?,
    }
    Ok(())
}
