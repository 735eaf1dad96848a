//! Responses round a message that was written before, and is kept as its bytes.

ghost use Rattle.std.specs.Prelude.{◌≡◌, ◌<◌, ◌^◌, length, IfOk};
ghost use Rattle.ua_messages.specs.Bodies.{body_encoding};
ghost use Rattle.ua_messages.specs.declared.type_ids.TheConstants.{PUBLISH_RESPONSE, REPUBLISH_RESPONSE};
ghost use Rattle.ua_subscription_messages.specs.declared.publishing.NotificationMessage.{NotificationMessage};
ghost use Rattle.ua_subscription_messages.specs.Publishing.{notification_message_encoding, publish_response_encoding, republish_response_encoding};
ghost use Rattle.ua_subscription_messages.specs.KeptMessages.{publish_body_around, publish_response_of, republish_body_around, republish_response_of};

use std::alloc::{AllocError, Global};
use ua_messages::{DiagnosticInfos, MessageBody, ResponseHeader, type_ids};
use ua_types::{NodeId, Status};

/// The whole body of a [`crate::PublishResponse`], whose message is given as its bytes: those that
/// [`Wire::put`] wrote for a [`crate::NotificationMessage`]. They stand in the body as they are.
#[tactic(auto, using(crate::proofs::KeptLemmas::publish_joined, crate::proofs::KeptLemmas::publish_is_response), unfolding(crate::specs::KeptMessages::publish_body_around))]
pub fn publish_body(
    alloc: Global,
    response_header: &ResponseHeader,
    subscription_id: u32,
    available_sequence_numbers: &[u32],
    more_notifications: bool,
    message: &[u8],
    results: &[Status],
) -> Result<MessageBody, AllocError>
    requires numbers { length available_sequence_numbers.now < 2 ^ 31 }
    requires results { length results.now < 2 ^ 31 }
    ensures bytes { IfOk result (λ body. body ≡ publish_body_around response_header.now subscription_id available_sequence_numbers.now more_notifications message.now results.now) }
    ensures response { IfOk result (λ body. (m : NotificationMessage) → message.now ≡ notification_message_encoding m →
        body ≡ body_encoding publish_response_encoding PUBLISH_RESPONSE (publish_response_of response_header.now subscription_id available_sequence_numbers.now more_notifications m results.now)) }
{
    let mut body = MessageBody::new(alloc)?;
    body.write(&NodeId::numeric(0, type_ids::PUBLISH_RESPONSE))?;
    body.write(response_header)?;
    body.write(&subscription_id)?;
    body.write_list(available_sequence_numbers)?;
    body.write(&more_notifications)?;
    body.write_bytes(message)?;
    body.write_list(results)?;
    body.write(&DiagnosticInfos)?;
    Ok(body)
}

/// The whole body of a [`crate::RepublishResponse`], whose message is given as its bytes, as for
/// [`publish_body`].
#[tactic(auto, using(crate::proofs::KeptLemmas::republish_joined, crate::proofs::KeptLemmas::republish_is_response), unfolding(crate::specs::KeptMessages::republish_body_around))]
pub fn republish_body(
    alloc: Global,
    response_header: &ResponseHeader,
    message: &[u8],
) -> Result<MessageBody, AllocError>
    ensures bytes { IfOk result (λ body. body ≡ republish_body_around response_header.now message.now) }
    ensures response { IfOk result (λ body. (m : NotificationMessage) → message.now ≡ notification_message_encoding m →
        body ≡ body_encoding republish_response_encoding REPUBLISH_RESPONSE (republish_response_of response_header.now m)) }
{
    let mut body = MessageBody::new(alloc)?;
    body.write(&NodeId::numeric(0, type_ids::REPUBLISH_RESPONSE))?;
    body.write(response_header)?;
    body.write_bytes(message)?;
    Ok(body)
}
