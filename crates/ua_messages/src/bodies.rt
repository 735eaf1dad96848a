//! Bodies: the id of a message's encoding, and then the message.

ghost use Rattle.std.specs.Prelude.{◌≡◌, Ok, Err, IfOk, IfErr};
ghost use Rattle.ua_binary.specs.declared.fault.TakeFault.TheVariants.{Memory};
ghost use Rattle.ua_types.specs.Answers.{Gives};
ghost use Rattle.ua_messages.specs.Bodies.{message_id_of, message_of, body_encoding};

use crate::message_body::MessageBody;
use std::alloc::{AllocError, Global};
use ua_binary::{Cursor, TakeFault, Wire};
use ua_types::NodeId;

/// The number of the id that a body begins with (one of `type_ids`), or 0 where the id is of another
/// namespace or isn't a number.
///
/// It takes no memory.
#[tactic(auto, unfolding(crate::specs::Bodies::message_id_of, ua_binary::specs::NodeIds::node_id_reading, ua_binary::specs::NodeIds::after_form_reading))]
pub fn message_id(body: &[u8]) -> Result<u32, TakeFault>
    ensures ok { IfOk result (λ n. message_id_of body.now ≡ Ok n) }
    ensures err { IfErr result (λ e. message_id_of body.now ≡ Err e) }
{
    let mut cursor = Cursor::new(body);
    match cursor.byte()? {
        0 => Ok(cursor.byte()? as u32),
        1 => {
            let namespace = cursor.byte()?;
            let number = cursor.short_number()?;
            Ok(if namespace == 0 { number as u32 } else { 0 })
        }
        2 => {
            let namespace = cursor.short_number()?;
            let number = cursor.number()?;
            Ok(if namespace == 0 { number } else { 0 })
        }
        3 => {
            cursor.short_number()?;
            cursor.text()?;
            Ok(0)
        }
        4 => {
            cursor.short_number()?;
            cursor.guid()?;
            Ok(0)
        }
        5 => {
            cursor.short_number()?;
            cursor.byte_string()?;
            Ok(0)
        }
        _ => Err(TakeFault::Form),
    }
}

/// The message of a body: its fields after the id, whatever the id is.
///
/// Bytes after the last field are ignored. So the header of any request can be read by itself.
#[tactic(auto, unfolding(crate::specs::Bodies::message_of))]
pub fn message<T: Wire>(alloc: Global, body: &[u8]) -> Result<T, TakeFault>
    ensures { Gives Memory result (message_of T.reading body.now) }
{
    let mut cursor = Cursor::new(body);
    NodeId::decode(alloc, &mut cursor)?;
    T::decode(alloc, &mut cursor)
}

/// The body of a message: the id with this number in namespace 0, and then the fields.
#[tactic(auto, using(crate::proofs::BodiesAgain::message_again, crate::proofs::BodiesAgain::id_again))]
pub fn body<T: Wire>(alloc: Global, type_id: u32, message: &T) -> Result<MessageBody, AllocError>
    ensures ok { IfOk result (λ body. body ≡ body_encoding T.encoding type_id message.now) }
    ensures again { IfOk result (λ body. message_of T.reading body ≡ Ok message.now) }
    ensures id { IfOk result (λ body. message_id_of body ≡ Ok type_id) }
{
    let mut body = MessageBody::new(alloc)?;
    body.write(&NodeId::numeric(0, type_id))?;
    body.write(message)?;
    Ok(body)
}
