//! Requests: a header, and behind it the fields of their kind.

ghost use Rattle.std.specs.Prelude.{◌≡◌, ◌≢◌, ◌⊎◌, Ok, Err, IfOk};
ghost use Rattle.ua_types.specs.Answers.{Gives, GivesAs};
ghost use Rattle.ua_binary.specs.declared.fault.TakeFault.TheVariants.{Memory};
ghost use Rattle.ua_binary.specs.Texts.{IsBacked};
ghost use Rattle.ua_messages.specs.Bodies.{message_id_of, standard_number};
ghost use Rattle.ua_messages.specs.Requests.{requested_reading, requested_encoding, headed_of, fields_of};

use crate::headers::{RequestHeader, RequestHeaderView};
use std::alloc::{AllocError, Global};
use ua_binary::{Cursor, TakeFault, Wire};
use ua_views::{IdentifierView, NodeIdView, View};

/// A whole request (IEC 62541-4, section 5): its header, and the fields of its kind, as
/// [`crate::GetEndpointsRequest`]. So a client writes it; a server looks at its header ([`header_view`]) and at
/// its fields ([`fields_view`]).
#[derive(Debug, Drop)]
pub struct Requested<F> {
    pub request_header: RequestHeader,
    /// What follows the header.
    pub fields: F,
}

#[tactic(auto, using(ua_binary::proofs::Fields::fields2), unfolding(crate::specs::Requests::requested_reading, crate::specs::Requests::requested_encoding))]
impl<F: Wire> Wire for Requested<F> {
    ghost reading = { requested_reading F.reading };

    ghost encoding = { requested_encoding F.encoding };

    ghost wants_memory = { λ bytes. IsBacked bytes ⊎ F.wants_memory bytes };

    fn decode(alloc: Global, cursor: &mut Cursor<'_>) -> Result<Requested<F>, TakeFault> {
        Ok(Requested {
            request_header: RequestHeader::decode(alloc, cursor)?,
            fields: F::decode(alloc, cursor)?,
        })
    }

    fn encode(&self, out: &mut Vec<u8>) -> Result<(), AllocError> {
        self.request_header.encode(out)?;
        self.fields.encode(out)?;
        Ok(())
    }
}

/// What a body's request begins with, and the bytes behind it, in which the fields of its kind stand.
#[derive(Debug, Drop)]
pub struct Headed<'a> {
    /// The number of the id that the body begins with (one of [`crate::type_ids`]), or 0 where the id is of another namespace
    /// or isn't a number.
    pub type_id: u32,
    pub header: RequestHeaderView<'a>,
    /// What follows the header: [`fields_view`] looks at it.
    pub fields: &'a [u8],
}

fn standard_number(id: &NodeIdView<'_>) -> u32
    ensures { result ≡ standard_number id.now.namespace id.now.identifier }
{
    match &id.identifier {
        IdentifierView::Numeric(own) if id.namespace == 0 => own.get(),
        _ => 0,
    }
}

/// Looks at the header of a body's request (RequestHeader, IEC 62541-4, section 7), and at the id before it, whatever that is. Takes
/// no memory.
///
/// The `Err` is the first fault in the id or in the header; what follows the header isn't looked at.
#[tactic(auto, unfolding(crate::specs::Requests::headed_of, crate::specs::Bodies::message_id_of))]
pub fn header_view<'a>(body: &'a [u8]) -> Result<Headed<'a>, TakeFault>
    ensures gives { GivesAs Memory (λ headed. record { header = headed.header; fields = headed.fields.now }) result (headed_of body.now) }
    ensures type_id { IfOk result (λ headed. message_id_of body.now ≡ Ok headed.type_id) }
    ensures no_memory { result ≢ Err Memory }
{
    let mut cursor = Cursor::new(body);
    let id = NodeIdView::look(&mut cursor)?;
    let header = RequestHeaderView::look(&mut cursor)?;
    Ok(Headed {
        type_id: standard_number(&id),
        header,
        fields: cursor.rest(),
    })
}

/// The fields of a request, looked at in the bytes behind its header. Takes no memory.
///
/// The `Err` is the first fault in them. Bytes after the last field are ignored.
pub fn fields_view<'a, T: View<'a>>(fields: &'a [u8]) -> Result<T, TakeFault>
    ensures gives { Gives Memory result (fields_of T.reading fields.now) }
    ensures no_memory { result ≢ Err Memory }
{
    T::look(&mut Cursor::new(fields))
}
