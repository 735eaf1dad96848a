//! The body of a Hello.

ghost use Rattle.std.specs.Prelude.{◌≡◌, Ok, Err, IfOk, IfErr};
ghost use Rattle.ua_transport.specs.Hellos.{hello_reading, hello_encoding};

use std::alloc::{AllocError, Global};
use std::marker::Model;
use ua_binary::{Cursor, TakeFault, Wire};
use ua_types::Text;

/// What a client says of itself in its first frame (IEC 62541-6, "Hello Message").
#[derive(Debug, Drop)]
pub struct Hello {
    /// The latest version of the protocol that the client knows. Any is good.
    pub protocol_version: u32,
    /// The largest frame that the client can receive, in bytes.
    pub receive_size: u32,
    /// The largest frame that the client will send, in bytes.
    pub send_size: u32,
    /// The largest answer that the client takes, in bytes of its body, or 0 for no limit.
    pub max_message_size: u32,
    /// The most chunks of an answer that the client takes, or 0 for no limit.
    pub max_chunk_count: u32,
    /// The URL of the endpoint that the client wants.
    pub endpoint_url: Text,
}

#[tactic(auto, using(ua_binary::proofs::Fields::fields6), unfolding(crate::specs::Hellos::hello_reading, crate::specs::Hellos::hello_encoding))]
impl Wire for Hello {
    ghost reading = { hello_reading };

    ghost encoding = { hello_encoding };

    fn decode(alloc: Global, cursor: &mut Cursor<'_>) -> Result<Hello, TakeFault> {
        Ok(Hello {
            protocol_version: u32::decode(alloc, cursor)?,
            receive_size: u32::decode(alloc, cursor)?,
            send_size: u32::decode(alloc, cursor)?,
            max_message_size: u32::decode(alloc, cursor)?,
            max_chunk_count: u32::decode(alloc, cursor)?,
            endpoint_url: Text::decode(alloc, cursor)?,
        })
    }

    fn encode(&self, out: &mut Vec<u8>) -> Result<(), AllocError> {
        self.protocol_version.encode(out)?;
        self.receive_size.encode(out)?;
        self.send_size.encode(out)?;
        self.max_message_size.encode(out)?;
        self.max_chunk_count.encode(out)?;
        self.endpoint_url.encode(out)?;
        Ok(())
    }
}

/// A [`Hello`] whose URL is lent, so that it is read without memory. Contracts see it as the Hello.
#[derive(Drop)]
pub(crate) struct BorrowedHello<'a> {
    pub protocol_version: u32,
    pub receive_size: u32,
    pub send_size: u32,
    pub max_message_size: u32,
    pub max_chunk_count: u32,
    pub endpoint_url: Option<&'a str>,
}

impl<'a> Model for BorrowedHello<'a> {
    ghost use Rattle.std.specs.Prelude.{option_map};
    ghost use Rattle.ua_transport.specs.declared.hello_message.Hello.{Hello};

    ghost Value = { Hello };

    ghost view = { λ h. record {
      protocol_version = h.protocol_version;
      receive_size = h.receive_size;
      send_size = h.send_size;
      max_message_size = h.max_message_size;
      max_chunk_count = h.max_chunk_count;
      endpoint_url = option_map (λ t. t.now) h.endpoint_url;
    } };
}

impl<'a> BorrowedHello<'a> {
    /// Reads the fields in order. At an `Err` the cursor stands where the fault is.
    #[tactic(auto, unfolding(crate::specs::Hellos::hello_reading))]
    pub(crate) fn read(cursor: &mut Cursor<'a>) -> Result<BorrowedHello<'a>, TakeFault>
        ensures ok { IfOk result (λ hello. hello_reading cursor.old ≡ Ok (hello, cursor.new)) }
        ensures err { IfErr result (λ e. hello_reading cursor.old ≡ Err e) }
    {
        Ok(BorrowedHello {
            protocol_version: cursor.number()?,
            receive_size: cursor.number()?,
            send_size: cursor.number()?,
            max_message_size: cursor.number()?,
            max_chunk_count: cursor.number()?,
            endpoint_url: cursor.text()?,
        })
    }
}
