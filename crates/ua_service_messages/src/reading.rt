//! The service Read.

ghost use Rattle.ua_service_messages.specs.Reading.{read_request_reading, read_request_encoding};

use std::alloc::{AllocError, Global};
use std::marker::Model;
use ua_binary::{Cursor, TakeFault, Wire};
use ua_messages::{ReadValueId, ReadValueIdView, Results, TimestampsToReturn};
use ua_types::{Array, DataValue, Duration};
use ua_views::{ArrayView, Readable, View, look_enumeration};

/// Asks for attributes of nodes (Read, IEC 62541-4, section 5, Attribute Service Set).
#[derive(Debug, Drop)]
pub struct ReadRequest {
    /// How old a value may be, in milliseconds.
    pub max_age: Duration,
    pub timestamps_to_return: TimestampsToReturn,
    pub nodes_to_read: Array<ReadValueId>,
}

#[tactic(auto, using(ua_binary::proofs::Fields::fields3), unfolding(crate::specs::Reading::read_request_reading, crate::specs::Reading::read_request_encoding))]
impl Wire for ReadRequest {
    ghost reading = { read_request_reading };

    ghost encoding = { read_request_encoding };

    fn decode(alloc: Global, cursor: &mut Cursor<'_>) -> Result<ReadRequest, TakeFault> {
        Ok(ReadRequest {
            max_age: Duration::decode(alloc, cursor)?,
            timestamps_to_return: TimestampsToReturn::decode(alloc, cursor)?,
            nodes_to_read: Array::<ReadValueId>::decode(alloc, cursor)?,
        })
    }

    fn encode(&self, out: &mut Vec<u8>) -> Result<(), AllocError> {
        self.max_age.encode(out)?;
        self.timestamps_to_return.encode(out)?;
        self.nodes_to_read.encode(out)?;
        Ok(())
    }
}

/// A [`ReadRequest`] in the bytes that it stands in.
#[derive(Debug, Drop)]
pub struct ReadRequestView<'a> {
    /// How old a value may be, in milliseconds.
    pub max_age: Duration,
    pub timestamps_to_return: TimestampsToReturn,
    pub nodes_to_read: ArrayView<'a, ReadValueIdView<'a>>,
}

impl<'a> Model for ReadRequestView<'a> {
    ghost use Rattle.ua_service_messages.specs.declared.reading.ReadRequest.{ReadRequest};

    ghost Value = { ReadRequest };

    ghost view = { λ v. record { max_age = v.max_age; timestamps_to_return = v.timestamps_to_return; nodes_to_read = v.nodes_to_read } };
}

impl<'a> Readable for ReadRequestView<'a> {
    ghost reading = { read_request_reading };
}

#[tactic(auto, unfolding(crate::specs::Reading::read_request_reading))]
impl<'a> View<'a> for ReadRequestView<'a> {
    fn look(cursor: &mut Cursor<'a>) -> Result<ReadRequestView<'a>, TakeFault> {
        Ok(ReadRequestView {
            max_age: Duration::look(cursor)?,
            timestamps_to_return: look_enumeration::<TimestampsToReturn>(cursor)?,
            nodes_to_read: ArrayView::<ReadValueIdView<'a>>::look(cursor)?,
        })
    }
}

/// The response to [`ReadRequest`], with one result for each attribute.
pub type ReadResponse = Results<DataValue>;
