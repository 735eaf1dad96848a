//! What HistoryRead answers of each node.

ghost use Rattle.std.specs.Prelude.{◌≡◌, ◌++◌, reverse, OnOk, OnErr};
ghost use Rattle.std.specs.Result.{result_map_both};
ghost use Rattle.ua_binary.specs.Reading.{Extends};
ghost use Rattle.ua_history.specs.Reading.{page_seen};
ghost use Rattle.ua_service_messages.specs.History.{history_data_reading, history_data_encoding, history_read_result_encoding};
ghost use Rattle.ua_services.specs.HistoryResults.{stored_time_of, shown as shown_spec, all_shown, AreWritten, status_alone as status_alone_spec, history_result_of, release_result_of};
ghost use Rattle.ua_services.specs.Paging.{Tells};
ghost use Rattle.ua_read_write.specs.Reading.{source_time_of};

use crate::service::status_told;
use server_messages::Halt;
use std::alloc::{AllocError, Global};
use std::marker::Model;
use ua_binary::{BorrowedDataValue, Wire, Written};
use ua_history::{KeptRuns, KeptValues, Page, Run};
use ua_messages::{MessageBody, type_ids};
use ua_read_write::Timestamps;
use ua_service_messages::HistoryReadResult;
use ua_session::point_bytes;
use ua_types::{
    ByteString, DataValue, ExtensionObject, ExtensionObjectBody, Moment, NodeId, Refusal, Status,
};

fn source_time(timestamps: Timestamps, value: &DataValue) -> Option<Moment>
    ensures { result ≡ source_time_of timestamps value.now }
{
    if timestamps.has_source() {
        value.source_time
    } else {
        None
    }
}

fn server_time(timestamps: Timestamps, value: &DataValue) -> Option<Moment>
    ensures { result ≡ stored_time_of timestamps value.now }
{
    if timestamps.has_server() {
        value.server_time
    } else {
        None
    }
}

// A value with those of its times that are wanted.
fn shown(timestamps: Timestamps, value: &DataValue) -> BorrowedDataValue<'_>
    ensures { result ≡ shown_spec timestamps value.now }
{
    BorrowedDataValue::new(
        value.value.as_ref(),
        value.status,
        source_time(timestamps, value),
        server_time(timestamps, value),
    )
}

// Writes the values of a run one behind the other, from the first to the last.
#[tactic(auto, using(ua_binary::proofs::Extending::extends_more))]
fn write_rising(timestamps: Timestamps, run: Run<'_>, out: &mut Vec<u8>) -> Result<(), AllocError>
    ensures ok { OnOk result (AreWritten out.old.items out.new.items (all_shown timestamps run.now)) }
    ensures err { OnErr result (Extends out.old.items out.new.items) }
{
    for (_, value) in run {
        shown(timestamps, value).write(out)?;
    }
    Ok(())
}

// Writes the values of a run one behind the other, from the last to the first.
#[tactic(auto, using(ua_binary::proofs::Extending::extends_more))]
fn write_falling(timestamps: Timestamps, run: Run<'_>, out: &mut Vec<u8>) -> Result<(), AllocError>
    ensures ok { OnOk result (AreWritten out.old.items out.new.items (all_shown timestamps (reverse run.now))) }
    ensures err { OnErr result (Extends out.old.items out.new.items) }
{
    for (_, value) in run.iter().rev() {
        shown(timestamps, value).write(out)?;
    }
    Ok(())
}

// Writes the values of a page one behind the other, in its order.
#[tactic(auto, using(ua_binary::proofs::Extending::extends_more))]
fn write_values(
    timestamps: Timestamps,
    values: &KeptValues<'_>,
    out: &mut Vec<u8>,
) -> Result<(), AllocError>
    ensures ok { OnOk result (AreWritten out.old.items out.new.items (all_shown timestamps values.now)) }
    ensures err { OnErr result (Extends out.old.items out.new.items) }
{
    match values.runs() {
        KeptRuns::Rising(runs) => {
            for run in runs {
                write_rising(timestamps, run, out)?;
            }
            Ok(())
        }
        KeptRuns::Falling(runs) => {
            for run in runs {
                write_falling(timestamps, run, out)?;
            }
            Ok(())
        }
    }
}

// The HistoryData of the values of a page, with those of their times that are wanted, to be written from where they stand: no list
// of data values is made. Contracts see the HistoryData.
#[derive(Drop)]
struct BorrowedHistoryData<'a> {
    timestamps: Timestamps,
    values: &'a KeptValues<'a>,
}

impl<'a> Model for BorrowedHistoryData<'a> {
    ghost use Rattle.ua_service_messages.specs.declared.history.HistoryData.{HistoryData};
    ghost use Rattle.ua_services.specs.HistoryResults.{history_data_of};

    ghost Value = { HistoryData };

    ghost view = { λ d. history_data_of d.timestamps d.values.now };
}

#[tactic(auto, using(ua_binary::proofs::Extending::extends_more), unfolding(ua_service_messages::specs::History::history_data_reading, ua_service_messages::specs::History::history_data_encoding, ua_binary::specs::Arrays::array_encoding))]
impl Written for BorrowedHistoryData<'_> {
    ghost reading = { history_data_reading };

    ghost encoding = { history_data_encoding };

    // As many as can't be spelled, 2^31, are refused as by want of memory.
    fn write(&self, out: &mut Vec<u8>) -> Result<(), AllocError> {
        if self.values.len() >= 1 << 31 {
            return Err(AllocError);
        }
        (self.values.len() as u32).encode(out)?;
        write_values(self.timestamps, self.values, out)?;
        Ok(())
    }
}

// A result without data.
fn status_alone(status_code: Status) -> HistoryReadResult
    ensures { result ≡ status_alone_spec status_code }
{
    HistoryReadResult {
        status_code,
        continuation_point: ByteString::null(),
        history_data: ExtensionObject {
            type_id: NodeId::null(),
            body: ExtensionObjectBody::Absent,
        },
    }
}

/// Writes the result that tells what was read. Its values are written from where they stand, and once.
#[tactic(auto, unfolding(ua_service_messages::specs::History::history_read_result_encoding))]
pub(crate) fn tell(
    alloc: Global,
    timestamps: Timestamps,
    answer: Result<Page<'_>, Refusal>,
    body: &mut MessageBody,
) -> Result<(), Halt>
    ensures { Tells history_read_result_encoding (history_result_of timestamps) result body.old body.new (result_map_both page_seen (λ refusal. refusal) answer.entry) }
{
    let page = match answer {
        Ok(page) => page,
        Err(refusal) => return Ok(body.write(&status_alone(status_told(refusal)?))?),
    };
    let data = BorrowedHistoryData {
        timestamps,
        values: &page.values,
    };
    body.write(&page.status)?;
    body.write(&point_bytes(alloc, page.point)?)?;
    body.write_structure(type_ids::HISTORY_DATA, &data)?;
    Ok(())
}

/// Writes the result that tells whether a point was given up.
pub(crate) fn tell_release(
    released: Result<(), Status>,
    body: &mut MessageBody,
) -> Result<(), AllocError>
    ensures { OnOk result (body.new ≡ body.old ++ history_read_result_encoding (release_result_of released)) }
{
    let status_code = match released {
        Ok(()) => Status::GOOD,
        Err(status_code) => status_code,
    };
    body.write(&status_alone(status_code))
}
