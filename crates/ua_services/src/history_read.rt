//! The service HistoryRead (IEC 62541-4, "HistoryRead").

ghost use Rattle.std.specs.Prelude.{◌≡◌};
ghost use Rattle.ua_messages.specs.declared.type_ids.TheConstants.{HISTORY_READ_RESPONSE};
ghost use Rattle.ua_read_write.specs.Timestamps.{timestamps_of};
ghost use Rattle.ua_history.specs.Reading.{read_raw_of};
ghost use Rattle.ua_services.specs.HistoryRead.{some_times as some_times_spec, is_time_given as is_time_given_spec, is_bounded as is_bounded_spec, range_of as range_of_spec, details_judged, node_read, history_read_meaning};
ghost use Rattle.ua_service_messages.specs.History.{history_read_result_encoding};
ghost use Rattle.ua_services.specs.HistoryResults.{history_result_of};
ghost use Rattle.ua_services.specs.Paging.{DoesOne, told_as};
ghost use Rattle.ua_services.specs.RisingSerials.{node_read_rises};

use crate::caller::Caller;
use crate::history_results::{tell, tell_release};
use crate::operations::operations;
use crate::paging::{Pages, Shown, serve_pages};
use crate::services::Services;
use crate::session_service::SessionService;
use server_messages::{Halt, Served, Setting};
use ua_browse::page_size;
use ua_history::{RawRange, read_raw, release};
use ua_messages::{MessageBody, StructureFault, TimestampsToReturn, structure_view, type_ids};
use ua_read_write::Timestamps;
use ua_service_messages::{
    HistoryReadRequestView, HistoryReadResult, HistoryReadValueIdView, ReadRawModifiedDetails,
};
use ua_session::Points;
use ua_types::{Config, Moment, Refusal, Status};
use ua_views::ExtensionObjectView;

/// What a request wants of each of its nodes.
#[derive(Clone, Copy, Debug)]
pub struct Wanted {
    /// Which times its values are to have.
    pub timestamps: Timestamps,
    /// Whether the points are only given up.
    pub is_release: bool,
    pub range: RawRange,
}

// Which times are wanted, of which there is at least one.
fn some_times(choice: TimestampsToReturn) -> Option<Timestamps>
    ensures { result ≡ some_times_spec (timestamps_of choice) }
{
    match Timestamps::chosen(choice) {
        None | Some(Timestamps::Neither) => None,
        Some(timestamps) => Some(timestamps),
    }
}

fn is_time_given(time: Moment) -> bool
    ensures { result ≡ is_time_given_spec time }
{
    time.0 != 0
}

// Whether at least two of start, end and count are given.
fn is_bounded(details: &ReadRawModifiedDetails) -> bool
    ensures { result ≡ is_bounded_spec details.now }
{
    let start = is_time_given(details.start_time);
    let end = is_time_given(details.end_time);
    let count = details.num_values_per_node != 0;
    start && end || start && count || end && count
}

// What the details ask for, or why it isn't served.
fn range_of(config: &Config, details: &ReadRawModifiedDetails) -> Result<RawRange, Status>
    ensures { result ≡ range_of_spec config.now details.now }
{
    if details.is_read_modified || details.return_bounds {
        return Err(Status::BAD_HISTORY_OPERATION_UNSUPPORTED);
    }
    if !is_bounded(details) {
        return Err(Status::BAD_HISTORY_OPERATION_INVALID);
    }
    Ok(RawRange {
        start: details.start_time,
        end: details.end_time,
        size: page_size(config.history_page, details.num_values_per_node),
    })
}

// What the object asks for, or why it isn't served.
fn judged(config: &Config, object: &ExtensionObjectView<'_>) -> Result<RawRange, Status>
    ensures { result ≡ details_judged config.now object.now }
{
    let type_id = type_ids::READ_RAW_MODIFIED_DETAILS;
    match structure_view::<ReadRawModifiedDetails>(type_id, object) {
        Ok(details) => range_of(config, &details),
        Err(StructureFault::OtherType) => Err(Status::BAD_HISTORY_OPERATION_UNSUPPORTED),
        Err(StructureFault::Unreadable) => Err(Status::BAD_HISTORY_OPERATION_INVALID),
        Err(StructureFault::Memory) => unreachable!(),
    }
}

// Writes a page of a node's history.
fn tell_page(
    shown: &Shown<'_>,
    points: &mut Points,
    wanted: Wanted,
    asked: &HistoryReadValueIdView<'_>,
    body: &mut MessageBody,
) -> Result<(), Halt>
    ensures { DoesOne history_read_result_encoding result body.old body.new points.old points.new (told_as (history_result_of wanted.timestamps) (read_raw_of shown.now.history.now shown.now.space.now.nodes wanted.range points.old asked.now)) }
{
    let Shown {
        alloc,
        space,
        history,
    } = *shown;
    let page = read_raw(alloc, history, space, points, wanted.range, asked);
    tell(alloc, wanted.timestamps, page, body)
}

impl<'a> Pages<'a> for Wanted {
    type Asked = HistoryReadValueIdView<'a>;

    type Answer = HistoryReadResult;

    ghost RESPONSE = { HISTORY_READ_RESPONSE };

    ghost meaning = { λ wanted space history points asked. node_read history space.nodes wanted points asked };

    fn response(&self) -> u32
        ensures { result ≡ HISTORY_READ_RESPONSE }
    {
        type_ids::HISTORY_READ_RESPONSE
    }

    fn page(
        &self,
        shown: &Shown<'_>,
        points: &mut Points,
        asked: HistoryReadValueIdView<'a>,
        body: &mut MessageBody,
    ) -> Result<(), Halt> {
        if self.is_release {
            let released = release(points, &asked.continuation_point);
            return Ok(tell_release(released, body)?);
        }
        tell_page(shown, points, *self, &asked, body)
    }

    ghost rises = { λ wanted space history. node_read_rises history space.nodes wanted };
}

/// Gives the values that variables had, page by page, or gives continuation points up.
///
/// The faults, in this order: `BAD_TIMESTAMPS_TO_RETURN_INVALID` where the choice of times is none of source, server
/// and both; `BAD_NOTHING_TO_DO` for a list that is null or empty, `BAD_TOO_MANY_OPERATIONS` for one with more entries
/// than the configuration's `operations`; `BAD_HISTORY_OPERATION_UNSUPPORTED` where the details aren't those of a
/// reading of raw values; `BAD_HISTORY_OPERATION_INVALID` where they can't be read;
/// `BAD_HISTORY_OPERATION_UNSUPPORTED` where they ask for values that were replaced, or for bounds;
/// `BAD_HISTORY_OPERATION_INVALID` where fewer than two of start, end and count are given. What is wrong with one node
/// is told in its result ([`ua_history::read_raw`]); where points are given up, the point of each is judged alone.
pub struct HistoryRead;

impl<'a> SessionService<'a> for HistoryRead {
    type Request = HistoryReadRequestView<'a>;

    ghost meaning = { history_read_meaning };

    fn serve(
        setting: &Setting,
        caller: &Caller,
        session: u32,
        request: HistoryReadRequestView<'a>,
        services: &mut Services,
    ) -> Result<Served, Refusal> {
        let Some(timestamps) = some_times(request.timestamps_to_return) else {
            return Err(Refusal::Service(Status::BAD_TIMESTAMPS_TO_RETURN_INVALID));
        };
        let nodes = operations(&setting.config, request.nodes_to_read)?;
        let range = judged(&setting.config, &request.history_read_details)?;
        let wanted = Wanted {
            timestamps,
            is_release: request.release_continuation_points,
            range,
        };
        serve_pages(setting, caller, session, services, &wanted, nodes)
    }
}
