//! The service BrowseNext (IEC 62541-4, "BrowseNext").

ghost use Rattle.std.specs.Prelude.{◌≡◌};
ghost use Rattle.ua_browse.specs.Browsing.{release_of};
ghost use Rattle.ua_messages.specs.declared.type_ids.TheConstants.{BROWSE_NEXT_RESPONSE};
ghost use Rattle.ua_session.specs.Points.{TakesSerial};
ghost use Rattle.ua_services.specs.BrowseNext.{emptied, go_on_of, browse_next_meaning};
ghost use Rattle.ua_services.specs.BrowseResults.{browse_told};
ghost use Rattle.ua_services.specs.RisingSerials.{go_on_rises};

use crate::browse_results::tell;
use crate::caller::Caller;
use crate::operations::operations;
use crate::paging::{Pages, Shown, serve_pages};
use crate::services::Services;
use crate::session_service::SessionService;
use server_messages::{Halt, Served, Setting};
use std::alloc::Global;
use ua_browse::{Page, browse_next, release};
use ua_messages::{MessageBody, type_ids};
use ua_service_messages::{BrowseNextRequestView, BrowseResult};
use ua_session::{Points, point_serial};
use ua_space::Space;
use ua_types::{Array, Refusal, Status};
use ua_views::ByteStringView;

// Gives a point up, and answers a page of no references.
fn given_up<'a>(alloc: Global, points: &mut Points, serial: u64) -> Result<Page<'a>, Refusal>
    ensures { TakesSerial result points.old points.new (emptied (release_of points.old serial)) }
{
    match release(points, serial) {
        Ok(()) => Ok(Page {
            references: Array::new(Vec::new(alloc)),
            point: None,
        }),
        Err(status) => Err(Refusal::Service(status)),
    }
}

// The next page of a point, or a page of no references where it is given up.
fn go_on<'a>(
    alloc: Global,
    space: &'a Space,
    points: &mut Points,
    is_release: bool,
    point: &ByteStringView<'_>,
) -> Result<Page<'a>, Refusal>
    ensures { TakesSerial result points.old points.new (go_on_of space.now is_release points.old point.now) }
{
    match point_serial(point.as_slice()) {
        None => Err(Refusal::Service(Status::BAD_CONTINUATION_POINT_INVALID)),
        Some(serial) if is_release => given_up(alloc, points, serial),
        Some(serial) => browse_next(alloc, space, points, serial),
    }
}

// The next page of each point.
#[derive(Drop)]
struct NextPages {
    // Whether the points are only given up.
    is_release: bool,
}

#[tactic(auto, using(crate::proofs::PagingLemmas::does_one))]
impl<'a> Pages<'a> for NextPages {
    type Asked = ByteStringView<'a>;

    type Answer = BrowseResult;

    ghost RESPONSE = { BROWSE_NEXT_RESPONSE };

    ghost meaning = { λ pages space history points bytes. browse_told (go_on_of space pages.is_release points bytes) };

    fn response(&self) -> u32
        ensures { result ≡ BROWSE_NEXT_RESPONSE }
    {
        type_ids::BROWSE_NEXT_RESPONSE
    }

    fn page(
        &self,
        shown: &Shown<'_>,
        points: &mut Points,
        point: ByteStringView<'a>,
        body: &mut MessageBody,
    ) -> Result<(), Halt> {
        let page = go_on(shown.alloc, shown.space, points, self.is_release, &point);
        tell(shown.alloc, page, body)
    }

    ghost rises = { λ pages space history. go_on_rises space pages.is_release };
}

/// Gives the next page of references for each continuation point, or gives the points up.
///
/// The faults, in this order: `BAD_NOTHING_TO_DO` for a list that is null or empty,
/// `BAD_TOO_MANY_OPERATIONS` for one with more entries than the configuration's `operations`. What is wrong with one point is
/// told in its result: `BAD_CONTINUATION_POINT_INVALID` where no point of Browse is held under it, which uses up
/// none.
pub struct BrowseNext;

impl<'a> SessionService<'a> for BrowseNext {
    type Request = BrowseNextRequestView<'a>;

    ghost meaning = { browse_next_meaning };

    fn serve(
        setting: &Setting,
        caller: &Caller,
        session: u32,
        request: BrowseNextRequestView<'a>,
        services: &mut Services,
    ) -> Result<Served, Refusal> {
        let named = operations(&setting.config, request.continuation_points)?;
        let pages = NextPages {
            is_release: request.release_continuation_points,
        };
        serve_pages(setting, caller, session, services, &pages, named)
    }
}
