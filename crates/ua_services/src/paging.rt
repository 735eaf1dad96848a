//! What the services with continuation points share.

ghost use Rattle.std.specs.Prelude.{◌≡◌, ◌++◌, ℕ, List, IfOk};
ghost use Rattle.std.specs.List.{flat_map};
ghost use Rattle.ua_history.specs.Histories.{HistoryState};
ghost use Rattle.ua_messages.specs.Diagnostics.{diagnostic_infos_encoding};
ghost use Rattle.ua_session.specs.Points.{PointsState};
ghost use Rattle.ua_session.specs.Sessions.{points_of};
ghost use Rattle.ua_space.specs.Nodes.{SpaceState};
ghost use Rattle.ua_services.specs.Paging.{Done, DoesOne, DoesAll, Rises, all_done, results_head_of, results_body_of, paged};
ghost use Rattle.ua_services.specs.Serving.{Judges, replied, reply_of};
ghost use Rattle.ua_views.specs.Views.{or_none};

use crate::caller::Caller;
use crate::service::reply;
use crate::services::Services;
use server_messages::{Halt, Served, Setting};
use std::alloc::{AllocError, Global};
use ua_binary::Wire;
use ua_history::History;
use ua_messages::{DiagnosticInfos, MessageBody, ResponseHeader};
use ua_session::Points;
use ua_space::Space;
use ua_types::{NodeId, Refusal};
use ua_views::{ArrayView, View};

/// What pages show, and from where they take memory.
#[derive(Clone, Copy)]
pub(crate) struct Shown<'a> {
    pub(crate) alloc: Global,
    pub(crate) space: &'a Space,
    pub(crate) history: &'a History,
}

/// How a service answers each thing that it is asked for, page by page.
///
/// Implementors write one result at a time, straight into the response. [`serve_pages`] asks for all, with the
/// continuation points of the session.
pub(crate) trait Pages<'a> {
    /// One thing that is asked for, looked at where it came.
    type Asked: View<'a>;

    /// Its result, by its encoding.
    type Answer: Wire;

    ghost RESPONSE: { ℕ };

    /// What one comes to, with the points that are held.
    ghost meaning: { Self → SpaceState → HistoryState → PointsState → Self.Asked → Done Self.Answer };

    /// The type id of the response.
    fn response(&self) -> u32
        ensures { result ≡ RESPONSE };

    /// Writes the result of one. `Exhausted` where a point's serial is the last. At an `Err` nothing is known of what is
    /// written.
    fn page(
        &self,
        shown: &Shown<'_>,
        points: &mut Points,
        asked: Self::Asked,
        body: &mut MessageBody,
    ) -> Result<(), Halt>
        ensures { DoesOne Self.Answer.encoding result body.old body.new points.old points.new (meaning self.now shown.now.space.now shown.now.history.now points.old asked) };

    /// No serial is given twice.
    ghost rises: { (wanted : Self) (space : SpaceState) (history : HistoryState) → Rises (meaning wanted space history) };
}

// Writes the result of each, one behind the other.
fn all_pages<'a, P: Pages<'a>>(
    shown: &Shown<'_>,
    points: &mut Points,
    wanted: &P,
    list: ArrayView<'a, P::Asked>,
    body: &mut MessageBody,
) -> Result<(), Halt>
    ensures { DoesAll P.Answer.encoding result body.old body.new points.old points.new (all_done (P.meaning wanted.now shown.now.space.now shown.now.history.now) points.old (or_none list.entry)) }
{
    for asked in list {
        match wanted.page(shown, points, asked, body) {
            Ok(()) => {}
            Err(halt) => return Err(halt),
        }
    }
    Ok(())
}

// What stands before the results of so many things.
fn head(
    alloc: Global,
    setting: &Setting,
    caller: &Caller,
    type_id: u32,
    count: u32,
) -> Result<MessageBody, AllocError>
    ensures { IfOk result (λ body. body ≡ results_head_of setting.now caller.now type_id count) }
{
    let mut body = MessageBody::new(alloc)?;
    body.write(&NodeId::numeric(0, type_id))?;
    body.write(&ResponseHeader::good(caller.origin.handle, setting.clock))?;
    body.write(&count)?;
    Ok(body)
}

// Answers with the results that are written behind their head.
fn answer(alloc: Global, caller: &Caller, mut body: MessageBody) -> Result<Served, AllocError>
    ensures { IfOk result (λ served. served ≡ replied (reply_of caller.now (body ++ diagnostic_infos_encoding (record {})))) }
{
    body.write(&DiagnosticInfos)?;
    reply(alloc, caller, body)
}

/// Answers with the first page of each thing that is asked for, and leaves the session the points for the next ones.
pub(crate) fn serve_pages<'a, P: Pages<'a>>(
    setting: &Setting,
    caller: &Caller,
    session: u32,
    services: &mut Services,
    wanted: &P,
    list: ArrayView<'a, P::Asked>,
) -> Result<Served, Refusal>
    ensures { Judges setting.now caller.now result services.new (paged P.Answer.encoding setting.now caller.now session P.RESPONSE services.old
        (all_done (P.meaning wanted.now services.old.space services.old.history) (points_of services.old.sessions session) (or_none list.entry))) }
{
    let alloc = services.allocator();
    services.sessions.open_points(alloc, session)?;
    let shown = Shown {
        alloc,
        space: &services.space,
        history: &services.history,
    };
    let Some(points) = services.sessions.points_mut(session) else {
        unreachable!();
    };
    let mut body = head(alloc, setting, caller, wanted.response(), list.len() as u32)?;
    all_pages(&shown, points, wanted, list, &mut body)?;
    Ok(answer(alloc, caller, body)?)
}
