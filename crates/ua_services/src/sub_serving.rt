//! What the services of subscriptions share.

ghost use Rattle.std.specs.Prelude.{◌≡◌, ◌∷◌, ◌++◌, false, not, IfOk, IsOk, OnOk};
ghost use Rattle.std.specs.Option.{is_some};
ghost use Rattle.ua_subscriptions.specs.Ranks.{is_any_due};
ghost use Rattle.ua_services.specs.Serving.{Serves, reply_of, served, reply_before, joined as joined_spec};
ghost use Rattle.ua_services.specs.SubServing.{session_over, all_timed_out, timers_met};

use crate::caller::Caller;
use crate::service::reply;
use crate::services::Services;
use collections::ShortList;
use server_messages::{Halt, Served, Setting};
use std::alloc::{AllocError, Global};
use ua_messages::MessageBody;
use ua_subscriptions::Answered;
use ua_types::Listed;

/// What a call of the subscriptions answered, and what is served beside it: replies to Publish requests, and the rows
/// that fired.
pub(crate) fn apart<T>(alloc: Global, answered: Answered<T>) -> (T, Served)
    ensures answer { result.0 ≡ answered.answer }
    ensures others { result.1 ≡ served answered.replies answered.rows }
{
    let Answered {
        answer,
        replies,
        rows,
    } = answered;
    let stored = Listed::new(alloc);
    (
        answer,
        Served {
            replies,
            rows,
            stored,
        },
    )
}

/// What is served where the answer itself says nothing.
pub(crate) fn served_alone(alloc: Global, answered: Answered<()>) -> Served
    ensures { result ≡ served answered.replies answered.rows }
{
    let (_, served) = apart(alloc, answered);
    served
}

/// The reply to a call with this body, before what else is served.
pub(crate) fn reply_first(
    alloc: Global,
    caller: &Caller,
    body: MessageBody,
    others: Served,
) -> Result<Served, AllocError>
    ensures { IfOk result (λ all. all ≡ reply_before (reply_of caller.now body) others) }
{
    joined(reply(alloc, caller, body)?, others)
}

/// What was served before, and then more.
pub(crate) fn joined(mut before: Served, more: Served) -> Result<Served, AllocError>
    ensures { IfOk result (λ all. all ≡ joined_spec before more) }
{
    before.replies.append(more.replies)?;
    before.rows.append(more.rows)?;
    before.stored.append(more.stored)?;
    Ok(before)
}

/// A session is over: its subscriptions are deleted with it, or left to their lifetime, and its Publish requests that
/// wait are answered.
pub(crate) fn end_session(
    setting: &Setting,
    number: u32,
    deleting: bool,
    services: &mut Services,
) -> Result<Served, Halt>
    ensures { Serves result services.new (session_over setting.now deleting number services.old) }
{
    let items = &mut services.items;
    let answered = services
        .subscriptions
        .session_end(items, setting.clock, number, deleting)?;
    Ok(served_alone(services.allocator(), answered))
}

/// Sessions have timed out, and leave their subscriptions to their lifetime.
pub(crate) fn end_sessions(
    setting: &Setting,
    numbers: &[u32],
    services: &mut Services,
) -> Result<Served, Halt>
    ensures { Serves result services.new (all_timed_out setting.now services.old numbers.now) }
{
    let alloc = services.allocator();
    let mut served = Served {
        replies: ShortList::new(alloc),
        rows: Listed::new(alloc),
        stored: Listed::new(alloc),
    };
    for number in numbers {
        let more = end_session(setting, *number, false, services)?;
        served = joined(served, more)?;
    }
    Ok(served)
}

/// The timers of the subscriptions that are due. Takes no memory where none is.
pub(crate) fn fire_timers(setting: &Setting, services: &mut Services) -> Result<Served, Halt>
    ensures serves { Serves result services.new (timers_met setting.now services.old) }
    ensures none { is_some services.old.subscriptions.halted ≡ false → is_any_due setting.now.clock services.old.subscriptions.table.subscriptions ≡ false → IsOk result }
{
    let items = &mut services.items;
    let answered = services.subscriptions.timers(items, setting.clock)?;
    Ok(served_alone(services.allocator(), answered))
}
