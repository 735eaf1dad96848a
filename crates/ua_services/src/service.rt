//! What every service is.

ghost use Rattle.std.specs.Prelude.{◌≡◌, IfOk, ◌∷◌, []};
ghost use Rattle.ua_types.specs.declared.node_id.NodeId.{NodeId};
ghost use Rattle.ua_messages.specs.Requests.{fields_of};
ghost use Rattle.ua_messages.specs.ServiceFaults.{fault_body};
ghost use Rattle.server_messages.specs.declared.setting.Setting.{Setting};
ghost use Rattle.ua_services.specs.ServicesState.{Services};
ghost use Rattle.ua_services.specs.Serving.{Serving, Judges, served_by, reply_of, replied, refusal_by};
ghost use Rattle.ua_services.specs.declared.caller.Caller.{Caller};

use crate::caller::Caller;
use crate::services::Services;
use collections::ShortList;
use server_messages::{Halt, Reply, Served, Setting};
use std::alloc::{AllocError, Global};
use ua_messages::{Headed, MessageBody, fault, fields_view};
use ua_types::{Listed, Moment, Refusal, Status};
use ua_views::{NodeIdView, View};

/// The reply to a call, with this body.
pub(crate) fn reply(alloc: Global, caller: &Caller, body: MessageBody) -> Result<Served, AllocError>
    ensures { IfOk result (λ served. served ≡ replied (reply_of caller.now body)) }
{
    let mut replies = ShortList::new(alloc);
    replies.push(Reply {
        origin: caller.origin,
        body,
    })?;
    Ok(Served {
        replies,
        rows: Listed::new(alloc),
        stored: Listed::new(alloc),
    })
}

/// The status that a client is told of a refusal, or why the server halts.
pub(crate) fn status_told(refusal: Refusal) -> Result<Status, Halt>
    ensures { refusal ≡ refusal_by result }
{
    match refusal {
        Refusal::Service(status) => Ok(status),
        Refusal::Memory => Err(Halt::Memory),
        Refusal::Exhausted => Err(Halt::Exhausted),
    }
}

/// The fault with this status, in the place of a response.
pub(crate) fn refuse(
    alloc: Global,
    caller: &Caller,
    status: Status,
    clock: Moment,
) -> Result<Served, AllocError>
    ensures { IfOk result (λ served. served ≡ replied (reply_of caller.now (fault_body caller.now.origin.handle status clock))) }
{
    reply(
        alloc,
        caller,
        fault(alloc, caller.origin.handle, status, clock)?,
    )
}

/// A service: a type of request, which is looked at in the bytes in which it came, and what is done about it.
///
/// Implementors write `serve`, and say what it means. [`Services::serve`] calls [`Service::take`],
/// which refuses a request whose fields can't be read, once for all services. A refusal is a status, whose fault is
/// written in one place ([`Services::serve`]): so no refusal wants memory.
pub trait Service<'a> {
    /// The request's fields. Contracts see it as the request that was sent.
    type Request: View<'a>;

    /// What a request comes to.
    ghost meaning: { Setting → Caller → NodeId → Self.Request → Services → Serving };

    /// Does what a request asks for, or refuses it. `token` is the one in the request's header, which may name a session. Want of
    /// memory is answered to a request that isn't refused, `Exhausted` where a serial of 64 bits ran out.
    fn serve(
        setting: &Setting,
        caller: &Caller,
        token: &NodeIdView<'_>,
        request: Self::Request,
        services: &mut Services,
    ) -> Result<Served, Refusal>
        ensures { Judges setting.now caller.now result services.new (meaning setting.now caller.now token.now request services.old) };

    /// Looks at a request's fields in the bytes behind its header, and serves it. One whose fields can't be read is refused with
    /// `BAD_DECODING_ERROR`, however little memory there is.
    final fn take(
        setting: &Setting,
        caller: &Caller,
        headed: &Headed<'a>,
        services: &mut Services,
    ) -> Result<Served, Refusal>
        ensures { Judges setting.now caller.now result services.new
            (served_by meaning setting.now caller.now headed.now.header.authentication_token services.old (fields_of Self.Request.reading headed.now.fields.now)) }
    {
        let token = &headed.header.authentication_token;
        match fields_view::<Self::Request>(headed.fields) {
            Ok(request) => Self::serve(setting, caller, token, request, services),
            Err(_) => Err(Refusal::Service(Status::BAD_DECODING_ERROR)),
        }
    }
}
