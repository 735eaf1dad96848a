//! What every service of a session is.

ghost use Rattle.std.specs.Prelude.{ℕ};
ghost use Rattle.server_messages.specs.declared.setting.Setting.{Setting};
ghost use Rattle.ua_services.specs.InSession.{in_session};
ghost use Rattle.ua_services.specs.ServicesState.{Services};
ghost use Rattle.ua_services.specs.Serving.{Serving, Judges};
ghost use Rattle.ua_services.specs.declared.caller.Caller.{Caller};

use crate::caller::Caller;
use crate::service::Service;
use crate::services::Services;
use server_messages::{Served, Setting};
use ua_types::Refusal;
use ua_views::{NodeIdView, View};

/// A service of a session: a type of request, and what is done about it once its session is found.
///
/// Implementors write `serve`, and say what it means. Each is a [`Service`] in one way: the session that the token in the request's
/// header names has to be one that may be used ([`ua_session::Sessions::find`]). The faults, behind that of fields that can't be
/// read, in this order: `BAD_SESSION_ID_INVALID` where no session has the token, `BAD_SECURE_CHANNEL_ID_INVALID` on another
/// connection than the session's, `BAD_SESSION_NOT_ACTIVATED` before ActivateSession. They come however little memory there is.
pub trait SessionService<'a> {
    /// The request's fields. Contracts see it as the request that was sent.
    type Request: View<'a>;

    /// What a request comes to.
    ghost meaning: { Setting → Caller → ℕ → Self.Request → Services → Serving };

    /// Does what a request asks for, or refuses it. `session` is the number of the session that was found: a service that needs
    /// its continuation points uses them in their place ([`ua_session::Sessions::points_mut`]). Want of memory is answered to a
    /// request that isn't refused, `Exhausted` where a serial of 64 bits ran out.
    fn serve(
        setting: &Setting,
        caller: &Caller,
        session: u32,
        request: Self::Request,
        services: &mut Services,
    ) -> Result<Served, Refusal>
        ensures { Judges setting.now caller.now result services.new (meaning setting.now caller.now session request services.old) };
}

impl<'a, S: SessionService<'a>> Service<'a> for S {
    type Request = S::Request;

    ghost meaning = { in_session S.meaning };

    fn serve(
        setting: &Setting,
        caller: &Caller,
        token: &NodeIdView<'_>,
        request: S::Request,
        services: &mut Services,
    ) -> Result<Served, Refusal> {
        let session = services.sessions.find(token, caller.origin.conn)?;
        <S as SessionService<'a>>::serve(setting, caller, session, request, services)
    }
}
