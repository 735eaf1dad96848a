//! What is served.

ghost use Rattle.std.specs.Prelude.{◌≡◌, true, IsOk, IfOk};
ghost use Rattle.ua_space.specs.Histories.{without_histories};
ghost use Rattle.ua_services.specs.Serving.{Judges, Serves};
ghost use Rattle.ua_services.specs.ServicesState.{no_services_used};
ghost use Rattle.ua_services.specs.Services.{serving_of, picked, ticking_of, is_idle, shutting_of, forgotten};

use crate::activate_session::ActivateSession;
use crate::browse::Browse;
use crate::browse_next::BrowseNext;
use crate::caller::Caller;
use crate::close_session::CloseSession;
use crate::create_monitored_items::CreateMonitoredItems;
use crate::create_session::CreateSession;
use crate::create_subscription::CreateSubscription;
use crate::delete_monitored_items::DeleteMonitoredItems;
use crate::delete_subscriptions::DeleteSubscriptions;
use crate::get_endpoints::GetEndpoints;
use crate::history_read::HistoryRead;
use crate::modify_monitored_items::ModifyMonitoredItems;
use crate::modify_subscription::ModifySubscription;
use crate::publish::Publish;
use crate::read::Read;
use crate::republish::Republish;
use crate::service::{Service, refuse};
use crate::set_monitoring_mode::SetMonitoringMode;
use crate::set_publishing_mode::SetPublishingMode;
use crate::set_triggering::SetTriggering;
use crate::sub_serving::{end_sessions, fire_timers, joined, served_alone};
use crate::write::Write;
use server_messages::{Halt, Origin, Request, Served, Setting};
use std::alloc::{AllocError, Global};
use ua_history::History;
use ua_messages::{Headed, header_view, type_ids};
use ua_monitored_items::Items;
use ua_session::Sessions;
use ua_space::Space;
use ua_subscriptions::Subscriptions;
use ua_types::{Config, Refusal, Status};

/// The services, and what they keep.
///
/// Each request is judged in this order, and the first that is wrong is answered by a fault with that
/// status (IEC 62541-4, "ServiceFault"): its type id or its header can't be read,
/// `BAD_DECODING_ERROR` under the handle 0; its type isn't served, `BAD_SERVICE_UNSUPPORTED`; its
/// fields can't be read, `BAD_DECODING_ERROR`; what the service itself finds wrong. At an `Err` nothing is
/// known of what is left.
#[derive(Drop)]
pub struct Services {
    /// The nodes of the server and the references between them.
    pub space: Space,
    /// The sessions of its clients.
    pub sessions: Sessions,
    /// The values that its variables had.
    pub history: History,
    /// What is watched of its nodes.
    pub items: Items,
    /// The subscriptions of its clients, and the Publish requests that wait.
    pub subscriptions: Subscriptions,
}

impl Services {
    /// Nothing was served yet, over this address space. The values that its nodes had before are moved into the histories,
    /// which takes no memory where there are none.
    pub fn new(alloc: Global, config: &Config, mut space: Space) -> Result<Services, AllocError>
        ensures opening { IfOk result (λ services. services ≡ no_services_used config.now space) }
        ensures memory { without_histories space.nodes ≡ space.nodes → IsOk result }
    {
        let history = History::beginning(alloc, config, &mut space)?;
        Ok(Services {
            space,
            sessions: Sessions::new(alloc, config),
            history,
            items: Items::new(alloc, config),
            subscriptions: Subscriptions::new(alloc, config),
        })
    }

    /// From where the services take memory.
    pub fn allocator(&self) -> Global {
        self.items.allocator()
    }

    /// Does what a request asks for. The replies may be for it and for others that waited.
    ///
    /// `Memory` comes only where an allocation failed, `Exhausted` only where the serials of nonces, of a session's
    /// continuation points, or of the messages of subscriptions are used up.
    #[tactic(auto, unfolding(crate::specs::Services::serving_of))]
    pub fn serve(&mut self, setting: &Setting, request: &Request) -> Result<Served, Halt>
        ensures { Serves result self.new (serving_of setting.now request.now self.old) }
    {
        let alloc = self.allocator();
        let body = request.body.as_slice();
        let mut caller = Caller {
            origin: Origin {
                conn: request.conn,
                id: request.id,
                handle: 0,
            },
            key: request.key,
        };
        let Ok(headed) = header_view(body) else {
            return Ok(refuse(alloc, &caller, Status::BAD_DECODING_ERROR, setting.clock)?);
        };
        caller.origin.handle = headed.header.request_handle;
        match self.pick(setting, &caller, &headed) {
            Ok(served) => Ok(served),
            Err(Refusal::Service(status)) => Ok(refuse(alloc, &caller, status, setting.clock)?),
            Err(Refusal::Memory) => Err(Halt::Memory),
            Err(Refusal::Exhausted) => Err(Halt::Exhausted),
        }
    }

    // Does what a request of this type asks for, or refuses it. Its header was looked at.
    fn pick(
        &mut self,
        setting: &Setting,
        caller: &Caller,
        headed: &Headed<'_>,
    ) -> Result<Served, Refusal>
        ensures { Judges setting.now caller.now result self.new (picked setting.now caller.now headed.now.header.authentication_token headed.now.fields.now self.old headed.now.type_id) }
    {
        match headed.type_id {
            type_ids::GET_ENDPOINTS_REQUEST => { GetEndpoints::take(setting, caller, headed, self) }
            type_ids::CREATE_SESSION_REQUEST => {
                CreateSession::take(setting, caller, headed, self)
            }
            type_ids::ACTIVATE_SESSION_REQUEST => {
                ActivateSession::take(setting, caller, headed, self)
            }
            type_ids::CLOSE_SESSION_REQUEST => { CloseSession::take(setting, caller, headed, self) }
            type_ids::READ_REQUEST => Read::take(setting, caller, headed, self),
            type_ids::WRITE_REQUEST => Write::take(setting, caller, headed, self),
            type_ids::BROWSE_REQUEST => Browse::take(setting, caller, headed, self),
            type_ids::BROWSE_NEXT_REQUEST => { BrowseNext::take(setting, caller, headed, self) }
            type_ids::HISTORY_READ_REQUEST => { HistoryRead::take(setting, caller, headed, self) }
            type_ids::CREATE_MONITORED_ITEMS_REQUEST => {
                CreateMonitoredItems::take(setting, caller, headed, self)
            }
            type_ids::MODIFY_MONITORED_ITEMS_REQUEST => {
                ModifyMonitoredItems::take(setting, caller, headed, self)
            }
            type_ids::SET_MONITORING_MODE_REQUEST => {
                SetMonitoringMode::take(setting, caller, headed, self)
            }
            type_ids::SET_TRIGGERING_REQUEST => {
                SetTriggering::take(setting, caller, headed, self)
            }
            type_ids::DELETE_MONITORED_ITEMS_REQUEST => {
                DeleteMonitoredItems::take(setting, caller, headed, self)
            }
            type_ids::CREATE_SUBSCRIPTION_REQUEST => {
                CreateSubscription::take(setting, caller, headed, self)
            }
            type_ids::MODIFY_SUBSCRIPTION_REQUEST => {
                ModifySubscription::take(setting, caller, headed, self)
            }
            type_ids::SET_PUBLISHING_MODE_REQUEST => {
                SetPublishingMode::take(setting, caller, headed, self)
            }
            type_ids::DELETE_SUBSCRIPTIONS_REQUEST => {
                DeleteSubscriptions::take(setting, caller, headed, self)
            }
            type_ids::PUBLISH_REQUEST => Publish::take(setting, caller, headed, self),
            type_ids::REPUBLISH_REQUEST => { Republish::take(setting, caller, headed, self) }
            _ => Err(Refusal::Service(Status::BAD_SERVICE_UNSUPPORTED)),
        }
    }

    /// Does what is due as time passes: the sessions end whose deadline the clock has reached, by rising number, and leave
    /// their subscriptions to their lifetime; then the timers of the subscriptions that are due come, the best first. Takes
    /// no memory where nothing is due.
    pub fn tick(&mut self, setting: &Setting) -> Result<Served, Halt>
        ensures ticks { Serves result self.new (ticking_of setting.now self.old) }
        ensures idle { is_idle setting.now self.old ≡ true → IsOk result }
    {
        let alloc = self.allocator();
        let ended = self.sessions.tick(alloc, setting.clock)?;
        if ended.is_empty() {
            return fire_timers(setting, self);
        }
        let served = end_sessions(setting, ended.as_slice(), self)?;
        let more = fire_timers(setting, self)?;
        Ok(joined(served, more)?)
    }

    /// Ends all that is served: the subscriptions end, by rising number, the Publish requests that wait are answered
    /// `BAD_SHUTDOWN`, and no session is left.
    #[tactic(auto, unfolding(crate::specs::Services::shutting_of))]
    pub fn shut_down(&mut self, setting: &Setting) -> Result<Served, Halt>
        ensures { Serves result self.new (shutting_of setting.now self.old) }
    {
        let alloc = self.allocator();
        let items = &mut self.items;
        let answered = self.subscriptions.shut_down(items, setting.clock)?;
        self.sessions.end_all(alloc);
        Ok(served_alone(alloc, answered))
    }

    /// Drops what a connection that is closed or gone still waited for: its Publish requests. Takes no memory.
    pub fn forget(&mut self, conn: u64)
        ensures { self.new ≡ forgotten self.old conn }
    {
        self.subscriptions.gone(conn);
    }
}
