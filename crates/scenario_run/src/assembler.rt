//! What lines come to.

ghost use Rattle.std.specs.Prelude.{◌≡◌, length, Ok, IfOk, OnOk};
ghost use Rattle.scenario_text.specs.declared.fault.Cause.TheVariants.{Memory};
ghost use Rattle.std.specs.Option.{option_copied};
ghost use Rattle.ua_transport.specs.SequenceNumbers.{sequence_number_after as sequence_number_after_spec};
ghost use Rattle.scenario_text.specs.declared.statement.Statement.TheVariants.{OpenChannel, GetEndpoints, CreateSession, Ask};
ghost use Rattle.scenario_run.specs.ReadBodies.{IsRead};
ghost use Rattle.scenario_run.specs.Members.{Assembles, nothing_sent, client_of as client_of_spec, sending, channels_after as channels_after_spec, assembled_opening, token_in as token_in_spec, token_at as token_at_spec, with_session, assembled_service, assembled_of};

use crate::clients::{Client, closing, hello, new_client, opening, service};
use collections::Numbered;
use scenario_text::{
    Cause, ChannelRequest, SessionRequest, Statement, create_session_body, endpoints_body,
    request_body, request_header,
};
use server_core::Event;
use std::alloc::{AllocError, Global};
use ua_session::{session_secret, session_token};
use ua_transport::sequence_number_after;
use ua_types::{Listed, NodeId};

/// A session that was asked for.
#[derive(Clone, Copy, Debug)]
pub struct Session {
    /// The key of the connection that asked for it.
    pub key: [u8; 32],
    /// Its number on the server.
    pub number: u32,
}

/// What a line comes to.
#[derive(Debug, Drop)]
pub enum Member {
    /// It says how later lines are meant.
    Nothing,
    /// Something that happens by itself.
    Own(Event),
    /// Bytes that come on a connection.
    Stream { connection: u64, bytes: Listed<u8> },
}

/// What the lines so far have come to.
#[derive(Debug, Drop)]
pub struct Assembler {
    /// The clients of the connections that are open.
    pub clients: Numbered<Client>,
    /// The number of the channel that was asked for last, 0 before the first.
    pub channels: u32,
    /// The sessions that were asked for, in their order.
    pub sessions: Listed<Session>,
    /// How many bytes an event has; 0 is whole.
    pub cut: u64,
    /// How many bytes of a body a chunk has; 0 is whole.
    pub chunk: u64,
    /// Whether the next request is to be given up.
    pub is_aborting: bool,
}

// The token that the server gives the session.
fn token_in(alloc: Global, session: Option<&Session>) -> Result<NodeId, AllocError>
    ensures { IfOk result (λ id. id ≡ token_in_spec (option_copied session.entry)) }
{
    match session {
        None => Ok(NodeId::null()),
        Some(session) => session_token(alloc, &session_secret(&session.key), session.number),
    }
}

impl Assembler {
    /// Before the first line. Takes no memory.
    pub fn new(alloc: Global) -> Assembler
        ensures { result ≡ nothing_sent }
    {
        Assembler {
            clients: Numbered::new(alloc),
            channels: 0,
            sessions: Listed::new(alloc),
            cut: 0,
            chunk: 0,
            is_aborting: false,
        }
    }

    // The client of a connection that is open.
    fn client_of(&self, connection: u64) -> Client
        ensures { result ≡ client_of_spec self.now connection }
    {
        match self.clients.get(connection) {
            Some(client) => *client,
            None => new_client([0; 32]),
        }
    }

    // A client has sent this.
    #[tactic(auto, unfolding(crate::specs::Members::sending))]
    fn sent(&mut self, connection: u64, sent: (Vec<u8>, Client)) -> Result<Member, Cause>
        ensures { Assembles Memory result self.new (sending self.old connection (Ok (sent.0.items, sent.1))) }
    {
        let (bytes, client) = sent;
        self.clients.insert(connection, client)?;
        Ok(Member::Stream {
            connection,
            bytes: Listed::from_vec(bytes),
        })
    }

    fn channels_after(&self, request: ChannelRequest) -> u32
        ensures { result ≡ channels_after_spec self.now request }
    {
        match request {
            ChannelRequest::Issue => sequence_number_after(self.channels),
            ChannelRequest::Renew => self.channels,
        }
    }

    // A channel or a token is asked for.
    #[tactic(auto, unfolding(crate::specs::Members::assembled_opening, crate::specs::Members::sending))]
    fn open_channel(
        &mut self,
        alloc: Global,
        connection: u64,
        request: ChannelRequest,
    ) -> Result<Member, Cause>
        ensures given { Assembles Memory result self.new (assembled_opening self.old connection request) }
        ensures read { OnOk result (IsRead self.old (OpenChannel connection request)) }
    {
        let number = self.channels_after(request);
        let sent = opening(alloc, &self.client_of(connection), number, request)?;
        self.channels = number;
        self.sent(connection, sent)
    }

    fn token_at(&self, alloc: Global, session: u64) -> Result<NodeId, AllocError>
        ensures { IfOk result (λ id. id ≡ token_at_spec self.now session) }
    {
        token_in(
            alloc,
            self.sessions
                .as_slice()
                .get(session.saturating_sub(1) as usize),
        )
    }

    // A request with this body.
    #[tactic(auto, unfolding(crate::specs::Members::assembled_service, crate::specs::Members::sending))]
    fn serve(&mut self, alloc: Global, connection: u64, body: Vec<u8>) -> Result<Member, Cause>
        ensures { Assembles Memory result self.new (assembled_service self.old connection body.items) }
    {
        let client = self.client_of(connection);
        let sent = service(alloc, self.is_aborting, self.chunk, &client, body)?;
        self.is_aborting = false;
        self.sent(connection, sent)
    }

    fn add_session(&mut self, connection: u64) -> Result<(), AllocError>
        ensures { OnOk result (self.new ≡ with_session self.old connection) }
    {
        let client = self.client_of(connection);
        let key = client.key;
        let number = self.session_number();
        self.sessions.push(Session { key, number })
    }

    // The number of the next session.
    fn session_number(&self) -> u32
        ensures { result ≡ sequence_number_after_spec (length self.now.sessions) }
    {
        let made = self.sessions.as_slice().len();
        if made < 4_294_966_272 {
            made as u32 + 1
        } else {
            1
        }
    }

    // GetEndpoints.
    #[tactic(auto, unfolding(crate::specs::Members::assembled_of))]
    fn endpoints(&mut self, alloc: Global, connection: u64) -> Result<Member, Cause>
        ensures given { Assembles Memory result self.new (assembled_of self.old (GetEndpoints connection)) }
        ensures read { OnOk result (IsRead self.old (GetEndpoints connection)) }
    {
        let handle = self.client_of(connection).request_id;
        let body = endpoints_body(alloc, request_header(NodeId::null(), handle))?;
        self.serve(alloc, connection, body)
    }

    // CreateSession.
    #[tactic(auto, unfolding(crate::specs::Members::assembled_of))]
    fn create_session(&mut self, alloc: Global, connection: u64) -> Result<Member, Cause>
        ensures given { Assembles Memory result self.new (assembled_of self.old (CreateSession connection)) }
        ensures read { OnOk result (IsRead self.old (CreateSession connection)) }
    {
        let handle = self.client_of(connection).request_id;
        self.add_session(connection)?;
        let body = create_session_body(alloc, request_header(NodeId::null(), handle))?;
        self.serve(alloc, connection, body)
    }

    // What a session asks.
    #[tactic(auto, unfolding(crate::specs::Members::assembled_of))]
    fn ask(
        &mut self,
        alloc: Global,
        connection: u64,
        session: u64,
        request: SessionRequest,
    ) -> Result<Member, Cause>
        ensures given { Assembles Memory result self.new (assembled_of self.old (Ask connection session request)) }
        ensures read { OnOk result (IsRead self.old (Ask connection session request)) }
    {
        let handle = self.client_of(connection).request_id;
        let token = self.token_at(alloc, session)?;
        let body = request_body(alloc, request_header(token, handle), request)?;
        self.serve(alloc, connection, body)
    }

    /// What a statement comes to. What it sends is read again. The only cause but `Memory` is `Limit`, where a body is too long. At an
    /// `Err` nothing is said of what is so after it.
    #[tactic(auto, unfolding(crate::specs::Members::assembled_of, crate::specs::Members::sending))]
    pub fn take(&mut self, alloc: Global, statement: Statement) -> Result<Member, Cause>
        ensures given { Assembles Memory result self.new (assembled_of self.old statement) }
        ensures read { OnOk result (IsRead self.old statement) }
    {
        match statement {
            Statement::Open { connection, key } => {
                self.clients.insert(connection, new_client(key))?;
                Ok(Member::Own(Event::Opened {
                    conn: connection,
                    key,
                }))
            }
            Statement::Hello { connection, url } => {
                let sent = hello(alloc, &self.client_of(connection), url)?;
                self.sent(connection, sent)
            }
            Statement::OpenChannel {
                connection,
                request,
            } => self.open_channel(alloc, connection, request),
            Statement::CloseChannel { connection } => {
                let sent = closing(alloc, &self.client_of(connection))?;
                self.sent(connection, sent)
            }
            Statement::Gone { connection } => {
                self.clients.remove(connection);
                Ok(Member::Own(Event::Gone { conn: connection }))
            }
            Statement::Tick { now } => Ok(Member::Own(Event::Tick { now })),
            Statement::Shutdown => Ok(Member::Own(Event::Shutdown)),
            Statement::Raw { connection, bytes } => Ok(Member::Stream { connection, bytes }),
            Statement::Cut { size } => {
                self.cut = size;
                Ok(Member::Nothing)
            }
            Statement::Chunk { size } => {
                self.chunk = size;
                Ok(Member::Nothing)
            }
            Statement::Abort => {
                self.is_aborting = true;
                Ok(Member::Nothing)
            }
            // The read or the write behind it has the range already.
            Statement::Range { range: _ } => Ok(Member::Nothing),
            Statement::GetEndpoints { connection } => self.endpoints(alloc, connection),
            Statement::CreateSession { connection } => self.create_session(alloc, connection),
            Statement::Ask {
                connection,
                session,
                request,
            } => self.ask(alloc, connection, session, request),
        }
    }
}
