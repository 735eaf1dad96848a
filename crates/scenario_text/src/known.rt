//! What the lines before a line have opened, made and set.

ghost use Rattle.std.specs.Prelude.{◌≡◌, true, Err, IfErr, OnOk, OnErr};
ghost use Rattle.ua_types.specs.Answers.{Gives};
ghost use Rattle.scenario_text.specs.Readings.{Finds, Reads};
ghost use Rattle.scenario_text.specs.declared.fault.Cause.TheVariants.{Memory};
ghost use Rattle.scenario_text.specs.Statements.{nothing_known, is_above_all, connection_reading, new_connection_reading, session_reading, asker_reading, front_reading, takes_no_memory, is_spared, request_reading, statement_reading, line_reading, statement_of, uses_range, after};

use crate::choices::{ChannelRequest, Publishing, Subscriptions};
use crate::fault::Cause;
use crate::numbers::{long_number, moment};
use crate::open_connections::OpenConnections;
use crate::phrases::Phrase;
use crate::requests::{
    Acknowledgement, Attribute, ChangedItem, Counts, LinkChange, NewItem, NewValue, RawValues,
    References,
};
use crate::statement::{SessionRequest, Statement};
use crate::values::{key, octets, range};
use crate::verbs::{RequestVerb, Verb, verb_of};
use crate::words::Words;
use std::alloc::{AllocError, Global};
use ua_types::{Copyable, Listed, Text};

/// What the words of a line are judged against: which connections are open there, and which sessions
/// were made. And what earlier lines have set for it.
#[derive(Debug, Drop)]
pub struct Known {
    /// The connections that were opened and aren't gone.
    pub connections: OpenConnections,
    /// The greatest number of a connection that was opened so far.
    pub greatest: Option<u64>,
    /// How many sessions were made. It stays at its last value.
    pub sessions: u64,
    /// The index range of the next read or write, or null. A `range` sets it, and a read or a write uses it up.
    pub range: Text,
}

// What a session asks, where this range is set for the next read or write.
#[tactic(auto, unfolding(crate::specs::Statements::request_reading))]
fn request(
    alloc: Global,
    range: &Text,
    verb: RequestVerb,
    words: &mut Words<'_>,
) -> Result<SessionRequest, Cause>
    ensures { Reads result words.new (request_reading range.now verb words.old) }
{
    match verb {
        RequestVerb::ActivateSession => Ok(SessionRequest::ActivateSession),
        RequestVerb::CloseSession => Ok(SessionRequest::CloseSession {
            subscriptions: Subscriptions::read(alloc, words)?,
        }),
        RequestVerb::Read => Ok(SessionRequest::Read {
            timestamps: i32::read(alloc, words)?,
            attributes: Listed::<Attribute>::read(alloc, words)?,
            range: range.copy(alloc)?,
        }),
        RequestVerb::Write => Ok(SessionRequest::Write {
            values: Listed::<NewValue>::read(alloc, words)?,
            range: range.copy(alloc)?,
        }),
        RequestVerb::Browse => Ok(SessionRequest::Browse {
            references: References::read(alloc, words)?,
        }),
        RequestVerb::BrowseNext => Ok(SessionRequest::BrowseNext {
            points: Listed::<u64>::read(alloc, words)?,
        }),
        RequestVerb::ReleasePoints => Ok(SessionRequest::ReleasePoints {
            points: Listed::<u64>::read(alloc, words)?,
        }),
        RequestVerb::ReadHistory => Ok(SessionRequest::ReadHistory {
            values: RawValues::read(alloc, words)?,
        }),
        RequestVerb::CreateSubscription => Ok(SessionRequest::CreateSubscription {
            counts: Counts::read(alloc, words)?,
            publishing: Publishing::read(alloc, words)?,
        }),
        RequestVerb::ModifySubscription => Ok(SessionRequest::ModifySubscription {
            subscription: u32::read(alloc, words)?,
            counts: Counts::read(alloc, words)?,
        }),
        RequestVerb::SetPublishing => Ok(SessionRequest::SetPublishing {
            publishing: Publishing::read(alloc, words)?,
            subscriptions: Listed::<u32>::read(alloc, words)?,
        }),
        RequestVerb::CreateItem => Ok(SessionRequest::CreateItem {
            item: NewItem::read(alloc, words)?,
        }),
        RequestVerb::ModifyItem => Ok(SessionRequest::ModifyItem {
            item: ChangedItem::read(alloc, words)?,
        }),
        RequestVerb::SetItemMode => Ok(SessionRequest::SetItemMode {
            subscription: u32::read(alloc, words)?,
            mode: i32::read(alloc, words)?,
            items: Listed::<u32>::read(alloc, words)?,
        }),
        RequestVerb::SetTriggering => Ok(SessionRequest::SetTriggering {
            subscription: u32::read(alloc, words)?,
            triggering: u32::read(alloc, words)?,
            changes: Listed::<LinkChange>::read(alloc, words)?,
        }),
        RequestVerb::DeleteItems => Ok(SessionRequest::DeleteItems {
            subscription: u32::read(alloc, words)?,
            items: Listed::<u32>::read(alloc, words)?,
        }),
        RequestVerb::Publish => Ok(SessionRequest::Publish {
            acknowledgements: Listed::<Acknowledgement>::read(alloc, words)?,
        }),
        RequestVerb::Republish => Ok(SessionRequest::Republish {
            subscription: u32::read(alloc, words)?,
            sequence_number: u32::read(alloc, words)?,
        }),
        RequestVerb::DeleteSubscriptions => Ok(SessionRequest::DeleteSubscriptions {
            subscriptions: Listed::<u32>::read(alloc, words)?,
        }),
    }
}

// Whether it is a read or a write, which uses the range up that was set for it.
fn uses_range(request: &SessionRequest) -> bool
    ensures { result ≡ uses_range request.now }
{
    match request {
        SessionRequest::Read { .. } => true,
        SessionRequest::Write { .. } => true,
        _ => false,
    }
}

impl Known {
    /// Before the first line. Takes no memory.
    pub fn new(alloc: Global) -> Known
        ensures { result ≡ nothing_known }
    {
        Known {
            connections: OpenConnections::new(alloc),
            greatest: None,
            sessions: 0,
            range: Text::null(),
        }
    }

    // The number is above those of all connections before.
    fn is_new(&self, connection: u64) -> bool
        ensures { result ≡ is_above_all connection self.now.greatest }
    {
        match self.greatest {
            Some(greatest) => greatest < connection,
            None => true,
        }
    }

    // A connection that is open.
    #[tactic(auto, unfolding(crate::specs::Statements::connection_reading))]
    fn connection(&self, words: &mut Words<'_>) -> Result<u64, Cause>
        ensures { Finds result words.new (connection_reading self.now words.old) }
    {
        let connection = long_number(words)?;
        if self.connections.contains(connection) {
            Ok(connection)
        } else {
            Err(Cause::NoConnection)
        }
    }

    // A connection that can be opened.
    #[tactic(auto, unfolding(crate::specs::Statements::new_connection_reading))]
    fn new_connection(&self, words: &mut Words<'_>) -> Result<u64, Cause>
        ensures { Finds result words.new (new_connection_reading self.now words.old) }
    {
        let connection = long_number(words)?;
        if self.is_new(connection) {
            Ok(connection)
        } else {
            Err(Cause::Number)
        }
    }

    // A session that was made.
    #[tactic(auto, unfolding(crate::specs::Statements::session_reading))]
    fn session(&self, words: &mut Words<'_>) -> Result<u64, Cause>
        ensures { Finds result words.new (session_reading self.now words.old) }
    {
        let session = long_number(words)?;
        if 0 < session && session <= self.sessions {
            Ok(session)
        } else {
            Err(Cause::NoConnection)
        }
    }

    #[tactic(auto, unfolding(crate::specs::Statements::statement_reading))]
    fn statement(
        &self,
        alloc: Global,
        verb: Verb,
        words: &mut Words<'_>,
    ) -> Result<Statement, Cause>
        ensures read { Reads result words.new (statement_reading self.now verb words.old) }
        ensures spared { takes_no_memory verb ≡ true → Finds result words.new (statement_reading self.now verb words.old) }
        ensures asker { IfErr (asker_reading self.now verb words.old) (λ cause. result ≡ Err cause) }
    {
        match verb {
            Verb::Open => Ok(Statement::Open {
                connection: self.new_connection(words)?,
                key: key(words)?,
            }),
            Verb::Hello => Ok(Statement::Hello {
                connection: self.connection(words)?,
                url: Text::read(alloc, words)?,
            }),
            Verb::OpenChannel => Ok(Statement::OpenChannel {
                connection: self.connection(words)?,
                request: ChannelRequest::read(alloc, words)?,
            }),
            Verb::CloseChannel => Ok(Statement::CloseChannel {
                connection: self.connection(words)?,
            }),
            Verb::Gone => Ok(Statement::Gone {
                connection: self.connection(words)?,
            }),
            Verb::Tick => Ok(Statement::Tick {
                now: moment(words)?,
            }),
            Verb::Shutdown => Ok(Statement::Shutdown),
            Verb::Raw => Ok(Statement::Raw {
                connection: self.connection(words)?,
                bytes: Listed::from_vec(octets(alloc, words)?),
            }),
            Verb::Cut => Ok(Statement::Cut {
                size: long_number(words)?,
            }),
            Verb::Chunk => Ok(Statement::Chunk {
                size: long_number(words)?,
            }),
            Verb::Abort => Ok(Statement::Abort),
            Verb::Range => Ok(Statement::Range {
                range: range(alloc, words)?,
            }),
            Verb::GetEndpoints => Ok(Statement::GetEndpoints {
                connection: self.connection(words)?,
            }),
            Verb::CreateSession => Ok(Statement::CreateSession {
                connection: self.connection(words)?,
            }),
            Verb::Ask(verb) => Ok(Statement::Ask {
                connection: self.connection(words)?,
                session: self.session(words)?,
                request: request(alloc, &self.range, verb, words)?,
            }),
        }
    }

    // What the words of a line say, if there are any.
    #[tactic(auto, unfolding(crate::specs::Statements::line_reading, crate::specs::Statements::front_reading, crate::specs::Statements::is_spared))]
    fn line(&self, alloc: Global, words: &mut Words<'_>) -> Result<Option<Statement>, Cause>
        ensures read { Reads result words.new (line_reading self.now words.old) }
        ensures spared { is_spared words.old ≡ true → Finds result words.new (line_reading self.now words.old) }
        ensures front { IfErr (front_reading self.now words.old) (λ cause. result ≡ Err cause) }
    {
        if !words.has_more() {
            return Ok(None);
        }
        let verb = verb_of(words.word()?)?;
        let statement = self.statement(alloc, verb, words)?;
        words.end()?;
        Ok(Some(statement))
    }

    /// What a line says, judged against what is known; none where it is blank or a comment.
    ///
    /// The cause is that of the leftmost bad word. A line whose verb says nothing of any length takes no memory, and
    /// the verb, the connection and the session of any other are judged however little memory there is.
    #[tactic(auto, unfolding(crate::specs::Statements::statement_of))]
    pub fn read(&self, alloc: Global, line: &str) -> Result<Option<Statement>, Cause>
        ensures given { Gives Memory result (statement_of self.now line.now) }
        ensures spared { is_spared line.now ≡ true → result ≡ statement_of self.now line.now }
        ensures front { IfErr (front_reading self.now line.now) (λ cause. result ≡ Err cause) }
    {
        let mut words = Words::new(line);
        self.line(alloc, &mut words)
    }

    /// Knows what a statement has opened, ended, made, set or used up. At an `Err` nothing has changed.
    pub fn note(&mut self, alloc: Global, statement: &Statement) -> Result<(), AllocError>
        ensures ok { OnOk result (self.new ≡ after self.old statement.now) }
        ensures err { OnErr result (self.new ≡ self.old) }
    {
        match statement {
            Statement::Open { connection, key: _ } => {
                self.connections.insert(*connection)?;
                self.greatest = Some(*connection);
                Ok(())
            }
            Statement::Gone { connection } => {
                self.connections.remove(*connection);
                Ok(())
            }
            Statement::CreateSession { connection: _ } => {
                self.sessions = self.sessions.saturating_add(1);
                Ok(())
            }
            Statement::Range { range } => {
                self.range = range.copy(alloc)?;
                Ok(())
            }
            Statement::Ask {
                connection: _,
                session: _,
                request,
            } => {
                if uses_range(request) {
                    self.range = Text::null();
                }
                Ok(())
            }
            _ => Ok(()),
        }
    }
}
