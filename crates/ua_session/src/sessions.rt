//! Sessions.

ghost use Rattle.std.specs.Prelude.{◌≡◌, ◌≢◌, ◌≤ℤ◌, ◌+◌, ◌-◌, ◌^◌, ◌<◌, int_lt, true, false, [], option_map, is_some, Err, IsOk, IfOk, OnOk, OnErr};
ghost use Rattle.std.specs.Borrow.{sem};
ghost use Rattle.std.specs.FinMap as map;
ghost use Rattle.std.specs.Option.{option_copied_mut};
ghost use Rattle.ua_types.specs.Answers.{step};
ghost use Rattle.ua_types.specs.declared.refusal.Refusal.TheVariants.{Memory};
ghost use Rattle.ua_session.specs.Sessions.{TakesNonce, no_sessions, named as named_spec, with_session, with_new_session, with_nonce, next_nonce as next_nonce_spec, deadline_of, is_spent, create_of, find_of, activate_of, close_of, without, ticked, ended_by, all_ended, points_of, with_points};
ghost use Rattle.ua_session.specs.PointLends.{lends_points};

use crate::nonces::nonce;
use crate::points::Points;
use crate::session::Session;
use crate::session_points::SessionPoints;
use crate::session_table::SessionTable;
use crate::tokens::{session_secret, session_token, token_parts};
use std::alloc::{AllocError, Global};
use std::marker::Model;
use ua_types::{Config, Moment, NodeId, Refusal, Status};
use ua_views::NodeIdView;

/// What a client is told of its new session.
#[derive(Debug, Drop)]
pub struct Created {
    /// The session's number, counted from 1 over the server and never used again.
    pub number: u32,
    /// The secret by which each request names the session (the authentication token).
    pub token: NodeId,
    /// Bytes that the client can't have foreseen.
    pub nonce: [u8; 32],
}

/// The sessions of a server, and the continuation points of each.
///
/// A session belongs to a client and outlives its connection: it may be used on the connection that it
/// was made or last activated on, and ends where the clock reaches its deadline, which each request that
/// is served sets anew. What is refused changes nothing. Contracts see a record of the sessions by
/// their numbers.
#[derive(Drop)]
pub struct Sessions {
    // How many are held at once at most.
    most: u32,
    // How long one lasts without a request, in steps of 100 ns.
    time: u64,
    // The latest moment that a tick brought.
    clock: Moment,
    table: SessionTable,
    // No session ends before this moment, so that a tick before it looks at none.
    earliest: Moment,
    // The number of the last one that was made, 0 before the first.
    made: u32,
    // How many nonces were given. The next one's serial is one more.
    nonces: u64,
    // How many continuation points a session holds at once at most.
    most_points: u32,
    // The points of those sessions that have had some.
    points: SessionPoints,
}

impl Model for Sessions {
    ghost use Rattle.ua_session.specs.Sessions.{SessionsState, AreHeld};
    ghost use Rattle.ua_session.specs.Codes.{sessions_code};

    ghost Value = { SessionsState };

    ghost coded = { sessions_code };

    ghost view = { λ s. record { most = s.most; time = s.time; clock = s.clock; sessions = s.table; made = s.made; nonces = s.nonces; most_points = s.most_points; points = s.points } };

    ghost invariant = { λ s. AreHeld s.earliest s.made s.table };
}

fn is_before(a: Moment, b: Moment) -> bool
    ensures { result ≡ int_lt a.0 b.0 }
{
    a.0 < b.0
}

// The earlier of two moments.
fn earlier(a: Moment, b: Moment) -> Moment
    ensures first { result.0 ≤ℤ a.0 }
    ensures second { result.0 ≤ℤ b.0 }
{
    if b.0 < a.0 { b } else { a }
}

// Takes the sessions with these numbers out.
fn remove_all(table: &mut SessionTable, numbers: &[u32])
    ensures { table.new ≡ without table.old numbers.now }
{
    for number in numbers {
        table.remove(*number);
    }
}

impl Sessions {
    /// No sessions yet, under this configuration. Takes no memory.
    pub fn new(alloc: Global, config: &Config) -> Sessions
        ensures { result ≡ no_sessions config.now }
    {
        Sessions {
            most: config.sessions,
            time: config.session_time,
            clock: config.start,
            table: SessionTable::new(alloc),
            earliest: Moment(i64::MAX),
            made: 0,
            nonces: 0,
            most_points: config.points,
            points: SessionPoints::new(alloc),
        }
    }

    /// How many sessions there are.
    pub fn len(&self) -> usize
        ensures { result ≡ map.len self.now.sessions }
    {
        self.table.len()
    }

    // The session whose token this is, with its number.
    fn named(&self, token: &NodeIdView<'_>) -> Option<(u32, Session)>
        ensures { option_map (λ n. record { number = n.0; session = n.1 }) result ≡ named_spec self.now token.now }
    {
        let (secret, number) = token_parts(token)?;
        let session = self.table.get(number)?;
        if *secret == session.secret {
            Some((number, session))
        } else {
            None
        }
    }

    // The moment at which a session ends that is used now.
    fn deadline(&self) -> Moment
        ensures { result ≡ deadline_of self.now }
    {
        Moment(self.clock.0.saturating_add_unsigned(self.time))
    }

    // Puts a session in the place of the one with this number.
    fn set(&mut self, number: u32, session: Session)
        requires { is_some (map.get self.old.sessions number) ≡ true }
        ensures { self.new ≡ with_session self.old number session }
    {
        self.earliest = earlier(self.earliest, session.deadline);
        self.table.set(number, session);
    }

    // Puts a session that is used now in the place of the one with this number, with a new deadline.
    fn renew(&mut self, number: u32, mut session: Session)
        requires { is_some (map.get self.old.sessions number) ≡ true }
        ensures { self.new ≡ with_session self.old number (record session { deadline = deadline_of self.old }) }
    {
        session.deadline = self.deadline();
        self.set(number, session);
    }

    // One more session, under the next number. At an `Err` nothing changed.
    fn add(&mut self, session: Session) -> Result<u32, AllocError>
        requires { self.old.made < 2 ^ 32 - 1 }
        ensures number { IfOk result (λ number. number ≡ self.old.made + 1) }
        ensures ok { OnOk result (self.new ≡ with_new_session self.old session) }
        ensures err { OnErr result (self.new ≡ self.old) }
    {
        let number = self.made + 1;
        self.table.insert(number, session)?;
        self.earliest = earlier(self.earliest, session.deadline);
        self.points.remove(number);
        self.made = number;
        Ok(number)
    }

    // The next nonce, for a client on a connection with this key.
    fn next_nonce(&mut self, key: &[u8; 32]) -> [u8; 32]
        requires { is_spent self.old ≡ false }
        ensures nonce { result ≡ next_nonce_spec self.old key.now }
        ensures counted { self.new ≡ with_nonce self.old }
    {
        self.nonces += 1;
        nonce(key, self.nonces)
    }

    /// Makes a session for the client of a connection with this number and these random bytes, with a
    /// nonce for it. It isn't activated.
    ///
    /// `BAD_TOO_MANY_SESSIONS` where as many are held as the configuration allows, or the numbers are
    /// used up. `Exhausted` where no serial is left for the nonce. Both come however little memory there is. At an
    /// `Err` nothing changed.
    #[tactic(auto, unfolding(crate::specs::Sessions::create_of))]
    pub fn create(&mut self, alloc: Global, conn: u64, key: &[u8; 32]) -> Result<Created, Refusal>
        ensures { TakesNonce result self.old self.new (create_of self.old conn key.now) }
    {
        if self.table.len() >= self.most as usize || self.made == u32::MAX {
            return Err(Refusal::Service(Status::BAD_TOO_MANY_SESSIONS));
        }
        if self.nonces == u64::MAX {
            return Err(Refusal::Exhausted);
        }
        let secret = session_secret(key);
        let session = Session {
            secret,
            conn,
            is_activated: false,
            deadline: self.deadline(),
        };
        let token = session_token(alloc, &secret, self.made + 1)?;
        let number = self.add(session)?;
        Ok(Created {
            number,
            token,
            nonce: self.next_nonce(key),
        })
    }

    /// The number of the session with this token, whose deadline is set anew: every request of a session
    /// but ActivateSession and CloseSession begins with it. Takes no memory.
    ///
    /// In this order: `BAD_SESSION_ID_INVALID` where no session has the token,
    /// `BAD_SECURE_CHANNEL_ID_INVALID` on another connection than the session's,
    /// `BAD_SESSION_NOT_ACTIVATED` before ActivateSession. At an `Err` nothing changed.
    #[tactic(auto, unfolding(crate::specs::Sessions::find_of))]
    pub fn find(&mut self, token: &NodeIdView<'_>, conn: u64) -> Result<u32, Status>
        ensures { step result self.new ≡ find_of self.old token.now conn }
    {
        let Some((number, session)) = self.named(token) else {
            return Err(Status::BAD_SESSION_ID_INVALID);
        };
        if session.conn != conn {
            return Err(Status::BAD_SECURE_CHANNEL_ID_INVALID);
        }
        if !session.is_activated {
            return Err(Status::BAD_SESSION_NOT_ACTIVATED);
        }
        self.renew(number, session);
        Ok(number)
    }

    /// Activates the session with this token, for the client of a connection with this number and these
    /// random bytes, or moves it there; then a nonce is given. `is_anonymous` says whether the identity
    /// that the request brought is that of an anonymous user, the only one that is taken.
    ///
    /// In this order: `BAD_SESSION_ID_INVALID` where no session has the token,
    /// `BAD_SECURE_CHANNEL_ID_INVALID` for one that was never activated, on another connection than that
    /// it was made on, `BAD_IDENTITY_TOKEN_REJECTED`. `Exhausted` where no serial is left for the nonce.
    /// Takes no memory. At an `Err` nothing changed.
    #[tactic(auto, unfolding(crate::specs::Sessions::activate_of))]
    pub fn activate(
        &mut self,
        token: &NodeIdView<'_>,
        conn: u64,
        key: &[u8; 32],
        is_anonymous: bool,
    ) -> Result<[u8; 32], Refusal>
        ensures taken { TakesNonce result self.old self.new (activate_of self.old token.now conn key.now is_anonymous) }
        ensures memory { result ≢ Err Memory }
    {
        let Some((number, session)) = self.named(token) else {
            return Err(Refusal::Service(Status::BAD_SESSION_ID_INVALID));
        };
        if session.conn != conn && !session.is_activated {
            return Err(Refusal::Service(Status::BAD_SECURE_CHANNEL_ID_INVALID));
        }
        if !is_anonymous {
            return Err(Refusal::Service(Status::BAD_IDENTITY_TOKEN_REJECTED));
        }
        if self.nonces == u64::MAX {
            return Err(Refusal::Exhausted);
        }
        let moved = Session {
            conn,
            is_activated: true,
            ..session
        };
        self.renew(number, moved);
        Ok(self.next_nonce(key))
    }

    /// Ends the session with this token, and says its number. It need not have been activated. Takes no
    /// memory.
    ///
    /// `BAD_SESSION_ID_INVALID` where no session has the token, `BAD_SECURE_CHANNEL_ID_INVALID` on another
    /// connection than the session's. At an `Err` nothing changed.
    #[tactic(auto, unfolding(crate::specs::Sessions::close_of))]
    pub fn close(&mut self, token: &NodeIdView<'_>, conn: u64) -> Result<u32, Status>
        ensures { step result self.new ≡ close_of self.old token.now conn }
    {
        let Some((number, session)) = self.named(token) else {
            return Err(Status::BAD_SESSION_ID_INVALID);
        };
        if session.conn != conn {
            return Err(Status::BAD_SECURE_CHANNEL_ID_INVALID);
        }
        self.table.remove(number);
        self.points.remove(number);
        Ok(number)
    }

    /// Lets time pass: the clock shows this moment, unless it showed a later one, and the sessions end
    /// whose deadline it has reached. Says their numbers, rising.
    ///
    /// Takes no memory where none ends, and looks at none before the least deadline that was seen. At an
    /// `Err` nothing changed.
    pub fn tick(&mut self, alloc: Global, now: Moment) -> Result<Vec<u32>, AllocError>
        ensures ended { IfOk result (λ numbers. numbers.items ≡ ended_by self.old now) }
        ensures ok { OnOk result (self.new ≡ ticked self.old now) }
        ensures idle { ended_by self.old now ≡ [] → IsOk result }
        ensures err { OnErr result (self.new ≡ self.old) }
    {
        let clock = self.clock.later(now);
        if is_before(clock, self.earliest) {
            self.clock = clock;
            return Ok(Vec::new(alloc));
        }
        let ended = self.table.due(alloc, clock)?;
        remove_all(&mut self.table, &ended);
        self.points.remove_all(&ended);
        self.earliest = self.table.earliest();
        self.clock = clock;
        Ok(ended)
    }

    /// Ends all sessions, with their continuation points, as the server shuts down. Takes no memory.
    pub fn end_all(&mut self, alloc: Global)
        ensures { self.new ≡ all_ended self.old }
    {
        self.table = SessionTable::new(alloc);
        self.earliest = Moment(i64::MAX);
        self.points = SessionPoints::new(alloc);
    }

    /// Gives a session a place for its continuation points, if it has none yet, which is all that takes memory here.
    /// At an `Err` nothing changed.
    pub fn open_points(&mut self, alloc: Global, number: u32) -> Result<(), AllocError>
        ensures ok { OnOk result (self.new ≡ with_points self.old number (points_of self.old number)) }
        ensures err { OnErr result (self.new ≡ self.old) }
        ensures there { is_some (map.get self.old.points number) ≡ true → IsOk result }
    {
        if !self.points.contains(number) {
            self.points
                .insert(number, Points::new(alloc, self.most_points))?;
        }
        Ok(())
    }

    /// The continuation points of a session that has a place for them ([`Sessions::open_points`]), to be used there.
    /// Takes no memory.
    pub fn points_mut(&mut self, number: u32) -> Option<&mut Points>
        ensures* writes_back { sem 𝓛 (lends_points self.entry number result) }
        ensures found { option_copied_mut result ≡ map.get self.old.points number }
    {
        self.points.get_mut(number)
    }
}
