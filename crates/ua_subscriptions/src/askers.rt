//! By which connections requests of sessions came.

ghost use Rattle.std.specs.Prelude.{◌≡◌, ◌<◌, ℕ, [], true, false, length, if◌then◌else◌, OnOk};
ghost use Rattle.std.specs.BTreeMap.{is_at};
ghost use Rattle.std.specs.Option.{IfSome, IfNone};
ghost use Rattle.std.specs.Ordering.{nat_cmp};
ghost use Rattle.ua_subscriptions.specs.declared.askers.Asker.{Asker as AskerLem};
ghost use Rattle.ua_subscriptions.specs.Askers.{asker_at, asker_cmp, asked_at, has_asker, has_asked, AreMirrored};

use std::alloc::{AllocError, Global};
use std::collections::BTreeSet;
use std::marker::Model;

/// A connection, and a session of which a request came by it.
#[derive(Clone, Copy, Debug, PartialEq, Eq, PartialOrd, Ord, Drop)]
pub struct Asker {
    /// The connection's number.
    pub conn: u64,
    /// The session's number.
    pub session: u32,
}

/// The same, the session first.
#[derive(Clone, Copy, Debug, PartialEq, Eq, PartialOrd, Ord, Drop)]
pub struct Asked {
    /// The session's number.
    pub session: u32,
    /// The connection's number.
    pub conn: u64,
}

/// Connections and sessions. Contracts see the list, by connection.
#[derive(Debug, Drop)]
pub struct AskerList {
    by_conn: BTreeSet<Asker>,
    // The same pairs, by which those of a session that ends are found.
    by_session: BTreeSet<Asked>,
}

impl Model for AskerList {
    ghost use Rattle.std.specs.Prelude.{List};
    ghost use Rattle.ua_subscriptions.specs.declared.askers.Asker.{Asker as AskerLem};
    ghost use Rattle.ua_subscriptions.specs.Askers.{AreMirrored};

    ghost Value = { List AskerLem };

    ghost view = { λ a. a.by_conn.keys };

    ghost invariant = { λ a. AreMirrored a.by_conn.keys a.by_session.keys };
}

// The first session with which a connection stands there.
fn first_session(by_conn: &BTreeSet<Asker>, conn: u64) -> Option<u32>
    ensures none { IfNone result ((session : ℕ) → has_asker by_conn.now.keys (asker_at conn session) ≡ false) }
    ensures some { IfSome result (λ session. has_asker by_conn.now.keys (asker_at conn session) ≡ true) }
{
    let mut rest = by_conn.range(Asker { conn, session: 0 }..);
    match rest.next() {
        Some(asker) if asker.conn == conn => Some(asker.session),
        _ => None,
    }
}

// The first connection with which a session stands there.
fn first_conn(by_session: &BTreeSet<Asked>, session: u32) -> Option<u64>
    ensures none { IfNone result ((conn : ℕ) → has_asked by_session.now.keys (asked_at session conn) ≡ false) }
    ensures some { IfSome result (λ conn. has_asked by_session.now.keys (asked_at session conn) ≡ true) }
{
    let mut rest = by_session.range(Asked { session, conn: 0 }..);
    match rest.next() {
        Some(asked) if asked.session == session => Some(asked.conn),
        _ => None,
    }
}

// Takes out the connections with which a session stands there.
fn forget_conns(by_conn: &mut BTreeSet<Asker>, by_session: &mut BTreeSet<Asked>, session: u32)
    requires { AreMirrored by_conn.old.keys by_session.old.keys }
    ensures others { (q : AskerLem) → is_at (nat_cmp session) q.session ≡ false → has_asker by_conn.new.keys q ≡ has_asker by_conn.old.keys q }
    ensures gone { (conn : ℕ) → has_asker by_conn.new.keys (asker_at conn session) ≡ false }
    ensures mirrored { AreMirrored by_conn.new.keys by_session.new.keys }
{
    while let Some(conn) = first_conn(by_session, session) {
        let _ = by_conn.remove(&Asker { conn, session });
        let _ = by_session.remove(&Asked { session, conn });
    }
}

impl AskerList {
    /// None. Takes no memory.
    pub(crate) fn new(alloc: Global) -> AskerList
        ensures { result ≡ [] }
    {
        AskerList {
            by_conn: BTreeSet::new(alloc),
            by_session: BTreeSet::new(alloc),
        }
    }

    /// One more, in logarithmic time.
    pub(crate) fn insert(&mut self, conn: u64, session: u32) -> Result<(), AllocError>
        ensures ok { OnOk result (has_asker self.new (asker_at conn session) ≡ true) }
        ensures more { (q : AskerLem) → has_asker self.old q ≡ true → has_asker self.new q ≡ true }
    {
        self.by_session.insert(Asked { session, conn })?;
        let Ok(_) = self.by_conn.insert(Asker { conn, session }) else {
            let _ = self.by_session.remove(&Asked { session, conn });
            return Err(AllocError);
        };
        Ok(())
    }

    /// Takes out one of the sessions with which a connection stands there. Takes no memory.
    pub(crate) fn take(&mut self, conn: u64) -> Option<u32>
        ensures none { IfNone result ((session : ℕ) → has_asker self.old (asker_at conn session) ≡ false) }
        ensures unchanged { IfNone result (self.new ≡ self.old) }
        ensures some { IfSome result (λ session. (q : AskerLem) → has_asker self.new q ≡ (if is_at (asker_cmp (asker_at conn session)) q then false else has_asker self.old q)) }
        ensures fewer { IfSome result (λ session. length self.new < length self.old) }
    {
        let session = first_session(&self.by_conn, conn)?;
        let _ = self.by_conn.remove(&Asker { conn, session });
        let _ = self.by_session.remove(&Asked { session, conn });
        Some(session)
    }

    /// A session ends: it stands there no more. Takes no memory.
    pub(crate) fn forget(&mut self, session: u32)
        ensures others { (q : AskerLem) → is_at (nat_cmp session) q.session ≡ false → has_asker self.new q ≡ has_asker self.old q }
        ensures gone { (conn : ℕ) → has_asker self.new (asker_at conn session) ≡ false }
    {
        forget_conns(&mut self.by_conn, &mut self.by_session, session);
    }
}
