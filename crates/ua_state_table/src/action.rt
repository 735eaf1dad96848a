//! What the rows do.

ghost use Rattle.std.specs.Prelude.{◌≡◌};
ghost use Rattle.ua_state_table.specs.StateTable.{actions_of};

use crate::row::RowId;

/// An action of a row.
#[derive(Clone, Copy, Debug, PartialEq, Eq)]
pub enum Action {
    /// Answers Bad_TooManySubscriptions; no subscription begins.
    RefuseTooMany,

    /// Begins the subscription: K and L are its counts, E is as asked, M and S are false, no message
    /// was sent.
    Initialise,

    /// Sets the timer a publishing interval ahead of the clock, and counts L down by one.
    StartTimer,

    /// Answers the request that came, with what it asked for.
    Answer,

    /// The messages that the Publish request acknowledges are no longer kept.
    DeleteAcknowledged,

    /// Queues the Publish request that came, once for its session.
    Enqueue,

    /// Takes the session's oldest queued Publish request, which the row answers.
    Dequeue,

    /// Sets L to the lifetime count: the client gave a sign of life.
    ResetLife,

    /// Sets K to the keep-alive count.
    ResetKeep,

    /// Counts K down by one.
    CountKeep,

    /// Sends notifications, oldest first, in messages as large as the client takes, one for each queued
    /// request until no values are left; M says whether some are.
    SendNotifications,

    /// Sends a message without notifications, under the next sequence number, which it doesn't use up.
    SendKeepAlive,

    /// Sets S: a message was sent.
    SetSent,

    /// The monitored items and the kept messages go.
    DeleteItems,

    /// Leaves the session the note that the subscription timed out (a StatusChangeNotification with
    /// Bad_Timeout), for its next Publish request.
    NoteTimeout,

    /// Sets the counts, the most notifications of a message and the priority as the client asked,
    /// within the server's bounds.
    Update,

    /// K is at most the new keep-alive count.
    LimitKeep,

    /// Sets E as the client asked.
    SetEnabled,

    /// M is false.
    ClearMore,

    /// Answers the kept message, byte for byte.
    AnswerKept,

    /// Answers Bad_MessageNotAvailable.
    RefuseNotKept,

    /// Does what the client asked with its monitored items, and answers it.
    CallItems,

    /// M stays true only while A is.
    LimitMore,

    /// The subscription has no session any more, so Q is false for good.
    LeaveSession,
}

/// What a row does, in this order.
pub fn actions_of(row: RowId) -> &'static [Action]
    ensures { result.now ≡ actions_of row }
{
    use Action::*;
    match row {
        RowId::C1 => &[RefuseTooMany],
        RowId::C2 => &[Initialise, StartTimer, Answer],
        RowId::N1 | RowId::K1 => &[DeleteAcknowledged, Enqueue],
        RowId::N2 | RowId::L1 => &[ResetLife, DeleteAcknowledged, SendNotifications, SetSent],
        RowId::N3 | RowId::K2 => &[ResetLife, StartTimer, Dequeue, SendNotifications, SetSent],
        RowId::N4 => &[ResetLife, StartTimer, Dequeue, SendKeepAlive, SetSent],
        RowId::N5 | RowId::L3 | RowId::K5 => &[StartTimer],
        RowId::N6 => &[StartTimer, ResetKeep, CountKeep],
        RowId::L2 => &[
            ResetLife,
            DeleteAcknowledged,
            SendKeepAlive,
            ResetKeep,
            SetSent,
        ],
        RowId::K3 => &[ResetLife, StartTimer, Dequeue, SendKeepAlive, ResetKeep],
        RowId::K4 => &[StartTimer, CountKeep],
        RowId::G1 => &[Update, LimitKeep, ResetLife, Answer],
        RowId::G2 => &[ResetLife, SetEnabled, ClearMore, Answer],
        RowId::G3 => &[ResetLife, AnswerKept],
        RowId::G4 => &[ResetLife, RefuseNotKept],
        RowId::G5 | RowId::G8 | RowId::G10 => &[DeleteItems],
        RowId::G6 => &[DeleteItems, NoteTimeout],
        RowId::G7 => &[ResetLife, CallItems, LimitMore],
        RowId::G9 => &[LeaveSession],
    }
}
