//! What a line says.

use crate::choices::{ChannelRequest, Publishing, Subscriptions};
use crate::requests::{
    Acknowledgement, Attribute, ChangedItem, Counts, LinkChange, NewItem, NewValue, RawValues,
    References,
};
use ua_types::{Listed, Moment, Text};

/// What a session asks of the server (IEC 62541-4, section 5).
#[derive(Debug, Drop)]
pub enum SessionRequest {
    /// `activate c s`
    ActivateSession,
    /// `close c s delete|keep`
    CloseSession {
        subscriptions: Subscriptions,
    },
    /// `read c s TS (ID ATTR)..`
    Read {
        /// 0 is the source's time, 1 the server's, 2 both and 3 neither.
        timestamps: i32,
        attributes: Listed<Attribute>,
        /// Which elements of each value are wanted: the text of the `range` before it, or null.
        range: Text,
    },
    /// `write c s (ID TYPE VALUE TIME)..`
    Write {
        values: Listed<NewValue>,
        /// Which elements of each node's value are written: the text of the `range` before it, or null.
        range: Text,
    },
    /// `browse c s MAX ID DIR REF true|false CLASSES RESULT`
    Browse {
        references: References,
    },
    /// `next c s POINT..`: further references of these continuation points, by their serials.
    BrowseNext {
        points: Listed<u64>,
    },
    /// `release c s POINT..`: the points are given up.
    ReleasePoints {
        points: Listed<u64>,
    },
    /// `history c s TS START END COUNT ID [POINT]`
    ReadHistory {
        values: RawValues,
    },
    /// `sub c s LIFE KEEP NOTES PRIORITY on|off`
    CreateSubscription {
        counts: Counts,
        publishing: Publishing,
    },
    /// `modsub c s SUB LIFE KEEP NOTES PRIORITY`
    ModifySubscription {
        subscription: u32,
        counts: Counts,
    },
    /// `mode c s on|off SUB..`
    SetPublishing {
        publishing: Publishing,
        subscriptions: Listed<u32>,
    },
    /// `item c s SUB TS ID ATTR MODE HANDLE QUEUE oldest|newest TRIGGER`
    CreateItem {
        item: NewItem,
    },
    /// `moditem c s SUB TS ITEM HANDLE QUEUE oldest|newest TRIGGER`
    ModifyItem {
        item: ChangedItem,
    },
    /// `itemmode c s SUB MODE ITEM..`
    SetItemMode {
        subscription: u32,
        /// 0 is disabled, 1 sampling and 2 reporting.
        mode: i32,
        items: Listed<u32>,
    },
    /// `trigger c s SUB ITEM +ID|-ID ..`
    SetTriggering {
        subscription: u32,
        /// The item that triggers the others.
        triggering: u32,
        changes: Listed<LinkChange>,
    },
    /// `delitem c s SUB ITEM..`
    DeleteItems {
        subscription: u32,
        items: Listed<u32>,
    },
    /// `publish c s [SUB:NUMBER]..`
    Publish {
        acknowledgements: Listed<Acknowledgement>,
    },
    /// `republish c s SUB NUMBER`
    Republish {
        subscription: u32,
        sequence_number: u32,
    },
    /// `delsub c s SUB..`
    DeleteSubscriptions {
        subscriptions: Listed<u32>,
    },
}

/// What a line says, one case for each statement but those that a session asks.
#[derive(Debug, Drop)]
pub enum Statement {
    /// `open c KEY`: a client connects.
    Open {
        connection: u64,
        key: [u8; 32],
    },
    /// `hel c URL`: a Hello.
    Hello {
        connection: u64,
        url: Text,
    },
    /// `opn c issue|renew`: OpenSecureChannel.
    OpenChannel {
        connection: u64,
        request: ChannelRequest,
    },
    /// `clo c`: CloseSecureChannel.
    CloseChannel {
        connection: u64,
    },
    /// `gone c`: the connection is no more.
    Gone {
        connection: u64,
    },
    /// `tick M`: it is so late now.
    Tick {
        now: Moment,
    },
    /// `shutdown`: the server is to end.
    Shutdown,
    /// `raw c HEX`: bytes as they stand.
    Raw {
        connection: u64,
        bytes: Listed<u8>,
    },
    /// `cut N`: from here on bytes come in pieces of this size; 0 is whole.
    Cut {
        size: u64,
    },
    /// `chunk N`: from here on bodies of requests are cut into chunks of this size; 0 is whole.
    Chunk {
        size: u64,
    },
    /// `abort`: the next request is begun and given up.
    Abort,
    /// `range RANGE`: the next read or write has this index range in all its entries (NumericRange, IEC 62541-4, section 7).
    Range {
        range: Text,
    },
    /// `endpoints c`: GetEndpoints.
    GetEndpoints {
        connection: u64,
    },
    /// `session c`: CreateSession. The session's number is that of the statement among those of this
    /// kind, from 1.
    CreateSession {
        connection: u64,
    },
    /// What a session asks, on this connection.
    Ask {
        connection: u64,
        session: u64,
        request: SessionRequest,
    },
}
