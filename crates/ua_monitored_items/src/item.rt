//! A monitored item.

ghost use Rattle.std.specs.Prelude.{◌≡◌, ◌≤◌, ◌++◌, [], true, take, Some, OnOk, OnErr, IsOk, IfOk, if◌then◌else◌};
ghost use Rattle.std.specs.Option.{option_copied};
ghost use Rattle.ua_monitored_items.specs.Item.{is_change_since as is_change_since_spec, takes as takes_spec, queued, seen, reading, revised_size as revised_size_spec, takes_last as takes_last_spec, gave, notes_of, tells as tells_spec, waiting_in, released_in, time_if, marked_status, note_of};
ghost use Rattle.ua_monitored_items.specs.ItemTables.{DisabledIsEmpty};
ghost use Rattle.ua_monitored_items.specs.Editing.{modified_with, edited, MayEdit};
ghost use Rattle.ua_monitored_items.specs.Preparing.{moded_from};
ghost use Rattle.ua_monitored_items.specs.Releases.{releases_of, with_releases};
ghost use Rattle.ua_subscription_messages.specs.DataChangeMessages.{with_notes};

use crate::edit::{Edit, Modification};
use crate::kinds::{Mode, Trigger};
use crate::links::Links;
use crate::releases::Releases;
use std::alloc::{AllocError, Global};
use ua_binary::BorrowedDataValue;
use ua_item_queue::{Entry, ItemQueue};
use ua_read_write::{Timestamps, sample};
use ua_space::Space;
use ua_subscription_messages::{
    BorrowedNotification, DataChangeMessage, MonitoredItemNotification, SubscriptionId,
};
use ua_types::{Copyable, DataValue, Moment, NodeId, Status};

/// The Overflow bit, and that the information bits of a status are those of a data value
/// (IEC 62541-4, section 7, "StatusCode").
const OVERFLOW: u32 = 0x480;

/// A monitored item: whose it is, what it watches, how, the values that wait, and the items that it triggers.
///
/// What a message looks at is declared first, side by side, and what is small before what is large: there are many items.
pub struct Item {
    /// The number of its subscription.
    pub subscription: u32,

    /// The client's number of the item. It and `timestamps` are those of the last call that set them, and
    /// are applied when a message is made.
    pub client_handle: u32,

    /// Which times are sent.
    pub timestamps: Timestamps,

    pub mode: Mode,

    /// Its values are sent although it only samples, since an item to which it is linked queued a value. That
    /// ends when its queue is empty, and when its mode is set.
    pub released: bool,

    /// Which changes are queued.
    pub trigger: Trigger,

    /// The number of the attribute that it watches, as 13 for the value.
    pub attribute_id: u32,

    /// The values that wait, with both times as they were read, and the last one that was queued: none until the
    /// item is enabled first.
    pub queue: ItemQueue<DataValue>,

    /// The node that it watches.
    pub node_id: NodeId,

    /// The items that are linked to it.
    pub links: Links,
}

// Written out, so that a proof sees a drop as one call and not as its cases.
impl Drop for Item {
    fn drop(self) {
        let Item {
            subscription: _,
            node_id: _,
            attribute_id: _,
            client_handle: _,
            timestamps: _,
            mode: _,
            trigger: _,
            queue: _,
            released: _,
            links: _,
        } = self;
    }
}

/// How many values a queue may hold, where so many were asked for.
pub(crate) fn revised_size(longest: u32, asked: u32) -> u32
    requires { 1 ≤ longest }
    ensures size { result ≡ revised_size_spec longest asked }
    ensures some { 1 ≤ result }
{
    if asked == 0 {
        1
    } else if asked <= longest {
        asked
    } else {
        longest
    }
}

fn time_if(wanted: bool, time: Option<Moment>) -> Option<Moment>
    ensures { result ≡ time_if wanted time }
{
    if wanted { time } else { None }
}

fn marked_status(marked: bool, status: Status) -> Status
    ensures { result ≡ marked_status marked status }
{
    if marked {
        Status(status.0 | OVERFLOW)
    } else {
        status
    }
}

// A value as a client is told it, written from where it waits.
fn note<'a>(
    client_handle: u32,
    timestamps: Timestamps,
    entry: &'a Entry<DataValue>,
) -> BorrowedNotification<'a>
    ensures { result ≡ note_of client_handle timestamps entry.now }
{
    let value = &entry.value;
    BorrowedNotification::new(
        client_handle,
        BorrowedDataValue::new(
            value.value.as_ref(),
            marked_status(entry.marked, value.status),
            time_if(timestamps.has_source(), value.source_time),
            time_if(timestamps.has_server(), value.server_time),
        ),
    )
}

// A value as a client is told it, copied from where it waits.
fn copied_note(
    alloc: Global,
    client_handle: u32,
    timestamps: Timestamps,
    entry: &Entry<DataValue>,
) -> Result<MonitoredItemNotification, AllocError>
    ensures { IfOk result (λ note. note ≡ note_of client_handle timestamps entry.now) }
{
    let mut value = entry.value.copy(alloc)?;
    value.status = marked_status(entry.marked, value.status);
    value.source_time = time_if(timestamps.has_source(), value.source_time);
    value.server_time = time_if(timestamps.has_server(), value.server_time);
    Ok(MonitoredItemNotification {
        client_handle,
        value,
    })
}

// Whether a trigger sees a change since the last value that was queued.
fn is_change_since(trigger: Trigger, last: Option<&DataValue>, value: &DataValue) -> bool
    ensures { result ≡ is_change_since_spec trigger (option_copied last.entry) value.now }
{
    match last {
        None => true,
        Some(last) => trigger.is_change(last, value),
    }
}

impl Item {
    // Whether it queues a value that was written.
    fn takes(&self, value: &DataValue) -> bool
        ensures { result ≡ takes_spec self.now value.now }
    {
        self.mode.is_enabled() && is_change_since(self.trigger, self.queue.last(), value)
    }

    // Queues a value. At an `Err`, which doesn't come where nothing waits, nothing changed.
    fn queue_value(&mut self, value: DataValue) -> Result<(), AllocError>
        ensures ok { OnOk result (self.new ≡ queued value self.old) }
        ensures err { OnErr result (self.new ≡ self.old) }
        ensures empty { self.old.queue.entries ≡ [] → IsOk result }
    {
        self.queue.sample(value)
    }

    // Queues what stands. At an `Err` nothing changed.
    pub(crate) fn queue_reading(
        &mut self,
        alloc: Global,
        space: &Space,
        clock: Moment,
    ) -> Result<(), AllocError>
        ensures ok { OnOk result (self.new ≡ queued (reading space.now.nodes clock self.old) self.old) }
        ensures err { OnErr result (self.new ≡ self.old) }
    {
        let value = self.first_sample(alloc, space, clock)?;
        self.queue_value(value)
    }

    // What it releases where it queues a value, beside what is there. At an `Err` a part may be there.
    pub(crate) fn add_releases(&self, releases: &mut Releases) -> Result<(), AllocError>
        ensures { OnOk result (releases.new ≡ with_releases releases.old (releases_of self.now)) }
    {
        match self.links.numbers() {
            Some(numbers) => releases.put_all(SubscriptionId(self.subscription), numbers),
            None => Ok(()),
        }
    }

    // Sees a value that was written, and adds what that releases. At an `Err`, which comes only where it queues the value, the
    // item is what it was.
    pub(crate) fn see(
        &mut self,
        alloc: Global,
        value: &DataValue,
        releases: &mut Releases,
    ) -> Result<(), AllocError>
        ensures ok { OnOk result (self.new ≡ seen value.now self.old) }
        ensures releases { OnOk result (releases.new ≡ with_releases releases.old (if takes_spec self.old value.now then releases_of self.old else [])) }
        ensures err { OnErr result (self.new ≡ self.old) }
        ensures takes { OnErr result (takes_spec self.old value.now ≡ true) }
    {
        if self.takes(value) {
            self.add_releases(releases)?;
            self.queue_value(value.copy(alloc)?)?;
        }
        Ok(())
    }

    // Gets other parameters. Takes no memory.
    fn modify(&mut self, modification: Modification)
        ensures { self.new ≡ modified_with modification self.old }
    {
        self.client_handle = modification.client_handle;
        self.timestamps = modification.timestamps;
        self.trigger = modification.trigger;
        self.queue
            .resize(modification.size, modification.discard_oldest);
    }

    // What it queues if it is enabled now.
    pub(crate) fn first_sample(
        &self,
        alloc: Global,
        space: &Space,
        clock: Moment,
    ) -> Result<DataValue, AllocError>
        ensures { IfOk result (λ first. first ≡ reading space.now.nodes clock self.now) }
    {
        sample(alloc, space, clock, &self.node_id, self.attribute_id)
    }

    // Is released by an item of a subscription that queued a value. Takes no memory.
    fn release(&mut self, subscription: SubscriptionId)
        ensures { self.new ≡ released_in subscription self.old }
    {
        if self.subscription == subscription.0 && self.mode.is_sampling() && self.queue.len() > 0 {
            self.released = true;
        }
    }

    // Gets a mode, and queues what was sampled for it where that enables it. Takes no memory.
    fn set_mode(&mut self, mode: Mode, first: Option<DataValue>)
        requires { DisabledIsEmpty self.old }
        ensures { self.new ≡ moded_from mode first self.old }
    {
        self.released = false;
        if !mode.is_enabled() {
            self.queue.clear();
            self.mode = Mode::Disabled;
            return;
        }
        if let Some(first) = first {
            if !self.mode.is_enabled() {
                let _ = self.queue_value(first);
            }
        }
        self.mode = mode;
    }

    // Is changed so. Takes no memory. Inlined, as the calls above it, so that no Edit is moved.
    #[inline(always)]
    pub(crate) fn edit(&mut self, edit: Edit)
        requires { MayEdit edit (Some self.old) }
        ensures { self.new ≡ edited edit self.old }
    {
        match edit {
            Edit::Modify(modification) => self.modify(modification),
            Edit::SetMode { mode, first } => self.set_mode(mode, first),
            Edit::Release(subscription) => self.release(subscription),
            Edit::SetLinks(links) => self.links = links,
        }
    }

    // Whether its values are sent.
    fn tells(&self) -> bool
        ensures { result ≡ tells_spec self.now }
    {
        self.mode.is_reporting() || self.released
    }

    // How many of its values wait to be sent.
    pub(crate) fn waiting(&self) -> usize
        ensures { result ≡ waiting_in self.now }
    {
        if self.tells() { self.queue.len() } else { 0 }
    }

    // Whether so many values, if they are any, are all that it holds.
    pub(crate) fn takes_last(&self, count: usize) -> bool
        ensures { result ≡ takes_last_spec count self.now }
    {
        count > 0 && self.queue.len() <= count
    }

    // Writes its oldest values, so many, into a message. At an `Err` a part of them is there.
    fn tell(&self, count: usize, message: &mut DataChangeMessage) -> Result<(), AllocError>
        ensures { OnOk result (message.new ≡ with_notes message.old (take count (notes_of self.now))) }
    {
        for index in 0..count {
            let Some(entry) = self.queue.get(index) else {
                return Ok(());
            };
            message.push(&note(self.client_handle, self.timestamps, entry))?;
        }
        Ok(())
    }

    // Copies its oldest values, so many, as a client is told them, behind what is there. At an `Err` a part of them is there.
    pub(crate) fn copy_notes(
        &self,
        alloc: Global,
        count: usize,
        notes: &mut Vec<MonitoredItemNotification>,
    ) -> Result<(), AllocError>
        ensures { OnOk result (notes.new.items ≡ notes.old.items ++ take count (notes_of self.now)) }
    {
        for index in 0..count {
            let Some(entry) = self.queue.get(index) else {
                return Ok(());
            };
            let note = copied_note(alloc, self.client_handle, self.timestamps, entry)?;
            notes.push(note)?;
        }
        Ok(())
    }

    // Its oldest values were sent, so many, and whether they are all that it holds; the last one ends a release. Takes no memory.
    pub(crate) fn send(&mut self, count: usize, are_all: bool)
        requires { are_all ≡ takes_last_spec count self.old }
        ensures { self.new ≡ gave count self.old }
    {
        if are_all {
            self.released = false;
            self.queue.clear();
        } else {
            self.queue.send(count);
        }
    }

    // Sends its oldest values, so many, by a message into which they are written. At an `Err` it is what it was, and a part of
    // them is written.
    pub(crate) fn give(
        &mut self,
        count: usize,
        message: &mut DataChangeMessage,
    ) -> Result<(), AllocError>
        ensures ok { OnOk result (self.new ≡ gave count self.old) }
        ensures message { OnOk result (message.new ≡ with_notes message.old (take count (notes_of self.old))) }
        ensures err { OnErr result (self.new ≡ self.old) }
    {
        // Asked while the queue was just looked at, and not again behind the message.
        let are_all = self.takes_last(count);
        self.tell(count, message)?;
        self.send(count, are_all);
        Ok(())
    }
}
