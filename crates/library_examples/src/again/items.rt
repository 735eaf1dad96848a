//! Monitored items.

use super::TWICE;
use crate::benchmarks::{failed, plant};
use std::alloc::{AllocError, Global};
use std::io::Write;
use std::rt::Files;
use std::{fs, io};
use ua_binary::{Cursor, Wire};
use ua_messages::structure;
use ua_messages::type_ids::DATA_CHANGE_NOTIFICATION;
use ua_monitored_items::{Items, Sampled};
use ua_read_write::{Change, Timestamps};
use ua_space::Space;
use ua_subscription_messages::{
    DataChangeMessage, DataChangeNotification, MonitoredItemCreateRequestView,
    MonitoredItemCreateResult, MonitoredItemModifyRequestView, MonitoredItemModifyResult,
    MonitoredItemNotification, NotificationMessage, SubscriptionId,
};
use ua_types::{Content, DataValue, Moment, NodeId, Status, Variant};
use ua_views::{ArrayView, View};

// The subscription whose items they are.
const SUBSCRIPTION: SubscriptionId = SubscriptionId(1);

// Two items, of Count and of Speed, which report up to three values each; and for both a queue of one value.
const CREATED: &str =
    "0200000001010b000d000000ffffffff0000ffffffff02000000010000000000000000000000000000030000000101010c000d000000ffffffff0000ffffffff020000000200000000000000000000000000000300000001";

const MODIFIED: &str =
    "02000000010000000100000000000000000000000000000100000001020000000200000000000000000000000000000100000001";

// The bytes of a request's list.
fn bytes_of(alloc: Global, digits: &str) -> io::Result<Vec<u8>> {
    hex::decode(alloc, digits).map_err(|_| failed())
}

fn create(
    alloc: Global,
    items: &mut Items,
    space: &Space,
) -> io::Result<Result<Vec<MonitoredItemCreateResult>, AllocError>> {
    let bytes = bytes_of(alloc, CREATED)?;
    let mut cursor = Cursor::new(bytes.as_slice());
    match ArrayView::<MonitoredItemCreateRequestView<'_>>::view(&mut cursor) {
        Ok(requests) => {
            let sampled = Sampled {
                subscription: SUBSCRIPTION,
                space,
                clock: Moment(0),
            };
            Ok(items.create(&sampled, Timestamps::Both, requests))
        }
        Err(_) => Err(failed()),
    }
}

// What becomes of the items that are made.
fn write_created(
    alloc: Global,
    items: &mut Items,
    space: &Space,
    output: &mut Vec<u8>,
) -> io::Result<()> {
    let mut created = create(alloc, items, space)?;
    if created.is_err() {
        created = create(alloc, items, space)?;
    }
    let Ok(results) = created else {
        return output.write_all(TWICE);
    };
    for made in results.as_slice() {
        let status = made.status_code;
        let size = made.revised_queue_size;
        write!(output, "{status:?} {} {size}\n", made.monitored_item_id)?;
    }
    Ok(())
}

fn modify(
    alloc: Global,
    items: &mut Items,
) -> io::Result<Result<Vec<MonitoredItemModifyResult>, AllocError>> {
    let bytes = bytes_of(alloc, MODIFIED)?;
    let mut cursor = Cursor::new(bytes.as_slice());
    match ArrayView::<MonitoredItemModifyRequestView<'_>>::view(&mut cursor) {
        Ok(requests) => Ok(items.modify(SUBSCRIPTION, Timestamps::Both, requests)),
        Err(_) => Err(failed()),
    }
}

// What becomes of the items that are changed.
fn write_modified(alloc: Global, items: &mut Items, output: &mut Vec<u8>) -> io::Result<()> {
    let mut modified = modify(alloc, items)?;
    if modified.is_err() {
        modified = modify(alloc, items)?;
    }
    let Ok(results) = modified else {
        return output.write_all(TWICE);
    };
    for given in results.as_slice() {
        let status = given.status_code;
        write!(output, "{status:?} {}\n", given.revised_queue_size)?;
    }
    Ok(())
}

// The values that a message tells.
fn told_by(alloc: Global, bytes: &[u8]) -> io::Result<DataChangeNotification> {
    let Ok(message) = NotificationMessage::take(alloc, &mut Cursor::new(bytes)) else {
        return Err(failed());
    };
    let Some([object]) = message.notification_data.as_slice() else {
        return Err(failed());
    };
    match structure::<DataChangeNotification>(alloc, DATA_CHANGE_NOTIFICATION, object) {
        Ok(told) => Ok(told),
        Err(_) => Err(failed()),
    }
}

// A line for each value that is told.
fn write_each(notes: &[MonitoredItemNotification], output: &mut Vec<u8>) -> io::Result<()> {
    for note in notes {
        write!(
            output,
            "item {} {:?}\n",
            note.client_handle, note.value.value
        )?;
    }
    Ok(())
}

// Has the items send what they have to tell, and writes a line for each value.
fn write_notes(alloc: Global, items: &mut Items, output: &mut Vec<u8>) -> io::Result<()> {
    let mut message = DataChangeMessage::new(alloc, 1, Moment(0))?;
    items.send(SUBSCRIPTION, 9, &mut message)?;
    let bytes = message.finish()?;
    let told = told_by(alloc, bytes.as_slice())?;
    write_each(told.monitored_items.as_slice().unwrap_or(&[]), output)
}

// Takes what the items have to tell as values, and writes a line for each.
fn write_taken(items: &mut Items, output: &mut Vec<u8>) -> io::Result<()> {
    let mut taken = items.take_notes(SUBSCRIPTION, 9);
    if taken.is_err() {
        taken = items.take_notes(SUBSCRIPTION, 9);
    }
    let Ok(notes) = taken else {
        return output.write_all(TWICE);
    };
    write_each(notes.as_slice(), output)
}

fn changed(number: u32, value: Variant) -> Change {
    Change {
        node_id: NodeId::numeric(1, number),
        value: DataValue {
            value: Some(value),
            status: Status::GOOD,
            source_time: None,
            server_time: None,
        },
    }
}

// Shows the items a value of each. At want of memory what was seen is told first, and all is shown again: what an item has
// seen is no change then.
fn show(
    alloc: Global,
    items: &mut Items,
    count: u16,
    speed: i32,
    output: &mut Vec<u8>,
) -> io::Result<()> {
    let changes = [
        changed(11, Variant::UInt16(Content::Scalar(count))),
        changed(12, Variant::Int32(Content::Scalar(speed))),
    ];
    if items.sample(&changes).is_ok() {
        return Ok(());
    }
    write_notes(alloc, items, output)?;
    if items.sample(&changes).is_err() {
        output.write_all(TWICE)?;
    }
    Ok(())
}

// All that is asked of the items, one after the other.
fn write_all(
    alloc: Global,
    items: &mut Items,
    space: &Space,
    output: &mut Vec<u8>,
) -> io::Result<()> {
    write_created(alloc, items, space, output)?;
    write_notes(alloc, items, output)?;
    show(alloc, items, 7, 9, output)?;
    write_notes(alloc, items, output)?;
    for count in [8, 9] {
        let change = changed(11, Variant::UInt16(Content::Scalar(count)));
        items.sample(&[change])?;
    }
    write_modified(alloc, items, output)?;
    write_notes(alloc, items, output)?;
    show(alloc, items, 10, 11, output)?;
    write_taken(items, output)
}

/// Writes what becomes of two items that are made, what they tell at first and then of a value each; and what becomes of them as
/// they get queues of one value, and what the first tells then, which had two. Behind that, what is taken of both after a value
/// more of each.
pub(super) fn write_items<R: Files + AllocGlobal>(rt: &R, output: &mut Vec<u8>) -> io::Result<()> {
    let text = fs::read_to_string(rt, "sample.toml")?;
    let (config, space) = plant(rt.alloc(), text.as_str())?;
    let mut items = Items::new(rt.alloc(), &config);
    write_all(rt.alloc(), &mut items, &space, output)
}
