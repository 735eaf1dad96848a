//! What sessions ask.

ghost use Rattle.std.specs.Prelude.{◌≡◌};
ghost use Rattle.scenario_text.specs.Requests.{attribute_reading, source_time_reading, new_value_reading, references_reading, raw_values_reading, last_point_reading, counts_reading, monitoring_reading, new_item_reading, changed_item_reading, link_change_of, link_change_reading, acknowledgement_of, acknowledgement_reading};

use crate::choices::Discard;
use crate::fault::Cause;
use crate::numbers::signed;
use crate::phrases::Phrase;
use crate::words::Words;
use std::alloc::Global;
use ua_types::{Moment, NodeId, Variant, behind, decimal_up_to};

/// An attribute of a node (ReadValueId, IEC 62541-4, section 7).
#[derive(Debug, Drop)]
pub struct Attribute {
    pub node_id: NodeId,
    /// Its number (IEC 62541-6, Annex A), as 13 for Value.
    pub attribute_id: u32,
}

impl Phrase for Attribute {
    ghost reading = { attribute_reading };

    #[tactic(auto, unfolding(crate::specs::Requests::attribute_reading))]
    fn read(alloc: Global, words: &mut Words<'_>) -> Result<Attribute, Cause> {
        Ok(Attribute {
            node_id: NodeId::read(alloc, words)?,
            attribute_id: u32::read(alloc, words)?,
        })
    }
}

// A moment, or `-` for none.
impl Phrase for Option<Moment> {
    ghost reading = { source_time_reading };

    #[tactic(auto, unfolding(crate::specs::Requests::source_time_reading))]
    fn read(_alloc: Global, words: &mut Words<'_>) -> Result<Option<Moment>, Cause> {
        let word = words.word()?;
        if word == "-" {
            return Ok(None);
        }
        match signed(1 << 63, (1 << 63) - 1, word) {
            Some(steps) => Ok(Some(Moment(steps))),
            None => Err(Cause::Number),
        }
    }
}

/// A value for the attribute Value of a node (WriteValue, IEC 62541-4, section 5, Write).
#[derive(Debug, Drop)]
pub struct NewValue {
    pub node_id: NodeId,
    pub value: Variant,
    /// When the source had the value, if that is said.
    pub source_time: Option<Moment>,
}

impl Phrase for NewValue {
    ghost reading = { new_value_reading };

    #[tactic(auto, unfolding(crate::specs::Requests::new_value_reading))]
    fn read(alloc: Global, words: &mut Words<'_>) -> Result<NewValue, Cause> {
        Ok(NewValue {
            node_id: NodeId::read(alloc, words)?,
            value: Variant::read(alloc, words)?,
            source_time: Option::<Moment>::read(alloc, words)?,
        })
    }
}

/// Which references of a node are wanted (BrowseDescription, IEC 62541-4, section 5, Browse).
#[derive(Debug, Drop)]
pub struct References {
    /// The most references of a page; 0 is no limit.
    pub max_references: u32,
    pub node_id: NodeId,
    /// 0 is forward, 1 inverse and 2 both.
    pub direction: i32,
    pub reference_type_id: NodeId,
    pub include_subtypes: bool,
    /// The sum of the numbers of the node classes; 0 is all.
    pub node_class_mask: u32,
    /// The sum of the numbers of the fields.
    pub result_mask: u32,
}

impl Phrase for References {
    ghost reading = { references_reading };

    #[tactic(auto, unfolding(crate::specs::Requests::references_reading))]
    fn read(alloc: Global, words: &mut Words<'_>) -> Result<References, Cause> {
        Ok(References {
            max_references: u32::read(alloc, words)?,
            node_id: NodeId::read(alloc, words)?,
            direction: i32::read(alloc, words)?,
            reference_type_id: NodeId::read(alloc, words)?,
            include_subtypes: bool::read(alloc, words)?,
            node_class_mask: u32::read(alloc, words)?,
            result_mask: u32::read(alloc, words)?,
        })
    }
}

// The serial of a continuation point, where a further word stands.
impl Phrase for Option<u64> {
    ghost reading = { last_point_reading };

    #[tactic(auto, unfolding(crate::specs::Requests::last_point_reading))]
    fn read(alloc: Global, words: &mut Words<'_>) -> Result<Option<u64>, Cause> {
        if words.has_more() {
            Ok(Some(u64::read(alloc, words)?))
        } else {
            Ok(None)
        }
    }
}

/// Which values of a node's history are wanted (ReadRawModifiedDetails, IEC 62541-11, section 6).
#[derive(Debug, Drop)]
pub struct RawValues {
    /// 0 is the source's time, 1 the server's, 2 both and 3 neither.
    pub timestamps: i32,
    /// The first time, or 0 where it is not given.
    pub start: Moment,
    /// The last time, or 0 where it is not given.
    pub end: Moment,
    /// The most values of a page, or 0 where it is not given.
    pub count: u32,
    pub node_id: NodeId,
    /// The serial of the continuation point by which the page before ended.
    pub point: Option<u64>,
}

impl Phrase for RawValues {
    ghost reading = { raw_values_reading };

    #[tactic(auto, unfolding(crate::specs::Requests::raw_values_reading))]
    fn read(alloc: Global, words: &mut Words<'_>) -> Result<RawValues, Cause> {
        Ok(RawValues {
            timestamps: i32::read(alloc, words)?,
            start: Moment::read(alloc, words)?,
            end: Moment::read(alloc, words)?,
            count: u32::read(alloc, words)?,
            node_id: NodeId::read(alloc, words)?,
            point: Option::<u64>::read(alloc, words)?,
        })
    }
}

/// What is asked of a subscription (CreateSubscription, IEC 62541-4, section 5).
#[derive(Clone, Copy, Debug)]
pub struct Counts {
    /// The lifetime count, in publishing intervals. The server revises it.
    pub lifetime: u32,
    /// The keep-alive count, in publishing intervals. The server revises it.
    pub max_keep_alive: u32,
    /// The most notifications of a message; 0 is no limit.
    pub max_notifications: u32,
    /// The higher comes first.
    pub priority: u8,
}

impl Phrase for Counts {
    ghost reading = { counts_reading };

    #[tactic(auto, unfolding(crate::specs::Requests::counts_reading))]
    fn read(alloc: Global, words: &mut Words<'_>) -> Result<Counts, Cause> {
        Ok(Counts {
            lifetime: u32::read(alloc, words)?,
            max_keep_alive: u32::read(alloc, words)?,
            max_notifications: u32::read(alloc, words)?,
            priority: u8::read(alloc, words)?,
        })
    }
}

/// How an item is monitored (MonitoringParameters, IEC 62541-4, section 7).
#[derive(Clone, Copy, Debug)]
pub struct Monitoring {
    /// The client's own number of the item.
    pub client_handle: u32,
    /// How many values may wait; 0 is 1.
    pub queue_size: u32,
    pub discard: Discard,
    /// Which change is told: 0 the status, 1 also the value, 2 also the source's time.
    pub trigger: i32,
}

impl Phrase for Monitoring {
    ghost reading = { monitoring_reading };

    #[tactic(auto, unfolding(crate::specs::Requests::monitoring_reading))]
    fn read(alloc: Global, words: &mut Words<'_>) -> Result<Monitoring, Cause> {
        Ok(Monitoring {
            client_handle: u32::read(alloc, words)?,
            queue_size: u32::read(alloc, words)?,
            discard: Discard::read(alloc, words)?,
            trigger: i32::read(alloc, words)?,
        })
    }
}

/// A monitored item to be created (MonitoredItemCreateRequest, IEC 62541-4, section 5).
#[derive(Debug, Drop)]
pub struct NewItem {
    pub subscription: u32,
    /// 0 is the source's time, 1 the server's, 2 both and 3 neither.
    pub timestamps: i32,
    pub attribute: Attribute,
    /// 0 is disabled, 1 sampling and 2 reporting.
    pub mode: i32,
    pub monitoring: Monitoring,
}

impl Phrase for NewItem {
    ghost reading = { new_item_reading };

    #[tactic(auto, unfolding(crate::specs::Requests::new_item_reading))]
    fn read(alloc: Global, words: &mut Words<'_>) -> Result<NewItem, Cause> {
        Ok(NewItem {
            subscription: u32::read(alloc, words)?,
            timestamps: i32::read(alloc, words)?,
            attribute: Attribute::read(alloc, words)?,
            mode: i32::read(alloc, words)?,
            monitoring: Monitoring::read(alloc, words)?,
        })
    }
}

/// A monitored item to be changed (MonitoredItemModifyRequest, IEC 62541-4, section 5).
#[derive(Clone, Copy, Debug)]
pub struct ChangedItem {
    pub subscription: u32,
    /// 0 is the source's time, 1 the server's, 2 both and 3 neither.
    pub timestamps: i32,
    pub item: u32,
    pub monitoring: Monitoring,
}

impl Phrase for ChangedItem {
    ghost reading = { changed_item_reading };

    #[tactic(auto, unfolding(crate::specs::Requests::changed_item_reading))]
    fn read(alloc: Global, words: &mut Words<'_>) -> Result<ChangedItem, Cause> {
        Ok(ChangedItem {
            subscription: u32::read(alloc, words)?,
            timestamps: i32::read(alloc, words)?,
            item: u32::read(alloc, words)?,
            monitoring: Monitoring::read(alloc, words)?,
        })
    }
}

/// What becomes of a link from a triggering item to another one (SetTriggering, IEC 62541-4, section 5).
#[derive(Clone, Copy, Debug, PartialEq, Eq)]
pub enum LinkChange {
    /// `+ID`: the item with this number is triggered from now on.
    Add { item: u32 },
    /// `-ID`: it is triggered no longer.
    Remove { item: u32 },
}

// A sign, and the number of an item.
#[tactic(auto, unfolding(crate::specs::Requests::link_change_of))]
fn link_change_of(word: &str) -> Result<LinkChange, Cause>
    ensures { result ≡ link_change_of word.now }
{
    match behind(word, "+") {
        Some(digits) => match decimal_up_to(0xffff_ffff, digits) {
            Some(item) => Ok(LinkChange::Add { item: item as u32 }),
            None => Err(Cause::Number),
        },
        None => match behind(word, "-") {
            Some(digits) => match decimal_up_to(0xffff_ffff, digits) {
                Some(item) => Ok(LinkChange::Remove { item: item as u32 }),
                None => Err(Cause::Number),
            },
            None => Err(Cause::Word),
        },
    }
}

impl Phrase for LinkChange {
    ghost reading = { link_change_reading };

    #[tactic(auto, unfolding(crate::specs::Requests::link_change_reading))]
    fn read(_alloc: Global, words: &mut Words<'_>) -> Result<LinkChange, Cause> {
        link_change_of(words.word()?)
    }
}

/// A message that is acknowledged (SubscriptionAcknowledgement, IEC 62541-4, section 5, Publish).
#[derive(Clone, Copy, Debug)]
pub struct Acknowledgement {
    pub subscription: u32,
    pub sequence_number: u32,
}

// Two numbers with a colon between them.
fn acknowledgement_of(word: &str) -> Option<Acknowledgement>
    ensures { result ≡ acknowledgement_of word.now }
{
    let (first, second) = match word.split_once(':') {
        Some(parts) => parts,
        None => (word, ""),
    };
    let subscription = decimal_up_to(0xffff_ffff, first)?;
    let sequence_number = decimal_up_to(0xffff_ffff, second)?;
    Some(Acknowledgement {
        subscription: subscription as u32,
        sequence_number: sequence_number as u32,
    })
}

impl Phrase for Acknowledgement {
    ghost reading = { acknowledgement_reading };

    #[tactic(auto, unfolding(crate::specs::Requests::acknowledgement_reading))]
    fn read(_alloc: Global, words: &mut Words<'_>) -> Result<Acknowledgement, Cause> {
        match acknowledgement_of(words.word()?) {
            Some(acknowledgement) => Ok(acknowledgement),
            None => Err(Cause::Number),
        }
    }
}
