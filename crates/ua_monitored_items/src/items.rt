//! The monitored items of a server.

ghost use Rattle.std.specs.Prelude.{◌≡◌, ◌-◌, ◌^◌, ◌<◌, ◌≤◌, [], false, true, filter, fold, length, map, IsOk, OnOk, OnErr, IfOk, if◌then◌else◌};
ghost use Rattle.std.specs.BTreeSet.{insert_key};
ghost use Rattle.std.specs.Option.{option_copied};
ghost use Rattle.std.specs.Ordering.{nat_cmp};
ghost use Rattle.ua_monitored_items.specs.ItemTables.{numbers_of};
ghost use Rattle.ua_monitored_items.specs.Items.{no_items, is_full as is_full_spec, null_object, mode_judged, create_judged, create_one, create_refused, new_item, own_item, modify_one, modify_refused, mode_one, delete_one, ended as ended_spec, all_served, is_available, taken_of, visits_of, VisitedSome};
ghost use Rattle.ua_monitored_items.specs.Kinds.{mode_numbered, trigger_of};
ghost use Rattle.ua_monitored_items.specs.Links.{link_status, is_own as is_own_spec, may_link as may_link_spec, linked, in_order, link as link_spec, after_link, IsAnswer};
ghost use Rattle.ua_monitored_items.specs.Preparing.{IsReady, AreReady, mode_status, moded_own};
ghost use Rattle.ua_monitored_items.specs.Releases.{with_releases, mode_releases, modes_release, modes_set, shown_one, shown, ShownSome};
ghost use Rattle.ua_monitored_items.specs.Taking.{TakenSome};
ghost use Rattle.ua_monitored_items.specs.Undoing.{last_undone, undone, CanBeUndone};
ghost use Rattle.ua_subscription_messages.specs.DataChangeMessages.{with_notes};
ghost use Rattle.ua_views.specs.Views.{or_none};

use crate::edit::{Edit, Modification};
use crate::item::{Item, revised_size};
use crate::item_table::ItemTable;
use crate::kinds::{Kind, Mode, trigger_of};
use crate::links::{Linked, Links, link_status, unlink_all};
use crate::preparing::Prepared;
use crate::releases::Releases;
use crate::sampled::Sampled;
use std::alloc::{AllocError, Global};
use std::collections::BTreeSet;
use std::marker::Model;
use ua_item_queue::{ItemQueue, QueueSize};
use ua_read_write::{Change, Timestamps, refusal};
use ua_space::Space;
use ua_subscription_messages::{
    DataChangeMessage, MonitoredItemCreateRequestView, MonitoredItemCreateResult,
    MonitoredItemModifyRequestView, MonitoredItemModifyResult, MonitoredItemNotification,
    MonitoringMode, MonitoringParametersView, SubscriptionId,
};
use ua_types::{
    Config, DataValue, Duration, ExtensionObject, ExtensionObjectBody, Moment, NodeId, Status,
};
use ua_views::ArrayView;

/// The monitored items of a server, of all subscriptions. Each has a number, counted from 1 over the
/// server and never used again.
///
/// An item watches one attribute of a node, and queues what it samples: what stands there when it is
/// enabled, and each value that is written there later and is a change by its filter, if it is the
/// attribute Value. What is queued waits until a message takes it, or the client clears it. Contracts see
/// the items under their numbers, with the values that wait.
///
/// Other items may be linked to an item (IEC 62541-4, "Triggering model"). When it queues a value, in mode
/// sampling or reporting, those of them that are in mode sampling and hold a value are released: what they
/// hold is sent as a reporting item's is, until their queue is empty or their mode is set. Items are released
/// once all items of a write, or of a request, have sampled.
///
/// At want of memory nothing changed, but for [`Items::show`], [`Items::sample`] and [`Items::send`]: the calls that
/// serve a request take what memory it wants before they change an item, or take back the items that they made.
#[derive(Drop)]
pub struct Items {
    // How many items a subscription may have.
    most: u32,
    // How many items all subscriptions may have.
    most_in_all: u32,
    // How many values an item may keep.
    longest: u32,
    // The sampling interval that clients are told.
    interval: Duration,
    table: ItemTable,
    alloc: Global,
}

impl Model for Items {
    ghost use Rattle.std.specs.Prelude.{◌≤◌};
    ghost use Rattle.ua_monitored_items.specs.Items.{ItemsState};

    ghost Value = { ItemsState };

    ghost view = { λ s. record { most = s.most; most_in_all = s.most_in_all; longest = s.longest; interval = s.interval; made = s.table.made; items = s.table.items } };

    ghost invariant = { λ s. 1 ≤ s.longest };
}

fn null_object() -> ExtensionObject
    ensures { result ≡ null_object }
{
    ExtensionObject {
        type_id: NodeId::null(),
        body: ExtensionObjectBody::Absent,
    }
}

fn create_refused(status: Status) -> MonitoredItemCreateResult
    ensures { result ≡ create_refused status }
{
    MonitoredItemCreateResult {
        status_code: status,
        monitored_item_id: 0,
        revised_sampling_interval: Duration([0; 8]),
        revised_queue_size: 0,
        filter_result: null_object(),
    }
}

fn modify_refused(status: Status) -> MonitoredItemModifyResult
    ensures { result ≡ modify_refused status }
{
    MonitoredItemModifyResult {
        status_code: status,
        revised_sampling_interval: Duration([0; 8]),
        revised_queue_size: 0,
        filter_result: null_object(),
    }
}

impl Items {
    /// No item yet, under this configuration. Takes no memory.
    pub fn new(alloc: Global, config: &Config) -> Items
        ensures { result ≡ no_items config.now }
    {
        Items {
            most: config.items,
            most_in_all: config.items_in_all,
            longest: config.queue,
            interval: config.sampling_duration,
            table: ItemTable::new(alloc),
            alloc,
        }
    }

    /// From where the items take memory.
    pub fn allocator(&self) -> Global {
        self.alloc
    }

    /// How many items there are.
    pub fn len(&self) -> usize
        ensures { result ≡ length self.now.items }
    {
        self.table.len()
    }

    // As many items as a subscription may have are held, or as many as the server may have, or no number is left.
    fn is_full(&self, subscription: SubscriptionId) -> bool
        ensures full { result ≡ is_full_spec self.now subscription }
        ensures room { result ≡ false → self.now.made < 2 ^ 32 - 1 }
    {
        self.table.count_of(subscription) >= self.most as usize
            || self.len() >= self.most_in_all as usize
            || self.table.made() == u32::MAX
    }

    // Whether one more item may be made in this mode with these parameters, or why not. Takes no memory.
    fn kind_judged(
        &self,
        subscription: SubscriptionId,
        mode: MonitoringMode,
        parameters: &MonitoringParametersView<'_>,
    ) -> Result<Kind, Status>
        ensures verdict { result ≡ mode_judged (is_full_spec self.now subscription) (mode_numbered mode) (trigger_of parameters.now.filter) }
        ensures room { OnOk result (self.now.made < 2 ^ 32 - 1) }
    {
        let Some(mode) = Mode::numbered(mode) else {
            return Err(Status::BAD_MONITORING_MODE_INVALID);
        };
        let Some(trigger) = trigger_of(&parameters.filter) else {
            return Err(Status::BAD_MONITORED_ITEM_FILTER_UNSUPPORTED);
        };
        if self.is_full(subscription) {
            return Err(Status::BAD_TOO_MANY_MONITORED_ITEMS);
        }
        Ok(Kind { mode, trigger })
    }

    // Whether an item may be made, or why not. Takes no memory.
    #[tactic(auto, unfolding(crate::specs::Items::create_judged))]
    fn create_judged(
        &self,
        space: &Space,
        subscription: SubscriptionId,
        request: &MonitoredItemCreateRequestView<'_>,
    ) -> Result<Kind, Status>
        ensures verdict { result ≡ create_judged self.now space.now.nodes subscription request.now }
        ensures room { OnOk result (self.now.made < 2 ^ 32 - 1) }
    {
        if let Some(status) = refusal(space, &request.item_to_monitor) {
            return Err(status);
        }
        self.kind_judged(
            subscription,
            request.monitoring_mode,
            &request.requested_parameters,
        )
    }

    // An item as it is made, before anything is sampled. Of the request the node's id is copied.
    fn new_item(
        &self,
        subscription: SubscriptionId,
        timestamps: Timestamps,
        request: &MonitoredItemCreateRequestView<'_>,
        kind: Kind,
    ) -> Result<Item, AllocError>
        ensures { IfOk result (λ item. item ≡ new_item self.now subscription timestamps request.now kind) }
    {
        let parameters = &request.requested_parameters;
        let node_id = request.item_to_monitor.node_id.to_value(self.alloc)?;
        let size = revised_size(self.longest, parameters.queue_size);
        let queue = ItemQueue::new(self.alloc, size, parameters.discard_oldest)?;
        Ok(Item {
            subscription: subscription.0,
            node_id,
            attribute_id: request.item_to_monitor.attribute_id,
            client_handle: parameters.client_handle,
            timestamps,
            mode: kind.mode,
            trigger: kind.trigger,
            queue,
            released: false,
            links: Links::new(self.alloc),
        })
    }

    // Makes one item, if it isn't refused. At an `Err` nothing changed.
    #[tactic(auto, using(crate::proofs::MadeItems::enabled_may_hold, crate::proofs::MadeItems::none_is_empty), unfolding(crate::specs::Items::create_one))]
    fn create_one(
        &mut self,
        sampled: &Sampled<'_>,
        timestamps: Timestamps,
        request: &MonitoredItemCreateRequestView<'_>,
    ) -> Result<MonitoredItemCreateResult, AllocError>
        ensures result { IfOk result (λ made. made ≡ (create_one sampled.now.space.now.nodes sampled.now.clock sampled.now.subscription timestamps self.old request.now).result) }
        ensures ok { OnOk result (self.new ≡ (create_one sampled.now.space.now.nodes sampled.now.clock sampled.now.subscription timestamps self.old request.now).state) }
        ensures back { OnOk result (CanBeUndone self.old self.new) }
        ensures err { OnErr result (self.new ≡ self.old) }
    {
        let kind = match self.create_judged(sampled.space, sampled.subscription, request) {
            Ok(kind) => kind,
            Err(status) => return Ok(create_refused(status)),
        };
        let size = revised_size(self.longest, request.requested_parameters.queue_size);
        let mut item = self.new_item(sampled.subscription, timestamps, request, kind)?;
        if item.mode.is_enabled() {
            item.queue_reading(self.alloc, sampled.space, sampled.clock)?;
        }
        self.table.add(self.alloc, item)?;
        Ok(MonitoredItemCreateResult {
            status_code: Status::GOOD,
            monitored_item_id: self.table.made(),
            revised_sampling_interval: self.interval,
            revised_queue_size: size,
            filter_result: null_object(),
        })
    }

    // Makes the items of a request. At an `Err` some were made.
    fn create_all<'a>(
        &mut self,
        sampled: &Sampled<'_>,
        timestamps: Timestamps,
        requests: ArrayView<'a, MonitoredItemCreateRequestView<'a>>,
    ) -> Result<Vec<MonitoredItemCreateResult>, AllocError>
        ensures results { IfOk result (λ results. results.items ≡ (all_served (create_one sampled.now.space.now.nodes sampled.now.clock sampled.now.subscription timestamps) self.old (or_none requests.entry)).results) }
        ensures ok { OnOk result (self.new ≡ (all_served (create_one sampled.now.space.now.nodes sampled.now.clock sampled.now.subscription timestamps) self.old (or_none requests.entry)).state) }
        ensures err { OnErr result (CanBeUndone self.old self.new) }
        ensures memory { or_none requests.entry ≡ [] → IsOk result }
    {
        let mut results = Vec::with_capacity(self.alloc, requests.len())?;
        for request in requests {
            let made = self.create_one(sampled, timestamps, &request)?;
            results.push_reserved(made);
        }
        Ok(results)
    }

    // Takes the last item back. Takes no memory.
    fn take_back_one(&mut self)
        requires { 0 < self.old.made }
        ensures { self.new ≡ last_undone self.old }
    {
        self.table.take_back();
    }

    // Takes the last items back, so many. Takes no memory.
    fn take_back(&mut self, count: u32)
        requires { count ≤ self.old.made }
        ensures { self.new ≡ undone count self.old }
    {
        for _ in 0..count {
            self.take_back_one();
        }
    }

    /// Makes items of a subscription, one for each entry, in their order, and answers what became of each
    /// (IEC 62541-4, "CreateMonitoredItems"). An item that is made enabled queues what it reads at this
    /// clock.
    ///
    /// An entry is refused in this order: as Read refuses its attribute
    /// (`BAD_NODE_ID_UNKNOWN`, `BAD_ATTRIBUTE_ID_INVALID`, `BAD_INDEX_RANGE_INVALID`, `BAD_NOT_READABLE`);
    /// `BAD_MONITORING_MODE_INVALID`; a filter other than null and a DataChangeFilter with a trigger from 0
    /// to 2 and no deadband, `BAD_MONITORED_ITEM_FILTER_UNSUPPORTED`; where the subscription or the server has as
    /// many items as the configuration allows, or the numbers are used up, `BAD_TOO_MANY_MONITORED_ITEMS`. Of an entry that isn't
    /// refused the node's id is copied, and nothing else of the request.
    pub fn create<'a>(
        &mut self,
        sampled: &Sampled<'_>,
        timestamps: Timestamps,
        requests: ArrayView<'a, MonitoredItemCreateRequestView<'a>>,
    ) -> Result<Vec<MonitoredItemCreateResult>, AllocError>
        ensures results { IfOk result (λ results. results.items ≡ (all_served (create_one sampled.now.space.now.nodes sampled.now.clock sampled.now.subscription timestamps) self.old (or_none requests.entry)).results) }
        ensures ok { OnOk result (self.new ≡ (all_served (create_one sampled.now.space.now.nodes sampled.now.clock sampled.now.subscription timestamps) self.old (or_none requests.entry)).state) }
        ensures err { OnErr result (self.new ≡ self.old) }
        ensures memory { or_none requests.entry ≡ [] → IsOk result }
    {
        let made = self.table.made();
        match self.create_all(sampled, timestamps, requests) {
            Ok(results) => Ok(results),
            Err(error) => {
                let last = self.table.made();
                self.take_back(last - made);
                Err(error)
            }
        }
    }

    // The item with this number, if it is of this subscription.
    fn own_item(&self, subscription: SubscriptionId, number: u32) -> Option<&Item>
        ensures { option_copied result ≡ own_item self.now subscription number }
    {
        match self.table.get(number) {
            None => None,
            Some(item) => {
                if item.subscription == subscription.0 {
                    Some(item)
                } else {
                    None
                }
            }
        }
    }

    // Changes one item, if it isn't refused. Takes no memory.
    #[tactic(auto, unfolding(crate::specs::Items::modify_one))]
    fn modify_one(
        &mut self,
        subscription: SubscriptionId,
        timestamps: Timestamps,
        request: &MonitoredItemModifyRequestView<'_>,
    ) -> MonitoredItemModifyResult
        ensures result { result ≡ (modify_one subscription timestamps self.old request.now).result }
        ensures state { self.new ≡ (modify_one subscription timestamps self.old request.now).state }
    {
        let number = request.monitored_item_id;
        if self.own_item(subscription, number).is_none() {
            return modify_refused(Status::BAD_MONITORED_ITEM_ID_INVALID);
        }
        let parameters = &request.requested_parameters;
        let Some(trigger) = trigger_of(&parameters.filter) else {
            return modify_refused(Status::BAD_MONITORED_ITEM_FILTER_UNSUPPORTED);
        };
        let size = revised_size(self.longest, parameters.queue_size);
        let modification = Modification {
            timestamps,
            client_handle: parameters.client_handle,
            trigger,
            size: QueueSize::new(size),
            discard_oldest: parameters.discard_oldest,
        };
        self.table.edit(number, Edit::Modify(modification));
        MonitoredItemModifyResult {
            status_code: Status::GOOD,
            revised_sampling_interval: self.interval,
            revised_queue_size: size,
            filter_result: null_object(),
        }
    }

    /// Gives items of a subscription other parameters, entry by entry, and answers what became of each
    /// (IEC 62541-4, "ModifyMonitoredItems"). Where more values wait than the new size allows, the oldest
    /// of them are cleared under the new discardOldest, else the newest, and nothing is marked.
    ///
    /// An entry is refused in this order: the subscription has no such item,
    /// `BAD_MONITORED_ITEM_ID_INVALID`; the filter, as in [`Items::create`].
    pub fn modify<'a>(
        &mut self,
        subscription: SubscriptionId,
        timestamps: Timestamps,
        requests: ArrayView<'a, MonitoredItemModifyRequestView<'a>>,
    ) -> Result<Vec<MonitoredItemModifyResult>, AllocError>
        ensures results { IfOk result (λ results. results.items ≡ (all_served (modify_one subscription timestamps) self.old (or_none requests.entry)).results) }
        ensures ok { OnOk result (self.new ≡ (all_served (modify_one subscription timestamps) self.old (or_none requests.entry)).state) }
        ensures err { OnErr result (self.new ≡ self.old) }
        ensures memory { or_none requests.entry ≡ [] → IsOk result }
    {
        let mut results = Vec::with_capacity(self.alloc, requests.len())?;
        for request in requests {
            results.push_reserved(self.modify_one(subscription, timestamps, &request));
        }
        Ok(results)
    }

    // An entry of SetMonitoringMode, with what the item queues if this enables it, and what that releases.
    fn prepared(
        &self,
        sampled: &Sampled<'_>,
        mode: Mode,
        number: u32,
        releases: &mut Releases,
    ) -> Result<Prepared, AllocError>
        ensures number { IfOk result (λ prepared. prepared.number ≡ number) }
        ensures releases { OnOk result (releases.new ≡ with_releases releases.old (mode_releases mode (own_item self.now sampled.now.subscription number))) }
        ensures ready { IfOk result (λ prepared. IsReady sampled.now.space.now.nodes sampled.now.clock mode (own_item self.now sampled.now.subscription number) prepared.first) }
    {
        let first = match self.own_item(sampled.subscription, number) {
            None => None,
            Some(item) => {
                if mode.is_enabled() && !item.mode.is_enabled() {
                    item.add_releases(releases)?;
                    Some(item.first_sample(self.alloc, sampled.space, sampled.clock)?)
                } else {
                    None
                }
            }
        };
        Ok(Prepared { number, first })
    }

    // The entries of SetMonitoringMode, each with what its item wants, and what they release.
    fn prepare_all(
        &self,
        sampled: &Sampled<'_>,
        mode: Mode,
        numbers: ArrayView<'_, u32>,
        releases: &mut Releases,
    ) -> Result<Vec<Prepared>, AllocError>
        ensures numbers { IfOk result (λ entries. map (λ e. e.number) entries.items ≡ or_none numbers.entry) }
        ensures releases { OnOk result (releases.new ≡ with_releases releases.old (modes_release self.now sampled.now.subscription mode (or_none numbers.entry))) }
        ensures ready { IfOk result (λ entries. AreReady sampled.now.space.now.nodes sampled.now.clock sampled.now.subscription mode self.now entries.items) }
        ensures memory { or_none numbers.entry ≡ [] → IsOk result }
    {
        let mut entries = Vec::with_capacity(self.alloc, numbers.len())?;
        for number in numbers {
            let prepared = self.prepared(sampled, mode, number, releases)?;
            entries.push(prepared)?;
        }
        Ok(entries)
    }

    // Gives one item a mode, if it is known. Takes no memory.
    fn mode_one(&mut self, subscription: SubscriptionId, mode: Mode, prepared: Prepared) -> Status
        ensures result { result ≡ mode_status (own_item self.old subscription prepared.number) }
        ensures state { self.new ≡ moded_own mode self.old prepared (own_item self.old subscription prepared.number) }
    {
        let Prepared { number, first } = prepared;
        if self.own_item(subscription, number).is_none() {
            return Status::BAD_MONITORED_ITEM_ID_INVALID;
        }
        self.table.edit(number, Edit::SetMode { mode, first });
        Status::GOOD
    }

    // Gives items of a subscription a mode, one after the other, and adds what those that this enables release.
    // At an `Err` the items are what they were.
    fn mode_all(
        &mut self,
        sampled: &Sampled<'_>,
        mode: Mode,
        numbers: ArrayView<'_, u32>,
        releases: &mut Releases,
    ) -> Result<Vec<Status>, AllocError>
        ensures results { IfOk result (λ results. results.items ≡ (all_served (mode_one sampled.now.space.now.nodes sampled.now.clock sampled.now.subscription mode) self.old (or_none numbers.entry)).results) }
        ensures ok { OnOk result (self.new ≡ (all_served (mode_one sampled.now.space.now.nodes sampled.now.clock sampled.now.subscription mode) self.old (or_none numbers.entry)).state) }
        ensures releases { OnOk result (releases.new ≡ with_releases releases.old (modes_release self.old sampled.now.subscription mode (or_none numbers.entry))) }
        ensures err { OnErr result (self.new ≡ self.old) }
        ensures memory { or_none numbers.entry ≡ [] → IsOk result }
    {
        let count = numbers.len();
        let entries = self.prepare_all(sampled, mode, numbers, releases)?;
        let mut results = Vec::with_capacity(self.alloc, count)?;
        for prepared in entries {
            results.push_reserved(self.mode_one(sampled.subscription, mode, prepared));
        }
        Ok(results)
    }

    /// Gives items of a subscription a mode, one after the other, and answers what became of each
    /// (IEC 62541-4, "SetMonitoringMode"). An item that leaves the mode disabled queues what it reads at
    /// this clock, whatever its filter; one that is disabled loses what waits. A release of an item that is
    /// named ends; then those that queued release what is linked to them.
    ///
    /// `BAD_MONITORED_ITEM_ID_INVALID` where the subscription has no such item.
    #[tactic(auto, using(crate::proofs::Once::once))]
    pub fn set_mode(
        &mut self,
        sampled: &Sampled<'_>,
        mode: Mode,
        numbers: ArrayView<'_, u32>,
    ) -> Result<Vec<Status>, AllocError>
        ensures results { IfOk result (λ results. results.items ≡ (modes_set sampled.now.space.now.nodes sampled.now.clock sampled.now.subscription mode self.old (or_none numbers.entry)).results) }
        ensures ok { OnOk result (self.new ≡ (modes_set sampled.now.space.now.nodes sampled.now.clock sampled.now.subscription mode self.old (or_none numbers.entry)).state) }
        ensures err { OnErr result (self.new ≡ self.old) }
        ensures memory { or_none numbers.entry ≡ [] → IsOk result }
    {
        let mut releases = Releases::new(self.alloc);
        let results = self.mode_all(sampled, mode, numbers, &mut releases)?;
        self.table.release(&releases);
        Ok(results)
    }

    // Whether this is the number of an item of this subscription.
    fn is_own(&self, subscription: SubscriptionId, number: u32) -> bool
        ensures { result ≡ is_own_spec self.now subscription number }
    {
        self.own_item(subscription, number).is_some()
    }

    // Keeps a number if it is that of an item of this subscription. At an `Err` nothing changed.
    fn keep_own(
        &self,
        subscription: SubscriptionId,
        links: &mut Links,
        number: u32,
    ) -> Result<(), AllocError>
        ensures ok { OnOk result (links.new ≡ (if is_own_spec self.now subscription number then insert_key nat_cmp links.old number else links.old)) }
        ensures err { OnErr result (links.new ≡ links.old) }
    {
        if !self.is_own(subscription, number) {
            return Ok(());
        }
        links.put(number)
    }

    // Of these numbers, as links, those of items of this subscription.
    fn own_of(
        &self,
        subscription: SubscriptionId,
        numbers: &BTreeSet<u32>,
    ) -> Result<Links, AllocError>
        ensures own { IfOk result (λ own. own ≡ in_order (filter (is_own_spec self.now subscription) numbers.now.keys)) }
        ensures none { numbers.now.keys ≡ [] → IsOk result }
    {
        let mut own = Links::new(self.alloc);
        for number in numbers {
            self.keep_own(subscription, &mut own, *number)?;
        }
        Ok(own)
    }

    // Of the items that are linked to one of this subscription, those that are there yet.
    fn linked_yet(&self, subscription: SubscriptionId, links: &Links) -> Result<Links, AllocError>
        ensures yet { IfOk result (λ yet. yet ≡ in_order (filter (is_own_spec self.now subscription) links.now)) }
        ensures none { links.now ≡ [] → IsOk result }
    {
        match links.numbers() {
            Some(numbers) => self.own_of(subscription, numbers),
            None => Ok(Links::new(self.alloc)),
        }
    }

    // Whether an item may be linked to another of this subscription.
    fn may_link(&self, subscription: SubscriptionId, triggering: u32, number: u32) -> bool
        ensures { result ≡ may_link_spec self.now subscription triggering number }
    {
        self.is_own(subscription, number) && number != triggering
    }

    // Links an item to the triggering one, if it may be. At an `Err` nothing changed.
    fn link_one(
        &self,
        subscription: SubscriptionId,
        triggering: u32,
        links: &mut Links,
        number: u32,
    ) -> Result<Status, AllocError>
        ensures status { IfOk result (λ status. status ≡ link_status (may_link_spec self.now subscription triggering number)) }
        ensures links { OnOk result (links.new ≡ (if may_link_spec self.now subscription triggering number then insert_key nat_cmp links.old number else links.old)) }
    {
        if !self.may_link(subscription, triggering, number) {
            return Ok(Status::BAD_MONITORED_ITEM_ID_INVALID);
        }
        links.put(number)?;
        Ok(Status::GOOD)
    }

    // Links items to the triggering one, one after the other.
    fn link_all(
        &self,
        subscription: SubscriptionId,
        triggering: u32,
        links: &mut Links,
        add: ArrayView<'_, u32>,
    ) -> Result<Vec<Status>, AllocError>
        ensures statuses { IfOk result (λ statuses. statuses.items ≡ (fold (linked self.now subscription triggering) (record { statuses = []; numbers = links.old }) (or_none add.entry)).statuses) }
        ensures links { OnOk result (links.new ≡ (fold (linked self.now subscription triggering) (record { statuses = []; numbers = links.old }) (or_none add.entry)).numbers) }
        ensures none { or_none add.entry ≡ [] → IsOk result }
    {
        let mut statuses = Vec::with_capacity(self.alloc, add.len())?;
        for number in add {
            let status = self.link_one(subscription, triggering, links, number)?;
            statuses.push(status)?;
        }
        Ok(statuses)
    }

    /// Changes which items are linked to an item of a subscription (IEC 62541-4, "SetTriggering"): links are
    /// taken away, one after the other, then others are added. Answers what became of each entry. A release
    /// stays, also where its link is taken away.
    ///
    /// All is refused by `BAD_MONITORED_ITEM_ID_INVALID` where the subscription has no such triggering item. So is
    /// an entry of `remove` that isn't linked, and one of `add` that is no item of the subscription, or the
    /// triggering item itself; one that is linked already is good. Without an entry nothing changes. Want of memory is answered
    /// where the triggering item is known and there is an entry.
    #[tactic(auto, unfolding(crate::specs::Links::link))]
    pub fn link(
        &mut self,
        subscription: SubscriptionId,
        triggering: u32,
        add: ArrayView<'_, u32>,
        remove: ArrayView<'_, u32>,
    ) -> Result<Result<Linked, Status>, AllocError>
        ensures answer { IfOk result (λ answer. IsAnswer answer (link_spec self.old subscription triggering (or_none add.entry) (or_none remove.entry))) }
        ensures ok { OnOk result (self.new ≡ after_link self.old (link_spec self.old subscription triggering (or_none add.entry) (or_none remove.entry))) }
        ensures err { OnErr result (self.new ≡ self.old) }
        ensures good { OnErr result (IsOk (link_spec self.old subscription triggering (or_none add.entry) (or_none remove.entry))) }
        ensures none { or_none add.entry ≡ [] → or_none remove.entry ≡ [] → IsOk result }
    {
        let Some(item) = self.own_item(subscription, triggering) else {
            return Ok(Err(Status::BAD_MONITORED_ITEM_ID_INVALID));
        };
        if add.len() == 0 && remove.len() == 0 {
            return Ok(Ok(Linked {
                added: Vec::new(self.alloc),
                removed: Vec::new(self.alloc),
            }));
        }
        let mut links = self.linked_yet(subscription, &item.links)?;
        let removed = unlink_all(self.alloc, &mut links, remove)?;
        let added = self.link_all(subscription, triggering, &mut links, add)?;
        self.table.edit(triggering, Edit::SetLinks(links));
        Ok(Ok(Linked { added, removed }))
    }

    // Deletes one item, if it is known.
    #[tactic(auto, unfolding(crate::specs::Items::delete_one))]
    fn delete_one(&mut self, subscription: SubscriptionId, number: u32) -> Status
        ensures result { result ≡ (delete_one subscription self.old number).result }
        ensures ok { self.new ≡ (delete_one subscription self.old number).state }
    {
        if self.own_item(subscription, number).is_none() {
            return Status::BAD_MONITORED_ITEM_ID_INVALID;
        }
        self.table.remove(number);
        Status::GOOD
    }

    /// Deletes items of a subscription, one after the other, with what waits, and answers what became of
    /// each (IEC 62541-4, "DeleteMonitoredItems").
    ///
    /// `BAD_MONITORED_ITEM_ID_INVALID` where the subscription has no such item.
    pub fn delete(
        &mut self,
        subscription: SubscriptionId,
        numbers: ArrayView<'_, u32>,
    ) -> Result<Vec<Status>, AllocError>
        ensures results { IfOk result (λ results. results.items ≡ (all_served (delete_one subscription) self.old (or_none numbers.entry)).results) }
        ensures ok { OnOk result (self.new ≡ (all_served (delete_one subscription) self.old (or_none numbers.entry)).state) }
        ensures err { OnErr result (self.new ≡ self.old) }
        ensures memory { or_none numbers.entry ≡ [] → IsOk result }
    {
        let mut statuses = Vec::with_capacity(self.alloc, numbers.len())?;
        for number in numbers {
            statuses.push_reserved(self.delete_one(subscription, number));
        }
        Ok(statuses)
    }

    /// Deletes all items of a subscription, with what waits: the subscription's end. Takes no memory.
    pub fn end(&mut self, subscription: SubscriptionId)
        ensures { self.new ≡ ended_spec self.old subscription }
    {
        self.table.remove_all(subscription);
    }

    /// Shows the items what was written, as a Write tells it, one value after the other: each enabled item of
    /// a written node's value queues the value where its filter sees a change since the last one that it
    /// queued. The items of one node see a value by rising numbers, and once all have, those that queued it
    /// release what is linked to them.
    ///
    /// At want of memory, which comes only where an item is to queue a value, some have seen theirs, from the first on, that item
    /// hasn't, and nothing else was done.
    pub fn sample(&mut self, changed: &[Change]) -> Result<(), AllocError>
        ensures ok { OnOk result (self.new.items ≡ shown self.old.items changed.now) }
        ensures others { self.new ≡ record self.old { items = self.new.items } }
        ensures err { OnErr result (ShownSome self.old.items self.new.items changed.now) }
    {
        self.table.sample(self.alloc, changed)
    }

    /// Shows the items one value that was written, as [`Items::sample`] shows many.
    ///
    /// At want of memory, which comes only where an item is to queue the value, some of the node's items have seen it, from the
    /// first on, that item hasn't, and nothing else was done.
    pub fn show(&mut self, node_id: &NodeId, value: &DataValue) -> Result<(), AllocError>
        ensures ok { OnOk result (self.new.items ≡ shown_one self.old.items (record { node_id = node_id.now; value = value.now })) }
        ensures others { self.new ≡ record self.old { items = self.new.items } }
        ensures err { OnErr result (VisitedSome self.old.items self.new.items (visits_of self.old.items (record { node_id = node_id.now; value = value.now }))) }
    {
        self.table.show(self.alloc, node_id, value)
    }

    /// Whether an item of a subscription that reports or is released has a value. Takes no memory, and looks at no item.
    pub fn available(&self, subscription: SubscriptionId) -> bool
        ensures { result ≡ is_available self.now subscription }
    {
        self.table.available(subscription)
    }

    /// Writes what a subscription's items that report or are released have to tell into a message, at most so many values: the
    /// items by rising number, and the values of each oldest first. Each goes with the client's number of the item, the times
    /// that are wanted now, and the Overflow bit where it is marked. What is written is sent, and waits no more.
    ///
    /// At an `Err`, which is want of memory and comes only where there is a value to send, the values of the first items are sent,
    /// and of the next item none is. The message is of no use then: nothing is known of what is written.
    pub fn send(
        &mut self,
        subscription: SubscriptionId,
        count: usize,
        message: &mut DataChangeMessage,
    ) -> Result<(), AllocError>
        ensures ok { OnOk result (self.new.items ≡ (taken_of self.old.items count (numbers_of subscription self.old.items)).items) }
        ensures message { OnOk result (message.new ≡ with_notes message.old (taken_of self.old.items count (numbers_of subscription self.old.items)).notes) }
        ensures others { self.new ≡ record self.old { items = self.new.items } }
        ensures err { OnErr result (TakenSome self.old.items self.new.items count (numbers_of subscription self.old.items)) }
        ensures waits { OnErr result (is_available self.old subscription ≡ true) }
    {
        self.table.send(subscription, count, message)
    }

    /// Takes what a subscription's items that report or are released have to tell, at most so many values, as [`Items::send`]
    /// writes it: copied first, and then it is sent, and waits no more.
    ///
    /// At an `Err`, which is want of memory and comes only where there is a value to send, nothing changed.
    pub fn take_notes(
        &mut self,
        subscription: SubscriptionId,
        count: usize,
    ) -> Result<Vec<MonitoredItemNotification>, AllocError>
        ensures notes { IfOk result (λ notes. notes.items ≡ (taken_of self.old.items count (numbers_of subscription self.old.items)).notes) }
        ensures ok { OnOk result (self.new.items ≡ (taken_of self.old.items count (numbers_of subscription self.old.items)).items) }
        ensures others { self.new ≡ record self.old { items = self.new.items } }
        ensures err { OnErr result (self.new ≡ self.old) }
        ensures waits { OnErr result (is_available self.old subscription ≡ true) }
    {
        self.table.take_notes(self.alloc, subscription, count)
    }
}
