//! Values that were written, as the items of their nodes see them.

ghost use Rattle.std.specs.Prelude.{◌≡◌, [], fold, OnOk, OnErr, IfOk};
ghost use Rattle.ua_monitored_items.specs.Items.{sampled_items, VisitedSome};
ghost use Rattle.ua_monitored_items.specs.Releases.{all_released, with_releases, sample_releases, seen_by_all};
ghost use Rattle.ua_monitored_items.specs.Sampling.{visits_by, index_visits, index_shown, IndexShownSome};

use crate::counted_items::CountedItems;
use crate::edit::Edit;
use crate::index::Index;
use crate::releases::Releases;
use std::alloc::{AllocError, Global};
use std::collections::BTreeSet;
use ua_read_write::Change;
use ua_subscription_messages::SubscriptionId;
use ua_types::{DataValue, NodeId};

// The items with these numbers see a value, one after the other. Answers what that releases.
fn visit_all(
    alloc: Global,
    items: &mut CountedItems,
    numbers: &BTreeSet<u32>,
    value: &DataValue,
) -> Result<Releases, AllocError>
    ensures releases { IfOk result (λ releases. releases ≡ with_releases [] (sample_releases items.old (visits_by value.now numbers.now.keys))) }
    ensures ok { OnOk result (items.new ≡ sampled_items items.old (visits_by value.now numbers.now.keys)) }
    ensures err { OnErr result (VisitedSome items.old items.new (visits_by value.now numbers.now.keys)) }
{
    let mut releases = Releases::new(alloc);
    for number in numbers {
        items.visit(alloc, *number, value, &mut releases)?;
    }
    Ok(releases)
}

/// Items are released, one after the other. Takes no memory.
pub(crate) fn release_all(items: &mut CountedItems, releases: &Releases)
    ensures { items.new ≡ all_released items.old releases.now }
{
    for release in releases.all() {
        let subscription = SubscriptionId(release.subscription);
        items.edit(release.number, Edit::Release(subscription));
    }
}

// The items with these numbers see a value, and once all have, those that queued it release what is linked
// to them: each linked item once, however many release it.
#[tactic(auto, using(crate::proofs::Once::once))]
fn show_value(
    alloc: Global,
    items: &mut CountedItems,
    numbers: &BTreeSet<u32>,
    value: &DataValue,
) -> Result<(), AllocError>
    ensures ok { OnOk result (items.new ≡ seen_by_all items.old (visits_by value.now numbers.now.keys)) }
    ensures err { OnErr result (VisitedSome items.old items.new (visits_by value.now numbers.now.keys)) }
{
    let releases = visit_all(alloc, items, numbers, value)?;
    release_all(items, &releases);
    Ok(())
}

/// The items of a node, whose numbers the index has, see a value that was written there, and release what is linked to them.
/// At an `Err` some visits were made, from the first on, and the next item, which was to queue the value, hasn't seen it.
pub(crate) fn show_node(
    alloc: Global,
    items: &mut CountedItems,
    on_node: &Index<NodeId>,
    node_id: &NodeId,
    value: &DataValue,
) -> Result<(), AllocError>
    ensures ok { OnOk result (items.new ≡ index_shown on_node.now items.old (record { node_id = node_id.now; value = value.now })) }
    ensures err { OnErr result (VisitedSome items.old items.new (index_visits on_node.now (record { node_id = node_id.now; value = value.now }))) }
{
    match on_node.get(node_id) {
        None => Ok(()),
        Some(numbers) => show_value(alloc, items, numbers, value),
    }
}

/// The items of all nodes that were written, whose numbers the index has, see the values, in their order,
/// and release what is linked to them. At an `Err` some visits were made, from the first on, and the next item, which was to
/// queue its value, hasn't seen it.
pub(crate) fn sample_all(
    alloc: Global,
    items: &mut CountedItems,
    on_node: &Index<NodeId>,
    changed: &[Change],
) -> Result<(), AllocError>
    ensures ok { OnOk result (items.new ≡ fold (index_shown on_node.now) items.old changed.now) }
    ensures err { OnErr result (IndexShownSome on_node.now items.old items.new changed.now) }
{
    for change in changed {
        show_node(alloc, items, on_node, &change.node_id, &change.value)?;
    }
    Ok(())
}
