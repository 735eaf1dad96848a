//! Subscriptions under their numbers, beside the list that has the moments of their timers.

ghost use Rattle.std.specs.Prelude.{◌≡◌, OnOk, option_map};
ghost use Rattle.std.specs.BTreeMap.{is_at, insert_entry};
ghost use Rattle.std.specs.Map.{remove_entry};
ghost use Rattle.std.specs.Ordering.{nat_cmp};
ghost use Rattle.ua_subscriptions.specs.DueLists.{AreListed};
ghost use Rattle.ua_subscriptions.specs.Tables.{subscription_at};

use crate::due_list::{Due, DueList};
use crate::subscription::Subscription;
use std::alloc::AllocError;
use std::collections::BTreeMap;
use ua_types::Moment;

// When the timer of the one with this number comes.
fn moment_of(subscriptions: &BTreeMap<u32, Subscription>, number: u32) -> Option<Moment>
    ensures { result ≡ option_map (λ s. s.due) (subscription_at number subscriptions.now.entries) }
{
    match subscriptions.get(&number) {
        None => None,
        Some(subscription) => Some(subscription.due),
    }
}

/// A subscription stands under this number, with its moment in the list. The list has the new moment before it loses the
/// old one.
pub(crate) fn insert_at(
    subscriptions: &mut BTreeMap<u32, Subscription>,
    dues: &mut DueList,
    number: u32,
    subscription: Subscription,
) -> Result<(), AllocError>
    requires { AreListed subscriptions.old.entries dues.old }
    ensures ok { OnOk result (subscriptions.new.entries ≡ insert_entry nat_cmp subscriptions.old.entries number subscription) }
    ensures listed { AreListed subscriptions.new.entries dues.new }
{
    let before = moment_of(subscriptions, number);
    let moment = subscription.due;
    dues.insert(Due { moment, number })?;
    let Ok(_) = subscriptions.insert(number, subscription) else {
        dues.remove(Due { moment, number });
        return Err(AllocError);
    };
    if let Some(before) = before {
        if before != moment {
            dues.remove(Due {
                moment: before,
                number,
            });
        }
    }
    Ok(())
}

/// The one with this number is no more, and neither is its moment. Takes no memory.
pub(crate) fn remove_at(
    subscriptions: &mut BTreeMap<u32, Subscription>,
    dues: &mut DueList,
    number: u32,
)
    requires { AreListed subscriptions.old.entries dues.old }
    ensures entries { subscriptions.new.entries ≡ remove_entry (is_at (nat_cmp number)) subscriptions.old.entries }
    ensures listed { AreListed subscriptions.new.entries dues.new }
{
    if let Some(subscription) = subscriptions.remove(&number) {
        dues.remove(Due {
            moment: subscription.due,
            number,
        });
    }
}
