//! Items that are released, since one to which they are linked queued a value.

ghost use Rattle.std.specs.Prelude.{◌≡◌, [], map, OnOk};
ghost use Rattle.std.specs.BTreeSet.{insert_key};
ghost use Rattle.ua_monitored_items.specs.Releases.{release_cmp, with_releases};

use std::alloc::{AllocError, Global};
use std::collections::BTreeSet;
use std::marker::Model;
use ua_subscription_messages::SubscriptionId;

/// An item that is to be released, if it is of this subscription, samples, and holds a value.
#[derive(Clone, Copy, Debug, PartialEq, Eq, PartialOrd, Ord, Drop)]
pub struct Release {
    /// The subscription of the item that queued a value.
    pub subscription: u32,

    /// The number of an item that is linked to it.
    pub number: u32,
}

/// Items that are to be released, each once, however many others they are linked to. Contracts see them by subscription and number.
#[derive(Drop)]
pub struct Releases {
    releases: BTreeSet<Release>,
}

impl Model for Releases {
    ghost use Rattle.std.specs.Prelude.{List};
    ghost use Rattle.ua_monitored_items.specs.declared.releases.Release.{Release as ReleaseLem};

    ghost Value = { List ReleaseLem };

    ghost view = { λ r. r.releases.keys };
}

impl Releases {
    /// None. Takes no memory.
    pub(crate) fn new(alloc: Global) -> Releases
        ensures { result ≡ [] }
    {
        Releases {
            releases: BTreeSet::new(alloc),
        }
    }

    /// All of them.
    pub(crate) fn all(&self) -> &BTreeSet<Release>
        ensures { result.now.keys ≡ self.now }
    {
        &self.releases
    }

    /// One more, also where it is there already.
    pub(crate) fn put(&mut self, release: Release) -> Result<(), AllocError>
        ensures { OnOk result (self.new ≡ insert_key release_cmp self.old release) }
    {
        match self.releases.insert(release) {
            Ok(_) => Ok(()),
            Err(_) => Err(AllocError),
        }
    }

    /// Those with these numbers of a subscription. At an `Err` a part may be there.
    pub(crate) fn put_all(
        &mut self,
        subscription: SubscriptionId,
        numbers: &BTreeSet<u32>,
    ) -> Result<(), AllocError>
        ensures { OnOk result (self.new ≡ with_releases self.old (map (λ number. record { subscription = subscription; number = number }) numbers.now.keys)) }
    {
        for number in numbers {
            self.put(Release {
                subscription: subscription.0,
                number: *number,
            })?;
        }
        Ok(())
    }
}
