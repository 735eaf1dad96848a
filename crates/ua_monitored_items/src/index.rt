//! Numbers under keys: which items are of a subscription, or of a node.

ghost use Rattle.std.specs.Prelude.{OnOk, OnErr};
ghost use Rattle.std.specs.BTreeMap.{is_at};
ghost use Rattle.ua_monitored_items.specs.ItemTables.{IsPut, IsTakenOut, IsKept};

use std::alloc::{AllocError, Global};
use std::collections::{BTreeMap, BTreeSet};

/// Sets of numbers, each under its key.
pub type Index<K> = BTreeMap<K, BTreeSet<u32>>;

/// The number is under this key from now on. At an `Err` nothing changed.
pub(crate) fn put_in<K: Ord + Drop>(
    alloc: Global,
    index: &mut Index<K>,
    key: K,
    number: u32,
) -> Result<(), AllocError>
    ensures ok { OnOk result (IsPut K.cmp index.old index.new (is_at (K.cmp key)) number) }
    ensures err { OnErr result (IsKept K.cmp index.old index.new) }
{
    if let Some(numbers) = index.get_mut(&key) {
        return match numbers.insert(number) {
            Ok(_) => Ok(()),
            Err(_) => Err(AllocError),
        };
    }
    let mut numbers = BTreeSet::new(alloc);
    numbers.insert(number)?;
    index.insert(key, numbers)?;
    Ok(())
}

/// The number is not under this key any more. A key without numbers has no place in the index.
pub(crate) fn take_out<K: Ord + Drop>(index: &mut Index<K>, key: &K, number: u32)
    ensures { IsTakenOut K.cmp index.old index.new (is_at (K.cmp key.now)) number }
{
    let Some(numbers) = index.get_mut(key) else {
        return;
    };
    let _ = numbers.remove(&number);
    if numbers.is_empty() {
        let _ = index.remove(key);
    }
}
