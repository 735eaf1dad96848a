//! Who opens stores.

ghost use Rattle.std.specs.Prelude.{IfOk, IfSome};
ghost use Rattle.server_messages.specs.Kept.{AreAlike, read_back};

use server_messages::{Keeper, KeptValues, NoKeeper, StoreFault};
use std::alloc::Global;

/// Who opens the store in a file.
pub trait OpensStores {
    /// The store that was opened.
    type Store: Keeper + Drop;

    /// Opens the store in the file with this path, and reads back all that it keeps. A file that isn't there is made.
    ///
    /// A store of which it isn't known what it keeps may have kept anything.
    fn open(&self, alloc: Global, path: &str) -> Result<(Self::Store, KeptValues), StoreFault>
        ensures { IfOk result (λ opened. IfSome (Self.Store.kept opened.0) (AreAlike (read_back opened.1.values.items opened.1.histories.items))) };
}

/// Nobody: no store can be opened, as where a program has no files.
#[derive(Clone, Copy, Debug)]
pub struct NoStores;

impl OpensStores for NoStores {
    type Store = NoKeeper;

    fn open(&self, _alloc: Global, _path: &str) -> Result<(NoKeeper, KeptValues), StoreFault> {
        Err(StoreFault::CannotOpen)
    }
}
