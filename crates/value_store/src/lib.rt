//! A durable store: the value of each variable, and its values of the past, in a SQLite file.
//!
//! [`ValueStore`] is a server's `Keeper`. What a turn stores goes into one transaction, and once it is answered with
//! `Ok` no crash takes any of it back; a turn that fails leaves nothing. `begin` reads all back at the next start.
//!
//! The file has two tables, `value` with one row a variable and `history` with one row a variable and time. Numbers
//! stand in them as INTEGER and texts as TEXT, so that a person can read them; the rest is bytes (`forms`).
//!
//! It is no cache and no server: it holds nothing in memory. It opens no file either: it takes a connection over any
//! store of the kit, a file or memory, so one crate above alone names a file's.
//!
//! What a contract sees is what the rows say, in the words of `server_messages` (`specs/Keeping`). Below it, `changes`
//! makes changes of rows of what is stored, `turns` makes them in one transaction, `reading` reads the rows back, and
//! `restoring` makes values of them. What is proved speaks of disks that keep their word, as the clauses say with
//! `HasCleanDisk`; what a crash leaves is what the next start finds (`specs/Restarting`).
#![tactic(auto)]

ghost use Rattle.value_store.specs.Laws.{TablesAreUnderstood, AddsAreUnderstood, RenewalsAreUnderstood, DropsAreUnderstood, ReadsAreUnderstood};

mod changes;
mod fault;
mod forms;
mod reading;
mod restarting;
mod restoring;
mod rows;
mod store;
mod tables;
mod turns;

pub use fault::database_fault;
pub use restarting::restarts_with_what_is_kept;
pub use store::ValueStore;

/// The texts of CREATE make the schema of the store.
pub fn tables_are_understood()
    ensures { TablesAreUnderstood }
{}

/// The texts of INSERT add a row of six columns, whose number the database chooses.
pub fn adds_are_understood()
    ensures { AddsAreUnderstood }
{}

/// The texts of UPDATE put a row of six columns in the place of those with its key, under their numbers.
pub fn renewals_are_understood()
    ensures { RenewalsAreUnderstood }
{}

/// The text of DELETE takes out of the histories the rows with the key that is given.
pub fn drops_are_understood()
    ensures { DropsAreUnderstood }
{}

/// The texts of SELECT show each row with its number.
pub fn reads_are_understood()
    ensures { ReadsAreUnderstood }
{}
