//! Lists and maps of any type: short lists, values under numbers, and values under times.
//!
//! - [`ShortList`]: a list that mostly has one element or none, and of one element takes no memory: what a request leads to is
//!   mostly one frame, one reply and one chunk.
//! - [`Slots`] and [`Numbered`]: values under numbers, of which neighbours lie side by side, each found in logarithmic time. Who
//!   goes through them in some order, to change them, or asks for one several times in a row, finds most without a search: where
//!   the last one lay is noted ([`Near`]). In which slot a value lies is known only here (`specs/Slots`).
//! - [`Segments`]: values under times, one for each. That they lie in segments of at most 64 entries is known only here
//!   (`specs/Laid`). [`Runs`] reads those between two times, from either end, in slices as they stand in memory.
//!
//! What a contract sees: of a [`ShortList`] the list, and of [`Elements`] what is still to come of it; of [`Slots`] the numbers and
//! values, by rising number, and of [`Numbered`] a finite map from numbers; of [`Segments`] the times and values, by rising time, and
//! of [`Runs`] what of it is still to be read, in slices.
#![tactic(auto)]

mod elements;
mod laid;
mod near;
mod numbered;
mod part;
mod runs;
mod segment;
mod segments;
mod short_list;
mod slot;
mod slots;

pub use elements::Elements;
pub use near::Near;
pub use numbered::Numbered;
pub use runs::Runs;
pub use segments::Segments;
pub use short_list::ShortList;
pub use slots::Slots;
