//! What is wrong with the text of a node file, in the file's own words.
//!
//! The loader judges a node file and names one cause and one part. This crate reads the text a second time, in the loader's order
//! (docs/NODE_FILE.md), and tells of the first fault: the line of its table, the node's id, the key, what is there and what was
//! expected. It decides nothing: whether a file is right is for the loader and the address space to say.
//!
//! To add a key, give its part a `Rule` in `src/rules.rt`, at the place where the loader judges it.
//!
//! What a contract sees: nothing of what is told. It is safe on each text, and ends.
//!
//! Read [`advice`] and `Rule` first.
#![tactic(auto)]

mod durations_told;
mod ends;
mod entries;
mod file;
mod judging;
mod known;
mod parts;
mod rules;
mod told;

pub use durations_told::durations;
pub use file::advice;
