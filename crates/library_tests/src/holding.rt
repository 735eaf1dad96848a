//! How a test says what has to be.

use std::process::Abort;
use std::test::*;

/// Ends the test as failed, with these words, where it isn't so.
pub(crate) fn holds(rt: &impl Abort, words: &str, is_so: bool) {
    assert!(rt; is_so, "{words}");
}
