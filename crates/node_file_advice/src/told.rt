//! What is told of a fault.

use std::alloc::{AllocError, AllocFailed, Global};

/// A fault in words, or none where memory ran out.
#[derive(Drop)]
pub(crate) struct Told {
    pub text: Option<String>,
}

impl From<AllocError> for Told {
    fn from(_error: AllocError) -> Told {
        Told { text: None }
    }
}

impl<T: Drop> From<AllocFailed<T>> for Told {
    fn from(_error: AllocFailed<T>) -> Told {
        Told { text: None }
    }
}

/// These texts as one.
pub(crate) fn joined(alloc: Global, parts: &[&str]) -> Result<String, AllocError> {
    let mut text = String::new(alloc);
    for part in parts {
        text.push_str(*part)?;
    }
    Ok(text)
}

/// A fault in these words.
pub(crate) fn tell(alloc: Global, parts: &[&str]) -> Told {
    Told {
        text: joined(alloc, parts).ok(),
    }
}

/// A count in digits.
pub(crate) fn count_text(alloc: Global, count: usize) -> Result<String, AllocError> {
    format!(in alloc; "{count}")
}

/// An integer in digits.
pub(crate) fn integer_text(alloc: Global, number: i64) -> Result<String, AllocError> {
    format!(in alloc; "{number}")
}
