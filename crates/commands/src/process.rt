//! What the program takes of the machine.

use crate::log::Log;
use std::fs::File;
use std::io::Read;
use std::rt::Files;
use std::str;

// A page of memory, in bytes.
const PAGE: u64 = 4096;

/// Who can say what the program takes of the machine.
pub trait Process {
    /// How many bytes the program has in memory, where that is known.
    fn resident(&self) -> Option<u64>;
}

// The second number of Linux's `statm` is that of the pages in memory.
fn resident_pages<R: Files>(rt: &R) -> Option<u64> {
    let mut file = File::open(rt, "/proc/self/statm").ok()?;
    let mut room = [0; 128];
    let count = file.read(&mut room).ok()?;
    let text = str::from_utf8(room.get(..count)?).ok()?;
    text.split_whitespace().nth(1)?.parse::<u64>().ok()
}

impl<R: Files, E> Process for Log<'_, '_, R, E> {
    fn resident(&self) -> Option<u64> {
        Some(resident_pages(self.machine())?.saturating_mul(PAGE))
    }
}

/// A list of bytes knows of no machine.
impl Process for Vec<u8> {
    fn resident(&self) -> Option<u64> {
        None
    }
}
