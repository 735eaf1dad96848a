//! How long the durations of a node file are.

use crate::judging::word;
use crate::told::joined;
use hex::FromHex;
use std::alloc::{AllocError, Global};
use std::num::f64_from_bits_with_nan;
use toml::Table;

static KEYS: [&str; 3] = ["session_duration", "publish_duration", "sampling_duration"];

// Adds the line of a duration, if the table has it.
fn push_line<'x>(
    alloc: Global,
    told: &mut String,
    server: &'x Table,
    key: &'x str,
) -> Result<(), AllocError> {
    let digits = word(server, key);
    let Ok(bytes) = <[u8; 8] as FromHex>::from_hex(digits) else {
        return Ok(());
    };
    let milliseconds = f64_from_bits_with_nan(u64::from_le_bytes(bytes)).to_string(alloc)?;
    let parts = [
        key,
        " = \"",
        digits,
        "\" is ",
        milliseconds.as_str(),
        " ms\n",
    ];
    told.push_str(joined(alloc, &parts)?.as_str())
}

fn of_table(alloc: Global, table: &Table) -> Result<String, AllocError> {
    let mut told = String::new(alloc);
    if let Some(value) = table.get("server") {
        if let Some(server) = value.as_table() {
            for key in &KEYS {
                push_line(alloc, &mut told, server, *key)?;
            }
        }
    }
    Ok(told)
}

/// A line for each duration that a node file gives in hex digits, with its value in milliseconds. A text that is no TOML has none.
pub fn durations(alloc: Global, text: &str) -> Result<String, AllocError> {
    match toml::table_from_str(alloc, text) {
        Ok(table) => of_table(alloc, &table),
        Err(error) if error.is_memory() => Err(AllocError),
        Err(_) => Ok(String::new(alloc)),
    }
}
