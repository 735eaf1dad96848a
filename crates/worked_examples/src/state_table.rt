//! The line `state_table`: the rows of the state table of subscriptions.

use std::io;
use std::io::Write;
use ua_state_table::{Row, RowId, TABLE, actions_of};

fn write_conditions(row: &Row, output: &mut Vec<u8>) -> io::Result<()> {
    for condition in &row.conditions {
        if let Some(condition) = condition {
            write!(output, " {condition}")?;
        }
    }
    Ok(())
}

fn write_actions(row: RowId, output: &mut Vec<u8>) -> io::Result<()> {
    for action in actions_of(row) {
        write!(output, " {action:?}")?;
    }
    Ok(())
}

// A row as docs/SUBSCRIPTIONS.md has it.
fn write_row(row: &Row, output: &mut Vec<u8>) -> io::Result<()> {
    write!(output, "{} {:?} {:?}:", row.id, row.scope, row.event)?;
    write_conditions(row, output)?;
    write!(output, ":")?;
    write_actions(row.id, output)?;
    write!(output, ": {:?}\n", row.next)
}

/// Writes the rows in the order of the table.
pub(crate) fn write_table(output: &mut Vec<u8>) -> io::Result<()> {
    let table = TABLE;
    for row in &table {
        write_row(&row.id.row(), output)?;
    }
    Ok(())
}
