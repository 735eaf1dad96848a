//! The lines of a trace.

ghost use Rattle.std.specs.Prelude.{◌≡◌, ◌++◌, OnOk, string_bytes};
ghost use Rattle.std.specs.List.{flat_map};
ghost use Rattle.scenario_run.specs.TraceText.{is_other, reason_text, other_text, others_text, move_text, counters_text, row_line, rows_text};
ghost use Rattle.ua_state_table.specs.StateTable.{first_false};

use server_core::Fired;
use std::alloc::AllocError;
use std::fmt::Write;
use ua_state_table::laws::table_is_as_printed;
use ua_state_table::{Row, TABLE, why_not};

// Whether the row is another one of the state and the event at which this one fired.
fn is_other(row: &Row, fired: &Fired) -> bool
    ensures { result ≡ is_other fired.now row.now }
{
    row.concerns(fired.before.state, fired.event) && row.id != fired.row
}

// Why a row didn't fire.
fn append_reason(out: &mut String, row: &Row, fired: &Fired) -> Result<(), AllocError>
    ensures { OnOk result (string_bytes out.new ≡ string_bytes out.old
        ++ reason_text row.now.id (first_false fired.now.before fired.now.event row.now.id)) }
{
    match why_not(&fired.before, fired.event, row.id) {
        Some(condition) => write!(out, " {}:{}", row.id.text(), condition.text()),
        None => Ok(()),
    }
}

// Why the other rows of the table didn't fire.
fn append_others(out: &mut String, fired: &Fired) -> Result<(), AllocError>
    ensures { OnOk result (string_bytes out.new ≡ string_bytes out.old ++ others_text fired.now) }
{
    let table = TABLE;
    table_is_as_printed();
    append_others_in(out, &table, fired)
}

fn append_others_in(out: &mut String, table: &[Row], fired: &Fired) -> Result<(), AllocError>
    ensures { OnOk result (string_bytes out.new ≡ string_bytes out.old
        ++ flat_map (other_text fired.now) table.now) }
{
    for row in table {
        if is_other(row, fired) {
            append_reason(out, row, fired)?;
        }
    }
    Ok(())
}

// The row, and the states from which and to which it led.
fn append_move(out: &mut String, fired: &Fired) -> Result<(), AllocError>
    ensures { OnOk result (string_bytes out.new ≡ string_bytes out.old ++ move_text fired.now) }
{
    let row = fired.row.text();
    let old = fired.before.state.text();
    let new = fired.after.state.text();
    write!(out, "{row} {old} -> {new}")
}

fn append_counters(out: &mut String, fired: &Fired) -> Result<(), AllocError>
    ensures { OnOk result (string_bytes out.new ≡ string_bytes out.old ++ counters_text fired.now) }
{
    let keep_alive = fired.after.keep_alive;
    let lifetime = fired.after.lifetime;
    write!(out, "K{keep_alive} L{lifetime}")
}

/// Adds the line of a row that fired at the event of this number. At an `Err` a part of it may be there.
#[tactic(auto, unfolding(crate::specs::TraceText::row_line))]
pub fn append_line(out: &mut String, event: u64, fired: &Fired) -> Result<(), AllocError>
    ensures { OnOk result (string_bytes out.new ≡ string_bytes out.old ++ row_line event fired.now) }
{
    let subscription = fired.subscription;
    write!(out, "{event} {subscription} ")?;
    append_move(out, fired)?;
    out.push_str(" ")?;
    append_counters(out, fired)?;
    append_others(out, fired)?;
    out.push_str("\n")
}

/// Adds the lines of the rows that fired at the event of this number. At an `Err` a part of them may be
/// there.
pub(crate) fn append_lines(out: &mut String, event: u64, rows: &[Fired]) -> Result<(), AllocError>
    ensures { OnOk result (string_bytes out.new ≡ string_bytes out.old ++ rows_text event rows.now) }
{
    for fired in rows {
        append_line(out, event, fired)?;
    }
    Ok(())
}
