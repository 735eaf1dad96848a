//! The values that a variable had before the server began: the list `history` of a node.

ghost use Rattle.std.specs.Prelude.{◌≡◌, ◌≤◌, None, Err, IfErr, IfOk};
ghost use Rattle.toml.specs.Data.{as_table};
ghost use Rattle.toml.specs.View.{items_view, table_view, view};
ghost use Rattle.ua_types.specs.Answers.{Gives, GivesAs};
ghost use Rattle.node_loader.specs.Keys.{list_at, only};
ghost use Rattle.node_loader.specs.Past.{past_keys, past_value, past_of, listed_past_of, pasts_of, most_past, few_pasts, history_of};
ghost use Rattle.node_loader.specs.declared.fault.Cause.TheVariants as Cause;
ghost use Rattle.node_loader.specs.declared.fault.Cause.TheVariants.{Memory};

use crate::fault::Cause;
use crate::keys::{list_at, number_at, only, required_number, up_to};
use crate::value::{Form, ranked_value};
use crate::version::Version;
use std::alloc::Global;
use toml::{Table, Value};
use ua_types::{DataValue, Listed, Moment, NumberRange, Status, Variant};

/// What the file and the server's table say that nodes depend on.
#[derive(Clone, Copy, Debug)]
pub(crate) struct Setting {
    pub version: Version,
    /// The highest namespace that the server has.
    pub highest: u16,
    /// The moment that values have.
    pub start: Moment,
    /// The most values of a history.
    pub history: u32,
}

// An entry of the list, with its time in steps of 100 ns.
#[derive(Drop)]
struct Past {
    time: u64,
    value: DataValue,
}

// A value that the source had at a time, and the server has known since its start.
fn past_value(start: Moment, time: u64, value: Variant, status: u64) -> DataValue
    requires time { time ≤ 9223372036854775807 }
    requires status { status ≤ 4294967295 }
    ensures { result ≡ past_value start time value status }
{
    DataValue {
        value: Some(value),
        status: Status(status as u32),
        source_time: Some(Moment(time as i64)),
        server_time: Some(start),
    }
}

// The entry of a table. Its time has to be after the last one.
#[tactic(auto, unfolding(crate::specs::Past::past_of))]
fn past_in(
    alloc: Global,
    setting: &Setting,
    form: Form,
    last: u64,
    table: &Table,
) -> Result<Past, Cause>
    requires { last ≤ 9223372036854775807 }
    ensures given { Gives Memory result (past_of setting.now form last (table_view table.now)) }
    ensures refused { IfErr (only past_keys (table_view table.now)) (λ cause. result ≡ Err cause) }
    ensures time { IfOk result (λ p. p.time ≤ 9223372036854775807) }
{
    only(&["time", "value", "status"], table)?;
    let times = NumberRange {
        least: last + 1,
        most: 9223372036854775807,
    };
    let time = required_number(table, "time", times)?;
    let value = ranked_value(alloc, form.value_type, form.rank, setting.highest, table)?;
    let status = number_at(table, "status", 0, up_to(4294967295))?;
    Ok(Past {
        time,
        value: past_value(setting.start, time, value, status),
    })
}

fn listed_past(
    alloc: Global,
    setting: &Setting,
    form: Form,
    last: u64,
    value: &Value,
) -> Result<Past, Cause>
    requires { last ≤ 9223372036854775807 }
    ensures given { Gives Memory result (listed_past_of setting.now form last (as_table (view value.now))) }
    ensures time { IfOk result (λ p. p.time ≤ 9223372036854775807) }
{
    match value.as_table() {
        Some(table) => past_in(alloc, setting, form, last, table),
        None => Err(Cause::WrongKind),
    }
}

// The entries one after the other, each after the last.
fn pasts(
    alloc: Global,
    setting: &Setting,
    form: Form,
    values: &[Value],
) -> Result<Vec<DataValue>, Cause>
    ensures { GivesAs Memory (λ ps. ps.items) result (pasts_of setting.now form 0 (items_view values.now)) }
{
    let mut all = Vec::new(alloc);
    let mut last = 0;
    for value in values {
        match listed_past(alloc, setting, form, last, value) {
            Ok(Past { time, value }) => {
                all.push(value)?;
                last = time;
            }
            Err(cause) => return Err(cause),
        }
    }
    Ok(all)
}

// The most values: those of the setting, and none where the history isn't kept.
fn most_past(setting: &Setting, historizing: bool) -> usize
    ensures { result ≡ most_past setting.now historizing }
{
    if historizing {
        setting.history as usize
    } else {
        0
    }
}

#[tactic(auto, using(crate::proofs::Tables::count_is))]
fn few_pasts(
    alloc: Global,
    setting: &Setting,
    form: Form,
    historizing: bool,
    values: &[Value],
) -> Result<Listed<DataValue>, Cause>
    ensures { Gives Memory result (few_pasts setting.now form historizing (items_view values.now)) }
{
    if values.len() > most_past(setting, historizing) {
        return Err(Cause::OutOfRange);
    }
    Ok(Listed::from_vec(pasts(alloc, setting, form, values)?))
}

/// The values at the key `history`, none where it is absent.
#[tactic(auto, unfolding(crate::specs::Past::history_of))]
pub(crate) fn history(
    alloc: Global,
    setting: &Setting,
    form: Form,
    historizing: bool,
    table: &Table,
) -> Result<Listed<DataValue>, Cause>
    ensures { Gives Memory result (history_of setting.now form historizing (table_view table.now)) }
{
    let values = list_at(table, "history")?;
    few_pasts(alloc, setting, form, historizing, values)
}
