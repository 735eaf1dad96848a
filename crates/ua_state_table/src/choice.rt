//! Which row fires, and why another one doesn't.

ghost use Rattle.std.specs.Prelude.{◌≡◌, ◌↔◌, IsTrue, [], ◌∷◌, find, not};
ghost use Rattle.std.specs.List.{list_all};
ghost use Rattle.ua_state_table.specs.Conditions.{holds};
ghost use Rattle.ua_state_table.specs.StateTable.{fires, first_false};
ghost use Rattle.ua_state_table.specs.Events.{fits};
ghost use Rattle.ua_state_table.specs.Rows.{is_fired, first_fired, printed_table, true_if_any, placed_in};
ghost use Rattle.ua_state_table.specs.Sound.{IsSound};
ghost use Rattle.ua_state_table.specs.Chosen.{answers, chosen, publish_row as publish_row_spec, timer_row as timer_row_spec};

use crate::condition::Condition;
use crate::event::TableEvent;
use crate::row::{Row, RowId};
use crate::state::State;
use crate::table::TABLE;
use crate::vars::Vars;

/// Whether the variables are sound, as those of every subscription that a server reaches: closed, or
/// live with counters from 1 on, the lifetime counter at 1 only when late, values left over only where
/// they are there and wanted, and no queued request beside a subscription that waits for one.
pub fn reachable(vars: &Vars) -> bool
    ensures { IsTrue result ↔ IsSound vars.now }
{
    let early = vars.state != State::Late;
    vars.state == State::Closed
        || vars.keep_alive >= 1
            && (vars.lifetime >= 2 || vars.lifetime == 1 && !early)
            && (!vars.more || vars.enabled && vars.available)
            && (!vars.queued || early && !vars.more)
}

/// Whether the event can happen to a subscription with these variables: Create to a closed one alone,
/// everything else to a live one.
pub fn fits(vars: &Vars, event: TableEvent) -> bool
    ensures { result ≡ fits vars.now.state event }
{
    match event {
        TableEvent::Create { .. } => vars.state == State::Closed,
        _ => vars.state != State::Closed,
    }
}

/// The row that fires, by cases. Where the variables are sound and the event fits it is the only row of the table whose
/// conditions all hold, as [`row_of_table`] finds it; elsewhere it is some row of the table. It takes no memory.
#[tactic(auto, using(crate::proofs::OneRow::one_row))]
pub fn choose(vars: &Vars, event: TableEvent) -> RowId
    ensures row { result ≡ chosen vars.now event }
    ensures only { IsSound vars.now → IsTrue (fits vars.now.state event) → fires vars.now event ≡ result ∷ [] }
{
    match event {
        TableEvent::Create { full: true } => RowId::C1,
        TableEvent::Create { full: false } => RowId::C2,
        TableEvent::Publish => publish_row(vars),
        TableEvent::Timer => {
            if vars.lifetime == 1 {
                RowId::G6
            } else {
                timer_row(vars)
            }
        }
        TableEvent::Modify => RowId::G1,
        TableEvent::SetMode => RowId::G2,
        TableEvent::Republish { kept: true } => RowId::G3,
        TableEvent::Republish { kept: false } => RowId::G4,
        TableEvent::Delete => RowId::G5,
        TableEvent::Items => RowId::G7,
        TableEvent::SessionEnd { deleting: true } => RowId::G8,
        TableEvent::SessionEnd { deleting: false } => RowId::G9,
        TableEvent::Shutdown => RowId::G10,
    }
}

// At a Publish request.
fn publish_row(vars: &Vars) -> RowId
    ensures { result ≡ publish_row_spec vars.now.state (answers vars.now) }
{
    match vars.state {
        State::Closed => RowId::C1,
        State::Normal if vars.enabled && vars.more => RowId::N2,
        State::Normal => RowId::N1,
        State::Late if vars.enabled && vars.available => RowId::L1,
        State::Late => RowId::L2,
        State::KeepAlive => RowId::K1,
    }
}

// At a timer that isn't the last.
fn timer_row(vars: &Vars) -> RowId
    ensures { result ≡ timer_row_spec vars.now.state (answers vars.now) }
{
    let has_values = vars.enabled && vars.available;
    match vars.state {
        State::Closed => RowId::G6,
        State::Normal => {
            if vars.queued && has_values {
                RowId::N3
            } else if !vars.queued && (!vars.sent || has_values) {
                RowId::N5
            } else if vars.sent {
                RowId::N6
            } else {
                RowId::N4
            }
        }
        State::Late => RowId::L3,
        State::KeepAlive => {
            if vars.queued && has_values {
                RowId::K2
            } else if vars.keep_alive != 1 && !has_values {
                RowId::K4
            } else if vars.queued {
                RowId::K3
            } else {
                RowId::K5
            }
        }
    }
}

/// The row that fires, by a search: the first of the table whose state and event match and whose conditions all
/// hold, and also the only one. It takes no memory. The server asks [`choose`], which tells the same row.
#[tactic(auto, using(crate::proofs::OneRow::finds_one, crate::proofs::OneRow::finds_the_row))]
pub fn row_of_table(vars: &Vars, event: TableEvent) -> RowId
    requires reachable { IsSound vars.now }
    requires fitting { IsTrue (fits vars.now.state event) }
    ensures { fires vars.now event ≡ result ∷ [] }
{
    match first_of_table(vars, event) {
        Some(row) => row.id,
        None => unreachable!(),
    }
}

#[tactic(auto, unfolding(crate::specs::Rows::printed_table))]
fn first_of_table(vars: &Vars, event: TableEvent) -> Option<Row>
    ensures { result ≡ first_fired vars.now event printed_table }
{
    let table = TABLE;
    first_of(&table, vars, event)
}

#[tactic(auto, unfolding(crate::specs::Rows::first_fired))]
fn first_of(rows: &[Row], vars: &Vars, event: TableEvent) -> Option<Row>
    ensures { result ≡ first_fired vars.now event rows.now }
{
    rows.iter()
        .copied()
        .find(|row| is_row_fired(row, vars, event))
}

/// Why a row of that state and event doesn't fire: its first condition that doesn't hold, or none where
/// all do. It takes no memory.
#[tactic(auto, using(crate::proofs::PlacedLemmas::conditions_in_places), unfolding(crate::specs::StateTable::first_false))]
pub fn why_not(vars: &Vars, event: TableEvent, row: RowId) -> Option<Condition>
    ensures { result ≡ first_false vars.now event row }
{
    first_not_held(&row.row().conditions, vars, event)
}

fn first_not_held(places: &[Option<Condition>], vars: &Vars, event: TableEvent) -> Option<Condition>
    ensures { result ≡ find (λ c. not (holds vars.now event c)) (placed_in places.now) }
{
    places
        .iter()
        .filter_map(|place| *place)
        .find(|condition| !condition.holds(vars, event))
}

fn is_row_fired(row: &Row, vars: &Vars, event: TableEvent) -> bool
    ensures { result ≡ is_fired vars.now.state event (holds vars.now event) row.now }
{
    row.concerns(vars.state, event) && are_all_held(&row.conditions, vars, event)
}

fn are_all_held(places: &[Option<Condition>], vars: &Vars, event: TableEvent) -> bool
    ensures { result ≡ list_all (true_if_any (holds vars.now event)) places.now }
{
    places.iter().all(|place| is_held(*place, vars, event))
}

fn is_held(place: Option<Condition>, vars: &Vars, event: TableEvent) -> bool
    ensures { result ≡ true_if_any (holds vars.now event) place }
{
    match place {
        Some(condition) => condition.holds(vars, event),
        None => true,
    }
}
