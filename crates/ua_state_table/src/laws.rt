//! What holds of the table.

ghost use Rattle.std.specs.Prelude.{◌≡◌, ◌≢◌, ◌<◌, ◌+◌, ◌⊎◌, [], ◌∷◌, IsTrue, IsSome, true, false};
ghost use Rattle.ua_state_table.specs.declared.vars.Vars.{Vars};
ghost use Rattle.ua_state_table.specs.declared.row.RowId.{RowId};
ghost use Rattle.ua_state_table.specs.declared.event.TableEvent.{TableEvent};
ghost use Rattle.ua_state_table.specs.declared.state.State.TheVariants.{Closed};
ghost use Rattle.ua_state_table.specs.declared.row.RowId.TheVariants.{C2, N1, K1, G6};
ghost use Rattle.ua_state_table.specs.declared.event.TableEvent.TheVariants.{Timer};
ghost use Rattle.ua_state_table.specs.Events.{fits};
ghost use Rattle.ua_state_table.specs.StateTable.{printed, concerns, fires, first_false, next_of};
ghost use Rattle.ua_state_table.specs.Rows.{printed_table};
ghost use Rattle.ua_state_table.specs.Sound.{IsSound};
ghost use Rattle.ua_state_table.specs.Doing.{Standing, Circumstances, after, enqueues, is_timer_row};
ghost use Rattle.ua_state_table.specs.Steady.{IsSteady, AreFair, is_waiting};
ghost use Rattle.ua_state_table.specs.Laws.{TimesOut, with_values, with_queued};

use crate::table::TABLE;

/// The table is the printed one: its rows, in its order.
#[tactic(auto, unfolding(crate::specs::Rows::printed_table))]
pub fn table_is_as_printed()
    ensures { TABLE ≡ printed_table }
{}

/// A subscription begins steady, and each row that fires keeps it steady or closes it.
#[tactic(auto, using(crate::proofs::SteadyLemmas::stays_steady, crate::proofs::KeptLemmas::begins))]
pub fn stays_steady()
    ensures begins { (c : Circumstances) (s : Standing) → AreFair c → IsSteady (after c C2 s) }
    ensures stays { (c : Circumstances) (s : Standing) (e : TableEvent) (r : RowId) → AreFair c → IsSteady s →
        IsTrue (fits s.vars.state e) → fires s.vars e ≡ r ∷ [] → next_of r s.vars.state ≢ Closed → IsSteady (after c r s) }
{}

/// The variables of a steady subscription are sound.
#[tactic(auto, using(crate::proofs::SteadyLemmas::steady_is_sound))]
pub fn steady_is_sound()
    ensures { (s : Standing) → IsSteady s → IsSound s.vars }
{}

/// No keep-alive is skipped: the timers that found a request, since a message was sent or one of them
/// found none or the counts were set, are fewer than the keep-alive count.
#[tactic(auto, using(crate::proofs::SteadyLemmas::patient))]
pub fn skips_no_keep_alive()
    ensures { (s : Standing) → IsSteady s → s.answerable < s.keep_alive_count }
{}

/// A steady subscription times out at exactly the timer that finds one life left, counted from its
/// client's last sign of life. It is late then, and its session has no request queued: nobody times out
/// beside a request.
#[tactic(auto, using(crate::proofs::SteadyLemmas::ends_at_last, crate::proofs::SteadyLemmas::ends_then))]
pub fn times_out_at_the_last_life()
    ensures only { (s : Standing) (e : TableEvent) → IsSteady s → IsTrue (fits s.vars.state e) →
        fires s.vars e ≡ G6 ∷ [] → TimesOut s e }
    ensures then { (s : Standing) → IsSteady s → s.started + 1 ≡ s.lifetime_count → fires s.vars Timer ≡ G6 ∷ [] }
{}

/// A subscription stays steady while values come, requests are answered elsewhere, and a request is
/// queued that it doesn't wait for.
#[tactic(auto, using(crate::proofs::SteadyLemmas::values_come, crate::proofs::SteadyLemmas::requests_go, crate::proofs::SteadyLemmas::requests_come))]
pub fn stays_steady_between_rows()
    ensures values_come { (s : Standing) → IsSteady s → IsSteady (with_values s) }
    ensures requests_go { (s : Standing) → IsSteady s → IsSteady (with_queued s false) }
    ensures requests_come { (s : Standing) → IsSteady s → is_waiting s.vars ≡ false → IsSteady (with_queued s true) }
{}

/// Two rows queue a request, N1 and K1. No row of a timer does, and after any other row an empty queue
/// is empty.
#[tactic(auto, using(crate::proofs::QueueLemmas::two_rows, crate::proofs::QueueLemmas::no_timer_row, crate::proofs::QueueLemmas::stays_empty))]
pub fn two_rows_enqueue()
    ensures two { (r : RowId) → IsTrue (enqueues r) → (r ≡ N1) ⊎ (r ≡ K1) }
    ensures no_timer { (r : RowId) → IsTrue (is_timer_row r) → enqueues r ≡ false }
    ensures others { (c : Circumstances) (r : RowId) (s : Standing) → enqueues r ≡ false → s.vars.queued ≡ false →
        (after c r s).vars.queued ≡ false }
{}

/// Each row of the state and event but the one that fires has a condition that doesn't hold.
pub fn others_have_a_reason()
    ensures { (v : Vars) (e : TableEvent) (fired other : RowId) → fires v e ≡ fired ∷ [] →
        IsTrue (concerns (printed other).scope (printed other).event v.state e) → other ≢ fired →
        IsSome (first_false v e other) }
{}
