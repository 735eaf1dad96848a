//! Up to which time a server had come.

ghost use Rattle.std.specs.Prelude.{◌≡◌, None};
ghost use Rattle.store_restoring.specs.Times.{latest_of as latest_of_spec, later_of as later_of_spec};

use server_messages::{KeptValue, KeptValues};
use ua_types::Moment;

// The later of two times, where both are there.
fn later_of(a: Option<Moment>, b: Option<Moment>) -> Option<Moment>
    ensures { result ≡ later_of_spec a b }
{
    match a {
        None => b,
        Some(a) => match b {
            None => Some(a),
            Some(b) => Some(a.later(b)),
        },
    }
}

// The latest of their server times and of one that is known.
fn latest_of(known: Option<Moment>, kept: &[KeptValue]) -> Option<Moment>
    ensures { result ≡ latest_of_spec known kept.now }
{
    let mut latest = known;
    for one in kept {
        latest = later_of(latest, one.value.server_time);
    }
    latest
}

/// The latest server time among the values and the histories that a store has kept; None where none has one.
pub fn latest_time(kept: &KeptValues) -> Option<Moment>
    ensures { result ≡ latest_of_spec (latest_of_spec None kept.now.values.items) kept.now.histories.items }
{
    let latest = latest_of(None, kept.values.as_slice());
    latest_of(latest, kept.histories.as_slice())
}
