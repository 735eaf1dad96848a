//! The file that ends the server.

ghost use Rattle.std.specs.Prelude.{◌≡◌, true};

use socket_server::Until;
use std::fs;
use std::rt::Files;
use std::time::{Clock, Duration, Instant};

// How long after a look the next one comes, in milliseconds.
const PAUSE: u64 = 100;

/// Serving ends once there is a file at a path, or so many turns are over. The file is looked for at most ten times a second.
#[derive(Drop)]
pub struct StopFile<'a> {
    path: &'a str,
    turns: u64,
    looked_at: Option<Instant>,
}

impl<'a> StopFile<'a> {
    /// Nobody has looked for the file yet. 0 turns are no bound.
    pub fn new(path: &'a str, turns: u64) -> StopFile<'a>
        ensures { result.turns ≡ turns }
    {
        StopFile {
            path,
            turns,
            looked_at: None,
        }
    }

    // Whether it is time to look for the file. Where the clock can't be read, it is.
    fn is_due<R: Clock>(&mut self, rt: &R) -> bool
        ensures { self.new.turns ≡ self.old.turns }
    {
        let Ok(now) = Instant::now(rt) else {
            return true;
        };
        if let Some(looked_at) = self.looked_at
            && now.saturating_duration_since(looked_at) < Duration::from_millis(PAUSE)
        {
            return false;
        }
        self.looked_at = Some(now);
        true
    }
}

impl<R: Files + Clock> Until<R> for StopFile<'_> {
    ghost most = { λ s. s.turns };

    ghost may_ask = { true };

    fn turns(&self) -> u64 {
        self.turns
    }

    fn asks_to_stop(&mut self, rt: &R) -> bool {
        self.is_due(rt) && matches!(fs::exists(rt, self.path), Ok(true))
    }
}
