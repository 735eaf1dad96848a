//! Moments, status codes and spans of time.

ghost use Rattle.std.specs.Prelude.{⊤};
ghost use Rattle.ua_binary.specs.Scalars.{moment_reading, moment_encoding, status_reading, status_encoding, duration_reading, duration_encoding};

use crate::cursor::Cursor;
use crate::fault::TakeFault;
use crate::wire::Wire;
use std::alloc::{AllocError, Global};
use ua_types::{Duration, Moment, Status};

#[tactic(auto, unfolding(crate::specs::Scalars::moment_reading, crate::specs::Scalars::moment_encoding))]
impl Wire for Moment {
    ghost reading = { moment_reading };

    ghost encoding = { moment_encoding };

    ghost spares_memory = { λ _. ⊤ };

    fn decode(alloc: Global, cursor: &mut Cursor<'_>) -> Result<Moment, TakeFault> {
        Ok(Moment(i64::decode(alloc, cursor)?))
    }

    #[inline(always)]
    fn encode(&self, out: &mut Vec<u8>) -> Result<(), AllocError> {
        self.0.encode(out)
    }
}

#[tactic(auto, unfolding(crate::specs::Scalars::status_reading, crate::specs::Scalars::status_encoding))]
impl Wire for Status {
    ghost reading = { status_reading };

    ghost encoding = { status_encoding };

    ghost spares_memory = { λ _. ⊤ };

    fn decode(alloc: Global, cursor: &mut Cursor<'_>) -> Result<Status, TakeFault> {
        Ok(Status(u32::decode(alloc, cursor)?))
    }

    #[inline(always)]
    fn encode(&self, out: &mut Vec<u8>) -> Result<(), AllocError> {
        self.0.encode(out)
    }
}

#[tactic(auto, unfolding(crate::specs::Scalars::duration_reading, crate::specs::Scalars::duration_encoding))]
impl Wire for Duration {
    ghost reading = { duration_reading };

    ghost encoding = { duration_encoding };

    ghost spares_memory = { λ _. ⊤ };

    fn decode(alloc: Global, cursor: &mut Cursor<'_>) -> Result<Duration, TakeFault> {
        Ok(Duration(<[u8; 8]>::decode(alloc, cursor)?))
    }

    fn encode(&self, out: &mut Vec<u8>) -> Result<(), AllocError> {
        self.0.encode(out)
    }
}
