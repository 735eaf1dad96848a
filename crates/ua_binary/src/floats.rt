//! Floating-point numbers, which are carried as their bytes.

ghost use Rattle.std.specs.Prelude.{⊤};
ghost use Rattle.ua_binary.specs.Floats.{float_reading, float_encoding, double_reading, double_encoding};

use crate::cursor::Cursor;
use crate::fault::TakeFault;
use crate::wire::Wire;
use std::alloc::{AllocError, Global};
use ua_types::{Double, Float};

#[tactic(auto, unfolding(crate::specs::Floats::float_reading, crate::specs::Floats::float_encoding))]
impl Wire for Float {
    ghost reading = { float_reading };

    ghost encoding = { float_encoding };

    ghost spares_memory = { λ _. ⊤ };

    fn decode(alloc: Global, cursor: &mut Cursor<'_>) -> Result<Float, TakeFault> {
        Ok(Float(<[u8; 4]>::decode(alloc, cursor)?))
    }

    fn encode(&self, out: &mut Vec<u8>) -> Result<(), AllocError> {
        self.0.encode(out)
    }
}

#[tactic(auto, unfolding(crate::specs::Floats::double_reading, crate::specs::Floats::double_encoding))]
impl Wire for Double {
    ghost reading = { double_reading };

    ghost encoding = { double_encoding };

    ghost spares_memory = { λ _. ⊤ };

    fn decode(alloc: Global, cursor: &mut Cursor<'_>) -> Result<Double, TakeFault> {
        Ok(Double(<[u8; 8]>::decode(alloc, cursor)?))
    }

    fn encode(&self, out: &mut Vec<u8>) -> Result<(), AllocError> {
        self.0.encode(out)
    }
}
