//! Numbers, truth values, and fields of so many bytes.

ghost use Rattle.std.specs.Prelude.{◌≡◌, ⊤};
ghost use Rattle.std.specs.Int.{w16, w32, w64};
ghost use Rattle.ua_binary.specs.Numbers.{number_reading, signed_reading, byte_reading, sbyte_reading, boolean_reading, number_encoding, signed_encoding, byte_encoding, sbyte_encoding, boolean_encoding, octets_reading, octets_encoding};

use crate::cursor::Cursor;
use crate::fault::TakeFault;
use crate::wire::Wire;
use std::alloc::{AllocError, Global};

impl Wire for u8 {
    ghost reading = { byte_reading };

    ghost encoding = { byte_encoding };

    ghost spares_memory = { λ _. ⊤ };

    fn decode(_alloc: Global, cursor: &mut Cursor<'_>) -> Result<u8, TakeFault> {
        cursor.byte()
    }

    #[inline(always)]
    fn encode(&self, out: &mut Vec<u8>) -> Result<(), AllocError> {
        out.push(*self)?;
        Ok(())
    }
}

#[tactic(auto, unfolding(crate::specs::Numbers::boolean_reading, crate::specs::Numbers::boolean_encoding))]
impl Wire for bool {
    ghost reading = { boolean_reading };

    ghost encoding = { boolean_encoding };

    ghost spares_memory = { λ _. ⊤ };

    fn decode(_alloc: Global, cursor: &mut Cursor<'_>) -> Result<bool, TakeFault> {
        let byte = cursor.byte()?;
        Ok(byte != 0)
    }

    fn encode(&self, out: &mut Vec<u8>) -> Result<(), AllocError> {
        out.push(if *self { 1 } else { 0 })?;
        Ok(())
    }
}

#[tactic(auto, unfolding(crate::specs::Numbers::number_reading, crate::specs::Numbers::number_encoding))]
impl Wire for u16 {
    ghost reading = { number_reading w16 };

    ghost encoding = { number_encoding w16 };

    ghost spares_memory = { λ _. ⊤ };

    fn decode(_alloc: Global, cursor: &mut Cursor<'_>) -> Result<u16, TakeFault> {
        cursor.short_number()
    }

    fn encode(&self, out: &mut Vec<u8>) -> Result<(), AllocError> {
        out.extend_from_slice(&self.to_le_bytes())?;
        Ok(())
    }
}

#[tactic(auto, unfolding(crate::specs::Numbers::number_reading, crate::specs::Numbers::number_encoding))]
impl Wire for u32 {
    ghost reading = { number_reading w32 };

    ghost encoding = { number_encoding w32 };

    ghost spares_memory = { λ _. ⊤ };

    fn decode(_alloc: Global, cursor: &mut Cursor<'_>) -> Result<u32, TakeFault> {
        cursor.number()
    }

    #[inline(always)]
    fn encode(&self, out: &mut Vec<u8>) -> Result<(), AllocError> {
        out.extend_from_slice(&self.to_le_bytes())?;
        Ok(())
    }
}

#[tactic(auto, unfolding(crate::specs::Numbers::number_reading, crate::specs::Numbers::number_encoding))]
impl Wire for u64 {
    ghost reading = { number_reading w64 };

    ghost encoding = { number_encoding w64 };

    ghost spares_memory = { λ _. ⊤ };

    fn decode(_alloc: Global, cursor: &mut Cursor<'_>) -> Result<u64, TakeFault> {
        cursor.long_number()
    }

    fn encode(&self, out: &mut Vec<u8>) -> Result<(), AllocError> {
        out.extend_from_slice(&self.to_le_bytes())?;
        Ok(())
    }
}

#[tactic(auto, using(crate::proofs::Again::cast_back), unfolding(crate::specs::Numbers::sbyte_reading, crate::specs::Numbers::sbyte_encoding))]
impl Wire for i8 {
    ghost reading = { sbyte_reading };

    ghost encoding = { sbyte_encoding };

    ghost spares_memory = { λ _. ⊤ };

    fn decode(_alloc: Global, cursor: &mut Cursor<'_>) -> Result<i8, TakeFault> {
        let byte = cursor.byte()?;
        Ok(byte.cast_signed())
    }

    fn encode(&self, out: &mut Vec<u8>) -> Result<(), AllocError> {
        self.cast_unsigned().encode(out)
    }
}

#[tactic(auto, using(crate::proofs::Again::cast_back), unfolding(crate::specs::Numbers::signed_reading, crate::specs::Numbers::signed_encoding))]
impl Wire for i16 {
    ghost reading = { signed_reading w16 };

    ghost encoding = { signed_encoding w16 };

    ghost spares_memory = { λ _. ⊤ };

    fn decode(alloc: Global, cursor: &mut Cursor<'_>) -> Result<i16, TakeFault> {
        let number = u16::decode(alloc, cursor)?;
        Ok(number.cast_signed())
    }

    fn encode(&self, out: &mut Vec<u8>) -> Result<(), AllocError> {
        self.cast_unsigned().encode(out)
    }
}

#[tactic(auto, using(crate::proofs::Again::cast_back), unfolding(crate::specs::Numbers::signed_reading, crate::specs::Numbers::signed_encoding))]
impl Wire for i32 {
    ghost reading = { signed_reading w32 };

    ghost encoding = { signed_encoding w32 };

    ghost spares_memory = { λ _. ⊤ };

    fn decode(alloc: Global, cursor: &mut Cursor<'_>) -> Result<i32, TakeFault> {
        let number = u32::decode(alloc, cursor)?;
        Ok(number.cast_signed())
    }

    fn encode(&self, out: &mut Vec<u8>) -> Result<(), AllocError> {
        self.cast_unsigned().encode(out)
    }
}

#[tactic(auto, using(crate::proofs::Again::cast_back), unfolding(crate::specs::Numbers::signed_reading, crate::specs::Numbers::signed_encoding))]
impl Wire for i64 {
    ghost reading = { signed_reading w64 };

    ghost encoding = { signed_encoding w64 };

    ghost spares_memory = { λ _. ⊤ };

    fn decode(alloc: Global, cursor: &mut Cursor<'_>) -> Result<i64, TakeFault> {
        let number = u64::decode(alloc, cursor)?;
        Ok(number.cast_signed())
    }

    #[inline(always)]
    fn encode(&self, out: &mut Vec<u8>) -> Result<(), AllocError> {
        self.cast_unsigned().encode(out)
    }
}

impl Wire for [u8; 4] {
    ghost reading = { octets_reading 4 };

    ghost encoding = { octets_encoding };

    ghost spares_memory = { λ _. ⊤ };

    fn decode(_alloc: Global, cursor: &mut Cursor<'_>) -> Result<[u8; 4], TakeFault> {
        cursor.four_octets()
    }

    fn encode(&self, out: &mut Vec<u8>) -> Result<(), AllocError> {
        // A copy is known to lie apart from `out`, so it is stored at once and not byte by byte.
        let octets = *self;
        out.extend_from_slice(&octets)
    }
}

impl Wire for [u8; 8] {
    ghost reading = { octets_reading 8 };

    ghost encoding = { octets_encoding };

    ghost spares_memory = { λ _. ⊤ };

    fn decode(_alloc: Global, cursor: &mut Cursor<'_>) -> Result<[u8; 8], TakeFault> {
        cursor.eight_octets()
    }

    fn encode(&self, out: &mut Vec<u8>) -> Result<(), AllocError> {
        // A copy is known to lie apart from `out`, so it is stored at once and not byte by byte.
        let octets = *self;
        out.extend_from_slice(&octets)
    }
}
