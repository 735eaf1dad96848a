//! A place in bytes.

ghost use Rattle.std.specs.Prelude.{◌≡◌, ◌≢◌, ◌<◌, ◌^◌, ℕ, List, length, option_map, IfOk, IfErr, OnErr, IfSome, Ok, Err};
ghost use Rattle.std.specs.Int.{w16, w32, w64};
ghost use Rattle.ua_binary.specs.declared.fault.TakeFault.TheVariants.{Short, Memory};
ghost use Rattle.ua_binary.specs.Numbers.{bytes_reading, byte_reading, number_reading, octets_reading};
ghost use Rattle.ua_binary.specs.Guids.{guid_reading};
ghost use Rattle.ua_binary.specs.Texts.{byte_string_reading, text_reading, IsBacked};

use crate::fault::TakeFault;
use std::marker::Model;
use ua_types::Guid;

/// A place in bytes. Contracts see it as the bytes from there on.
///
/// Numbers have their lowest byte first (IEC 62541-6, 5.2.2.2). No call takes memory, and at a fault the
/// cursor stands where it stood.
#[derive(Debug, Drop)]
pub struct Cursor<'a> {
    // The bytes from the place on.
    rest: &'a [u8],
}

impl<'a> Model for Cursor<'a> {
    ghost Value = { List ℕ };

    ghost view = { λ c. c.rest.now };
}

impl<'a> Cursor<'a> {
    /// The place at the front of these bytes.
    pub fn new(bytes: &'a [u8]) -> Cursor<'a>
        ensures { result ≡ bytes.now }
    {
        Cursor { rest: bytes }
    }

    /// The bytes that are left.
    pub fn rest(&self) -> &'a [u8]
        ensures { result.now ≡ self.now }
    {
        self.rest
    }

    /// Lends the next `n` bytes and moves past them.
    ///
    /// Where fewer are left the answer is [`TakeFault::Short`], and the cursor stands where it stood.
    pub fn lend(&mut self, n: usize) -> Result<&'a [u8], TakeFault>
        ensures ok { IfOk result (λ front. bytes_reading n self.old ≡ Ok (front.now, self.new)) }
        ensures err { IfErr result (λ e. bytes_reading n self.old ≡ Err e) }
        ensures len { IfOk result (λ front. length front.now ≡ n) }
        ensures stays { OnErr result (self.new ≡ self.old) }
        ensures fault { IfErr result (λ e. e ≡ Short) }
    {
        if self.rest.len() < n {
            return Err(TakeFault::Short);
        }
        let (front, rest) = self.rest.split_at(n);
        self.rest = rest;
        Ok(front)
    }

    /// The next byte. The fault is [`TakeFault::Short`], and the cursor then stands where it stood.
    pub fn byte(&mut self) -> Result<u8, TakeFault>
        ensures ok { IfOk result (λ byte. byte_reading self.old ≡ Ok (byte, self.new)) }
        ensures err { IfErr result (λ e. byte_reading self.old ≡ Err e) }
        ensures stays { OnErr result (self.new ≡ self.old) }
        ensures fault { IfErr result (λ e. e ≡ Short) }
    {
        match self.rest {
            [] => Err(TakeFault::Short),
            [byte, rest @ ..] => {
                self.rest = rest;
                Ok(*byte)
            }
        }
    }

    /// The next two bytes as a number (UInt16). The fault is [`TakeFault::Short`], and the cursor then
    /// stands where it stood.
    #[tactic(auto, unfolding(crate::specs::Numbers::number_reading))]
    pub fn short_number(&mut self) -> Result<u16, TakeFault>
        ensures ok { IfOk result (λ n. number_reading w16 self.old ≡ Ok (n, self.new)) }
        ensures err { IfErr result (λ e. number_reading w16 self.old ≡ Err e) }
        ensures stays { OnErr result (self.new ≡ self.old) }
        ensures fault { IfErr result (λ e. e ≡ Short) }
    {
        let b = self.lend(2)?;
        Ok(u16::from_le_bytes([b[0], b[1]]))
    }

    /// The next four bytes as a number (UInt32). The fault is [`TakeFault::Short`], and the cursor then
    /// stands where it stood.
    #[tactic(auto, unfolding(crate::specs::Numbers::number_reading))]
    pub fn number(&mut self) -> Result<u32, TakeFault>
        ensures ok { IfOk result (λ n. number_reading w32 self.old ≡ Ok (n, self.new)) }
        ensures err { IfErr result (λ e. number_reading w32 self.old ≡ Err e) }
        ensures stays { OnErr result (self.new ≡ self.old) }
        ensures fault { IfErr result (λ e. e ≡ Short) }
    {
        let b = self.lend(4)?;
        Ok(u32::from_le_bytes([b[0], b[1], b[2], b[3]]))
    }

    /// The next eight bytes as a number (UInt64). The fault is [`TakeFault::Short`], and the cursor then
    /// stands where it stood.
    #[tactic(auto, unfolding(crate::specs::Numbers::number_reading))]
    pub fn long_number(&mut self) -> Result<u64, TakeFault>
        ensures ok { IfOk result (λ n. number_reading w64 self.old ≡ Ok (n, self.new)) }
        ensures err { IfErr result (λ e. number_reading w64 self.old ≡ Err e) }
        ensures stays { OnErr result (self.new ≡ self.old) }
        ensures fault { IfErr result (λ e. e ≡ Short) }
    {
        let b = self.lend(8)?;
        Ok(u64::from_le_bytes([b[0], b[1], b[2], b[3], b[4], b[5], b[6], b[7]]))
    }

    /// The next four bytes, as they stand. The fault is [`TakeFault::Short`], and the cursor then stands
    /// where it stood.
    #[tactic(auto, unfolding(crate::specs::Numbers::octets_reading))]
    pub fn four_octets(&mut self) -> Result<[u8; 4], TakeFault>
        ensures ok { IfOk result (λ octets. octets_reading 4 self.old ≡ Ok (octets, self.new)) }
        ensures err { IfErr result (λ e. octets_reading 4 self.old ≡ Err e) }
        ensures stays { OnErr result (self.new ≡ self.old) }
        ensures fault { IfErr result (λ e. e ≡ Short) }
    {
        let b = self.lend(4)?;
        Ok([b[0], b[1], b[2], b[3]])
    }

    /// The next eight bytes, as they stand. The fault is [`TakeFault::Short`], and the cursor then stands
    /// where it stood.
    #[tactic(auto, unfolding(crate::specs::Numbers::octets_reading))]
    pub fn eight_octets(&mut self) -> Result<[u8; 8], TakeFault>
        ensures ok { IfOk result (λ octets. octets_reading 8 self.old ≡ Ok (octets, self.new)) }
        ensures err { IfErr result (λ e. octets_reading 8 self.old ≡ Err e) }
        ensures stays { OnErr result (self.new ≡ self.old) }
        ensures fault { IfErr result (λ e. e ≡ Short) }
    {
        let b = self.lend(8)?;
        Ok([b[0], b[1], b[2], b[3], b[4], b[5], b[6], b[7]])
    }

    /// The Guid that stands here. The fault is [`TakeFault::Short`], and the cursor then stands where it
    /// stood.
    #[tactic(auto, unfolding(crate::specs::Guids::guid_reading))]
    pub fn guid(&mut self) -> Result<Guid, TakeFault>
        ensures ok { IfOk result (λ guid. guid_reading self.old ≡ Ok (guid, self.new)) }
        ensures err { IfErr result (λ e. guid_reading self.old ≡ Err e) }
        ensures stays { OnErr result (self.new ≡ self.old) }
        ensures fault { IfErr result (λ e. e ≡ Short) }
    {
        let mut at = Cursor::new(self.rest);
        let guid = Guid {
            data1: at.number()?,
            data2: at.short_number()?,
            data3: at.short_number()?,
            data4: at.eight_octets()?,
        };
        *self = at;
        Ok(guid)
    }

    /// The bytes of the byte string that stands here, or None where it is null.
    ///
    /// The fault is [`TakeFault::Short`], also for a length above the number of bytes left, and the
    /// cursor then stands where it stood.
    #[tactic(auto, unfolding(crate::specs::Texts::byte_string_reading))]
    pub fn byte_string(&mut self) -> Result<Option<&'a [u8]>, TakeFault>
        ensures ok { IfOk result (λ bytes. byte_string_reading self.old ≡ Ok (option_map (λ b. b.now) bytes, self.new)) }
        ensures err { IfErr result (λ e. byte_string_reading self.old ≡ Err e) }
        ensures stays { OnErr result (self.new ≡ self.old) }
        ensures fault { IfErr result (λ e. e ≡ Short) }
        ensures short { IfOk result (λ bytes. IfSome bytes (λ b. length b.now < 2 ^ 31)) }
        ensures backed { IfOk result (λ bytes. IfSome bytes (λ _. IsBacked self.old)) }
    {
        let mut at = Cursor::new(self.rest);
        let len = at.number()?;
        let bytes = if len < 1 << 31 {
            Some(at.lend(len as usize)?)
        } else {
            None
        };
        *self = at;
        Ok(bytes)
    }

    /// The characters of the text that stands here, or None where it is null.
    ///
    /// The fault is [`TakeFault::Short`], or [`TakeFault::Utf8`] where the bytes aren't UTF-8, and the
    /// cursor then stands where it stood.
    #[tactic(auto, using(crate::proofs::Utf8Tests::not_utf8, crate::proofs::Utf8Tests::is_text), unfolding(crate::specs::Texts::text_reading))]
    pub fn text(&mut self) -> Result<Option<&'a str>, TakeFault>
        ensures ok { IfOk result (λ text. text_reading self.old ≡ Ok (option_map (λ t. t.now) text, self.new)) }
        ensures err { IfErr result (λ e. text_reading self.old ≡ Err e) }
        ensures stays { OnErr result (self.new ≡ self.old) }
        ensures no_memory { IfErr result (λ e. e ≢ Memory) }
        ensures short { IfOk result (λ text. IfSome text (λ t. length t.now < 2 ^ 31)) }
        ensures backed { IfOk result (λ text. IfSome text (λ _. IsBacked self.old)) }
    {
        let mut at = Cursor::new(self.rest);
        let text = match at.byte_string()? {
            None => None,
            Some(bytes) => match str::from_utf8(bytes) {
                Ok(text) => Some(text),
                Err(_) => return Err(TakeFault::Utf8),
            },
        };
        *self = at;
        Ok(text)
    }
}
