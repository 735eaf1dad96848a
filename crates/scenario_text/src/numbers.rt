//! Numbers, moments, truth values and ids.

ghost use Rattle.std.specs.Prelude.{◌≡◌, ◌^◌, ◌<◌, ◌≤◌, ◌≤ℤ◌, pos, neg_ℤ, IfSome, IfOk};
ghost use Rattle.ua_types.specs.Answers.{Gives};
ghost use Rattle.scenario_text.specs.Readings.{Finds};
ghost use Rattle.scenario_text.specs.declared.fault.Cause.TheVariants.{Memory};
ghost use Rattle.scenario_text.specs.Numbers.{signed_of, truth_of, named_id, unsigned_reading, signed_reading, byte_reading, number_reading, long_number_reading, signed_number_reading, moment_reading, truth_reading, id_reading};

use crate::fault::Cause;
use crate::phrases::Phrase;
use crate::words::Words;
use std::alloc::Global;
use ua_types::{IdFault, Moment, NodeId, behind, decimal_up_to};

/// Decimal digits of a number up to the highest, or a minus sign and digits up to the lowest.
#[tactic(auto, unfolding(crate::specs::Numbers::signed_of))]
pub(crate) fn signed(lowest: u64, highest: u64, text: &str) -> Option<i64>
    requires lowest { lowest ≤ 2 ^ 63 }
    requires highest { highest < 2 ^ 63 }
    ensures value { result ≡ signed_of lowest highest text.now }
    ensures low { IfSome result (λ z. neg_ℤ (pos lowest) ≤ℤ z) }
    ensures high { IfSome result (λ z. z ≤ℤ pos highest) }
{
    match behind(text, "-") {
        Some(digits) => match decimal_up_to(lowest, digits) {
            Some(number) => Some((-(number as i128)) as i64),
            None => None,
        },
        None => match decimal_up_to(highest, text) {
            Some(number) => Some(number as i64),
            None => None,
        },
    }
}

/// A truth value by its word.
pub(crate) fn truth(text: &str) -> Option<bool>
    ensures { result ≡ truth_of text.now }
{
    if text == "true" {
        return Some(true);
    }
    if text == "false" {
        return Some(false);
    }
    None
}

/// The id that a text says, or the cause where it says none.
pub(crate) fn named_id(alloc: Global, cause: Cause, text: &str) -> Result<NodeId, Cause>
    ensures { Gives Memory result (named_id cause text.now) }
{
    match NodeId::parse(alloc, text) {
        Ok(id) => Ok(id),
        Err(IdFault::Memory) => Err(Cause::Memory),
        Err(_) => Err(cause),
    }
}

#[tactic(auto, unfolding(crate::specs::Numbers::unsigned_reading))]
fn unsigned(words: &mut Words<'_>, highest: u64) -> Result<u64, Cause>
    ensures read { Finds result words.new (unsigned_reading highest words.old) }
    ensures fits { IfOk result (λ n. n ≤ highest) }
{
    match decimal_up_to(highest, words.word()?) {
        Some(number) => Ok(number),
        None => Err(Cause::Number),
    }
}

#[tactic(auto, unfolding(crate::specs::Numbers::signed_reading))]
fn signed_within(words: &mut Words<'_>, lowest: u64, highest: u64) -> Result<i64, Cause>
    requires lowest { lowest ≤ 2 ^ 63 }
    requires highest { highest < 2 ^ 63 }
    ensures read { Finds result words.new (signed_reading lowest highest words.old) }
    ensures low { IfOk result (λ z. neg_ℤ (pos lowest) ≤ℤ z) }
    ensures high { IfOk result (λ z. z ≤ℤ pos highest) }
{
    match signed(lowest, highest, words.word()?) {
        Some(number) => Ok(number),
        None => Err(Cause::Number),
    }
}

impl Phrase for u8 {
    ghost reading = { byte_reading };

    #[tactic(auto, unfolding(crate::specs::Numbers::byte_reading))]
    fn read(_alloc: Global, words: &mut Words<'_>) -> Result<u8, Cause> {
        Ok(unsigned(words, 255)? as u8)
    }
}

impl Phrase for u32 {
    ghost reading = { number_reading };

    #[tactic(auto, unfolding(crate::specs::Numbers::number_reading))]
    fn read(_alloc: Global, words: &mut Words<'_>) -> Result<u32, Cause> {
        Ok(unsigned(words, 0xffff_ffff)? as u32)
    }
}

/// A UInt64. Takes no memory.
#[tactic(auto, unfolding(crate::specs::Numbers::long_number_reading))]
pub(crate) fn long_number(words: &mut Words<'_>) -> Result<u64, Cause>
    ensures { Finds result words.new (long_number_reading words.old) }
{
    unsigned(words, u64::MAX)
}

impl Phrase for u64 {
    ghost reading = { long_number_reading };

    fn read(_alloc: Global, words: &mut Words<'_>) -> Result<u64, Cause> {
        long_number(words)
    }
}

impl Phrase for i32 {
    ghost reading = { signed_number_reading };

    #[tactic(auto, unfolding(crate::specs::Numbers::signed_number_reading))]
    fn read(_alloc: Global, words: &mut Words<'_>) -> Result<i32, Cause> {
        Ok(signed_within(words, 0x8000_0000, 0x7fff_ffff)? as i32)
    }
}

/// A moment in steps of 100 ns. Takes no memory.
#[tactic(auto, unfolding(crate::specs::Numbers::moment_reading))]
pub(crate) fn moment(words: &mut Words<'_>) -> Result<Moment, Cause>
    ensures { Finds result words.new (moment_reading words.old) }
{
    Ok(Moment(signed_within(words, 1 << 63, (1 << 63) - 1)?))
}

impl Phrase for Moment {
    ghost reading = { moment_reading };

    fn read(_alloc: Global, words: &mut Words<'_>) -> Result<Moment, Cause> {
        moment(words)
    }
}

impl Phrase for bool {
    ghost reading = { truth_reading };

    #[tactic(auto, unfolding(crate::specs::Numbers::truth_reading))]
    fn read(_alloc: Global, words: &mut Words<'_>) -> Result<bool, Cause> {
        match truth(words.word()?) {
            Some(value) => Ok(value),
            None => Err(Cause::Word),
        }
    }
}

impl Phrase for NodeId {
    ghost reading = { id_reading };

    #[tactic(auto, unfolding(crate::specs::Numbers::id_reading))]
    fn read(alloc: Global, words: &mut Words<'_>) -> Result<NodeId, Cause> {
        named_id(alloc, Cause::Id, words.word()?)
    }
}
