//! What a part of the file says at a key.

ghost use Rattle.std.specs.Prelude.{◌≡◌, ◌≤◌, ◌≤ℤ◌, ◌<◌, ◌^◌, length, IfOk, IfErr, IfSome, IsSome, option_map, if◌then◌else◌, Ok, Err, string_bytes};
ghost use Rattle.std.specs.List.{list_all, list_any};
ghost use Rattle.std.specs.Map.{keys_of};
ghost use Rattle.std.specs.Result.{result_map_both};
ghost use Rattle.std.specs.Str.{bytes_eq};
ghost use Rattle.toml.specs.Data.{get_member, as_bool};
ghost use Rattle.toml.specs.View.{items_view, table_view, view};
ghost use Rattle.ua_types.specs.Answers.{Gives};
ghost use Rattle.ua_types.specs.Configuration.{IsIn};
ghost use Rattle.node_loader.specs.declared.fault.Cause.TheVariants.{Memory};
ghost use Rattle.node_loader.specs.Keys.{of_kind, required_word, required_text, required_boolean, boolean_at, required_integer, required_number, unsigned_at, up_to, within, signed_at, signed_within, all_keys, word_at, text_at, integer_at, list_at, number_at, text_or};

use crate::fault::Cause;
use std::alloc::Global;
use toml::{Table, Value};
use ua_types::{NumberRange, Text};

/// The value at a key.
pub(crate) fn value_at<'a>(table: &'a Table, key: &str) -> Option<&'a Value>
    ensures { option_map (λ v. view v.now) result ≡ get_member key.now (table_view table.now) }
{
    table.get(key)
}

/// The characters at a key, however many, if the part has it.
pub(crate) fn word_at<'a>(table: &'a Table, key: &str) -> Result<Option<&'a str>, Cause>
    ensures { result_map_both (option_map (λ t. t.now)) (λ cause. cause) result ≡ word_at key.now (table_view table.now) }
{
    match value_at(table, key) {
        None => Ok(None),
        Some(value) => match value.as_str() {
            Some(text) => Ok(Some(text)),
            None => Err(Cause::WrongKind),
        },
    }
}

/// The text at a key, if the part has it: fewer than 2^31 bytes.
#[tactic(auto, unfolding(crate::specs::Keys::text_at))]
pub(crate) fn text_at<'a>(table: &'a Table, key: &str) -> Result<Option<&'a str>, Cause>
    ensures given { result_map_both (option_map (λ t. t.now)) (λ cause. cause) result ≡ text_at key.now (table_view table.now) }
    ensures short { IfOk result (λ t. IfSome t (λ s. length s.now < 2 ^ 31)) }
{
    match word_at(table, key)? {
        None => Ok(None),
        Some(text) => {
            if text.len() < 1 << 31 {
                Ok(Some(text))
            } else {
                Err(Cause::OutOfRange)
            }
        }
    }
}

/// The integer at a key, if the part has it.
pub(crate) fn integer_at(table: &Table, key: &str) -> Result<Option<i64>, Cause>
    ensures { result ≡ integer_at key.now (table_view table.now) }
{
    match value_at(table, key) {
        None => Ok(None),
        Some(value) => match value.as_integer() {
            Some(number) => Ok(Some(number)),
            None => Err(Cause::WrongKind),
        },
    }
}

/// The range from 0 to a number.
pub(crate) fn up_to(most: u64) -> NumberRange
    ensures { result ≡ up_to most }
{
    NumberRange { least: 0, most }
}

/// A number, where it lies within a range.
pub(crate) fn within(range: NumberRange, number: i64) -> Result<u64, Cause>
    ensures given { result ≡ within range number }
    ensures range { IfOk result (λ n. IsIn range n) }
{
    if number < 0 {
        return Err(Cause::OutOfRange);
    }
    let number = number as u64;
    if range.least <= number && number <= range.most {
        Ok(number)
    } else {
        Err(Cause::OutOfRange)
    }
}

/// The number at a key within its range, or the default.
#[tactic(auto, unfolding(crate::specs::Keys::number_at))]
pub(crate) fn number_at(
    table: &Table,
    key: &str,
    fallback: u64,
    range: NumberRange,
) -> Result<u64, Cause>
    ensures given { result ≡ number_at key.now fallback range (table_view table.now) }
    ensures range { IsIn range fallback → IfOk result (λ n. IsIn range n) }
{
    match integer_at(table, key)? {
        None => Ok(fallback),
        Some(number) => within(range, number),
    }
}

/// A copy of the text at a key, or of the default.
#[tactic(auto, unfolding(crate::specs::Keys::text_or))]
pub(crate) fn text_or(
    alloc: Global,
    table: &Table,
    key: &str,
    fallback: &str,
) -> Result<Text, Cause>
    requires { length fallback.now < 2 ^ 31 }
    ensures given { Gives Memory result (text_or key.now fallback.now (table_view table.now)) }
    ensures refused { IfErr (text_at key.now (table_view table.now)) (λ cause. result ≡ Err cause) }
    ensures there { IfOk result (λ t. IsSome t) }
{
    let text = text_at(table, key)?.unwrap_or(fallback);
    Ok(Text::from_str(alloc, text)?)
}

/// The key is one of these.
pub(crate) fn is_one_of(keys: &[&str], key: &str) -> bool
    ensures { result ≡ list_any (λ k. bytes_eq k.now key.now) keys.now }
{
    keys.iter().any(|known| *known == key)
}

// Each key of the part is one of these.
fn all_known(keys: &[&str], table: &Table) -> bool
    ensures { result ≡ list_all (λ key. list_any (λ k. bytes_eq k.now (string_bytes key)) keys.now) (keys_of table.now.entries) }
{
    table.keys().all(|key| is_one_of(keys, key.as_str()))
}

/// The part has no other keys than these.
#[tactic(auto, using(crate::proofs::Tables::all_keys_are))]
pub(crate) fn only(keys: &[&str], table: &Table) -> Result<(), Cause>
    ensures { result ≡ (if all_keys (λ key. list_any (λ k. bytes_eq k.now key) keys.now) (table_view table.now) then Ok tt else Err Cause.UnknownKey) }
{
    if all_known(keys, table) {
        Ok(())
    } else {
        Err(Cause::UnknownKey)
    }
}

/// The characters at a key that the part must have.
#[tactic(auto, unfolding(crate::specs::Keys::required_word))]
pub(crate) fn required_word<'a>(table: &'a Table, key: &str) -> Result<&'a str, Cause>
    ensures { result_map_both (λ t. t.now) (λ cause. cause) result ≡ required_word key.now (table_view table.now) }
{
    match word_at(table, key)? {
        Some(text) => Ok(text),
        None => Err(Cause::MissingKey),
    }
}

/// The text at a key that the part must have: fewer than 2^31 bytes.
#[tactic(auto, unfolding(crate::specs::Keys::required_text))]
pub(crate) fn required_text<'a>(table: &'a Table, key: &str) -> Result<&'a str, Cause>
    ensures given { result_map_both (λ t. t.now) (λ cause. cause) result ≡ required_text key.now (table_view table.now) }
    ensures short { IfOk result (λ t. length t.now < 2 ^ 31) }
{
    match text_at(table, key)? {
        Some(text) => Ok(text),
        None => Err(Cause::MissingKey),
    }
}

/// A copy of the text at a key, or null.
pub(crate) fn text_or_null(alloc: Global, table: &Table, key: &str) -> Result<Text, Cause>
    ensures given { Gives Memory result (text_at key.now (table_view table.now)) }
    ensures refused { IfErr (text_at key.now (table_view table.now)) (λ cause. result ≡ Err cause) }
{
    match text_at(table, key)? {
        Some(text) => Ok(Text::from_str(alloc, text)?),
        None => Ok(Text::null()),
    }
}

// The truth value at a key, if the part has it.
fn truth_at(table: &Table, key: &str) -> Result<Option<bool>, Cause>
    ensures { result ≡ of_kind as_bool (get_member key.now (table_view table.now)) }
{
    match value_at(table, key) {
        None => Ok(None),
        Some(value) => match value.as_bool() {
            Some(truth) => Ok(Some(truth)),
            None => Err(Cause::WrongKind),
        },
    }
}

/// The truth value at a key that the part must have.
#[tactic(auto, unfolding(crate::specs::Keys::required_boolean))]
pub(crate) fn required_boolean(table: &Table, key: &str) -> Result<bool, Cause>
    ensures { result ≡ required_boolean key.now (table_view table.now) }
{
    match truth_at(table, key)? {
        Some(truth) => Ok(truth),
        None => Err(Cause::MissingKey),
    }
}

/// The truth value at a key, or false.
#[tactic(auto, unfolding(crate::specs::Keys::boolean_at))]
pub(crate) fn boolean_at(table: &Table, key: &str) -> Result<bool, Cause>
    ensures { result ≡ boolean_at key.now (table_view table.now) }
{
    Ok(truth_at(table, key)?.unwrap_or(false))
}

/// The integer at a key that the part must have.
#[tactic(auto, unfolding(crate::specs::Keys::required_integer))]
pub(crate) fn required_integer(table: &Table, key: &str) -> Result<i64, Cause>
    ensures { result ≡ required_integer key.now (table_view table.now) }
{
    match integer_at(table, key)? {
        Some(number) => Ok(number),
        None => Err(Cause::MissingKey),
    }
}

/// The number at a key that the part must have, within its range.
#[tactic(auto, unfolding(crate::specs::Keys::required_number))]
pub(crate) fn required_number(table: &Table, key: &str, range: NumberRange) -> Result<u64, Cause>
    ensures given { result ≡ required_number key.now range (table_view table.now) }
    ensures range { IfOk result (λ n. IsIn range n) }
{
    let number = required_integer(table, key)?;
    within(range, number)
}

/// The number at a key that the part must have, up to the highest.
pub(crate) fn unsigned_at(table: &Table, key: &str, high: u64) -> Result<u64, Cause>
    ensures given { result ≡ unsigned_at key.now high (table_view table.now) }
    ensures range { IfOk result (λ n. n ≤ high) }
{
    required_number(table, key, up_to(high))
}

/// A number, where it lies within a range.
pub(crate) fn signed_within(low: i64, high: i64, number: i64) -> Result<i64, Cause>
    ensures given { result ≡ signed_within low high number }
    ensures range { IfOk result (λ n. (low ≤ℤ n) × (n ≤ℤ high)) }
{
    if low <= number && number <= high {
        Ok(number)
    } else {
        Err(Cause::OutOfRange)
    }
}

/// The integer at a key that the part must have, within its range.
#[tactic(auto, unfolding(crate::specs::Keys::signed_at))]
pub(crate) fn signed_at(table: &Table, key: &str, low: i64, high: i64) -> Result<i64, Cause>
    ensures given { result ≡ signed_at key.now low high (table_view table.now) }
    ensures range { IfOk result (λ n. (low ≤ℤ n) × (n ≤ℤ high)) }
{
    let number = required_integer(table, key)?;
    signed_within(low, high, number)
}

/// The entries of a list, none where the key is absent.
#[tactic(auto, unfolding(crate::specs::Keys::list_at))]
pub(crate) fn list_at<'a>(table: &'a Table, key: &str) -> Result<&'a [Value], Cause>
    ensures { result_map_both (λ vs. items_view vs.now) (λ cause. cause) result ≡ list_at key.now (table_view table.now) }
{
    let Some(value) = value_at(table, key) else {
        return Ok(&[]);
    };
    match value.as_array() {
        Some(values) => Ok(values.as_slice()),
        None => Err(Cause::WrongKind),
    }
}
