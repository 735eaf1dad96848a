//! Moving past values of any type.

ghost use Rattle.std.specs.Prelude.{◌≡◌, ◌≢◌, ◌≤◌, Err, length, option_map};
ghost use Rattle.std.specs.Int.{w32};
ghost use Rattle.ua_types.specs.Matrices.{is_shape};
ghost use Rattle.ua_types.specs.Parts.{flat_len_in, flat_len};
ghost use Rattle.ua_binary.specs.declared.fault.TakeFault.TheVariants.{Memory};
ghost use Rattle.ua_binary.specs.Numbers.{number_reading};
ghost use Rattle.ua_binary.specs.Arrays.{array_reading, elements_reading};
ghost use Rattle.ua_types.specs.Matrices.{or_none};
ghost use Rattle.ua_binary.specs.Variants.{content_reading, typed_reading, variant_reading};
ghost use Rattle.ua_views.specs.Passing.{Tells};
ghost use Rattle.ua_views.specs.Shapes.{with_dimension as with_dimension_spec, rank_where_shaped};

use crate::arrays::ArrayView;
use crate::node_ids::{ExpandedNodeIdView, NodeIdView};
use crate::structures::{ExtensionObjectView, LocalizedTextView, QualifiedNameView};
use crate::texts::{ByteStringView, TextView};
use crate::view::View;
use ua_binary::{Cursor, TakeFault};
use ua_types::{Double, Float, Guid, Moment, Status};

// The size with one dimension more: None once a dimension is negative, as an Int32.
fn with_dimension(size: Option<u64>, dimension: u32) -> Option<u64>
    ensures { result ≡ with_dimension_spec size dimension }
{
    let Some(size) = size else {
        return None;
    };
    if dimension >= 1 << 31 {
        return None;
    }
    Some(size.saturating_mul(dimension as u64))
}

// Moves past so many dimensions, and tells whether so many elements lie in them, as `ua_types::has_shape` tells of a
// slice.
fn pass_shape(rank: u32, count: u32, cursor: &mut Cursor<'_>) -> Result<bool, TakeFault>
    ensures tells { Tells (λ dimensions. is_shape dimensions count) result cursor.new (elements_reading (number_reading w32) rank cursor.old) }
    ensures no_memory { result ≢ Err Memory }
{
    let mut size = Some(1);
    for _ in 0..rank {
        let dimension = cursor.number()?;
        size = with_dimension(size, dimension);
    }
    match size {
        Some(size) => Ok(size == count as u64),
        None => Ok(false),
    }
}

// Moves past a list of dimensions, and tells how many they are: None where so many elements don't lie in them. A null list
// is as an empty one.
#[tactic(auto, using(crate::proofs::Flat::ranked), unfolding(ua_binary::specs::Arrays::array_reading))]
fn pass_dimensions(count: u32, cursor: &mut Cursor<'_>) -> Result<Option<u32>, TakeFault>
    ensures tells { Tells (λ dimensions. rank_where_shaped (or_none dimensions) count) result cursor.new (array_reading (number_reading w32) cursor.old) }
    ensures no_memory { result ≢ Err Memory }
{
    let rank = cursor.number()?;
    if rank >= 1 << 31 {
        return Ok(if count == 1 { Some(0) } else { None });
    }
    if cursor.rest().len() < rank as usize {
        return Err(TakeFault::Length);
    }
    if pass_shape(rank, count, cursor)? {
        Ok(Some(rank))
    } else {
        Ok(None)
    }
}

// Moves past a list, and tells how many elements it has: None where it is null.
#[tactic(auto, using(crate::proofs::Flat::list_counted))]
#[inline(never)]
fn pass_list<'a, T: View<'a>>(cursor: &mut Cursor<'a>) -> Result<Option<u32>, TakeFault>
    ensures tells { Tells (option_map length) result cursor.new (array_reading T.reading cursor.old) }
    ensures no_memory { result ≢ Err Memory }
{
    let list = ArrayView::<'a, T>::look(cursor)?;
    if list.is_null() {
        return Ok(None);
    }
    Ok(Some(list.len() as u32))
}

// What follows is moved past, and of a flat list it is told how many elements it has: of one that isn't null, and has at most
// one dimension. None is told of everything else. Lists, and values of no fixed size, are moved past by functions of
// their own, which aren't inlined, so that a number, which most values are, is passed by a short one.

// Moves past a list and its dimensions, in which it must lie.
#[tactic(auto, using(crate::proofs::Flat::of_few_dimensions, crate::proofs::Flat::of_more_dimensions), unfolding(ua_binary::specs::Variants::content_reading))]
#[inline(never)]
fn pass_matrix<'a, T: View<'a>>(cursor: &mut Cursor<'a>) -> Result<Option<u32>, TakeFault>
    ensures tells { Tells flat_len_in result cursor.new (content_reading T.reading 3 cursor.old) }
    ensures no_memory { result ≢ Err Memory }
{
    let Some(count) = pass_list::<T>(cursor)? else {
        pass_dimensions(0, cursor)?;
        return Err(TakeFault::Form);
    };
    match pass_dimensions(count, cursor)? {
        None => Err(TakeFault::Form),
        Some(rank) => Ok(if rank <= 1 { Some(count) } else { None }),
    }
}

// Moves past what follows these flags.
#[tactic(auto, using(crate::proofs::Flat::list_told), unfolding(ua_binary::specs::Variants::content_reading))]
#[inline(always)]
fn pass_content<'a, T: View<'a>>(
    flags: u8,
    cursor: &mut Cursor<'a>,
) -> Result<Option<u32>, TakeFault>
    ensures tells { Tells flat_len_in result cursor.new (content_reading T.reading flags cursor.old) }
    ensures no_memory { result ≢ Err Memory }
{
    match flags {
        0 => {
            T::pass(cursor)?;
            Ok(None)
        }
        2 => pass_list::<T>(cursor),
        3 => pass_matrix::<T>(cursor),
        _ => Err(TakeFault::Form),
    }
}

// Moves past what follows a first byte with the number of a Boolean or an integer of up to 32 bits.
#[tactic(auto, unfolding(ua_binary::specs::Variants::typed_reading))]
#[inline(always)]
fn pass_integer(number: u8, flags: u8, cursor: &mut Cursor<'_>) -> Result<Option<u32>, TakeFault>
    requires least { 1 ≤ number }
    requires most { number ≤ 7 }
    ensures tells { Tells flat_len result cursor.new (typed_reading number flags cursor.old) }
    ensures no_memory { result ≢ Err Memory }
{
    match number {
        1 => pass_content::<bool>(flags, cursor),
        2 => pass_content::<i8>(flags, cursor),
        3 => pass_content::<u8>(flags, cursor),
        4 => pass_content::<i16>(flags, cursor),
        5 => pass_content::<u16>(flags, cursor),
        6 => pass_content::<i32>(flags, cursor),
        _ => pass_content::<u32>(flags, cursor),
    }
}

// Moves past what follows a first byte with the number of a longer number.
#[tactic(auto, unfolding(ua_binary::specs::Variants::typed_reading))]
#[inline(always)]
fn pass_number(number: u8, flags: u8, cursor: &mut Cursor<'_>) -> Result<Option<u32>, TakeFault>
    requires least { 8 ≤ number }
    requires most { number ≤ 11 }
    ensures tells { Tells flat_len result cursor.new (typed_reading number flags cursor.old) }
    ensures no_memory { result ≢ Err Memory }
{
    match number {
        8 => pass_content::<i64>(flags, cursor),
        9 => pass_content::<u64>(flags, cursor),
        10 => pass_content::<Float>(flags, cursor),
        _ => pass_content::<Double>(flags, cursor),
    }
}

// Moves past what follows a first byte with the number of a text, a moment, a Guid or bytes.
#[tactic(auto, unfolding(ua_binary::specs::Variants::typed_reading))]
#[inline(never)]
fn pass_sized(number: u8, flags: u8, cursor: &mut Cursor<'_>) -> Result<Option<u32>, TakeFault>
    requires least { 12 ≤ number }
    requires most { number ≤ 16 }
    ensures tells { Tells flat_len result cursor.new (typed_reading number flags cursor.old) }
    ensures no_memory { result ≢ Err Memory }
{
    match number {
        12 => pass_content::<TextView<'_>>(flags, cursor),
        13 => pass_content::<Moment>(flags, cursor),
        14 => pass_content::<Guid>(flags, cursor),
        15 => pass_content::<ByteStringView<'_>>(flags, cursor),
        _ => pass_content::<ByteStringView<'_>>(flags, cursor),
    }
}

// Moves past what follows a first byte with the number of an id, a status, a name or a structure.
#[tactic(auto, unfolding(ua_binary::specs::Variants::typed_reading))]
#[inline(never)]
fn pass_named(number: u8, flags: u8, cursor: &mut Cursor<'_>) -> Result<Option<u32>, TakeFault>
    requires least { 17 ≤ number }
    requires most { number ≤ 22 }
    ensures tells { Tells flat_len result cursor.new (typed_reading number flags cursor.old) }
    ensures no_memory { result ≢ Err Memory }
{
    match number {
        17 => pass_content::<NodeIdView<'_>>(flags, cursor),
        18 => pass_content::<ExpandedNodeIdView<'_>>(flags, cursor),
        19 => pass_content::<Status>(flags, cursor),
        20 => pass_content::<QualifiedNameView<'_>>(flags, cursor),
        21 => pass_content::<LocalizedTextView<'_>>(flags, cursor),
        _ => pass_content::<ExtensionObjectView<'_>>(flags, cursor),
    }
}

// Moves past what follows a first byte with this number and these flags.
#[tactic(auto, unfolding(ua_binary::specs::Variants::typed_reading))]
#[inline(never)]
fn pass_typed(number: u8, flags: u8, cursor: &mut Cursor<'_>) -> Result<Option<u32>, TakeFault>
    ensures tells { Tells flat_len result cursor.new (typed_reading number flags cursor.old) }
    ensures no_memory { result ≢ Err Memory }
{
    match number {
        0 => {
            if flags == 0 {
                Ok(None)
            } else {
                Err(TakeFault::Form)
            }
        }
        1..=7 => pass_integer(number, flags, cursor),
        8..=11 => pass_number(number, flags, cursor),
        12..=16 => pass_sized(number, flags, cursor),
        17..=22 => pass_named(number, flags, cursor),
        _ => Err(TakeFault::Kind),
    }
}

/// Moves past a Variant, and tells how many elements it has where it is a flat list: one that isn't null, and has at most
/// one dimension. None of everything else.
///
/// At an `Err`, the first fault, the cursor stands where the fault is.
#[tactic(auto, unfolding(ua_binary::specs::Variants::variant_reading))]
#[inline(always)]
pub(crate) fn pass_variant(cursor: &mut Cursor<'_>) -> Result<Option<u32>, TakeFault>
    ensures tells { Tells flat_len result cursor.new (variant_reading cursor.old) }
    ensures no_memory { result ≢ Err Memory }
{
    let first = cursor.byte()?;
    let number = first % 64;
    let flags = first / 64;
    if flags == 0 {
        match number {
            1..=7 => return pass_integer(number, 0, cursor),
            8..=11 => return pass_number(number, 0, cursor),
            _ => {}
        }
    }
    pass_typed(number, flags, cursor)
}
