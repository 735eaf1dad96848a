//! Which values a Write stores, and why it refuses others.

ghost use Rattle.std.specs.Option.{option_copied};
ghost use Rattle.std.specs.Prelude.{◌≡◌, true, Some, IfOk, IfSome, IsOk};
ghost use Rattle.std.specs.Result.{result_map_both};
ghost use Rattle.ua_read_write.specs.Judging.{new_value, IsReady, IsPlainNew};
ghost use Rattle.ua_read_write.specs.Writing.{is_writable, has_elements, whole_judged, part_judged, content_judged, node_judged};
ghost use Rattle.ua_space.specs.Values.{variable_of, variable_takes};
ghost use Rattle.ua_space.specs.Variables.{shape_has_rank, takes};
ghost use Rattle.ua_types.specs.Plain.{IsPlainValue};

use crate::attributes::{Attribute, attribute_at};
use crate::index_range::{IndexRange, asked_range};
use std::alloc::{AllocError, Global};
use ua_service_messages::WriteValueView;
use ua_space::{Node, ValueRank, Variable};
use ua_types::{Copyable, Shape, Status, Variant};
use ua_views::VariantView;

/// What a variable is to hold, where it stands yet.
#[derive(Clone, Copy, Debug)]
pub(crate) enum NewValue<'a, 'b> {
    /// This value.
    Whole(&'a VariantView<'b>),
    /// This flat list, without its dimension.
    List(&'a VariantView<'b>),
    /// The list as it stands, with this flat list in the place of as many of its elements, from this one on.
    Part(&'a Variant, usize, &'a VariantView<'b>),
}

fn is_writable(variable: &Variable) -> bool
    ensures { result ≡ is_writable variable.now }
{
    variable.access / 2 % 2 == 1
}

// Whether it is one value, or a list without dimensions, as the rank says.
fn has_rank(shape: Shape, rank: ValueRank) -> bool
    ensures { result ≡ shape_has_rank rank shape }
{
    match shape {
        Shape::Scalar => rank == ValueRank::Scalar,
        Shape::List => rank == ValueRank::List,
        Shape::Null | Shape::Matrix => false,
    }
}

// Whether a variable may have this value, by its type and shape alone, as `Variable::takes` says it of a value that is there.
// It and what calls it are inlined into the loop over a request's list: a call for each element costs more than they do.
#[tactic(auto, unfolding(ua_space::specs::Variables::has_rank))]
#[inline(always)]
fn takes(variable: &Variable, value: &VariantView<'_>) -> bool
    ensures { result ≡ takes variable.now value.now }
{
    value.type_number() == variable.data_type && has_rank(value.shape(), variable.value_rank)
}

// Whether a list, of which only the length is asked, has all elements of a range.
fn has_elements(range: IndexRange, len: Option<usize>) -> bool
    ensures { result ≡ has_elements range len }
{
    match len {
        None => false,
        Some(len) => range.first as usize + range.count as usize <= len,
    }
}

// The value that a variable is to hold where no range is given.
#[tactic(auto, using(crate::proofs::Taking::takes_flattened))]
#[inline(always)]
fn whole_judged<'a, 'b>(
    variable: &'a Variable,
    value: &'a VariantView<'b>,
) -> Result<NewValue<'a, 'b>, Status>
    ensures judged { result_map_both new_value (λ code. code) result ≡ whole_judged variable.entry.now.value_rank variable.entry.now value.entry.now }
    ensures ready { IfOk result IsReady }
    ensures taken { IfOk result (λ new. takes variable.entry.now (new_value new) ≡ true) }
    ensures plain { IsPlainValue value.entry.now → IfOk result IsPlainNew }
{
    match variable.value_rank {
        ValueRank::Scalar => {
            if !takes(variable, value) {
                return Err(Status::BAD_TYPE_MISMATCH);
            }
            Ok(NewValue::Whole(value))
        }
        ValueRank::List => {
            if value.type_number() != variable.data_type {
                return Err(Status::BAD_TYPE_MISMATCH);
            }
            if value.flat_len().is_none() {
                return Err(Status::BAD_TYPE_MISMATCH);
            }
            Ok(NewValue::List(value))
        }
    }
}

// The list that a variable is to hold where some of its elements are written. It isn't inlined, so that what judges one value is
// short.
#[tactic(auto, using(crate::proofs::Taking::takes_with_part, crate::proofs::Taking::type_is_ready, crate::proofs::Taking::room_is_ready))]
#[inline(never)]
fn part_judged<'a, 'b>(
    range: IndexRange,
    variable: &'a Variable,
    value: &'a VariantView<'b>,
) -> Result<NewValue<'a, 'b>, Status>
    ensures judged { result_map_both new_value (λ code. code) result ≡ part_judged range variable.entry.now value.entry.now variable.entry.now.value.value }
    ensures ready { IfOk result IsReady }
    ensures taken { IfOk result (λ new. takes variable.entry.now (new_value new) ≡ true) }
    ensures plain { IsPlainValue value.entry.now → IfOk result IsPlainNew }
{
    let Some(whole) = &variable.value.value else {
        return Err(Status::BAD_INDEX_RANGE_NO_DATA);
    };
    if !has_elements(range, whole.list_len()) {
        return Err(Status::BAD_INDEX_RANGE_NO_DATA);
    }
    if value.type_number() != variable.data_type {
        return Err(Status::BAD_TYPE_MISMATCH);
    }
    let Some(len) = value.flat_len() else {
        return Err(Status::BAD_TYPE_MISMATCH);
    };
    if len != range.count {
        return Err(Status::BAD_INDEX_RANGE_INVALID);
    }
    Ok(NewValue::Part(whole, range.first as usize, value))
}

#[inline(always)]
fn content_judged<'a, 'b>(
    range: Option<IndexRange>,
    variable: &'a Variable,
    value: &'a VariantView<'b>,
) -> Result<NewValue<'a, 'b>, Status>
    ensures judged { result_map_both new_value (λ code. code) result ≡ content_judged range variable.entry.now value.entry.now }
    ensures ready { IfOk result IsReady }
    ensures taken { IfOk result (λ new. takes variable.entry.now (new_value new) ≡ true) }
    ensures plain { IsPlainValue value.entry.now → IfOk result IsPlainNew }
{
    match range {
        None => whole_judged(variable, value),
        Some(range) => part_judged(range, variable, value),
    }
}

/// What the variable is to hold where a value is accepted, or why it isn't. It is judged by the node that was looked up. Takes
/// no memory.
#[inline(always)]
pub(crate) fn judged<'a, 'b>(
    node: Option<&'a Node>,
    write: &'a WriteValueView<'b>,
) -> Result<NewValue<'a, 'b>, Status>
    ensures judged { result_map_both new_value (λ code. code) result ≡ node_judged write.entry.now (option_copied node.entry) }
    ensures ready { IfOk result IsReady }
    ensures taken { IfOk result (λ new. variable_takes (variable_of (option_copied node.entry)) (Some (new_value new)) ≡ true) }
    ensures plain { IfSome write.entry.now.value.value IsPlainValue → IfOk result IsPlainNew }
{
    let Some(node) = node else {
        return Err(Status::BAD_NODE_ID_UNKNOWN);
    };
    let Some(attribute) = attribute_at(node, write.attribute_id) else {
        return Err(Status::BAD_ATTRIBUTE_ID_INVALID);
    };
    let Attribute::Value(variable) = attribute else {
        return Err(Status::BAD_NOT_WRITABLE);
    };
    let range = asked_range(write.index_range.as_str())?;
    let Some(value) = &write.value.value else {
        return Err(Status::BAD_WRITE_NOT_SUPPORTED);
    };
    if !is_writable(variable) {
        return Err(Status::BAD_NOT_WRITABLE);
    }
    content_judged(range, variable, value)
}

// The value itself, where it is a list. The list as it stands is copied once.
#[tactic(auto, using(ua_types::proofs::Parting::type_flattened, crate::proofs::Taking::has_room))]
#[inline(never)]
fn list_made(alloc: Global, new: NewValue<'_, '_>) -> Result<Variant, AllocError>
    requires { IsReady new }
    ensures { IfOk result (λ value. value ≡ new_value new.entry) }
{
    match new {
        NewValue::Whole(value) => value.to_value(alloc),
        NewValue::List(value) => value.to_value(alloc)?.flattened(alloc),
        NewValue::Part(whole, first, value) => {
            let part = value.to_value(alloc)?.flattened(alloc)?;
            whole.copy(alloc)?.with_part(alloc, first, part)
        }
    }
}

/// The value itself. The list as it stands is copied once. A plain value takes no memory.
// It is inlined, and what makes a list isn't.
#[inline(always)]
pub(crate) fn made(alloc: Global, new: NewValue<'_, '_>) -> Result<Variant, AllocError>
    requires { IsReady new }
    ensures made { IfOk result (λ value. value ≡ new_value new.entry) }
    ensures plain { IsPlainNew new.entry → IsOk result }
{
    match new {
        NewValue::Whole(value) => value.to_value(alloc),
        _ => list_made(alloc, new),
    }
}
