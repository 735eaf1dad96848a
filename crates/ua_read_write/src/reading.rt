//! The service Read.

ghost use Rattle.std.specs.Option.{option_copied};
ghost use Rattle.std.specs.Prelude.{◌≡◌, ◌++◌, Some, None, option_map, IfErr, IfOk, IfSome, IsOk, OnOk};
ghost use Rattle.std.specs.Result.{result_map_both};
ghost use Rattle.ua_binary.specs.Arrays.{array_encoding};
ghost use Rattle.ua_binary.specs.DataValues.{data_value_encoding};
ghost use Rattle.ua_messages.specs.Bodies.{body_encoding};
ghost use Rattle.ua_messages.specs.declared.type_ids.TheConstants.{READ_RESPONSE};
ghost use Rattle.ua_messages.specs.ResultLists.{results_encoding, results_of};
ghost use Rattle.ua_read_write.specs.Attributes.{seen, IsWhole};
ghost use Rattle.ua_read_write.specs.Reading.{is_readable, readable, readable_of, refusal_in, attribute_read, ranged, told_of, read_of, all_read};
ghost use Rattle.ua_read_write.specs.declared.timestamps.Timestamps.TheVariants as timestamp_choices;
ghost use Rattle.ua_types.specs.Given.{is_given};
ghost use Rattle.ua_types.specs.Plain.{IsPlainValue};
ghost use Rattle.ua_views.specs.Views.{or_none};

use crate::answer::{Answer, copied, refused};
use crate::attributes::{Attribute, attribute_at};
use crate::index_range::{IndexRange, asked_range};
use crate::timestamps::Timestamps;
use collections::Near;
use std::alloc::{AllocError, Global};
use ua_messages::{DiagnosticInfos, MessageBody, ReadValueIdView, ResponseHeader, type_ids};
use ua_space::{Node, Space};
use ua_types::{DataValue, Moment, NodeId, Status};
use ua_views::ArrayView;

// Whether AccessLevel lets it be read, which speaks of the value alone.
fn is_readable(attribute: Attribute<'_>) -> bool
    ensures { result ≡ is_readable (seen attribute.entry) }
{
    match attribute {
        Attribute::Value(variable) | Attribute::Part(variable, _) => variable.access % 2 == 1,
        _ => true,
    }
}

// Whether an index range is neither null nor empty.
fn is_given(index_range: Option<&str>) -> bool
    ensures { result ≡ is_given (option_map (λ t. t.now) index_range.entry) }
{
    match index_range {
        None => false,
        Some(text) => !text.is_empty(),
    }
}

// A whole attribute of the node that was looked up, or why it can't be read, where no index range is served.
fn readable<'a>(
    node: Option<&'a Node>,
    number: u32,
    index_range: Option<&str>,
) -> Result<Attribute<'a>, Status>
    ensures { result_map_both seen (λ code. code) result ≡ readable_of number (option_map (λ t. t.now) index_range.entry) (option_copied node.entry) }
{
    let Some(node) = node else {
        return Err(Status::BAD_NODE_ID_UNKNOWN);
    };
    let Some(attribute) = attribute_at(node, number) else {
        return Err(Status::BAD_ATTRIBUTE_ID_INVALID);
    };
    if is_given(index_range) {
        return Err(Status::BAD_INDEX_RANGE_INVALID);
    }
    if !is_readable(attribute) {
        return Err(Status::BAD_NOT_READABLE);
    }
    Ok(attribute)
}

// These elements of an attribute, where it is a list that has the first of them.
fn part(attribute: Attribute<'_>, range: IndexRange) -> Result<Attribute<'_>, Status>
    ensures { IsWhole attribute.entry → result_map_both seen (λ code. code) result ≡ ranged (Some range) (seen attribute.entry) }
{
    let Attribute::Value(variable) = attribute else {
        return Err(Status::BAD_INDEX_RANGE_NO_DATA);
    };
    let Some(value) = &variable.value.value else {
        return Err(Status::BAD_INDEX_RANGE_NO_DATA);
    };
    let Some(len) = value.list_len() else {
        return Err(Status::BAD_INDEX_RANGE_NO_DATA);
    };
    if range.first as usize >= len {
        return Err(Status::BAD_INDEX_RANGE_NO_DATA);
    }
    Ok(Attribute::Part(variable, range))
}

// An attribute of the node that was looked up, or the part of it that is asked for, or why it isn't told.
fn told<'a>(
    node: Option<&'a Node>,
    number: u32,
    index_range: Option<&str>,
) -> Result<Attribute<'a>, Status>
    ensures { result_map_both seen (λ code. code) result ≡ told_of number (option_map (λ t. t.now) index_range.entry) (option_copied node.entry) }
{
    let Some(node) = node else {
        return Err(Status::BAD_NODE_ID_UNKNOWN);
    };
    let Some(attribute) = attribute_at(node, number) else {
        return Err(Status::BAD_ATTRIBUTE_ID_INVALID);
    };
    let range = asked_range(index_range)?;
    if !is_readable(attribute) {
        return Err(Status::BAD_NOT_READABLE);
    }
    match range {
        None => Ok(attribute),
        Some(range) => part(attribute, range),
    }
}

/// What the service Read answers to one of its requests at this clock (IEC 62541-4, "Read"). Takes no
/// memory. The node is looked for first near the last one ([`Space::find_near`]).
///
/// It refuses in this order: no node has the id, `BAD_NODE_ID_UNKNOWN`; the node's class doesn't have the
/// attribute, `BAD_ATTRIBUTE_ID_INVALID`; an index range is given that can't be read, `BAD_INDEX_RANGE_INVALID`; it is the
/// value, and AccessLevel doesn't let it be read, `BAD_NOT_READABLE`; an index range is given, and it isn't the value, the
/// value isn't a list, or the list ends before the range begins, `BAD_INDEX_RANGE_NO_DATA`.
#[tactic(auto, unfolding(crate::specs::Reading::told))]
pub fn read<'a>(
    space: &'a Space,
    near: &mut Near,
    clock: Moment,
    timestamps: Timestamps,
    request: &ReadValueIdView<'_>,
) -> Answer<'a>
    ensures { result ≡ read_of space.now.nodes clock timestamps request.now }
{
    let node = space.find_near(near, &request.node_id);
    let attribute = told(node, request.attribute_id, request.index_range.as_str());
    Answer::new(attribute, clock, timestamps)
}

/// Why [`sample`] refuses what a request names, or that it gives an index range, if it does: items watch whole attributes.
/// Takes no memory.
///
/// It refuses as [`read`] does, but that each index range that is given is `BAD_INDEX_RANGE_INVALID`.
#[tactic(auto, unfolding(crate::specs::Reading::readable))]
pub fn refusal(space: &Space, request: &ReadValueIdView<'_>) -> Option<Status>
    ensures { result ≡ refusal_in (readable space.now.nodes request.now.node_id request.now.attribute_id request.now.index_range) }
{
    let node = space.find(&request.node_id);
    match readable(node, request.attribute_id, request.index_range.as_str()) {
        Ok(_) => None,
        Err(status) => Some(status),
    }
}

/// What [`read`] answers for a whole attribute with both times, as a data value of its own. A refusal takes no
/// memory, nor does a value that holds no text, no bytes and no list.
#[tactic(auto, unfolding(crate::specs::Reading::readable))]
pub fn sample(
    alloc: Global,
    space: &Space,
    clock: Moment,
    node_id: &NodeId,
    attribute_id: u32,
) -> Result<DataValue, AllocError>
    ensures value { IfOk result (λ value. value ≡ attribute_read space.now.nodes clock timestamp_choices.Both node_id.now attribute_id None) }
    ensures refused { IfErr (readable space.now.nodes node_id.now attribute_id None) (λ code. IsOk result) }
    ensures plain { IfSome (attribute_read space.now.nodes clock timestamp_choices.Both node_id.now attribute_id None).value IsPlainValue → IsOk result }
{
    match readable(space.node(node_id), attribute_id, None) {
        Ok(attribute) => copied(alloc, attribute, clock, Timestamps::Both),
        Err(status) => Ok(refused(status)),
    }
}

// Writes the list of all answers.
#[tactic(auto, unfolding(ua_binary::specs::Arrays::array_encoding))]
fn write_answers<'a>(
    space: &Space,
    clock: Moment,
    timestamps: Timestamps,
    requests: ArrayView<'a, ReadValueIdView<'a>>,
    body: &mut MessageBody,
) -> Result<(), AllocError>
    ensures { OnOk result (body.new ≡ body.old ++ array_encoding data_value_encoding (Some (all_read space.now.nodes clock timestamps (or_none requests.entry)))) }
{
    body.write(&(requests.len() as u32))?;
    let mut near = Near::new();
    for request in requests {
        body.write(&read(space, &mut near, clock, timestamps, &request))?;
    }
    Ok(())
}

/// The whole body of the response to these requests, with this header: what [`read`] answers to each, in
/// their order. Each is looked at in the request's bytes, and its answer is written where it stands, by one look-up.
#[tactic(auto, using(ua_messages::proofs::ResultLemmas::results_joined), unfolding(ua_messages::specs::ResultLists::results_encoding))]
pub fn read_body<'a>(
    alloc: Global,
    space: &Space,
    clock: Moment,
    timestamps: Timestamps,
    response_header: &ResponseHeader,
    requests: ArrayView<'a, ReadValueIdView<'a>>,
) -> Result<MessageBody, AllocError>
    ensures { IfOk result (λ body. body ≡ body_encoding (results_encoding data_value_encoding) READ_RESPONSE
        (results_of response_header.now (all_read space.now.nodes clock timestamps (or_none requests.entry)))) }
{
    let mut body = MessageBody::new(alloc)?;
    body.write(&NodeId::numeric(0, type_ids::READ_RESPONSE))?;
    body.write(response_header)?;
    write_answers(space, clock, timestamps, requests, &mut body)?;
    body.write(&DiagnosticInfos)?;
    Ok(body)
}
