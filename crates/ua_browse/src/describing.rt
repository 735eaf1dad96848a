//! What is told of a reference.

ghost use Rattle.std.specs.Option.{option_copied};
ghost use Rattle.std.specs.Prelude.{◌≡◌};
ghost use Rattle.ua_types.specs.NodeIds.{numeric_id};
ghost use Rattle.ua_service_messages.specs.Browsing.{reference_description_reading, reference_description_encoding};
ghost use Rattle.ua_browse.specs.Describing.{type_told as type_told_spec, no_name, no_words, name_told as name_told_spec, words_told as words_told_spec, class_told as class_told_spec, definition_told as definition_told_spec, described};

use crate::asked::Asked;
use crate::wanted::has_bit;
use std::alloc::AllocError;
use std::marker::Model;
use ua_binary::Written;
use ua_service_messages::{BorrowedReferenceDescription, BrowseDescription};
use ua_space::{Direction, Node, Reference, Space, Triple};
use ua_types::{LocalizedText, NodeId, QualifiedName, Text};

/// A reference of a node that was browsed, to be written from where it stands in the space (ReferenceDescription,
/// IEC 62541-4, section 7). Contracts see what is told of it.
#[derive(Drop)]
pub struct Described<'a> {
    space: &'a Space,
    // Which fields are asked for.
    mask: u32,
    reference: Reference<'a>,
}

impl<'a> Model for Described<'a> {
    ghost use Rattle.ua_browse.specs.Describing.{described};
    ghost use Rattle.ua_service_messages.specs.declared.browsing.ReferenceDescription.{ReferenceDescription};

    ghost Value = { ReferenceDescription };

    ghost view = { λ d. described d.space.now d.mask d.reference };
}

impl<'a> Described<'a> {
    /// What is told of a reference of the space, as far as it is asked for.
    pub(crate) fn new(
        space: &'a Space,
        asked: &Asked<'_>,
        reference: Reference<'a>,
    ) -> Described<'a>
        ensures { result ≡ described space.entry.now asked.now.result_mask reference.entry }
    {
        Described {
            space,
            mask: asked.result_mask,
            reference,
        }
    }
}

// What stands for a field that isn't told.
#[derive(Debug, Drop)]
struct Untold {
    id: NodeId,
    name: QualifiedName,
    words: LocalizedText,
}

impl Untold {
    fn new() -> Untold
        ensures { result ≡ record { id = numeric_id 0 0; name = no_name; words = no_words } }
    {
        Untold {
            id: NodeId::null(),
            name: QualifiedName {
                namespace: 0,
                name: Text::null(),
            },
            words: LocalizedText {
                locale: Text::null(),
                text: Text::null(),
            },
        }
    }
}

fn type_told<'a>(mask: u32, triple: &'a Triple, untold: &'a NodeId) -> &'a NodeId
    requires { untold.now ≡ numeric_id 0 0 }
    ensures { result.now ≡ type_told_spec mask triple.now }
{
    if has_bit(mask, BrowseDescription::REFERENCE_TYPE) {
        &triple.reference_type
    } else {
        untold
    }
}

fn name_told<'a>(mask: u32, end: Option<&'a Node>, untold: &'a QualifiedName) -> &'a QualifiedName
    requires { untold.now ≡ no_name }
    ensures { result.now ≡ name_told_spec mask (option_copied end.entry) }
{
    match end {
        Some(node) if has_bit(mask, BrowseDescription::BROWSE_NAME) => &node.browse_name,
        _ => untold,
    }
}

fn words_told<'a>(mask: u32, end: Option<&'a Node>, untold: &'a LocalizedText) -> &'a LocalizedText
    requires { untold.now ≡ no_words }
    ensures { result.now ≡ words_told_spec mask (option_copied end.entry) }
{
    match end {
        Some(node) if has_bit(mask, BrowseDescription::DISPLAY_NAME) => &node.display_name,
        _ => untold,
    }
}

fn class_told(mask: u32, end: Option<&Node>) -> i32
    ensures { result ≡ class_told_spec mask (option_copied end.entry) }
{
    match end {
        Some(node) if has_bit(mask, BrowseDescription::NODE_CLASS) => node.class().number() as i32,
        _ => 0,
    }
}

fn definition_told<'a>(space: &'a Space, mask: u32, end: &NodeId, untold: &'a NodeId) -> &'a NodeId
    requires { untold.now ≡ numeric_id 0 0 }
    ensures { result.now ≡ definition_told_spec space.now.triples mask end.now }
{
    if !has_bit(mask, BrowseDescription::TYPE_DEFINITION) {
        return untold;
    }
    match space.type_definition(end) {
        None => untold,
        Some(definition) => definition,
    }
}

// What is told of a reference, as far as it is asked for.
fn told<'a>(
    space: &'a Space,
    mask: u32,
    reference: &Reference<'a>,
    untold: &'a Untold,
) -> BorrowedReferenceDescription<'a>
    requires { untold.now ≡ record { id = numeric_id 0 0; name = no_name; words = no_words } }
    ensures { result ≡ described space.now mask reference.now }
{
    let end = reference.end();
    let node = space.node(end);
    BorrowedReferenceDescription {
        reference_type_id: type_told(mask, reference.triple, &untold.id),
        is_forward: has_bit(mask, BrowseDescription::IS_FORWARD)
            && reference.direction == Direction::Forward,
        node_id: end,
        browse_name: name_told(mask, node, &untold.name),
        display_name: words_told(mask, node, &untold.words),
        node_class: class_told(mask, node),
        type_definition: definition_told(space, mask, end, &untold.id),
    }
}

impl Written for Described<'_> {
    ghost reading = { reference_description_reading };

    ghost encoding = { reference_description_encoding };

    fn write(&self, out: &mut Vec<u8>) -> Result<(), AllocError> {
        let untold = Untold::new();
        told(self.space, self.mask, &self.reference, &untold).write(out)
    }
}
