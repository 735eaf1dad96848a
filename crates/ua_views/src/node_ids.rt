//! Ids of nodes.

ghost use Rattle.std.specs.Prelude.{◌≡◌, ◌≢◌, ◌<◌, Err, IfOk, IsOk};
ghost use Rattle.ua_binary.specs.declared.fault.TakeFault.TheVariants.{Memory};
ghost use Rattle.ua_binary.specs.ExpandedNodeIds.{expanded_node_id_reading};
ghost use Rattle.ua_binary.specs.NodeIds.{node_id_reading, after_form_reading};
ghost use Rattle.ua_binary.specs.Reading.{Reads};
ghost use Rattle.ua_types.specs.NodeIds.{numeric_id, is_null_id, IsPlain, IsPlainId};
ghost use Rattle.ua_views.specs.Identifiers.{identifier_of};

use crate::aligned::Aligned;
use crate::parts::{look_number_where_set, look_text_where_set};
use crate::texts::{ByteStringView, TextView};
use crate::view::{Readable, View};
use std::alloc::{AllocError, Global};
use std::marker::Model;
use ua_binary::{Cursor, TakeFault};
use ua_types::{ExpandedNodeId, Guid, Identifier, NodeId};

/// An [`Identifier`] in the bytes that it stands in.
#[derive(Debug)]
pub enum IdentifierView<'a> {
    Numeric(Aligned<u32>),
    String(TextView<'a>),
    Guid(Aligned<Guid>),
    Opaque(ByteStringView<'a>),
}

// Written out, so that a proof sees a drop as one call and not as its cases.
impl<'a> Drop for IdentifierView<'a> {
    fn drop(self) {
        match self {
            IdentifierView::Numeric(_) => {}
            IdentifierView::String(_) => {}
            IdentifierView::Guid(_) => {}
            IdentifierView::Opaque(_) => {}
        }
    }
}

impl<'a> IdentifierView<'a> {
    // An identifier that stands elsewhere.
    fn of(identifier: &'a Identifier) -> IdentifierView<'a>
        ensures { identifier_of result ≡ identifier.now }
    {
        match identifier {
            Identifier::Numeric(number) => IdentifierView::Numeric(Aligned::new(*number)),
            Identifier::String(text) => IdentifierView::String(TextView::of(text)),
            Identifier::Guid(guid) => IdentifierView::Guid(Aligned::new(*guid)),
            Identifier::Opaque(bytes) => IdentifierView::Opaque(ByteStringView::of(bytes)),
        }
    }

    /// A copy to keep. That of a number or a Guid takes no memory.
    pub fn to_value(&self, alloc: Global) -> Result<Identifier, AllocError>
        ensures copy { IfOk result (λ identifier. identifier ≡ identifier_of self.now) }
        ensures plain { IsPlain (identifier_of self.now) → IsOk result }
    {
        match self {
            IdentifierView::Numeric(number) => Ok(Identifier::Numeric(number.get())),
            IdentifierView::String(text) => Ok(Identifier::String(text.to_value(alloc)?)),
            IdentifierView::Guid(guid) => Ok(Identifier::Guid(guid.get())),
            IdentifierView::Opaque(bytes) => Ok(Identifier::Opaque(bytes.to_value(alloc)?)),
        }
    }
}

/// A [`NodeId`] in the bytes that it stands in.
#[derive(Debug, Drop)]
pub struct NodeIdView<'a> {
    /// The place of the namespace in the server's NamespaceArray.
    pub namespace: u16,
    pub identifier: IdentifierView<'a>,
}

impl<'a> Model for NodeIdView<'a> {
    ghost use Rattle.ua_types.specs.declared.node_id.NodeId.{NodeId};
    ghost use Rattle.ua_views.specs.Identifiers.{identifier_of};

    ghost Value = { NodeId };

    ghost view = { λ v. record { namespace = v.namespace; identifier = identifier_of v.identifier } };
}

impl<'a> NodeIdView<'a> {
    /// An id that stands elsewhere, for a caller that has one and not the bytes of one.
    pub fn of(id: &'a NodeId) -> NodeIdView<'a>
        ensures { result ≡ id.now }
    {
        NodeIdView {
            namespace: id.namespace,
            identifier: IdentifierView::of(&id.identifier),
        }
    }

    /// Whether it is the null id. No other id counts as null.
    pub fn is_null(&self) -> bool
        ensures { result ≡ is_null_id self.now }
    {
        match &self.identifier {
            IdentifierView::Numeric(number) => self.namespace == 0 && number.get() == 0,
            _ => false,
        }
    }

    /// A copy to keep. That of a number or a Guid takes no memory.
    pub fn to_value(&self, alloc: Global) -> Result<NodeId, AllocError>
        ensures copy { IfOk result (λ id. id ≡ self.now) }
        ensures plain { IsPlainId self.now → IsOk result }
    {
        Ok(NodeId {
            namespace: self.namespace,
            identifier: self.identifier.to_value(alloc)?,
        })
    }
}

// The id with this number in a namespace.
fn numeric<'a>(namespace: u16, number: u32) -> NodeIdView<'a>
    ensures { result ≡ numeric_id namespace number }
{
    NodeIdView {
        namespace,
        identifier: IdentifierView::Numeric(Aligned::new(number)),
    }
}

// Looks at what follows the first byte of an id that is no number.
#[tactic(auto, unfolding(ua_binary::specs::NodeIds::after_form_reading))]
#[inline(never)]
fn look_long_form<'a>(form: u8, cursor: &mut Cursor<'a>) -> Result<NodeIdView<'a>, TakeFault>
    requires { 2 < form }
    ensures reads { Reads result cursor.new (after_form_reading form cursor.old) }
    ensures no_memory { result ≢ Err Memory }
{
    match form {
        3 => {
            let namespace = cursor.short_number()?;
            let text = TextView::look(cursor)?;
            Ok(NodeIdView {
                namespace,
                identifier: IdentifierView::String(text),
            })
        }
        4 => {
            let namespace = cursor.short_number()?;
            let guid = cursor.guid()?;
            Ok(NodeIdView {
                namespace,
                identifier: IdentifierView::Guid(Aligned::new(guid)),
            })
        }
        5 => {
            let namespace = cursor.short_number()?;
            let bytes = ByteStringView::look(cursor)?;
            Ok(NodeIdView {
                namespace,
                identifier: IdentifierView::Opaque(bytes),
            })
        }
        _ => Err(TakeFault::Form),
    }
}

// Looks at what follows the first byte, which says the form. Most ids are numbers, so those are looked at inline.
#[tactic(auto, unfolding(ua_binary::specs::NodeIds::after_form_reading))]
#[inline(always)]
fn look_form<'a>(form: u8, cursor: &mut Cursor<'a>) -> Result<NodeIdView<'a>, TakeFault>
    ensures reads { Reads result cursor.new (after_form_reading form cursor.old) }
    ensures no_memory { result ≢ Err Memory }
{
    match form {
        0 => {
            let number = cursor.byte()?;
            Ok(numeric(0, number as u32))
        }
        1 => {
            let namespace = cursor.byte()?;
            let number = cursor.short_number()?;
            Ok(numeric(namespace as u16, number as u32))
        }
        2 => {
            let namespace = cursor.short_number()?;
            let number = cursor.number()?;
            Ok(numeric(namespace, number))
        }
        _ => look_long_form(form, cursor),
    }
}

impl<'a> Readable for NodeIdView<'a> {
    ghost reading = { node_id_reading };
}

#[tactic(auto, unfolding(ua_binary::specs::NodeIds::node_id_reading))]
impl<'a> View<'a> for NodeIdView<'a> {
    #[inline(always)]
    fn look(cursor: &mut Cursor<'a>) -> Result<NodeIdView<'a>, TakeFault> {
        let form = cursor.byte()?;
        look_form(form, cursor)
    }
}

/// An [`ExpandedNodeId`] in the bytes that it stands in.
#[derive(Debug, Drop)]
pub struct ExpandedNodeIdView<'a> {
    pub node_id: NodeIdView<'a>,
    /// The namespace by its URI, or null where the id's own namespace holds.
    pub namespace_uri: TextView<'a>,
    /// The server's place in the ServerArray. 0 is this server.
    pub server_index: u32,
}

impl<'a> Model for ExpandedNodeIdView<'a> {
    ghost use Rattle.ua_types.specs.declared.node_id.ExpandedNodeId.{ExpandedNodeId};

    ghost Value = { ExpandedNodeId };

    ghost view = { λ v. record { node_id = v.node_id; namespace_uri = v.namespace_uri; server_index = v.server_index } };
}

impl<'a> ExpandedNodeIdView<'a> {
    /// A copy to keep.
    pub fn to_value(&self, alloc: Global) -> Result<ExpandedNodeId, AllocError>
        ensures { IfOk result (λ id. id ≡ self.now) }
    {
        Ok(ExpandedNodeId {
            node_id: self.node_id.to_value(alloc)?,
            namespace_uri: self.namespace_uri.to_value(alloc)?,
            server_index: self.server_index,
        })
    }
}

impl<'a> Readable for ExpandedNodeIdView<'a> {
    ghost reading = { expanded_node_id_reading };
}

#[tactic(auto, unfolding(ua_binary::specs::ExpandedNodeIds::expanded_node_id_reading))]
impl<'a> View<'a> for ExpandedNodeIdView<'a> {
    fn look(cursor: &mut Cursor<'a>) -> Result<ExpandedNodeIdView<'a>, TakeFault> {
        let form = cursor.byte()?;
        Ok(ExpandedNodeIdView {
            node_id: look_form(form % 64, cursor)?,
            namespace_uri: look_text_where_set(form / 128, cursor)?,
            server_index: look_number_where_set(form / 64 % 2, cursor)?,
        })
    }
}
