//! Ids of nodes.

ghost use Rattle.std.specs.Prelude.{◌≡◌, ◌==◌, ◌&&◌, Bool, None};
ghost use Rattle.ua_types.specs.NodeIds.{IsPlain, IsPlainId};

use crate::byte_string::ByteString;
use crate::copyable::Copyable;
use crate::guid::Guid;
use crate::text::Text;
use std::alloc::{AllocError, Global};

/// The part of an id that is unique within its namespace (IEC 62541-3, 8.2.4).
#[derive(Debug, PartialEq, Eq, PartialOrd, Ord)]
pub enum Identifier {
    Numeric(u32),
    String(Text),
    Guid(Guid),
    Opaque(ByteString),
}

// Written out, so that a proof sees a drop as one call and not as its cases.
impl Drop for Identifier {
    fn drop(self) {
        match self {
            Identifier::Numeric(_) => {}
            Identifier::String(_) => {}
            Identifier::Guid(_) => {}
            Identifier::Opaque(_) => {}
        }
    }
}

impl Copyable for Identifier {
    ghost is_plain = { IsPlain };

    fn copy(&self, alloc: Global) -> Result<Identifier, AllocError> {
        match self {
            Identifier::Numeric(number) => Ok(Identifier::Numeric(*number)),
            Identifier::String(text) => Ok(Identifier::String(text.copy(alloc)?)),
            Identifier::Guid(guid) => Ok(Identifier::Guid(*guid)),
            Identifier::Opaque(bytes) => Ok(Identifier::Opaque(bytes.copy(alloc)?)),
        }
    }
}

/// The id of a node (NodeId, IEC 62541-3, 8.2).
///
/// Ids go by namespace, then by the kind of identifier, then by its content.
#[derive(Debug, Drop, PartialEq, Eq, PartialOrd, Ord)]
pub struct NodeId {
    /// The place of the namespace in the server's NamespaceArray. 0 is that of OPC UA itself.
    pub namespace: u16,
    pub identifier: Identifier,
}

impl NodeId {
    ghost use Rattle.ua_types.specs.NodeIds.{numeric_id, is_null_id};

    /// The null id: the number 0 of namespace 0.
    pub const fn null() -> NodeId
        ensures { result ≡ numeric_id 0 0 }
    {
        NodeId::numeric(0, 0)
    }

    /// The id with this number in a namespace.
    pub const fn numeric(namespace: u16, number: u32) -> NodeId
        ensures { result ≡ numeric_id namespace number }
    {
        NodeId {
            namespace,
            identifier: Identifier::Numeric(number),
        }
    }

    /// Whether it is the null id. No other id counts as null.
    pub fn is_null(&self) -> bool
        ensures { result ≡ is_null_id self.now }
    {
        self.namespace == 0 && matches!(&self.identifier, Identifier::Numeric(0))
    }
}

impl Copyable for NodeId {
    ghost is_plain = { IsPlainId };

    fn copy(&self, alloc: Global) -> Result<NodeId, AllocError> {
        Ok(NodeId {
            namespace: self.namespace,
            identifier: self.identifier.copy(alloc)?,
        })
    }
}

/// The id of a node that may be of another server (ExpandedNodeId, IEC 62541-4).
#[derive(Debug, Drop, PartialEq, Eq, PartialOrd, Ord)]
pub struct ExpandedNodeId {
    pub node_id: NodeId,
    /// The namespace by its URI, or null where the id's own namespace holds.
    pub namespace_uri: Text,
    /// The server's place in the ServerArray. 0 is this server.
    pub server_index: u32,
}

impl Copyable for ExpandedNodeId {
    ghost is_plain = { λ id. IsPlainId id.node_id × (id.namespace_uri ≡ None) };

    fn copy(&self, alloc: Global) -> Result<ExpandedNodeId, AllocError> {
        Ok(ExpandedNodeId {
            node_id: self.node_id.copy(alloc)?,
            namespace_uri: self.namespace_uri.copy(alloc)?,
            server_index: self.server_index,
        })
    }
}
