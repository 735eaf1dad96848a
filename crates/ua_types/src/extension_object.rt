//! Structures of any type.

use crate::byte_string::ByteString;
use crate::copyable::Copyable;
use crate::node_id::NodeId;
use std::alloc::{AllocError, Global};

/// What a structure of any type holds.
#[derive(Debug, PartialEq, Eq, PartialOrd, Ord)]
pub enum ExtensionObjectBody {
    /// No body is there.
    Absent,
    /// The structure in the binary encoding.
    Binary(ByteString),
    /// The structure as an XML element, whose bytes nobody checks.
    Xml(ByteString),
}

// Written out, so that a proof sees a drop as one call and not as its cases.
impl Drop for ExtensionObjectBody {
    fn drop(self) {
        match self {
            ExtensionObjectBody::Absent => {}
            ExtensionObjectBody::Binary(_) => {}
            ExtensionObjectBody::Xml(_) => {}
        }
    }
}

impl Copyable for ExtensionObjectBody {
    fn copy(&self, alloc: Global) -> Result<ExtensionObjectBody, AllocError> {
        match self {
            ExtensionObjectBody::Absent => Ok(ExtensionObjectBody::Absent),
            ExtensionObjectBody::Binary(bytes) => {
                Ok(ExtensionObjectBody::Binary(bytes.copy(alloc)?))
            }
            ExtensionObjectBody::Xml(bytes) => Ok(ExtensionObjectBody::Xml(bytes.copy(alloc)?)),
        }
    }
}

/// A structure of any type (ExtensionObject, IEC 62541-6, 5.2.2.15).
#[derive(Debug, Drop, PartialEq, Eq, PartialOrd, Ord)]
pub struct ExtensionObject {
    /// The id of the encoding, which tells the structure's type.
    pub type_id: NodeId,
    pub body: ExtensionObjectBody,
}

impl Copyable for ExtensionObject {
    fn copy(&self, alloc: Global) -> Result<ExtensionObject, AllocError> {
        Ok(ExtensionObject {
            type_id: self.type_id.copy(alloc)?,
            body: self.body.copy(alloc)?,
        })
    }
}
