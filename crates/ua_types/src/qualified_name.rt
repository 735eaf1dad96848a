//! Names in a namespace.

ghost use Rattle.std.specs.Prelude.{◌≡◌, None};

use crate::copyable::Copyable;
use crate::text::Text;
use std::alloc::{AllocError, Global};

/// A name in a namespace (QualifiedName, IEC 62541-3, 8.3).
#[derive(Debug, Drop, PartialEq, Eq, PartialOrd, Ord)]
pub struct QualifiedName {
    /// The place of the namespace in the server's NamespaceArray.
    pub namespace: u16,
    pub name: Text,
}

impl Copyable for QualifiedName {
    ghost is_plain = { λ name. name.name ≡ None };

    fn copy(&self, alloc: Global) -> Result<QualifiedName, AllocError> {
        Ok(QualifiedName {
            namespace: self.namespace,
            name: self.name.copy(alloc)?,
        })
    }
}
