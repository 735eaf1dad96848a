//! Classes of nodes.

ghost use Rattle.std.specs.Prelude.{◌≡◌};
ghost use Rattle.ua_types.specs.NodeClasses.{class_number};

/// The classes of nodes that the server has (NodeClass, IEC 62541-3, section 8), with their numbers.
///
/// On the wire a class is an Int32 of which any value is read, and 0 where none is told. Each number is
/// a bit, so that a mask can hold many classes.
#[derive(Clone, Copy, Debug, PartialEq, Eq)]
pub enum NodeClass {
    Object = 1,
    Variable = 2,
    ObjectType = 8,
    VariableType = 16,
    ReferenceType = 32,
    DataType = 64,
}

impl NodeClass {
    /// Its number.
    pub const fn number(self) -> u8
        ensures { result ≡ class_number self }
    {
        self as u8
    }
}
