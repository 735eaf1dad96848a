//! What a value is made of, whatever its type.

/// Whether there is one value, a list, or a list with dimensions (ValueRank, IEC 62541-3, section 5,
/// tells it of a variable).
#[derive(Clone, Copy, Debug, PartialEq, Eq, PartialOrd, Ord)]
pub enum Shape {
    /// No value.
    Null,
    /// One value.
    Scalar,
    /// A list without dimensions, which may be null.
    List,
    /// A list with dimensions, however many they are.
    Matrix,
}
