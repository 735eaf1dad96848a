//! The types of the values that a text can say.

ghost use Rattle.std.specs.Prelude.{◌≡◌, ◌≤◌};
ghost use Rattle.ua_types.specs.ValueTypes.{type_number, number_type_named, value_type_named};

/// The types that a value in a node file or in a scenario may have, by the standard's names of them.
#[derive(Clone, Copy, Debug, PartialEq, Eq)]
pub enum ValueType {
    Boolean,
    SByte,
    Byte,
    Int16,
    UInt16,
    Int32,
    UInt32,
    Int64,
    UInt64,
    String,
    DateTime,
    Guid,
    ByteString,
    NodeId,
    StatusCode,
}

impl ValueType {
    /// Its number (IEC 62541-6, 5.1.2).
    pub fn number(self) -> u8
        ensures number { result ≡ type_number self }
        ensures lowest { 1 ≤ result }
        ensures highest { result ≤ 22 }
    {
        match self {
            ValueType::Boolean => 1,
            ValueType::SByte => 2,
            ValueType::Byte => 3,
            ValueType::Int16 => 4,
            ValueType::UInt16 => 5,
            ValueType::Int32 => 6,
            ValueType::UInt32 => 7,
            ValueType::Int64 => 8,
            ValueType::UInt64 => 9,
            ValueType::String => 12,
            ValueType::DateTime => 13,
            ValueType::Guid => 14,
            ValueType::ByteString => 15,
            ValueType::NodeId => 17,
            ValueType::StatusCode => 19,
        }
    }

    /// The type that a word names: its name in the standard (IEC 62541-6, 5.1.2).
    #[tactic(auto, unfolding(crate::specs::ValueTypes::value_type_named))]
    pub fn named(word: &str) -> Option<ValueType>
        ensures { result ≡ value_type_named word.now }
    {
        if word == "Boolean" {
            return Some(ValueType::Boolean);
        }
        if word == "String" {
            return Some(ValueType::String);
        }
        if word == "DateTime" {
            return Some(ValueType::DateTime);
        }
        if word == "Guid" {
            return Some(ValueType::Guid);
        }
        if word == "ByteString" {
            return Some(ValueType::ByteString);
        }
        if word == "NodeId" {
            return Some(ValueType::NodeId);
        }
        if word == "StatusCode" {
            return Some(ValueType::StatusCode);
        }
        number_type_named(word)
    }
}

// The type of numbers that a word names.
#[tactic(auto, unfolding(crate::specs::ValueTypes::number_type_named))]
fn number_type_named(word: &str) -> Option<ValueType>
    ensures { result ≡ number_type_named word.now }
{
    if word == "SByte" {
        return Some(ValueType::SByte);
    }
    if word == "Byte" {
        return Some(ValueType::Byte);
    }
    if word == "Int16" {
        return Some(ValueType::Int16);
    }
    if word == "UInt16" {
        return Some(ValueType::UInt16);
    }
    if word == "Int32" {
        return Some(ValueType::Int32);
    }
    if word == "UInt32" {
        return Some(ValueType::UInt32);
    }
    if word == "Int64" {
        return Some(ValueType::Int64);
    }
    if word == "UInt64" {
        return Some(ValueType::UInt64);
    }
    None
}
