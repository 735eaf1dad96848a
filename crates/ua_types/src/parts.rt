//! Parts of lists.

ghost use Rattle.std.specs.Prelude.{◌≡◌};
ghost use Rattle.ua_types.specs.Parts.{list_len_in, list_len};

use crate::content::Content;
use crate::variant::Variant;

impl<T> Content<T> {
    // How many elements a list without dimensions has.
    fn list_len(&self) -> Option<usize>
        ensures { result ≡ list_len_in self.now }
    {
        match self {
            Content::Array(list) => match list.as_slice() {
                None => Some(0),
                Some(elements) => Some(elements.len()),
            },
            _ => None,
        }
    }
}

impl Variant {
    /// How many elements a list without dimensions has, 0 for a null one. None for no value, one value, and a list
    /// with dimensions.
    pub fn list_len(&self) -> Option<usize>
        ensures { result ≡ list_len self.now }
    {
        match self {
            Variant::Null => None,
            Variant::Boolean(content) => content.list_len(),
            Variant::SByte(content) => content.list_len(),
            Variant::Byte(content) => content.list_len(),
            Variant::Int16(content) => content.list_len(),
            Variant::UInt16(content) => content.list_len(),
            Variant::Int32(content) => content.list_len(),
            Variant::UInt32(content) => content.list_len(),
            Variant::Int64(content) => content.list_len(),
            Variant::UInt64(content) => content.list_len(),
            Variant::Float(content) => content.list_len(),
            Variant::Double(content) => content.list_len(),
            Variant::String(content) => content.list_len(),
            Variant::DateTime(content) => content.list_len(),
            Variant::Guid(content) => content.list_len(),
            Variant::ByteString(content) => content.list_len(),
            Variant::XmlElement(content) => content.list_len(),
            Variant::NodeId(content) => content.list_len(),
            Variant::ExpandedNodeId(content) => content.list_len(),
            Variant::StatusCode(content) => content.list_len(),
            Variant::QualifiedName(content) => content.list_len(),
            Variant::LocalizedText(content) => content.list_len(),
            Variant::ExtensionObject(content) => content.list_len(),
        }
    }
}
