//! Views over the binary encoding of OPC UA (IEC 62541-6, 5.2): values that are looked at in the bytes that came.
//!
//! [`ua_binary::Wire::take`] makes a value, and copies each text and list of it. A view ([`View::view`]) stands in
//! its place where a value is only looked at: its texts and byte strings are slices of the bytes, a list
//! ([`ArrayView`]) gives its elements one by one, and a Variant ([`VariantView`]) is read where a copy is made. No
//! view takes memory, and `to_value` makes a copy to keep. [`View::pass`] moves past a value, and keeps nothing of it.
//!
//! What a contract sees of a view is the value that `take` gives, by the one *reading* that both cite; so what is said
//! of a request says the same of its view. `specs/Views.antt` says how a list stands in bytes, `specs/Passing.antt` what is said of a
//! value that is passed.
//!
//! Nothing here knows messages. A structure's view stands beside those of its service, in the crates above.
//!
//! Read [`View`] first, then `node_ids` for a type with forms, and [`ArrayView`].
#![tactic(auto)]

mod aligned;
mod arrays;
mod comparing;
mod data_values;
mod node_ids;
mod parts;
mod passing;
mod scalars;
mod structures;
mod texts;
mod variants;
mod view;

pub use aligned::Aligned;
pub use arrays::ArrayView;
pub use comparing::compare;
pub use data_values::DataValueView;
pub use node_ids::{ExpandedNodeIdView, IdentifierView, NodeIdView};
pub use scalars::look_enumeration;
pub use structures::{
    ExtensionObjectBodyView, ExtensionObjectView, LocalizedTextView, QualifiedNameView,
};
pub use texts::{ByteStringView, TextView};
pub use variants::VariantView;
pub use view::{Readable, View};
