//! Names, texts for people, and structures of any type.

ghost use Rattle.std.specs.Prelude.{◌≡◌, ◌≢◌, Err, IfOk};
ghost use Rattle.ua_binary.specs.declared.fault.TakeFault.TheVariants.{Memory};
ghost use Rattle.ua_binary.specs.ExtensionObjects.{body_reading, extension_object_reading};
ghost use Rattle.ua_binary.specs.LocalizedTexts.{localized_text_reading};
ghost use Rattle.ua_binary.specs.QualifiedNames.{qualified_name_reading};
ghost use Rattle.ua_binary.specs.Reading.{ReadsAs};
ghost use Rattle.ua_views.specs.Bodies.{body_of};

use crate::node_ids::NodeIdView;
use crate::parts::look_text_where_set;
use crate::texts::{ByteStringView, TextView};
use crate::view::{Readable, View};
use std::alloc::{AllocError, Global};
use std::marker::Model;
use ua_binary::{Cursor, TakeFault};
use ua_types::{ExtensionObject, ExtensionObjectBody, LocalizedText, QualifiedName};

/// A [`QualifiedName`] in the bytes that it stands in.
#[derive(Debug, Drop)]
pub struct QualifiedNameView<'a> {
    /// The place of the namespace in the server's NamespaceArray.
    pub namespace: u16,
    pub name: TextView<'a>,
}

impl<'a> Model for QualifiedNameView<'a> {
    ghost use Rattle.ua_types.specs.declared.qualified_name.QualifiedName.{QualifiedName};

    ghost Value = { QualifiedName };

    ghost view = { λ v. record { namespace = v.namespace; name = v.name } };
}

impl<'a> QualifiedNameView<'a> {
    /// A copy to keep.
    pub fn to_value(&self, alloc: Global) -> Result<QualifiedName, AllocError>
        ensures { IfOk result (λ name. name ≡ self.now) }
    {
        Ok(QualifiedName {
            namespace: self.namespace,
            name: self.name.to_value(alloc)?,
        })
    }
}

impl<'a> Readable for QualifiedNameView<'a> {
    ghost reading = { qualified_name_reading };
}

#[tactic(auto, unfolding(ua_binary::specs::QualifiedNames::qualified_name_reading))]
impl<'a> View<'a> for QualifiedNameView<'a> {
    fn look(cursor: &mut Cursor<'a>) -> Result<QualifiedNameView<'a>, TakeFault> {
        Ok(QualifiedNameView {
            namespace: u16::look(cursor)?,
            name: TextView::look(cursor)?,
        })
    }
}

/// A [`LocalizedText`] in the bytes that it stands in.
#[derive(Debug, Drop)]
pub struct LocalizedTextView<'a> {
    /// The language, as `en-US`, or null.
    pub locale: TextView<'a>,
    pub text: TextView<'a>,
}

impl<'a> Model for LocalizedTextView<'a> {
    ghost use Rattle.ua_types.specs.declared.localized_text.LocalizedText.{LocalizedText};

    ghost Value = { LocalizedText };

    ghost view = { λ v. record { locale = v.locale; text = v.text } };
}

impl<'a> LocalizedTextView<'a> {
    /// A copy to keep.
    pub fn to_value(&self, alloc: Global) -> Result<LocalizedText, AllocError>
        ensures { IfOk result (λ words. words ≡ self.now) }
    {
        Ok(LocalizedText {
            locale: self.locale.to_value(alloc)?,
            text: self.text.to_value(alloc)?,
        })
    }
}

impl<'a> Readable for LocalizedTextView<'a> {
    ghost reading = { localized_text_reading };
}

#[tactic(auto, unfolding(ua_binary::specs::LocalizedTexts::localized_text_reading))]
impl<'a> View<'a> for LocalizedTextView<'a> {
    fn look(cursor: &mut Cursor<'a>) -> Result<LocalizedTextView<'a>, TakeFault> {
        let mask = cursor.byte()?;
        Ok(LocalizedTextView {
            locale: look_text_where_set(mask % 2, cursor)?,
            text: look_text_where_set(mask / 2 % 2, cursor)?,
        })
    }
}

/// What a structure of any type holds, in the bytes that it stands in.
#[derive(Debug)]
pub enum ExtensionObjectBodyView<'a> {
    /// No body is there.
    Absent,
    /// The structure in the binary encoding.
    Binary(ByteStringView<'a>),
    /// The structure as an XML element, whose bytes nobody checks.
    Xml(ByteStringView<'a>),
}

// Written out, so that a proof sees a drop as one call and not as its cases.
impl<'a> Drop for ExtensionObjectBodyView<'a> {
    fn drop(self) {
        match self {
            ExtensionObjectBodyView::Absent => {}
            ExtensionObjectBodyView::Binary(_) => {}
            ExtensionObjectBodyView::Xml(_) => {}
        }
    }
}

impl<'a> ExtensionObjectBodyView<'a> {
    /// A copy to keep.
    pub fn to_value(&self, alloc: Global) -> Result<ExtensionObjectBody, AllocError>
        ensures { IfOk result (λ body. body ≡ body_of self.now) }
    {
        match self {
            ExtensionObjectBodyView::Absent => Ok(ExtensionObjectBody::Absent),
            ExtensionObjectBodyView::Binary(bytes) => {
                Ok(ExtensionObjectBody::Binary(bytes.to_value(alloc)?))
            }
            ExtensionObjectBodyView::Xml(bytes) => {
                Ok(ExtensionObjectBody::Xml(bytes.to_value(alloc)?))
            }
        }
    }
}

/// An [`ExtensionObject`] in the bytes that it stands in.
#[derive(Debug, Drop)]
pub struct ExtensionObjectView<'a> {
    /// The id of the encoding, which tells the structure's type.
    pub type_id: NodeIdView<'a>,
    pub body: ExtensionObjectBodyView<'a>,
}

impl<'a> Model for ExtensionObjectView<'a> {
    ghost use Rattle.ua_types.specs.declared.extension_object.ExtensionObject.{ExtensionObject};
    ghost use Rattle.ua_views.specs.Bodies.{body_of};

    ghost Value = { ExtensionObject };

    ghost view = { λ v. record { type_id = v.type_id; body = body_of v.body } };
}

impl<'a> ExtensionObjectView<'a> {
    /// A copy to keep.
    pub fn to_value(&self, alloc: Global) -> Result<ExtensionObject, AllocError>
        ensures { IfOk result (λ object. object ≡ self.now) }
    {
        Ok(ExtensionObject {
            type_id: self.type_id.to_value(alloc)?,
            body: self.body.to_value(alloc)?,
        })
    }
}

// Looks at a body of this form.
fn look_body<'a>(
    form: u8,
    cursor: &mut Cursor<'a>,
) -> Result<ExtensionObjectBodyView<'a>, TakeFault>
    ensures reads { ReadsAs body_of result cursor.new (body_reading form cursor.old) }
    ensures no_memory { result ≢ Err Memory }
{
    match form {
        0 => Ok(ExtensionObjectBodyView::Absent),
        1 => Ok(ExtensionObjectBodyView::Binary(ByteStringView::look(cursor)?)),
        2 => Ok(ExtensionObjectBodyView::Xml(ByteStringView::look(cursor)?)),
        _ => Err(TakeFault::Form),
    }
}

impl<'a> Readable for ExtensionObjectView<'a> {
    ghost reading = { extension_object_reading };
}

#[tactic(auto, unfolding(ua_binary::specs::ExtensionObjects::extension_object_reading))]
impl<'a> View<'a> for ExtensionObjectView<'a> {
    // Inlined into the loop over a request's list: a call for each element costs more than it does.
    #[inline(always)]
    fn look(cursor: &mut Cursor<'a>) -> Result<ExtensionObjectView<'a>, TakeFault> {
        let type_id = NodeIdView::look(cursor)?;
        let form = cursor.byte()?;
        let body = look_body(form, cursor)?;
        Ok(ExtensionObjectView { type_id, body })
    }
}
