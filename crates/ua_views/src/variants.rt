//! Values of any type.

ghost use Rattle.std.specs.Prelude.{◌≡◌, ◌%◌, IfOk, IsOk};
ghost use Rattle.ua_binary.specs.Variants.{variant_reading};
ghost use Rattle.ua_types.specs.Parts.{flat_len};
ghost use Rattle.ua_types.specs.Plain.{IsPlainValue};
ghost use Rattle.ua_types.specs.Shapes.{shape_of};
ghost use Rattle.ua_types.specs.Variants.{type_number};
ghost use Rattle.ua_views.specs.VariantBytes.{shape_announced};

use crate::passing::pass_variant;
use crate::view::{Readable, View};
use std::alloc::{AllocError, Global};
use std::marker::Model;
use ua_binary::{Cursor, TakeFault, decode_variant};
use ua_types::{Shape, Variant};

/// A [`Variant`] in the bytes that it stands in.
///
/// It was passed once, so that it can be read. Its type and its shape stand in its first byte; its content is read
/// where a copy is made.
#[derive(Debug, Drop)]
pub struct VariantView<'a> {
    // From its first byte on. What follows it may stand there too.
    bytes: &'a [u8],
}

impl<'a> Model for VariantView<'a> {
    ghost use Rattle.std.specs.Prelude.{IsOk};
    ghost use Rattle.ua_binary.specs.Variants.{variant_reading};
    ghost use Rattle.ua_types.specs.declared.variant.Variant.{Variant};
    ghost use Rattle.ua_types.specs.declared.variant.Variant.TheVariants.{Null};
    ghost use Rattle.ua_views.specs.Views.{value_or};

    ghost Value = { Variant };

    ghost view = { λ v. value_or Null (variant_reading v.bytes.now) };

    ghost invariant = { λ v. IsOk (variant_reading v.bytes.now) };
}

impl<'a> VariantView<'a> {
    // Its first byte, which has the number of its type and its flags.
    #[tactic(auto, using(crate::proofs::VariantBytes::has_a_first_byte, crate::proofs::VariantBytes::type_is_announced))]
    fn first(&self) -> u8
        ensures type_number { type_number self.now ≡ result % 64 }
        ensures shape { shape_of self.now ≡ shape_announced result }
    {
        match Cursor::new(self.bytes).byte() {
            Ok(first) => first,
            Err(_) => unreachable!(),
        }
    }

    /// The number of its type (IEC 62541-6, 5.1.2), 1 to 22, and 0 for no value.
    pub fn type_number(&self) -> u8
        ensures { result ≡ type_number self.now }
    {
        self.first() % 64
    }

    /// Whether it is one value, a list, or a list with dimensions.
    #[tactic(auto, unfolding(crate::specs::VariantBytes::shape_announced))]
    pub fn shape(&self) -> Shape
        ensures { result ≡ shape_of self.now }
    {
        let first = self.first();
        if first % 64 == 0 {
            return Shape::Null;
        }
        match first / 64 {
            0 => Shape::Scalar,
            2 => Shape::List,
            _ => Shape::Matrix,
        }
    }

    /// How many elements it has where it is a flat list: one that isn't null, and has at most one dimension. None of
    /// everything else. Its content is passed, without memory.
    pub fn flat_len(&self) -> Option<u32>
        ensures { result ≡ flat_len self.now }
    {
        match pass_variant(&mut Cursor::new(self.bytes)) {
            Ok(len) => len,
            Err(_) => unreachable!(),
        }
    }

    /// A copy to keep. That of no value, and of one number, moment, Guid, status, or id that is a number or a Guid, takes no memory.
    // Inlined into the loop over a request's list: a call for each element costs more than it does.
    #[tactic(auto, using(crate::proofs::PlainBytes::plain_is_announced))]
    #[inline(always)]
    pub fn to_value(&self, alloc: Global) -> Result<Variant, AllocError>
        ensures copy { IfOk result (λ value. value ≡ self.now) }
        ensures plain { IsPlainValue self.now → IsOk result }
    {
        let mut value = Variant::Null;
        match decode_variant(alloc, &mut Cursor::new(self.bytes), &mut value) {
            Ok(()) => Ok(value),
            Err(TakeFault::Memory) => Err(AllocError),
            Err(_) => unreachable!(),
        }
    }
}

impl<'a> Readable for VariantView<'a> {
    ghost reading = { variant_reading };
}

impl<'a> View<'a> for VariantView<'a> {
    // Inlined into the loop over a request's list: a call for each element costs more than it does.
    #[inline(always)]
    fn look(cursor: &mut Cursor<'a>) -> Result<VariantView<'a>, TakeFault> {
        let bytes = cursor.rest();
        pass_variant(cursor)?;
        Ok(VariantView { bytes })
    }
}
