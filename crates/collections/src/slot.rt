//! A slot.

ghost use Rattle.std.specs.Prelude.{◌≡◌};
ghost use Rattle.std.specs.Borrow.{sem};
ghost use Rattle.collections.specs.SlotLends.{lends_held};

/// A value in its slot, with its number.
#[derive(Debug, Drop)]
pub struct Slot<V> {
    pub number: u64,
    pub value: V,
}

impl<V> Slot<V> {
    /// The value, to be changed in its place.
    pub(crate) fn value_mut(&mut self) -> &mut V
        ensures* writes_back { sem 𝓛 (lends_held V.row self.entry result) }
        ensures value { result.now ≡ self.old.value }
    {
        &mut self.value
    }

    /// The value alone.
    pub(crate) fn into_value(self) -> V
        ensures { result ≡ self.value }
    {
        let Slot { number: _, value } = self;
        value
    }
}
