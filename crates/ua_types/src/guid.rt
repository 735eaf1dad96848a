//! Globally unique ids.

ghost use Rattle.std.specs.Prelude.{◌≡◌};
ghost use Rattle.ua_types.specs.Guids.{guid_of, guid_bytes, guid_said};

use uuid::Uuid;

/// A globally unique id by its parts (Guid, IEC 62541-6, 5.1.3), ordered part by part.
#[derive(Clone, Copy, Debug, PartialEq, Eq, PartialOrd, Ord)]
pub struct Guid {
    pub data1: u32,
    pub data2: u16,
    pub data3: u16,
    pub data4: [u8; 8],
}

fn guid_of(uuid: &Uuid) -> Guid
    ensures { result ≡ guid_of uuid.now }
{
    let (data1, data2, data3, data4) = uuid.as_fields();
    Guid {
        data1,
        data2,
        data3,
        data4,
    }
}

impl Guid {
    /// The Guid that a text says, in any form that `uuid` reads: 32 hex digits in either case, with
    /// hyphens or without, in braces or as a URN.
    pub fn parse(text: &str) -> Option<Guid>
        ensures { result ≡ guid_said text.now }
    {
        match Uuid::try_parse(text) {
            Ok(uuid) => Some(guid_of(&uuid)),
            Err(_) => None,
        }
    }

    // Its bytes, as its text has them.
    pub(crate) fn uuid(&self) -> Uuid
        ensures bytes { result ≡ guid_bytes self.now }
        ensures again { guid_of result ≡ self.now }
    {
        Uuid::from_fields(self.data1, self.data2, self.data3, &self.data4)
    }
}
