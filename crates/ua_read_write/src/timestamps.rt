//! Which times an answer has.

ghost use Rattle.std.specs.Prelude.{◌≡◌};
ghost use Rattle.ua_read_write.specs.Timestamps.{timestamps_of, has_source, has_server};

use ua_messages::TimestampsToReturn;

/// Which times a data value is to have in an answer, as a request may choose (TimestampsToReturn,
/// IEC 62541-4, section 7).
#[derive(Clone, Copy, Debug, PartialEq, Eq)]
pub enum Timestamps {
    /// When the source had the value.
    Source,
    /// When the server had it.
    Server,
    Both,
    Neither,
}

impl Timestamps {
    /// What a request's number means. None where it means nothing, which a service refuses by
    /// `BAD_TIMESTAMPS_TO_RETURN_INVALID`.
    pub fn chosen(choice: TimestampsToReturn) -> Option<Timestamps>
        ensures { result ≡ timestamps_of choice }
    {
        match choice {
            TimestampsToReturn::SOURCE => Some(Timestamps::Source),
            TimestampsToReturn::SERVER => Some(Timestamps::Server),
            TimestampsToReturn::BOTH => Some(Timestamps::Both),
            TimestampsToReturn::NEITHER => Some(Timestamps::Neither),
            _ => None,
        }
    }

    /// Whether the source's time is wanted.
    pub fn has_source(self) -> bool
        ensures { result ≡ has_source self }
    {
        matches!(self, Timestamps::Source | Timestamps::Both)
    }

    /// Whether the server's time is wanted.
    pub fn has_server(self) -> bool
        ensures { result ≡ has_server self }
    {
        matches!(self, Timestamps::Server | Timestamps::Both)
    }
}
