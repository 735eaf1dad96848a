//! The server's limits on frames and messages.

ghost use Rattle.std.specs.Prelude.{◌≡◌};
ghost use Rattle.ua_transport.specs.Agreements.{limits_of};

use std::marker::Model;
use ua_types::Config;

/// What of the server's configuration bounds frames and requests. Each number always lies in its
/// range.
#[derive(Clone, Copy, Debug, PartialEq, Eq)]
pub struct Limits {
    /// The largest frame that is read, in bytes: 1024 to 1048576.
    pub receive_size: u32,
    /// The largest frame that is sent, in bytes: 1024 to 1048576.
    pub send_size: u32,
    /// The largest request that is put together, in bytes: 1024 to 16777216.
    pub max_message: u32,
    /// The most chunks of a request: 1 to 65535.
    pub max_chunks: u32,
}

impl Model for Limits {
    ghost use Rattle.ua_transport.specs.Agreements.{Limitation, AreInRange};

    ghost Value = { Limitation };

    ghost view = { λ l. record {
      receive_size = l.receive_size;
      send_size = l.send_size;
      max_message = l.max_message;
      max_chunks = l.max_chunks;
    } };

    ghost invariant = { λ l. AreInRange (view l) };

    ghost inverse = { λ l. record {
      receive_size = l.receive_size;
      send_size = l.send_size;
      max_message = l.max_message;
      max_chunks = l.max_chunks;
    } };
}

impl Limits {
    /// The limits of this configuration.
    pub fn new(config: &Config) -> Limits
        ensures { result ≡ limits_of config.now }
    {
        Limits {
            receive_size: config.receive_size,
            send_size: config.send_size,
            max_message: config.max_message,
            max_chunks: config.max_chunks,
        }
    }
}
