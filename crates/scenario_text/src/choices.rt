//! Words of which one of two has to stand in its place.

ghost use Rattle.std.specs.Prelude.{◌≡◌};
ghost use Rattle.scenario_text.specs.Choices.{channel_request_reading, subscriptions_reading, discard_reading, publishing_reading};

use crate::fault::Cause;
use crate::phrases::Phrase;
use crate::words::Words;
use std::alloc::Global;

/// What is asked of a secure channel (SecurityTokenRequestType, IEC 62541-4, section 5, OpenSecureChannel).
#[derive(Clone, Copy, Debug, PartialEq, Eq)]
pub enum ChannelRequest {
    /// A new channel.
    Issue,
    /// A new token for the channel that is open.
    Renew,
}

/// What becomes of the subscriptions of a session that is closed (IEC 62541-4, section 5, CloseSession).
#[derive(Clone, Copy, Debug, PartialEq, Eq)]
pub enum Subscriptions {
    Delete,
    Keep,
}

/// Which value a full queue drops (IEC 62541-4, section 7, MonitoringParameters).
#[derive(Clone, Copy, Debug, PartialEq, Eq)]
pub enum Discard {
    Oldest,
    Newest,
}

/// Whether a subscription publishes (IEC 62541-4, section 5, SetPublishingMode).
#[derive(Clone, Copy, Debug, PartialEq, Eq)]
pub enum Publishing {
    On,
    Off,
}

impl Phrase for ChannelRequest {
    ghost reading = { channel_request_reading };

    #[tactic(auto, unfolding(crate::specs::Choices::channel_request_reading))]
    fn read(_alloc: Global, words: &mut Words<'_>) -> Result<ChannelRequest, Cause> {
        let word = words.word()?;
        if word == "issue" {
            return Ok(ChannelRequest::Issue);
        }
        if word == "renew" {
            return Ok(ChannelRequest::Renew);
        }
        Err(Cause::Word)
    }
}

impl Phrase for Subscriptions {
    ghost reading = { subscriptions_reading };

    #[tactic(auto, unfolding(crate::specs::Choices::subscriptions_reading))]
    fn read(_alloc: Global, words: &mut Words<'_>) -> Result<Subscriptions, Cause> {
        let word = words.word()?;
        if word == "delete" {
            return Ok(Subscriptions::Delete);
        }
        if word == "keep" {
            return Ok(Subscriptions::Keep);
        }
        Err(Cause::Word)
    }
}

impl Phrase for Discard {
    ghost reading = { discard_reading };

    #[tactic(auto, unfolding(crate::specs::Choices::discard_reading))]
    fn read(_alloc: Global, words: &mut Words<'_>) -> Result<Discard, Cause> {
        let word = words.word()?;
        if word == "oldest" {
            return Ok(Discard::Oldest);
        }
        if word == "newest" {
            return Ok(Discard::Newest);
        }
        Err(Cause::Word)
    }
}

impl Phrase for Publishing {
    ghost reading = { publishing_reading };

    #[tactic(auto, unfolding(crate::specs::Choices::publishing_reading))]
    fn read(_alloc: Global, words: &mut Words<'_>) -> Result<Publishing, Cause> {
        let word = words.word()?;
        if word == "on" {
            return Ok(Publishing::On);
        }
        if word == "off" {
            return Ok(Publishing::Off);
        }
        Err(Cause::Word)
    }
}
