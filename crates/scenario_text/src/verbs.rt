//! The first word of a line.

ghost use Rattle.std.specs.Prelude.{◌≡◌};
ghost use Rattle.scenario_text.specs.Verbs.{item_verb_of, request_verb_of, sent_verb_of, subscription_verb_of, verb_of};

use crate::fault::Cause;

/// What a session asks, by the first word.
#[derive(Clone, Copy, Debug, PartialEq, Eq)]
pub(crate) enum RequestVerb {
    ActivateSession,
    CloseSession,
    Read,
    Write,
    Browse,
    BrowseNext,
    ReleasePoints,
    ReadHistory,
    CreateSubscription,
    ModifySubscription,
    SetPublishing,
    CreateItem,
    ModifyItem,
    SetItemMode,
    SetTriggering,
    DeleteItems,
    Publish,
    Republish,
    DeleteSubscriptions,
}

/// What a line does, by its first word.
#[derive(Clone, Copy, Debug, PartialEq, Eq)]
pub(crate) enum Verb {
    Open,
    Hello,
    OpenChannel,
    CloseChannel,
    Gone,
    Tick,
    Shutdown,
    Raw,
    Cut,
    Chunk,
    Abort,
    Range,
    GetEndpoints,
    CreateSession,
    Ask(RequestVerb),
}

// What a session asks of monitored items.
#[tactic(auto, unfolding(crate::specs::Verbs::item_verb_of))]
fn item_verb_of(word: &str) -> Result<RequestVerb, Cause>
    ensures { result ≡ item_verb_of word.now }
{
    if word == "item" {
        return Ok(RequestVerb::CreateItem);
    }
    if word == "moditem" {
        return Ok(RequestVerb::ModifyItem);
    }
    if word == "itemmode" {
        return Ok(RequestVerb::SetItemMode);
    }
    if word == "trigger" {
        return Ok(RequestVerb::SetTriggering);
    }
    if word == "delitem" {
        return Ok(RequestVerb::DeleteItems);
    }
    Err(Cause::Word)
}

// What a session asks of subscriptions and their items.
#[tactic(auto, unfolding(crate::specs::Verbs::subscription_verb_of))]
fn subscription_verb_of(word: &str) -> Result<RequestVerb, Cause>
    ensures { result ≡ subscription_verb_of word.now }
{
    if word == "sub" {
        return Ok(RequestVerb::CreateSubscription);
    }
    if word == "modsub" {
        return Ok(RequestVerb::ModifySubscription);
    }
    if word == "mode" {
        return Ok(RequestVerb::SetPublishing);
    }
    if word == "delsub" {
        return Ok(RequestVerb::DeleteSubscriptions);
    }
    if word == "publish" {
        return Ok(RequestVerb::Publish);
    }
    if word == "republish" {
        return Ok(RequestVerb::Republish);
    }
    item_verb_of(word)
}

#[tactic(auto, unfolding(crate::specs::Verbs::request_verb_of))]
fn request_verb_of(word: &str) -> Result<RequestVerb, Cause>
    ensures { result ≡ request_verb_of word.now }
{
    if word == "activate" {
        return Ok(RequestVerb::ActivateSession);
    }
    if word == "close" {
        return Ok(RequestVerb::CloseSession);
    }
    if word == "read" {
        return Ok(RequestVerb::Read);
    }
    if word == "write" {
        return Ok(RequestVerb::Write);
    }
    if word == "browse" {
        return Ok(RequestVerb::Browse);
    }
    if word == "next" {
        return Ok(RequestVerb::BrowseNext);
    }
    if word == "release" {
        return Ok(RequestVerb::ReleasePoints);
    }
    if word == "history" {
        return Ok(RequestVerb::ReadHistory);
    }
    subscription_verb_of(word)
}

// What a line tells of bytes and chunks, or asks without a session or as one.
#[tactic(auto, unfolding(crate::specs::Verbs::sent_verb_of))]
fn sent_verb_of(word: &str) -> Result<Verb, Cause>
    ensures { result ≡ sent_verb_of word.now }
{
    if word == "raw" {
        return Ok(Verb::Raw);
    }
    if word == "cut" {
        return Ok(Verb::Cut);
    }
    if word == "chunk" {
        return Ok(Verb::Chunk);
    }
    if word == "abort" {
        return Ok(Verb::Abort);
    }
    if word == "range" {
        return Ok(Verb::Range);
    }
    if word == "endpoints" {
        return Ok(Verb::GetEndpoints);
    }
    if word == "session" {
        return Ok(Verb::CreateSession);
    }
    match request_verb_of(word) {
        Ok(verb) => Ok(Verb::Ask(verb)),
        Err(cause) => Err(cause),
    }
}

/// What the first word of a line says.
#[tactic(auto, unfolding(crate::specs::Verbs::verb_of))]
pub(crate) fn verb_of(word: &str) -> Result<Verb, Cause>
    ensures { result ≡ verb_of word.now }
{
    if word == "open" {
        return Ok(Verb::Open);
    }
    if word == "hel" {
        return Ok(Verb::Hello);
    }
    if word == "opn" {
        return Ok(Verb::OpenChannel);
    }
    if word == "clo" {
        return Ok(Verb::CloseChannel);
    }
    if word == "gone" {
        return Ok(Verb::Gone);
    }
    if word == "tick" {
        return Ok(Verb::Tick);
    }
    if word == "shutdown" {
        return Ok(Verb::Shutdown);
    }
    sent_verb_of(word)
}
