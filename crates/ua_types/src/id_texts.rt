//! The texts of node ids: `i=85`, `ns=2;s=Line`, `ns=1;b=0aff`.

ghost use Rattle.std.specs.Prelude.{◌≡◌, ◌≢◌, ◌^◌, ◌<◌, ◌≤◌, IfOk, ◌++◌, codes, OnOk, string_bytes, Ok, Err};
ghost use Rattle.hex.specs.Hex.{decode_of, encode_lower, IsBytes};
ghost use Rattle.ua_types.specs.Answers.{Gives};
ghost use Rattle.ua_types.specs.declared.id_texts.IdFault.TheVariants.{Memory};
ghost use Rattle.ua_types.specs.IdTexts.{opaque_of, identifier_of, id_of, namespace_text, identifier_text, id_text, IsNamed, IsReadable, IsSaidFreely};
ghost use Rattle.ua_types.specs.NodeIds.{IsPlain, IsPlainId};

use crate::byte_string::ByteString;
use crate::guid::Guid;
use crate::node_id::{Identifier, NodeId};
use crate::parsing::{behind, decimal_up_to};
use crate::text::Text;
use std::alloc::{AllocError, Global};
use thiserror::Error;
use uuid::Uuid;

/// What is wrong with the text of a node id: the leftmost fault.
#[derive(Clone, Copy, Debug, PartialEq, Eq, Error)]
pub enum IdFault {
    /// No identifier begins where one should: `i=`, `s=`, `g=` or `b=`.
    #[error("no identifier where one should begin")]
    Prefix,

    /// What follows `ns=` or `i=` isn't decimal digits, at least one, of a number that fits.
    #[error("not a number that fits")]
    Number,

    /// What follows `g=` isn't a Guid.
    #[error("not a Guid")]
    Guid,

    /// What follows `b=` isn't pairs of hex digits, or what follows `s=` or `b=` has 2^31 bytes
    /// or more.
    #[error("not the bytes of an identifier")]
    Bytes,

    /// An allocation failed. Nothing is said of the text.
    #[error("out of memory")]
    Memory,
}

impl From<AllocError> for IdFault {
    ghost from_gives = { λ _ e. e ≡ Memory };

    fn from(_e: AllocError) -> IdFault {
        IdFault::Memory
    }
}

// The bytes that hex digits stand for.
fn opaque(alloc: Global, text: &str) -> Result<Identifier, IdFault>
    ensures { Gives Memory result (opaque_of (decode_of text.now)) }
{
    match hex::decode(alloc, text) {
        Ok(bytes) => {
            if bytes.len() < 1 << 31 {
                Ok(Identifier::Opaque(ByteString::new(bytes)?))
            } else {
                Err(IdFault::Bytes)
            }
        }
        Err(hex::FromHexError::OutOfMemory) => Err(IdFault::Memory),
        Err(_) => Err(IdFault::Bytes),
    }
}

#[tactic(auto, unfolding(crate::specs::IdTexts::identifier_of))]
fn identifier(alloc: Global, text: &str) -> Result<Identifier, IdFault>
    ensures said { Gives Memory result (identifier_of text.now) }
    ensures free { IsSaidFreely IsPlain (identifier_of text.now) → result ≢ Err Memory }
{
    if let Some(digits) = behind(text, "i=") {
        return match decimal_up_to(0xffff_ffff, digits) {
            Some(number) => Ok(Identifier::Numeric(number as u32)),
            None => Err(IdFault::Number),
        };
    }
    if let Some(rest) = behind(text, "s=") {
        if rest.len() >= 1 << 31 {
            return Err(IdFault::Bytes);
        }
        return Ok(Identifier::String(Text::from_str(alloc, rest)?));
    }
    if let Some(rest) = behind(text, "g=") {
        return match Guid::parse(rest) {
            Some(guid) => Ok(Identifier::Guid(guid)),
            None => Err(IdFault::Guid),
        };
    }
    if let Some(rest) = behind(text, "b=") {
        return opaque(alloc, rest);
    }
    Err(IdFault::Prefix)
}

impl NodeId {
    /// The id that a text says: `ns=n;` where the namespace isn't 0, then `i=` and decimal digits,
    /// `s=` and the text, `g=` and a Guid, or `b=` and hex digits.
    ///
    /// The leftmost fault is answered; `Memory` only where an allocation failed. A number and a Guid take no memory, and
    /// no fault but `Bytes` is found with any.
    #[tactic(auto, unfolding(crate::specs::IdTexts::id_of, crate::specs::IdTexts::spaced))]
    pub fn parse(alloc: Global, text: &str) -> Result<NodeId, IdFault>
        ensures said { Gives Memory result (id_of text.now) }
        ensures free { IsSaidFreely IsPlainId (id_of text.now) → result ≢ Err Memory }
    {
        let Some(rest) = behind(text, "ns=") else {
            let identifier = identifier(alloc, text)?;
            return Ok(NodeId {
                namespace: 0,
                identifier,
            });
        };
        let (digits, rest) = match rest.split_once(';') {
            Some(parts) => parts,
            None => (rest, ""),
        };
        let Some(namespace) = decimal_up_to(0xffff, digits) else {
            return Err(IdFault::Number);
        };
        let identifier = identifier(alloc, rest)?;
        Ok(NodeId {
            namespace: namespace as u16,
            identifier,
        })
    }
}

// The namespace's part of the text.
fn namespace_text(alloc: Global, namespace: u16) -> Result<String, AllocError>
    ensures { IfOk result (λ t. string_bytes t ≡ namespace_text namespace) }
{
    if namespace == 0 {
        return Ok(String::new(alloc));
    }
    format!(in alloc; "ns={namespace};")
}

// The text of an identifier that is bytes.
fn opaque_text(alloc: Global, bytes: &[u8]) -> Result<String, AllocError>
    ensures text { IfOk result (λ t. string_bytes t ≡ codes "b=" ++ encode_lower bytes.now) }
    ensures bytes { IsBytes bytes.now }
{
    let digits = hex::encode(alloc, bytes)?;
    format!(in alloc; "b={digits}")
}

// The identifier's part of the text.
fn identifier_text(alloc: Global, identifier: &Identifier) -> Result<String, AllocError>
    ensures text { IfOk result (λ t. string_bytes t ≡ identifier_text identifier.now) }
    ensures readable { OnOk result (IsReadable identifier.now) }
{
    match identifier {
        Identifier::Numeric(number) => {
            let number: u32 = *number;
            format!(in alloc; "i={number}")
        }
        Identifier::String(text) => match text.as_str() {
            None => String::from_str(alloc, "s="),
            Some(text) => format!(in alloc; "s={text}"),
        },
        Identifier::Guid(guid) => {
            let mut buffer = Uuid::encode_buffer();
            let text: &str = guid.uuid().hyphenated().encode_lower(&mut buffer);
            format!(in alloc; "g={text}")
        }
        Identifier::Opaque(bytes) => match bytes.as_slice() {
            None => String::from_str(alloc, "b="),
            Some(bytes) => opaque_text(alloc, bytes),
        },
    }
}

/// The text of an id, as [`NodeId::parse`] reads it: `ns=0;` is left out, hex digits and a
/// hyphenated Guid are in lower case, and a null identifier is written as an empty one.
#[tactic(auto, using(crate::proofs::IdTexts::id_again))]
pub fn write_id(alloc: Global, id: &NodeId) -> Result<String, AllocError>
    ensures text { IfOk result (λ t. string_bytes t ≡ id_text id.now) }
    // What is written is read as the id, unless its identifier is null.
    ensures again { IfOk result (λ t. IsNamed id.now.identifier → id_of (string_bytes t) ≡ Ok id.now) }
{
    let mut text = namespace_text(alloc, id.namespace)?;
    let identifier = identifier_text(alloc, &id.identifier)?;
    text.push_str(identifier.as_str())?;
    Ok(text)
}
