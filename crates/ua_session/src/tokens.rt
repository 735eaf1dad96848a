//! How sessions are named: by an id that all may know, and by a token that only its client should.

ghost use Rattle.std.specs.Prelude.{◌≡◌, IfOk, option_map};
ghost use Rattle.ua_session.specs.Tokens.{session_id_of, secret_of, token_of, parts_of};

use std::alloc::{AllocError, Global};
use ua_types::{ByteString, Identifier, NodeId};
use ua_views::{IdentifierView, NodeIdView};

/// The namespace of the server's own names.
const OWN: u16 = 1;

/// How many bytes of a token are secret; 4 more are the session's number.
const SECRET: usize = 16;

/// The id of the session with this number (SessionDiagnostics, IEC 62541-5), by which it can be spoken of.
pub fn session_id(number: u32) -> NodeId
    ensures { result ≡ session_id_of number }
{
    NodeId::numeric(OWN, number)
}

/// The secret of a session: the first half of the random bytes with which the connection was opened that asked for it.
pub fn session_secret(key: &[u8; 32]) -> [u8; 16]
    ensures { result ≡ secret_of key.now }
{
    let mut secret = [0; SECRET];
    secret.copy_from_slice(&key[..SECRET]);
    secret
}

/// The authentication token of a session: its secret and its number, the lowest byte first.
pub fn session_token(alloc: Global, secret: &[u8; 16], number: u32) -> Result<NodeId, AllocError>
    ensures { IfOk result (λ token. token ≡ token_of secret.now number) }
{
    let mut bytes = Vec::with_capacity(alloc, SECRET + 4)?;
    bytes.extend_from_slice(&secret[..])?;
    bytes.extend_from_slice(&number.to_le_bytes()[..])?;
    Ok(NodeId {
        namespace: 0,
        identifier: Identifier::Opaque(ByteString::new(bytes)?),
    })
}

/// The secret and the number of the one session whose token this may be. The secret is lent with its length, so that it is
/// compared at once.
pub(crate) fn token_parts<'a>(token: &NodeIdView<'a>) -> Option<(&'a [u8; 16], u32)>
    ensures { option_map (λ p. (p.0.now, p.1)) result ≡ parts_of token.now }
{
    let IdentifierView::Opaque(bytes) = &token.identifier else {
        return None;
    };
    let bytes = bytes.as_slice()?;
    if token.namespace != 0 || bytes.len() != SECRET + 4 {
        return None;
    }
    let (secret, number) = bytes.split_at(SECRET);
    let Ok(secret) = <&[u8; 16]>::try_from(secret) else {
        return None;
    };
    Some((
        secret,
        u32::from_le_bytes([number[0], number[1], number[2], number[3]]),
    ))
}
