//! Ids of nodes that may be of another server.

ghost use Rattle.std.specs.Prelude.{◌≡◌, ◌<◌, ◌++◌, length, OnOk, OnErr};
ghost use Rattle.ua_binary.specs.Reading.{Extends, IsReadAgain};
ghost use Rattle.ua_binary.specs.ExpandedNodeIds.{expanded_node_id_reading, expanded_node_id_encoding, local_id};

use crate::cursor::Cursor;
use crate::fault::TakeFault;
use crate::node_ids::{decode_form, encode_form, form};
use crate::parts::{encode_unless_null, number_where_set, text_where_set};
use crate::wire::Wire;
use std::alloc::{AllocError, Global};
use ua_types::{ExpandedNodeId, NodeId, Text};

// Writes an id, its namespace's URI unless that is null, and its server's number unless that is 0.
#[tactic(auto, using(crate::proofs::Extending::extends_more, crate::proofs::Flags::expanded_again), unfolding(crate::specs::ExpandedNodeIds::expanded_node_id_reading, crate::specs::ExpandedNodeIds::expanded_node_id_encoding))]
fn encode_parts(
    node_id: &NodeId,
    namespace_uri: &Text,
    server_index: u32,
    out: &mut Vec<u8>,
) -> Result<(), AllocError>
    ensures ok { OnOk result (out.new.items ≡ out.old.items ++ expanded_node_id_encoding (record { node_id = node_id.now; namespace_uri = namespace_uri.now; server_index = server_index })) }
    ensures err { OnErr result (Extends out.old.items out.new.items) }
    ensures again { OnOk result (IsReadAgain expanded_node_id_reading expanded_node_id_encoding (record { node_id = node_id.now; namespace_uri = namespace_uri.now; server_index = server_index })) }
    ensures some { OnOk result (0 < length (expanded_node_id_encoding (record { node_id = node_id.now; namespace_uri = namespace_uri.now; server_index = server_index }))) }
{
    let uri = if namespace_uri.is_null() { 0u8 } else { 128 };
    let server = if server_index == 0 { 0u8 } else { 64 };
    (form(node_id) + uri + server).encode(out)?;
    encode_form(node_id, out)?;
    encode_unless_null(namespace_uri, out)?;
    if server_index != 0 {
        server_index.encode(out)?;
    }
    Ok(())
}

#[tactic(auto, unfolding(crate::specs::ExpandedNodeIds::expanded_node_id_reading))]
impl Wire for ExpandedNodeId {
    ghost reading = { expanded_node_id_reading };

    ghost encoding = { expanded_node_id_encoding };

    fn decode(alloc: Global, cursor: &mut Cursor<'_>) -> Result<ExpandedNodeId, TakeFault> {
        let form = u8::decode(alloc, cursor)?;
        Ok(ExpandedNodeId {
            node_id: decode_form(alloc, form % 64, cursor)?,
            namespace_uri: text_where_set(alloc, form / 128, cursor)?,
            server_index: number_where_set(alloc, form / 64 % 2, cursor)?,
        })
    }

    fn encode(&self, out: &mut Vec<u8>) -> Result<(), AllocError> {
        encode_parts(&self.node_id, &self.namespace_uri, self.server_index, out)
    }
}

/// Writes the id of a node of this server as the [`ExpandedNodeId`] that it is, with no namespace's URI and the server's
/// number 0 (IEC 62541-6, 5.2.2.10). At an `Err` a part of it is written.
pub fn write_local_id(id: &NodeId, out: &mut Vec<u8>) -> Result<(), AllocError>
    ensures ok { OnOk result (out.new.items ≡ out.old.items ++ expanded_node_id_encoding (local_id id.now)) }
    ensures err { OnErr result (Extends out.old.items out.new.items) }
    ensures again { OnOk result (IsReadAgain expanded_node_id_reading expanded_node_id_encoding (local_id id.now)) }
    ensures some { OnOk result (0 < length (expanded_node_id_encoding (local_id id.now))) }
{
    encode_parts(id, &Text::null(), 0, out)
}
