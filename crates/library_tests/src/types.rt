use crate::holding::holds;
use std::test::*;
use ua_types::*;

// The numbers of the standard (IEC 62541-3, section 8).
#[test]
fn classes_have_their_numbers(rt: HostRuntime) {
    for (class, number) in [
        (NodeClass::Object, 1u8),
        (NodeClass::Variable, 2),
        (NodeClass::ObjectType, 8),
        (NodeClass::VariableType, 16),
        (NodeClass::ReferenceType, 32),
        (NodeClass::DataType, 64),
    ] {
        holds(&rt, "the number of a class", class.number() == number);
    }
}

#[test]
fn the_null_id_alone_is_null(rt: HostRuntime) {
    let null = NodeId::null();
    holds(&rt, "null", null.is_null());
    let other = NodeId::numeric(1, 0);
    holds(&rt, "of another namespace", !other.is_null());
}

#[test]
fn a_null_identifier_is_written_as_an_empty_one(rt: HostRuntime) -> Result<(), Fail> {
    let null = NodeId {
        namespace: 0,
        identifier: Identifier::Opaque(ByteString::null()),
    };
    let text = write_id(rt.alloc(), &null)?;
    holds(&rt, "b=", text.as_str() == "b=");
    Ok(())
}

#[test]
fn what_a_block_and_a_list_hold_is_taken_out(rt: HostRuntime) -> Result<(), Fail> {
    let alloc = rt.alloc();
    let block = Shared::new(alloc, 7u32)?;
    let other = block.copy(alloc)?;
    holds(&rt, "in the block", *other == 7);
    holds(
        &rt,
        "a copy of what another owns",
        block.unwrap_or_copy(alloc)? == 7,
    );
    holds(&rt, "out of the block", other.unwrap_or_copy(alloc)? == 7);
    let list = Array::new(Vec::from_slice(alloc, &[7u8])?);
    let elements = list.into_vec().unwrap_or(Vec::new(alloc));
    holds(
        &rt,
        "out of the list",
        elements.as_slice() == [7u8].as_slice(),
    );
    Ok(())
}

#[test]
fn the_standard_configuration(rt: HostRuntime) -> Result<(), Fail> {
    let alloc = rt.alloc();
    let config = Config::standard(alloc)?.copy(alloc)?;
    holds(&rt, "its URI", config.uri.as_str() == Some("urn:uaserver"));
    holds(
        &rt,
        "its URL",
        config.url.as_str() == Some("opc.tcp://localhost:4840"),
    );
    holds(&rt, "its frames", config.receive_size == 65536);
    holds(&rt, "its sessions", config.session_time == 600_000_000);
    holds(
        &rt,
        "its subscriptions",
        config.subscriptions_in_all == 100_000,
    );
    holds(&rt, "its items", config.items_in_all == 1_000_000);
    Ok(())
}

#[test]
fn refusals_in_words(rt: HostRuntime) -> Result<(), Fail> {
    let alloc = rt.alloc();
    for (refusal, words) in [
        (
            Refusal::Service(Status::BAD_TIMEOUT),
            "refused with status 0x800a0000",
        ),
        (Refusal::Memory, "out of memory"),
        (Refusal::Exhausted, "out of serial numbers"),
    ] {
        holds(
            &rt,
            words,
            format!(in alloc; "{refusal}")?.as_str() == words,
        );
    }
    let fault = IdFault::Memory;
    holds(
        &rt,
        "a fault of an id",
        format!(in alloc; "{fault}")?.as_str() == "out of memory",
    );
    Ok(())
}
