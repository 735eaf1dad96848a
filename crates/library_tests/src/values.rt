use crate::holding::holds;
use std::test::*;
use ua_types::{Content, Shape, SharedList, Variant};

#[test]
fn shapes_and_numbers_of_types(rt: HostRuntime) {
    let null = Variant::Null;
    holds(&rt, "no value", null.shape() == Shape::Null);
    let list = Variant::Byte(Content::Array(SharedList::null()));
    holds(&rt, "a list", list.shape() == Shape::List);
    holds(&rt, "of bytes", list.type_number() == 3);
}
