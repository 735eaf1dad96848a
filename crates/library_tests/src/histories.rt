//! Histories, where no Write, no HistoryRead and no node file leads: a value without a time of the source, all times, and more
//! values from before the server began than are kept.

use crate::holding::holds;
use std::alloc::{AllocError, Global};
use std::test::*;
use ua_history::{History, Interval, KeptRuns, KeptValues};
use ua_space::{Node, NodeDetails, Space, ValueRank, Variable};
use ua_types::{
    Config, Content, DataValue, Listed, LocalizedText, Moment, NodeId, QualifiedName, Status, Text,
    Variant,
};

fn counted(number: u16, source_time: Option<Moment>) -> DataValue {
    DataValue {
        value: Some(Variant::UInt16(Content::Scalar(number))),
        status: Status::GOOD,
        source_time,
        server_time: Some(Moment(0)),
    }
}

// The values 2, 3 and 4 at 200 to 400; then one at a time before those, one in place of 3, and one without a time.
fn filled(alloc: Global, node: &NodeId) -> Result<History, AllocError> {
    let mut config = Config::standard(alloc)?;
    config.history = 3;
    let mut history = History::new(alloc, &config);
    for (number, time) in [(1, 100), (2, 200), (3, 300), (4, 400), (9, 50), (8, 300)] {
        history.keep(alloc, node, counted(number, Some(Moment(time))))?;
    }
    history.keep(alloc, node, counted(7, None))?;
    Ok(history)
}

// The number of a value, and 0 of none.
fn number_of(value: Option<&DataValue>) -> u64 {
    match value {
        Some(
            DataValue {
                value: Some(Variant::UInt16(Content::Scalar(number))),
                ..
            },
        ) => u64::from(*number),
        _ => 0,
    }
}

// A number and, behind it, the number of one more value as a digit.
fn with_digit(digits: u64, value: &DataValue) -> u64 {
    digits.wrapping_mul(10).wrapping_add(number_of(Some(value)))
}

// The numbers of these values in their order, a digit for each.
fn digits(values: &KeptValues<'_>) -> u64 {
    let mut digits = 0u64;
    match values.runs() {
        KeptRuns::Rising(runs) => {
            for run in runs {
                for (_, value) in *run {
                    digits = with_digit(digits, value);
                }
            }
        }
        KeptRuns::Falling(runs) => {
            for run in runs {
                for (_, value) in run.iter().rev() {
                    digits = with_digit(digits, value);
                }
            }
        }
    }
    digits
}

#[test]
fn three_values_are_kept(rt: HostRuntime) -> Result<(), Fail> {
    let alloc = rt.alloc();
    let node = NodeId::numeric(1, 11);
    let history = filled(alloc, &node)?;
    holds(&rt, "three", history.len(&node) == 3);
    holds(
        &rt,
        "of no other",
        history.len(&NodeId::numeric(1, 12)) == 0,
    );
    for (time, number) in [(50, 0), (100, 0), (200, 2), (300, 8), (400, 4)] {
        let found = history.value_at(&node, Moment(time));
        holds(&rt, "kept", number_of(found) == number);
    }
    let all = Interval::new(Moment(0), Moment(0));
    let cut = history.read(alloc, &node, all, 9)?;
    holds(&rt, "all times", digits(&cut.values) == 284);
    let falling = Interval::new(Moment(500), Moment(100));
    let cut = history.read(alloc, &node, falling, 2)?;
    holds(&rt, "the last two", digits(&cut.values) == 48);
    holds(&rt, "more", cut.last_given == Some(Moment(300)));
    Ok(())
}

fn no_words() -> LocalizedText {
    LocalizedText {
        locale: Text::null(),
        text: Text::null(),
    }
}

// A counter whose history is kept, which had the values 1, 2 and 3 at 100 to 300 before.
#[tactic(auto, unfolding(ua_space::specs::Variables::has_rank))]
fn counter(alloc: Global) -> Result<Node, AllocError> {
    let mut history = Listed::new(alloc);
    for (number, time) in [(1, 100), (2, 200), (3, 300)] {
        history.push(counted(number, Some(Moment(time))))?;
    }
    Ok(Node {
        id: NodeId::numeric(1, 11),
        browse_name: QualifiedName {
            namespace: 1,
            name: Text::null(),
        },
        display_name: no_words(),
        description: no_words(),
        details: NodeDetails::Variable(Variable {
            data_type: 5,
            value_rank: ValueRank::Scalar,
            value: DataValue {
                value: Some(Variant::UInt16(Content::Scalar(0))),
                status: Status::GOOD,
                source_time: None,
                server_time: Some(Moment(0)),
            },
            access: 5,
            historizing: true,
        }),
        history,
    })
}

#[test]
fn the_last_values_of_before_are_kept(rt: HostRuntime) -> Result<(), Fail> {
    let alloc = rt.alloc();
    let node = NodeId::numeric(1, 11);
    let mut config = Config::standard(alloc)?;
    config.history = 2;
    let nodes = vec![in alloc; counter(alloc)?]?;
    let Ok(mut space) = Space::build(alloc, &config, nodes, Vec::new(alloc)) else {
        return Err(Fail::new("not built"));
    };
    let history = History::beginning(alloc, &config, &mut space)?;
    holds(&rt, "two", history.len(&node) == 2);
    for (time, number) in [(100, 0), (200, 2), (300, 3)] {
        let found = history.value_at(&node, Moment(time));
        holds(&rt, "the last", number_of(found) == number);
    }
    let left = space
        .node(&node)
        .map(|found| found.history.as_slice().len());
    holds(&rt, "moved out", left == Some(0));
    Ok(())
}
