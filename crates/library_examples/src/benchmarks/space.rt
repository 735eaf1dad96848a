//! A space of so many tenths of the largest size, built and asked. A tenth are 100,000 nodes and 400,000 references, with a
//! comb and a ladder among them. The comb of a tenth is a chain of 50,000 types, each of which has a second supertype beside the
//! one above it. Its ladder has 10,000 steps with two types each, both of them subtypes of both types of the step above, so
//! there are 2^9,999 ways down.

ghost use Rattle.std.specs.Prelude.{◌≤◌};

use super::elapsed;
use super::requests::failed;
use std::alloc::{AllocError, Global};
use std::io::{self, Write};
use std::time::Instant;
use ua_space::{Node, NodeDetails, Part, Space, SpaceFault, Triple};
use ua_types::{Config, DataValue, Listed, LocalizedText, NodeId, QualifiedName, Text};

// What a tenth has: the types of the comb, the steps of the ladder, its nodes and its references.
const TYPES: u32 = 50_000;

const STEPS: u32 = 10_000;

const NODES: u32 = 100_000;

const TRIPLES: u32 = 400_000;

// What the base set has.
const BASE_NODES: u32 = 22;

const BASE_TRIPLES: u32 = 29;

// How many types the comb has, how many steps the ladder, how many objects there are, and how many references.
#[derive(Clone, Copy)]
struct Size {
    types: u32,
    steps: u32,
    objects: u32,
    triples: usize,
}

impl Size {
    fn of(tenths: u32) -> Size
        requires most { tenths ≤ 10 }
        requires least { 1 ≤ tenths }
    {
        Size {
            types: TYPES * tenths,
            steps: STEPS * tenths,
            objects: (NODES - TYPES - 2 * STEPS) * tenths - BASE_NODES,
            triples: (TRIPLES * tenths - BASE_TRIPLES) as usize,
        }
    }

    fn ladder(self) -> u32 {
        self.types
    }

    fn first_object(self) -> u32 {
        self.types.saturating_add(self.steps.saturating_mul(2))
    }

    // A type of a step of the ladder: the first or the second.
    fn rung(self, step: u32, which: u32) -> u32 {
        self.types
            .saturating_add(step.saturating_mul(2))
            .saturating_add(which)
    }
}

fn no_text() -> LocalizedText {
    LocalizedText {
        locale: Text::null(),
        text: Text::null(),
    }
}

fn node(number: u32, details: NodeDetails, history: Listed<DataValue>) -> Node {
    Node {
        id: NodeId::numeric(1, number),
        browse_name: QualifiedName {
            namespace: 1,
            name: Text::null(),
        },
        display_name: no_text(),
        description: no_text(),
        details,
        history,
    }
}

fn reference_type() -> NodeDetails {
    NodeDetails::ReferenceType {
        is_abstract: false,
        symmetric: false,
        inverse_name: no_text(),
    }
}

// The types of the comb and of the ladder, and then objects.
fn nodes(alloc: Global, size: Size) -> Result<Vec<Node>, AllocError> {
    let mut nodes = Vec::new(alloc);
    let first = size.first_object();
    for number in 0..first {
        nodes.push(node(number, reference_type(), Listed::new(alloc)))?;
    }
    for number in first..first.saturating_add(size.objects) {
        nodes.push(node(number, NodeDetails::Object, Listed::new(alloc)))?;
    }
    Ok(nodes)
}

fn triple(source: NodeId, kind: u32, target: NodeId, place: u64) -> Triple {
    Triple {
        source,
        reference_type: NodeId::numeric(0, kind),
        target,
        part: Part::Reference(place),
    }
}

// The comb's references, the lowest type first. The second supertype is the ladder's first type; it is
// declared before the other one at each second type.
fn add_comb(triples: &mut Vec<Triple>, size: Size) -> Result<(), AllocError> {
    let ladder = size.ladder();
    for number in (1..size.types).rev() {
        let place = triples.len() as u64;
        let (one, two) = if number % 2 == 0 {
            (ladder, number.saturating_sub(1))
        } else {
            (number.saturating_sub(1), ladder)
        };
        for upper in [one, two] {
            let source = NodeId::numeric(1, upper);
            let target = NodeId::numeric(1, number);
            triples.push(triple(source, 45, target, place))?;
        }
    }
    Ok(())
}

// The ladder's references, each step's four.
fn add_ladder(triples: &mut Vec<Triple>, size: Size) -> Result<(), AllocError> {
    for step in 1..size.steps {
        for upper in 0..2u32 {
            for lower in 0..2u32 {
                let place = triples.len() as u64;
                let source = NodeId::numeric(1, size.rung(step.saturating_sub(1), upper));
                let target = NodeId::numeric(1, size.rung(step, lower));
                triples.push(triple(source, 45, target, place))?;
            }
        }
    }
    Ok(())
}

// The comb, the ladder, and then each object organizes those after it.
fn triples(alloc: Global, size: Size) -> Result<Vec<Triple>, AllocError> {
    let mut triples = Vec::new(alloc);
    add_comb(&mut triples, size)?;
    add_ladder(&mut triples, size)?;
    let first = size.first_object();
    for step in 1..12u32 {
        for number in 0..size.objects {
            if triples.len() == size.triples {
                return Ok(triples);
            }
            let place = triples.len() as u64;
            let other = number.saturating_add(step) % size.objects.max(1);
            let source = NodeId::numeric(1, first.saturating_add(number));
            let target = NodeId::numeric(1, first.saturating_add(other));
            triples.push(triple(source, 35, target, place))?;
        }
    }
    Ok(triples)
}

fn build(rt: &HostRuntime, size: Size) -> Result<Space, SpaceFault> {
    let alloc = rt.alloc();
    let config = Config::standard(alloc)?;
    let nodes = nodes(alloc, size)?;
    let triples = triples(alloc, size)?;
    let start = Instant::now(rt);
    let space = Space::build(alloc, &config, nodes, triples);
    report(rt, "build", start);
    space
}

fn report(rt: &HostRuntime, name: &str, start: io::Result<Instant>) {
    let time = elapsed(rt, start) / 1_000_000;
    let mut errors = rt.stderr();
    let _ = writeln!(errors, "{name}: {time} ms");
}

// How many of the ladder's types are the first type of a step or a subtype of it.
fn below(rt: &HostRuntime, space: &Space, size: Size, step: u32) -> Result<usize, AllocError> {
    let upper = NodeId::numeric(1, size.rung(step, 0));
    let start = Instant::now(rt);
    let types = space.subtypes(rt.alloc(), &upper)?;
    report(rt, "subtypes", start);
    let start = Instant::now(rt);
    let mut count = 0usize;
    for number in size.ladder()..size.first_object() {
        if types.contains(&NodeId::numeric(1, number)) {
            count = count.saturating_add(1);
        }
    }
    report(rt, "as many questions as the ladder has types", start);
    Ok(count)
}

fn ladder(rt: &HostRuntime, space: &Space, size: Size) -> Result<(usize, usize), AllocError> {
    let all = below(rt, space, size, 0)?;
    let half = below(rt, space, size, size.steps / 2)?;
    Ok((all, half))
}

// Whether the one type is a subtype of the other, asked once.
fn asked(rt: &HostRuntime, space: &Space, name: &str, lower: u32, upper: u32) -> bool {
    let lower = NodeId::numeric(1, lower);
    let upper = NodeId::numeric(1, upper);
    let start = Instant::now(rt);
    let answer = space.is_subtype(&lower, &upper);
    report(rt, name, start);
    answer
}

// How many of 20,000 questions about the base set are answered by yes: every second one.
fn short(rt: &HostRuntime, space: &Space) -> usize {
    let lower = NodeId::numeric(0, 47);
    let start = Instant::now(rt);
    let mut count = 0usize;
    for _ in 0..10_000 {
        for upper in [44, 35] {
            if space.is_subtype(&lower, &NodeId::numeric(0, upper)) {
                count = count.saturating_add(1);
            }
        }
    }
    report(rt, "20,000 times is_subtype, one step", start);
    count
}

fn ask(rt: &HostRuntime, space: &Space, size: Size) -> io::Result<()> {
    let nodes = space.node_count();
    let triples = space.triple_count();
    let mut out = rt.stdout();
    writeln!(out, "{nodes} nodes, {triples} references")?;
    let low = size.types.saturating_sub(1);
    let beside = size.rung(0, 1);
    let up = asked(rt, space, "is_subtype up the comb", low, 0);
    let aside = asked(rt, space, "is_subtype, comb aside", low, beside);
    writeln!(out, "comb: {up} and {aside}")?;
    let low = size.first_object().saturating_sub(1);
    let up = asked(rt, space, "is_subtype up the ladder", low, size.ladder());
    let aside = asked(rt, space, "is_subtype, ladder aside", low, 1);
    writeln!(out, "ladder: {up} and {aside}")?;
    let count = short(rt, space);
    writeln!(out, "one step: {count}")?;
    match ladder(rt, space, size) {
        Ok((all, half)) => writeln!(out, "{all} and {half} subtypes"),
        Err(_) => writeln!(out, "memory"),
    }
}

/// Builds a space of so many tenths of the largest, at most all, and asks it for subtypes.
pub(crate) fn run(rt: &HostRuntime, tenths: u32) -> io::Result<()> {
    let size = Size::of(tenths.clamp(1, 10));
    match build(rt, size) {
        Ok(space) => ask(rt, &space, size),
        Err(_) => Err(failed()),
    }
}
