//! A space out of nodes and references, or the first thing that is wrong with them.

ghost use Rattle.std.specs.Prelude.{◌≡◌, ◌≤◌, ◌<◌, ◌^◌, ◌+◌, ◌++◌, List, [], length, vec_len, IfOk, IfErr, OnOk};
ghost use Rattle.ua_space.specs.BaseNodes.{base_triples};
ghost use Rattle.ua_space.specs.declared.node.Node.{Node};
ghost use Rattle.ua_types.specs.Answers.{Gives, GivesAs};
ghost use Rattle.ua_space.specs.Build.{is_too_much, within_limits, named, all_named, linked};
ghost use Rattle.ua_space.specs.Spaces.{fits, most_triples};
ghost use Rattle.ua_space.specs.declared.fault.SpaceFault.TheVariants.{Memory};

use crate::base::{NODES, TRIPLES, base_nodes, base_triples};
use crate::fault::SpaceFault;
use crate::hints::Hints;
use crate::history::is_history;
use crate::index::Indexes;
use crate::loops::no_loop;
use crate::node::{Node, NodeDetails};
use crate::node_table::NodeTable;
use crate::numbering::Numbering;
use crate::space::Space;
use crate::triple::{Part, Triple};
use std::alloc::Global;
use std::collections::{BTreeMap, BTreeSet};
use ua_types::{Config, Copyable, NodeId};

/// The most nodes of a space, those of the base set included.
pub(crate) const MAX_NODES: usize = 1_000_000;
/// The most references of a space, those of the base set included.
pub(crate) const MAX_TRIPLES: usize = 4_000_000;

// Whether so many are too many beside those of the base set.
fn is_too_much(most: usize, base: usize, given: usize) -> bool
    requires { base ≤ most }
    ensures { result ≡ is_too_much most base given }
{
    given > most - base
}

#[tactic(auto, unfolding(crate::specs::BaseNodes::base_triples))]
fn within_limits(nodes: &[Node], triples: &[Triple]) -> Result<(), SpaceFault>
    ensures limits { (base : List Node) → length base ≡ 22 → result ≡ within_limits base nodes.now triples.now }
    ensures few_nodes { OnOk result (length nodes.now < 2 ^ 32) }
    ensures few_triples { OnOk result (length triples.now < most_triples) }
{
    if is_too_much(MAX_NODES, NODES, nodes.len())
        || is_too_much(MAX_TRIPLES, TRIPLES.len(), triples.len())
    {
        return Err(SpaceFault::Limit);
    }
    Ok(())
}

// Each node under its id, with a history as it may have one. The nodes count from `first`.
fn named(
    alloc: Global,
    known: BTreeMap<NodeId, Node>,
    first: u64,
    nodes: Vec<Node>,
) -> Result<BTreeMap<NodeId, Node>, SpaceFault>
    requires { first + vec_len nodes < 2 ^ 64 }
    ensures { GivesAs Memory (λ m. m.entries) result (named first known.entries nodes.items) }
{
    let mut known = known;
    let mut number = first;
    for node in nodes {
        if known.contains_key(&node.id) {
            return Err(SpaceFault::Duplicate(Part::Node(number)));
        }
        if !is_history(&node) {
            return Err(SpaceFault::History(Part::Node(number)));
        }
        let id = node.id.copy(alloc)?;
        known.insert(id, node)?;
        number += 1;
    }
    Ok(known)
}

// Both ends are nodes, and the type is a ReferenceType node.
fn fits(nodes: &BTreeMap<NodeId, Node>, triple: &Triple) -> bool
    ensures { result ≡ fits nodes.now.entries triple.now }
{
    nodes.contains_key(&triple.source)
        && nodes.contains_key(&triple.target)
        && match nodes.get(&triple.reference_type) {
            None => false,
            Some(node) => matches!(&node.details, NodeDetails::ReferenceType { .. }),
        }
}

// Each reference fits, and none is given twice.
fn linked(
    alloc: Global,
    nodes: &BTreeMap<NodeId, Node>,
    triples: &[Triple],
) -> Result<(), SpaceFault>
    ensures { Gives Memory result (linked nodes.now.entries [] triples.now) }
{
    let mut seen = BTreeSet::new(alloc);
    for triple in triples {
        if !fits(nodes, triple) {
            return Err(SpaceFault::DanglingReference(triple.part));
        }
        if !seen.insert(triple)? {
            return Err(SpaceFault::Duplicate(triple.part));
        }
    }
    Ok(())
}

// The base references, and then the given ones.
fn with_base(alloc: Global, triples: Vec<Triple>) -> Result<Vec<Triple>, SpaceFault>
    requires { vec_len triples < most_triples }
    ensures all { IfOk result (λ all. all.items ≡ base_triples ++ triples.items) }
    ensures len { IfOk result (λ all. vec_len all < 2 ^ 32) }
    ensures fault { IfErr result (λ e. e ≡ Memory) }
{
    let mut triples = triples;
    let mut all = base_triples(alloc, triples.len())?;
    all.append(&mut triples)?;
    Ok(all)
}

// The base nodes and then the given ones, under their ids.
fn all_named(
    alloc: Global,
    base: Vec<Node>,
    nodes: Vec<Node>,
) -> Result<BTreeMap<NodeId, Node>, SpaceFault>
    requires few_base { vec_len base < 2 ^ 32 }
    requires few { vec_len nodes < 2 ^ 32 }
    ensures { GivesAs Memory (λ m. m.entries) result (all_named base.items nodes.items) }
{
    match named(alloc, BTreeMap::new(alloc), 0, base) {
        Err(fault) => Err(fault),
        Ok(known) => named(alloc, known, 1, nodes),
    }
}

impl Space {
    ghost use Rattle.ua_types.specs.Answers.{Gives};
    ghost use Rattle.std.specs.Prelude.{Err};
    ghost use Rattle.ua_space.specs.BaseNodes.{base_nodes};
    ghost use Rattle.ua_space.specs.Build.{space_of};
    ghost use Rattle.ua_space.specs.declared.fault.SpaceFault.TheVariants.{Memory};

    /// The space of the base set, whose values the configuration gives, and of these nodes and
    /// references, which come after it.
    ///
    /// The fault is [`SpaceFault::Limit`], or else the first of the nodes in order, which count from
    /// 1, or else the first of the references in order, or else of the first reference on a loop of
    /// HasSubtype references. Limit is told however little memory there is.
    #[tactic(auto, using(crate::proofs::Making::base_count), unfolding(crate::specs::Build::space_of))]
    pub fn build(
        alloc: Global,
        config: &Config,
        nodes: Vec<Node>,
        triples: Vec<Triple>,
    ) -> Result<Space, SpaceFault>
        ensures space { Gives Memory result (space_of config.now nodes.items triples.items) }
        ensures limit { IfErr (within_limits (base_nodes config.now) nodes.items triples.items) (λ fault. result ≡ Err fault) }
    {
        within_limits(nodes.as_slice(), triples.as_slice())?;
        let base = base_nodes(alloc, config)?;
        let known = all_named(alloc, base, nodes)?;
        let all = with_base(alloc, triples)?;
        linked(alloc, &known, all.as_slice())?;
        let indexes = Indexes::new(alloc, all.as_slice())?;
        let hints = Hints::new(alloc, all.as_slice())?;
        let numbering = Numbering::new(alloc, all.as_slice(), hints.order())?;
        no_loop(all.as_slice(), &indexes.supertypes, &numbering, &hints)?;
        let nodes = NodeTable::new(alloc, known)?;
        Ok(Space::new(nodes, all, indexes, numbering))
    }
}
