//! A guess at where loops of HasSubtype references are, in time that grows with their number.
//!
//! Nothing is proved of the guess itself: whoever uses it tests it (`loops`), or only goes by it in the
//! order of its work (`numbering`). It numbers the strongly
//! connected components of the types, supertypes first: each type is numbered, a walk down the
//! references gives the order in which types are left, and walks up, from the type that was left last
//! on, each reach one component (Kosaraju's and Sharir's algorithm).

ghost use Rattle.std.specs.Prelude.{◌≡◌};
ghost use Rattle.std.specs.List.{list_all};
ghost use Rattle.ua_space.specs.Ranks.{rank_at};

use crate::index::is_subtyping;
use crate::triple::Triple;
use std::alloc::{AllocError, Global};
use std::collections::BTreeMap;
use ua_types::{Copyable, NodeId};

/// A number for each type, and a way round a loop.
#[derive(Drop)]
pub(crate) struct Hints {
    // The place of each type that a HasSubtype reference has as an end.
    numbers: BTreeMap<NodeId, usize>,

    // The component of the type at each place.
    ranks: Vec<usize>,

    // The places of HasSubtype references, each leading to the source of the one before, from the
    // source of the first one that seems to lie on a loop up to its target.
    path: Vec<usize>,

    // The places of HasSubtype references, one that goes out from each supertype, supertypes first.
    order: Vec<usize>,
}

// A HasSubtype reference between two numbered types, and its place among all references.
#[derive(Clone, Copy)]
struct Edge {
    upper: usize,
    lower: usize,
    place: usize,
}

// The edges that leave each type, in one direction, as linked lists: `first` has for each type, and
// `next` for each edge, one more than the number of an edge, or 0.
#[derive(Drop)]
struct Graph {
    down: bool,
    first: Vec<usize>,
    next: Vec<usize>,
}

const UNSEEN: usize = 0;

const START: usize = usize::MAX;

fn zeros(alloc: Global, count: usize) -> Result<Vec<usize>, AllocError> {
    let mut numbers = Vec::with_capacity(alloc, count)?;
    for _ in 0..count {
        numbers.push(0)?;
    }
    Ok(numbers)
}

fn at(numbers: &[usize], place: usize) -> usize {
    match numbers.get(place) {
        None => 0,
        Some(number) => *number,
    }
}

fn write(numbers: &mut [usize], place: usize, number: usize) {
    if let Some(old) = numbers.get_mut(place) {
        *old = number;
    }
}

fn number(
    alloc: Global,
    numbers: &mut BTreeMap<NodeId, usize>,
    id: &NodeId,
) -> Result<usize, AllocError> {
    if let Some(number) = numbers.get(id) {
        return Ok(*number);
    }
    let number = numbers.len();
    numbers.insert(id.copy(alloc)?, number)?;
    Ok(number)
}

fn edges(
    alloc: Global,
    numbers: &mut BTreeMap<NodeId, usize>,
    triples: &[Triple],
) -> Result<Vec<Edge>, AllocError> {
    let mut edges = Vec::new(alloc);
    for (place, triple) in triples.iter().enumerate() {
        if is_subtyping(triple) {
            let upper = number(alloc, numbers, &triple.source)?;
            let lower = number(alloc, numbers, &triple.target)?;
            edges.push(Edge {
                upper,
                lower,
                place,
            })?;
        }
    }
    Ok(edges)
}

impl Graph {
    fn new(alloc: Global, types: usize, edges: &[Edge], down: bool) -> Result<Graph, AllocError> {
        let mut first = zeros(alloc, types)?;
        let mut next = Vec::with_capacity(alloc, edges.len())?;
        for (number, edge) in edges.iter().enumerate() {
            let from = if down { edge.upper } else { edge.lower };
            next.push(at(first.as_slice(), from))?;
            write(first.as_mut_slice(), from, number.saturating_add(1));
        }
        Ok(Graph { down, first, next })
    }

    // Marks each type that is reached from `start` by the edge that reached it, and adds it to
    // `left` once all that leave it are gone along.
    fn walk(
        &self,
        alloc: Global,
        edges: &[Edge],
        start: usize,
        marks: &mut Vec<usize>,
        left: &mut Vec<usize>,
    ) -> Result<(), AllocError> {
        let mut stack = Vec::new(alloc);
        write(marks.as_mut_slice(), start, START);
        stack.push((start, at(self.first.as_slice(), start)))?;
        let most = edges.len().saturating_add(marks.len());
        for _ in 0..most {
            let Some((node, edge)) = stack.pop() else {
                return Ok(());
            };
            match edges.get(edge.wrapping_sub(1)) {
                None => left.push(node)?,
                Some(ends) => {
                    stack.push((node, at(self.next.as_slice(), edge.wrapping_sub(1))))?;
                    let to = if self.down { ends.lower } else { ends.upper };
                    if at(marks.as_slice(), to) == UNSEEN {
                        write(marks.as_mut_slice(), to, edge);
                        stack.push((to, at(self.first.as_slice(), to)))?;
                    }
                }
            }
        }
        Ok(())
    }
}

// The component of each type, and the place of a reference that goes out from each supertype; both with
// supertypes first.
fn components(
    alloc: Global,
    types: usize,
    edges: &[Edge],
) -> Result<(Vec<usize>, Vec<usize>), AllocError> {
    let down = Graph::new(alloc, types, edges, true)?;
    let up = Graph::new(alloc, types, edges, false)?;
    let mut marks = zeros(alloc, types)?;
    let mut order = Vec::with_capacity(alloc, types)?;
    for start in 0..types {
        if at(marks.as_slice(), start) == UNSEEN {
            down.walk(alloc, edges, start, &mut marks, &mut order)?;
        }
    }
    let mut marks = zeros(alloc, types)?;
    let mut ranks = zeros(alloc, types)?;
    let mut component = Vec::new(alloc);
    let mut rank = 0usize;
    let mut places = Vec::with_capacity(alloc, types)?;
    for start in order.iter().rev() {
        if let Some(edge) = edges.get(at(down.first.as_slice(), *start).wrapping_sub(1)) {
            places.push(edge.place)?;
        }
        if at(marks.as_slice(), *start) == UNSEEN {
            component.clear();
            up.walk(alloc, edges, *start, &mut marks, &mut component)?;
            rank = rank.saturating_add(1);
            for node in component.as_slice() {
                write(ranks.as_mut_slice(), *node, rank);
            }
        }
    }
    Ok((ranks, places))
}

// The way from the upper end of an edge down to the lower end of another, from below.
fn way_up(
    alloc: Global,
    types: usize,
    edges: &[Edge],
    ends: &Edge,
) -> Result<Vec<usize>, AllocError> {
    let down = Graph::new(alloc, types, edges, true)?;
    let mut marks = zeros(alloc, types)?;
    let mut left = Vec::new(alloc);
    down.walk(alloc, edges, ends.lower, &mut marks, &mut left)?;
    let mut path = Vec::new(alloc);
    let mut node = ends.upper;
    for _ in 0..types {
        match edges.get(at(marks.as_slice(), node).wrapping_sub(1)) {
            None => return Ok(path),
            Some(edge) => {
                path.push(edge.place)?;
                node = edge.upper;
            }
        }
    }
    Ok(path)
}

impl Hints {
    /// What may be seen of these references.
    pub(crate) fn new(alloc: Global, triples: &[Triple]) -> Result<Hints, AllocError> {
        let mut numbers = BTreeMap::new(alloc);
        let edges = edges(alloc, &mut numbers, triples)?;
        let types = numbers.len();
        let (ranks, order) = components(alloc, types, edges.as_slice())?;
        let mut path = Vec::new(alloc);
        for edge in edges.as_slice() {
            if at(ranks.as_slice(), edge.upper) == at(ranks.as_slice(), edge.lower) {
                path = way_up(alloc, types, edges.as_slice(), edge)?;
                break;
            }
        }
        Ok(Hints {
            numbers,
            ranks,
            path,
            order,
        })
    }

    /// The number of a type.
    pub(crate) fn rank(&self, id: &NodeId) -> usize
        ensures { result ≡ rank_at self.now.numbers.entries self.now.ranks.items id.now }
    {
        match self.numbers.get(id) {
            None => 0,
            Some(number) => match self.ranks.get(*number) {
                None => 0,
                Some(rank) => *rank,
            },
        }
    }

    /// The way round a loop.
    pub(crate) fn path(&self) -> &[usize] {
        self.path.as_slice()
    }

    /// The places of HasSubtype references, in an order in which the supertypes come first.
    pub(crate) fn order(&self) -> &[usize] {
        self.order.as_slice()
    }
}
