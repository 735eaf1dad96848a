//! References between nodes, and where they are declared.

ghost use Rattle.std.specs.Prelude.{◌≡◌, refl};
ghost use Rattle.std.specs.Cmp.{partial_equiv_from_equiv, po};
ghost use Rattle.std.specs.Ordering.{as_partial_cmp};
ghost use Rattle.ua_space.specs.TripleOrder.{same_triple, triple_cmp, same_triple_equiv, triple_cmp_total, triple_ties};

use std::cmp::Ordering;
use std::fmt;
use ua_types::NodeId;

/// The place that declares a node or a reference. Nodes and references count from 1.
#[derive(Clone, Copy, Debug, PartialEq, Eq)]
pub enum Part {
    /// The node file as a whole, or the base set.
    File,
    /// The file's settings of the server.
    Server,
    Node(u64),
    Reference(u64),
}

impl fmt::Display for Part {
    fn fmt<W: fmt::Write>(&self, f: &mut fmt::Formatter<W>) -> Result<(), fmt::Error> {
        match self {
            Part::File => write!(f, "file 0"),
            Part::Server => write!(f, "server 0"),
            Part::Node(number) => write!(f, "node {number}"),
            Part::Reference(number) => write!(f, "reference {number}"),
        }
    }
}

/// A reference from one node to another (IEC 62541-3, "Reference model").
///
/// References with the same ends and type are equal, whatever part declares them. They go by source,
/// then by type, then by target.
#[derive(Debug, Drop)]
pub struct Triple {
    /// The node that the reference goes out from.
    pub source: NodeId,
    /// Its type, the id of a ReferenceType node.
    pub reference_type: NodeId,
    /// The node that it leads to.
    pub target: NodeId,
    /// Where it is declared.
    pub part: Part,
}

impl PartialEq for Triple {
    ghost eq = { same_triple };

    ghost laws = { partial_equiv_from_equiv same_triple_equiv };

    fn eq(&self, other: &Triple) -> bool {
        self.source == other.source
            && self.reference_type == other.reference_type
            && self.target == other.target
    }
}

impl Eq for Triple {
    ghost laws = { same_triple_equiv };
}

impl PartialOrd for Triple {
    ghost partial_cmp = { as_partial_cmp triple_cmp };

    ghost laws = { po triple_cmp_total triple_ties };

    fn partial_cmp(&self, other: &Triple) -> Option<Ordering> {
        Some(self.cmp(other))
    }
}

impl Ord for Triple {
    ghost cmp = { triple_cmp };

    ghost total = { triple_cmp_total };

    ghost matches_partial_cmp = { λ x y. refl };

    ghost matches_eq = { triple_ties };

    fn cmp(&self, other: &Triple) -> Ordering {
        self.source
            .cmp(&other.source)
            .then(self.reference_type.cmp(&other.reference_type))
            .then(self.target.cmp(&other.target))
    }
}
