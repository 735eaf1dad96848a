//! What follows from the definition of a node file.

ghost use Rattle.std.specs.Prelude.{◌≡◌, pos, codes, [], Ok};
ghost use Rattle.toml.specs.Data.{integer, member, no_members};
ghost use Rattle.ua_types.specs.Configuration.{standard};
ghost use Rattle.node_loader.specs.File.{contents_of};
ghost use Rattle.node_loader.specs.Histories.{NodesHaveHistories};
ghost use Rattle.node_loader.specs.Kept.{VersionOneIsKept, VersionTwoAgrees};
ghost use Rattle.node_loader.specs.Ordered.{NodesAreInOrder};
ghost use Rattle.node_loader.specs.Smallest.{SmallestObject, SmallestVariable, SmallestObjectType, SmallestVariableType, SmallestReferenceType, SmallestDataType, HangsByOrganizes, ValuesHaveTheirType};

/// A file that says nothing but its version has the standard configuration, no nodes and no
/// references: the defaults of the table `server` are those of `Config::standard`.
pub fn says_nothing()
    ensures { contents_of (member (codes "version") (integer (pos 1)) no_members) ≡ Ok (record { config = standard; nodes = []; triples = [] }) }
{}

/// The smallest node of each class, which says only what it must: each other attribute has its default,
/// and so have the references that come with it.
pub fn smallest_nodes()
    ensures object { SmallestObject }
    ensures variable { SmallestVariable }
    ensures object_type { SmallestObjectType }
    ensures variable_type { SmallestVariableType }
    ensures reference_type { SmallestReferenceType }
    ensures data_type { SmallestDataType }
    ensures hangs { HangsByOrganizes }
{}

/// A value is of the type that its node names, and is a list where the node says so.
pub fn values_have_their_type()
    ensures { ValuesHaveTheirType }
{}

/// The nodes of a file stand in its order: at each place the one that the entry there means.
pub fn nodes_are_in_order()
    ensures { NodesAreInOrder }
{}

/// A file whose `version` is 1 means what it meant before there was a second version (`specs/VersionOne`), or
/// has the fault that it had.
pub fn version_one_is_kept()
    ensures { VersionOneIsKept }
{}

/// What version 1 accepted is the same as a file of version 2: the nodes, with no values from before, the
/// references and the configuration.
pub fn version_two_agrees()
    ensures { VersionTwoAgrees }
{}

/// The values from before that a node of a file has are a history: only a variable whose history is kept has
/// any, and their source times rise. So the space finds no fault with them.
pub fn nodes_have_histories()
    ensures { NodesHaveHistories }
{}
