//! What follows from the definition of a space.

ghost use Rattle.std.specs.Prelude.{◌≡◌};
ghost use Rattle.ua_space.specs.Made.{SpacesAreMade};
ghost use Rattle.ua_space.specs.Spaces.{most_nodes, most_triples};

/// A built space has each node of the base set and each given one under its id and no others, and the base
/// set's references before the given ones, in their order.
pub fn spaces_are_made()
    ensures { SpacesAreMade }
{}

/// So many nodes and references a space has at most.
pub fn limits_are_these()
    ensures nodes { most_nodes ≡ 1000000 }
    ensures references { most_triples ≡ 4000000 }
{}
