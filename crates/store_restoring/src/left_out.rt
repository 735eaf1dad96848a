//! What is left out of a space, and why.

use server_messages::KeptValue;
use std::fmt;

/// Why a space doesn't take a value that was kept.
#[derive(Clone, Copy, Debug, PartialEq, Eq)]
pub enum Misfit {
    /// There is no node with this id.
    NoNode,
    /// The node is no Variable.
    NotAVariable,
    /// The variable's history isn't kept.
    NotHistorizing,
    /// A value of a history has no source time.
    Untimed,
    /// The value is of another type or rank than the variable's, or there is none.
    OtherType,
}

impl fmt::Display for Misfit {
    fn fmt<W: fmt::Write>(&self, f: &mut fmt::Formatter<W>) -> Result<(), fmt::Error> {
        let why = match self {
            Misfit::NoNode => "there is no such node",
            Misfit::NotAVariable => "the node is no Variable",
            Misfit::NotHistorizing => "the variable's history isn't kept",
            Misfit::Untimed => "the value has no source time",
            Misfit::OtherType => "the value is of another type or rank",
        };
        f.write_str(why)
    }
}

/// A value that was kept, and isn't put into a space.
#[derive(Debug, Drop)]
pub struct LeftOut {
    pub kept: KeptValue,
    /// It was kept in the variable's history, and not as its value.
    pub is_historical: bool,
    pub why: Misfit,
}
