//! What a variable's values from before the server began have to be.

ghost use Rattle.std.specs.Prelude.{◌≡◌};
ghost use Rattle.ua_space.specs.Histories.{follows, is_historizing, is_history, rises};

use crate::node::{Node, NodeDetails};
use ua_types::{DataValue, Moment};

// Whether the node is a Variable whose history the server keeps.
fn is_historizing(details: &NodeDetails) -> bool
    ensures { result ≡ is_historizing details.now }
{
    match details {
        NodeDetails::Variable(variable) => variable.historizing,
        _ => false,
    }
}

// Whether a time is later than the last one, if there is one.
fn follows(last: Option<Moment>, time: Moment) -> bool
    ensures { result ≡ follows last time }
{
    match last {
        None => true,
        Some(last) => last.0 < time.0,
    }
}

// Each value has a source time, and those of all that follow are later.
fn rises(values: &[DataValue]) -> bool
    ensures { result ≡ rises values.now }
{
    let mut last = None;
    for value in values {
        let Some(time) = value.source_time else {
            return false;
        };
        if !follows(last, time) {
            return false;
        }
        last = Some(time);
    }
    true
}

/// Whether the node has no values from before, or may have them: its history is kept, and their source
/// times rise.
pub(crate) fn is_history(node: &Node) -> bool
    ensures { result ≡ is_history node.now }
{
    let values = node.history.as_slice();
    values.is_empty() || (is_historizing(&node.details) && rises(values))
}
