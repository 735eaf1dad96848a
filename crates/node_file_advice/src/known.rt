//! Keys that aren't known.

use crate::judging::Judge;
use crate::rules::Rule;
use crate::told::{Told, joined};
use std::alloc::AllocError;
use strsim::levenshtein;
use toml::Table;

// So many edits and more between two keys are too many for one to be meant by the other.
const FAR: usize = 3;

// Whether a part has a key.
fn is_known(judge: &Judge, rules: &[Rule], key: &str) -> bool {
    rules.iter().any(|rule| rule.key == key && (judge.is_later || rule.first >= 0))
}

// The nearest of the keys so far, and its distance.
#[derive(Clone, Copy)]
struct Nearest {
    key: &'static str,
    edits: usize,
}

fn nearer(
    judge: &Judge,
    rules: &[Rule],
    key: &str,
    before: Nearest,
) -> Result<Nearest, AllocError> {
    let mut nearest = before;
    for rule in rules {
        let edits = levenshtein(judge.alloc, key, rule.key)?;
        if edits < nearest.edits && (judge.is_later || rule.first >= 0) {
            nearest = Nearest {
                key: rule.key,
                edits,
            };
        }
    }
    Ok(nearest)
}

// What is told of a key that isn't known in a part of this kind.
fn unknown<'x>(
    judge: &Judge,
    kind: &'x str,
    common: &[Rule],
    own: &[Rule],
    key: &'x str,
) -> Result<Told, AllocError> {
    let none = Nearest {
        key: "",
        edits: FAR,
    };
    let nearest = nearer(judge, own, key, nearer(judge, common, key, none)?)?;
    let mut text = joined(judge.alloc, &["the key ", key, " isn't known in ", kind])?;
    text.push_str(if judge.is_later {
        " of version 2"
    } else {
        " of version 1"
    })?;
    if nearest.edits < FAR {
        text.push_str("; the nearest is ")?;
        text.push_str(nearest.key)?;
    }
    Ok(Told { text: Some(text) })
}

/// Whether a part of this kind has no other keys than these, those of all such parts and its own.
pub(crate) fn known<'x>(
    judge: &Judge,
    kind: &'x str,
    common: &[Rule],
    own: &[Rule],
    table: &'x Table,
) -> Result<(), Told> {
    for key in table.keys() {
        let key = key.as_str();
        if !is_known(judge, common, key) && !is_known(judge, own, key) {
            return Err(unknown(judge, kind, common, own, key)?);
        }
    }
    Ok(())
}
