//! A whole text.

ghost use Rattle.std.specs.Prelude.{◌≡◌, ◌≢◌, ◌++◌, map, IfOk, OnOk};
ghost use Rattle.std.specs.Str.Lines.{lines};
ghost use Rattle.scenario_text.specs.declared.fault.Cause.TheVariants.{Memory};
ghost use Rattle.scenario_text.specs.Statements.{after_line};
ghost use Rattle.scenario_text.specs.Scenarios.{Means, listed, scenario_of, meaning_of};

use crate::fault::{AsmFault, Cause};
use crate::known::Known;
use crate::statement::Statement;
use std::alloc::{AllocError, Global};
use ua_types::Listed;

/// A line that says something.
#[derive(Debug, Drop)]
pub struct Line {
    /// The number of the line, from 1. Lines that are blank or a comment count too.
    pub number: u64,
    pub statement: Statement,
}

/// What a text says up to its first bad line.
#[derive(Debug, Drop)]
pub struct Scenario {
    /// The lines that say something, in their order.
    pub lines: Listed<Line>,
    /// The first bad line, if there is one. Nothing is read behind it.
    pub fault: Option<AsmFault>,
}

// The lines, without the newline or carriage return and newline that ends them.
fn lines_of(alloc: Global, text: &str) -> Result<Vec<&str>, AllocError>
    ensures { IfOk result (λ v. map (λ l. l.now) v.items ≡ lines text.now) }
{
    text.lines().collect(alloc)
}

// Knows what a line said, and lists it.
fn keep(
    alloc: Global,
    known: &mut Known,
    lines: &mut Vec<Line>,
    number: u64,
    said: Option<Statement>,
) -> Result<(), AllocError>
    ensures known { OnOk result (known.new ≡ after_line known.old said) }
    ensures lines { OnOk result (lines.new.items ≡ lines.old.items ++ listed number said) }
{
    match said {
        None => Ok(()),
        Some(statement) => {
            known.note(alloc, &statement)?;
            match lines.push(Line { number, statement }) {
                Ok(()) => Ok(()),
                Err(e) => Err(AllocError::from(e)),
            }
        }
    }
}

// What is wrong with a line, unless memory ran out.
fn fault_at(number: u64, cause: Cause) -> Result<AsmFault, AllocError>
    ensures fault { IfOk result (λ f. f ≡ record { cause = cause; line = number }) }
    ensures said { OnOk result (cause ≢ Memory) }
{
    match cause {
        Cause::Memory => Err(AllocError),
        _ => Ok(AsmFault {
            cause,
            line: number,
        }),
    }
}

/// What a text says up to its first bad line.
pub fn readable(alloc: Global, text: &str) -> Result<Scenario, AllocError>
    ensures { IfOk result (λ s. s ≡ scenario_of text.now) }
{
    let texts = lines_of(alloc, text)?;
    let mut known = Known::new(alloc);
    let mut lines = Vec::new(alloc);
    for (place, text) in texts.iter().enumerate() {
        let number = place as u64 + 1;
        match known.read(alloc, text) {
            Ok(said) => keep(alloc, &mut known, &mut lines, number, said)?,
            Err(cause) => {
                let fault = fault_at(number, cause)?;
                return Ok(Scenario {
                    lines: Listed::from_vec(lines),
                    fault: Some(fault),
                });
            }
        }
    }
    Ok(Scenario {
        lines: Listed::from_vec(lines),
        fault: None,
    })
}

/// The lines of a text that say something, in their order.
///
/// The error is the first bad line with the cause of its leftmost bad word; `Memory` comes only where an
/// allocation failed.
pub fn read(alloc: Global, text: &str) -> Result<Listed<Line>, AsmFault>
    ensures { Means result (meaning_of text.now) }
{
    let Scenario { lines, fault } = readable(alloc, text)?;
    match fault {
        None => Ok(lines),
        Some(fault) => Err(fault),
    }
}
