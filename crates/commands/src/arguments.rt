//! The words of the command line, as the system gives them.

ghost use Rattle.std.specs.Prelude.{◌≡◌, IfOk, map, drop, string_bytes};
ghost use Rattle.commands.specs.Commands.{RunsArguments};

use crate::machine::Machine;
use crate::program::{Ended, no_memory, run};
use std::alloc::{AllocError, Global};
use std::io::{Read, Write};
use std::net::Net;
use std::random::RandomSource;
use std::rt::Files;
use std::sync::Wait;
use std::time::Clock;
use store_restoring::OpensStores;
use stream_taps::Tap;

// The texts of these words.
fn texts(alloc: Global, words: &[String]) -> Result<Vec<&str>, AllocError>
    ensures { IfOk result (λ texts. map (λ t. t.now) texts.items ≡ map string_bytes words.now) }
{
    let mut texts = Vec::new(alloc);
    for word in words {
        texts.push(word.as_str())?;
    }
    Ok(texts)
}

// The words after the program's name.
fn words_after_name(alloc: Global, args: &[String]) -> Result<Vec<&str>, AllocError>
    ensures { IfOk result (λ words. map (λ w. w.now) words.items ≡ map string_bytes (drop 1 args.now)) }
{
    if args.is_empty() {
        return Ok(Vec::new(alloc));
    }
    texts(alloc, &args[1..])
}

/// Does what a command line asks for: of its words the first is the program's name, and [`run`] gets all
/// others. Where there is no memory for them, that is said.
pub fn run_args<
    R: Files + AllocGlobal + Net + RandomSource + Clock + Wait,
    P: OpensStores,
    I: Read,
    O: Write,
    E: Write,
>(
    machine: Machine<'_, R, P>,
    args: &[String],
    input: &mut Tap<I>,
    output: &mut Tap<O>,
    errors: &mut E,
) -> Ended
    ensures { RunsArguments I.remaining O.contents input.old input.new output.old output.new
        (map string_bytes (drop 1 args.now)) result }
{
    match words_after_name(machine.rt.alloc(), args) {
        Ok(words) => run(machine, words.as_slice(), input, output, errors),
        Err(_) => Ended::by(no_memory(errors)),
    }
}
