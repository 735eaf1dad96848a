//! `check` of a node file, and what it explains.

ghost use Rattle.scenario_run.specs.Held.{place};
ghost use Rattle.commands.specs.Commands.{ChecksFile};

use crate::exit_status::ExitStatus;
use crate::program::{Ended, check, read_file};
use node_file_advice::{advice, durations};
use std::alloc::{AllocError, Global};
use std::fs;
use std::io::Write;
use std::rt::Files;
use stream_taps::Tap;

// What stands below the line of a text whose check ended so.
fn explanation(alloc: Global, text: &str, status: ExitStatus) -> Result<String, AllocError> {
    match status {
        ExitStatus::Done => durations(alloc, text),
        ExitStatus::Nodes => advice(alloc, text),
        _ => Ok(String::new(alloc)),
    }
}

/// Says on standard error, below the line of a text whose check ended so, what is wrong with it in its own words, or how long its
/// durations are. Without memory for that nothing is said.
pub fn explain<E: Write>(alloc: Global, text: &str, status: ExitStatus, errors: &mut E) {
    if let Ok(told) = explanation(alloc, text, status) {
        let _ = write!(errors, "{told}");
    }
}

// `explain`, where it is asked for.
fn explain_if<E: Write>(
    asked: bool,
    alloc: Global,
    text: &str,
    status: ExitStatus,
    errors: &mut E,
) {
    if asked {
        explain(alloc, text, status, errors);
    }
}

// Says the system's reason why there is no file at this path, where it is asked for.
fn explain_file<R: Files + AllocGlobal, E: Write>(
    asked: bool,
    rt: &R,
    path: &str,
    status: ExitStatus,
    errors: &mut E,
) {
    if asked && status == ExitStatus::File {
        if let Err(error) = fs::read_to_string(rt, path) {
            let _ = writeln!(errors, "{error}");
        }
    }
}

/// `check` of the node file at this path, which explains where it is asked to.
pub(crate) fn check_at<R: Files + AllocGlobal, O: Write, E: Write>(
    rt: &R,
    path: &str,
    explains: bool,
    output: &mut Tap<O>,
    errors: &mut E,
) -> Ended
    ensures { ChecksFile (place O.contents output.old) (place O.contents output.new) path.now result.status result.file }
{
    match read_file(rt, path, errors) {
        Ok(file) => {
            let status = check(rt.alloc(), file.text(), output, errors);
            explain_if(explains, rt.alloc(), file.text(), status, errors);
            Ended::with_nodes(status, file)
        }
        Err(status) => {
            explain_file(explains, rt, path, status, errors);
            Ended::by(status)
        }
    }
}
