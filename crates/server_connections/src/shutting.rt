//! How a connection is closed as the server shuts down.

ghost use Rattle.std.specs.Prelude.{◌≡◌, OnOk};
ghost use Rattle.server_connections.specs.Delivering.{said};
ghost use Rattle.server_connections.specs.Shutting.{shut_by, said_behind};

use crate::connection::Phase;
use crate::reactions::put_refusal;
use collections::ShortList;
use server_messages::Out;
use std::alloc::{AllocError, Global};
use ua_types::Status;

/// Closes a connection, which is in this phase, and tells it so if it is open.
pub(crate) fn close_open(
    alloc: Global,
    conn: u64,
    phase: &mut Phase,
    outs: &mut ShortList<Out>,
) -> Result<(), AllocError>
    ensures { OnOk result (said phase.new outs.new ≡ said_behind outs.old (shut_by conn phase.old)) }
{
    match phase {
        Phase::Closed => Ok(()),
        Phase::Greeting | Phase::Talking(_) => {
            put_refusal(alloc, conn, Status::BAD_SHUTDOWN, outs)?;
            *phase = Phase::Closed;
            Ok(())
        }
    }
}
