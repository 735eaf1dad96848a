//! How the end of a connection is told.

use socket_server::End;
use std::io::{ErrorKind, Write};
use ua_types::Status;

// The name of a status with which the server ends connections or refuses sessions. None for any other.
fn name_of(status: Status) -> Option<&'static str> {
    let name = match status {
        Status::BAD_DECODING_ERROR => "Bad_DecodingError",
        Status::BAD_SHUTDOWN => "Bad_Shutdown",
        Status::BAD_IDENTITY_TOKEN_REJECTED => "Bad_IdentityTokenRejected",
        Status::BAD_SECURE_CHANNEL_ID_INVALID => "Bad_SecureChannelIdInvalid",
        Status::BAD_SECURITY_MODE_REJECTED => "Bad_SecurityModeRejected",
        Status::BAD_SECURITY_POLICY_REJECTED => "Bad_SecurityPolicyRejected",
        Status::BAD_TOO_MANY_SESSIONS => "Bad_TooManySessions",
        Status::BAD_TCP_MESSAGE_TYPE_INVALID => "Bad_TcpMessageTypeInvalid",
        Status::BAD_TCP_SECURE_CHANNEL_UNKNOWN => "Bad_TcpSecureChannelUnknown",
        Status::BAD_TCP_MESSAGE_TOO_LARGE => "Bad_TcpMessageTooLarge",
        Status::BAD_TCP_NOT_ENOUGH_RESOURCES => "Bad_TcpNotEnoughResources",
        Status::BAD_TCP_ENDPOINT_URL_INVALID => "Bad_TcpEndpointUrlInvalid",
        Status::BAD_SECURE_CHANNEL_TOKEN_UNKNOWN => "Bad_SecureChannelTokenUnknown",
        Status::BAD_SEQUENCE_NUMBER_INVALID => "Bad_SequenceNumberInvalid",
        _ => return None,
    };
    Some(name)
}

/// The end of a line: a status by name, or its number where it has none here.
pub(crate) fn tell_status<E: Write>(errors: &mut E, status: Status) {
    let _ = match name_of(status) {
        Some(name) => writeln!(errors, "{name}"),
        None => {
            let Status(number) = status;
            writeln!(errors, "{number:#010X}")
        }
    };
}

// A number of bytes above 0, with its thousands apart.
fn tell_owed<E: Write>(errors: &mut E, bytes: usize) {
    let parts = [
        bytes / 1_000_000_000_000_000_000,
        bytes / 1_000_000_000_000_000 % 1_000,
        bytes / 1_000_000_000_000 % 1_000,
        bytes / 1_000_000_000 % 1_000,
        bytes / 1_000_000 % 1_000,
        bytes / 1_000 % 1_000,
        bytes % 1_000,
    ];
    let _ = write!(errors, "let go: owed ");
    let mut is_begun = false;
    for part in parts {
        if is_begun {
            let _ = write!(errors, ",{part:03}");
        } else if part > 0 {
            let _ = write!(errors, "{part}");
            is_begun = true;
        }
    }
    let _ = writeln!(errors, " bytes");
}

fn tell_failed<E: Write>(errors: &mut E, kind: Option<ErrorKind>) {
    let _ = match kind {
        Some(kind) => writeln!(errors, "failed: {kind:?}"),
        None => writeln!(errors, "failed"),
    };
}

/// The end of the line that tells how a connection ended. A client that closes its channel, or tells an error, has closed its connection.
pub(crate) fn tell_end<E: Write>(errors: &mut E, end: End) {
    match end {
        End::Client | End::Server(None) => {
            let _ = writeln!(errors, "closed by the client");
        }
        End::Server(Some(status)) => {
            let _ = write!(errors, "ended by the server: ");
            tell_status(errors, status);
        }
        End::Silent(seconds) => {
            let _ = writeln!(errors, "let go: silent for {seconds} s");
        }
        End::Owed(bytes) => tell_owed(errors, bytes),
        End::Failed(kind) => tell_failed(errors, kind),
    }
}
