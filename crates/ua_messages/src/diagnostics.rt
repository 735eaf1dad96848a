//! Diagnostic infos, of which none is read and none written.

ghost use Rattle.std.specs.Prelude.{⊤};
ghost use Rattle.ua_messages.specs.Diagnostics.{diagnostic_info_reading, diagnostic_info_encoding, diagnostic_infos_reading, diagnostic_infos_encoding};

use std::alloc::{AllocError, Global};
use ua_binary::{Cursor, NULL_LENGTH, TakeFault, Wire};

/// The diagnostic info that says nothing (DiagnosticInfo, IEC 62541-6, 5.2.2.12): a byte 0.
///
/// No client of this server has more to say, and the server doesn't: any other byte is
/// [`TakeFault::Form`].
#[derive(Clone, Copy, Debug, PartialEq, Eq)]
pub struct DiagnosticInfo;

#[tactic(auto, unfolding(crate::specs::Diagnostics::diagnostic_info_reading, crate::specs::Diagnostics::diagnostic_info_encoding))]
impl Wire for DiagnosticInfo {
    ghost reading = { diagnostic_info_reading };

    ghost encoding = { diagnostic_info_encoding };

    ghost spares_memory = { λ _. ⊤ };

    fn decode(_alloc: Global, cursor: &mut Cursor<'_>) -> Result<DiagnosticInfo, TakeFault> {
        match cursor.byte()? {
            0 => Ok(DiagnosticInfo),
            _ => Err(TakeFault::Form),
        }
    }

    fn encode(&self, out: &mut Vec<u8>) -> Result<(), AllocError> {
        0u8.encode(out)
    }
}

/// A list of diagnostic infos that is null.
///
/// An empty list is read as null. One with elements is [`TakeFault::Form`], or
/// [`TakeFault::Length`] where it claims more than bytes are left.
#[derive(Clone, Copy, Debug, PartialEq, Eq)]
pub struct DiagnosticInfos;

#[tactic(auto, unfolding(crate::specs::Diagnostics::diagnostic_infos_reading, crate::specs::Diagnostics::diagnostic_infos_encoding))]
impl Wire for DiagnosticInfos {
    ghost reading = { diagnostic_infos_reading };

    ghost encoding = { diagnostic_infos_encoding };

    ghost spares_memory = { λ _. ⊤ };

    fn decode(_alloc: Global, cursor: &mut Cursor<'_>) -> Result<DiagnosticInfos, TakeFault> {
        let len = cursor.number()?;
        if len == 0 || len >= 1 << 31 {
            Ok(DiagnosticInfos)
        } else if cursor.rest().len() < len as usize {
            Err(TakeFault::Length)
        } else {
            Err(TakeFault::Form)
        }
    }

    fn encode(&self, out: &mut Vec<u8>) -> Result<(), AllocError> {
        NULL_LENGTH.encode(out)
    }
}
