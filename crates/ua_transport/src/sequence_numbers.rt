//! The numbers by which chunks are counted.

ghost use Rattle.std.specs.Prelude.{◌≡◌, ◌≤◌};
ghost use Rattle.ua_transport.specs.SequenceNumbers.{may_follow as may_follow_spec, sequence_number_after as sequence_number_after_spec};

// Whether a chunk with this sequence number may come after the last one. The first is free; near the
// end of the numbers the client may begin again.
pub(crate) fn may_follow(received: Option<u32>, sequence_number: u32) -> bool
    ensures { result ≡ may_follow_spec received sequence_number }
{
    match received {
        None => true,
        Some(last) => {
            (last < u32::MAX && sequence_number == last + 1)
                || (last > 4_294_966_271 && sequence_number < 1024)
        }
    }
}

/// The sequence number of the next chunk that is sent: they count from 1, and after 4294966272 comes 1.
pub fn sequence_number_after(sent: u32) -> u32
    ensures value { result ≡ sequence_number_after_spec sent }
    ensures small { result ≤ 4294966272 }
{
    if sent < 4_294_966_272 { sent + 1 } else { 1 }
}
