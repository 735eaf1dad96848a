//! What stands in a line.

ghost use Rattle.std.specs.Prelude.{◌≡◌};
ghost use Rattle.scenario_text.specs.Readings.{Reading, Reads, ReadsAs};
ghost use Rattle.scenario_text.specs.Entries.{entries_reading, entries_within};

use crate::fault::Cause;
use crate::words::Words;
use std::alloc::Global;
use ua_types::Listed;

/// What one or more words of a line say.
pub(crate) trait Phrase: Drop {
    /// What a line begins with: a value and the rest of the line, or what is wrong with its leftmost bad word.
    ghost reading: { Reading Self };

    /// Reads the words from left to right.
    fn read(alloc: Global, words: &mut Words<'_>) -> Result<Self, Cause>
        ensures { Reads result words.new (reading words.old) };
}

// At most so many of them.
#[tactic(auto, using(crate::proofs::Entries::begins))]
fn entries_within<T: Phrase>(
    alloc: Global,
    most: usize,
    words: &mut Words<'_>,
) -> Result<Vec<T>, Cause>
    ensures { ReadsAs (λ v. v.items) result words.new (entries_within most T.reading words.old) }
{
    let mut entries = Vec::new(alloc);
    for _ in 0..most {
        if !words.has_more() {
            return Ok(entries);
        }
        let entry = T::read(alloc, words)?;
        entries.push(entry)?;
    }
    Ok(entries)
}

/// One after another up to the line's end, or none.
impl<T: Phrase> Phrase for Listed<T> {
    ghost reading = { entries_reading T.reading };

    #[tactic(auto, unfolding(crate::specs::Entries::entries_reading))]
    fn read(alloc: Global, words: &mut Words<'_>) -> Result<Listed<T>, Cause> {
        let most = words.len();
        let entries = entries_within(alloc, most, words)?;
        Ok(Listed::from_vec(entries))
    }
}
