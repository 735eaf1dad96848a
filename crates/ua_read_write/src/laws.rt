//! What follows from the definition of Write. The laws have no code: their contracts state them.

ghost use Rattle.ua_read_write.specs.WritingLaws.{ChangesValuesAlone, JudgesEachAlone, JudgesWholeValuesAlone, ReadsThePartThatWasWritten, ReadsWhatWasWritten};

/// A Write changes nothing but values: each node is afterwards what it was, but that a variable that was
/// given values has the last of them.
#[tactic(auto, using(crate::proofs::WrittenNodes::changes_values_alone))]
pub fn changes_values_alone()
    ensures { ChangesValuesAlone }
{}

/// What becomes of a value without an index range depends on none of the others: it is judged as if it were alone.
#[tactic(auto, using(crate::proofs::WrittenNodes::judges_whole_values_alone))]
pub fn judges_whole_values_alone()
    ensures { JudgesWholeValuesAlone }
{}

/// Where no value has an index range, each has the status that it would have alone, and those that are accepted are
/// stored, in the order of the request.
#[tactic(auto, using(crate::proofs::WrittenNodes::judges_each_alone))]
pub fn judges_each_alone()
    ensures { JudgesEachAlone }
{}

/// What is read of a variable's value after a Write is the last value that it was given, with the clock as the
/// server's time.
#[tactic(auto, using(crate::proofs::ReadAfterwards::reads_what_was_written))]
pub fn reads_what_was_written()
    ensures { ReadsWhatWasWritten }
{}

/// Where elements of a variable's list were written, what is read of their range then is what was written, a list without
/// dimensions.
#[tactic(auto, using(crate::proofs::PartAfterwards::reads_the_part_that_was_written))]
pub fn reads_the_part_that_was_written()
    ensures { ReadsThePartThatWasWritten }
{}
