//! What follows from the definitions. The laws have no code: their contracts state them.

ghost use Rattle.ua_session.specs.PointLaws.{StaySound};

/// A session never holds more continuation points than the configuration says, and no serial is given twice.
#[tactic(auto, using(crate::proofs::PointLemmas::stay_sound))]
pub fn points_stay_sound()
    ensures { StaySound }
{}
