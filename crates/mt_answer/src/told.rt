//! What builders of patterns say, in the words of the checks.

ghost use Rattle.mt_answer.specs.Told.{PatternsAreTold};

/// What builders of patterns say of texts is what the checks ask of them. It does nothing.
pub fn patterns_are_told()
    ensures { PatternsAreTold }
{}
