//! Laws of how a registry is read. Each function proves its law, and does nothing.
#![tactic(auto)]

ghost use Rattle.mt_registry_laws.specs.Laws.{MappersAreAtHand};

/// The mappers that a registry names are at hand where it is read.
pub fn mappers_are_at_hand()
    ensures { MappersAreAtHand }
{}
