//! The laws of the conditions. The functions do nothing: their contracts are what is proved.

ghost use Rattle.main_vcs.specs.Events.{EventsAreGood};
ghost use Rattle.main_vcs.specs.Soundness.{ConditionsAreSound};

/// Where all conditions of a module are valid, no run of its linked program goes wrong, and one that is done has written what
/// Main claims.
#[tactic(auto, using(crate::proofs::Sound::conditions_sound))]
pub fn conditions_are_sound()
    ensures { ConditionsAreSound }
{}

/// Where all conditions of a module are valid, all events of its linked program's runs are good: the call of Main, and its return with an output
/// that Main claims.
#[tactic(auto, using(crate::proofs::Events::events_good))]
pub fn events_are_good()
    ensures { EventsAreGood }
{}
