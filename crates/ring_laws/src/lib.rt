//! When rings miss their members.
#![tactic(auto)]

pub mod samples;

ghost use Rattle.ring_laws.specs.Deaths.{DeathsAreOfTheSilent};
ghost use Rattle.ring_laws.specs.Missed.{OnlyTheSilentAreMissed};

/// In each life of an adapter's ring, whatever comes in whatever order: a DEATH is told only of the member that the adapter watches, in a
/// tick, where at least `every * misses` ticks were silent, this one with them; a gathering that asks others leaves out a member of the
/// ring only for such a silence, or as a DEATH of this ring came; and the ring is set to another only as its leader commits it, as a
/// gathering of the adapter's own closes, or, alone, after three times as many silent ticks.
pub fn only_the_silent_are_missed()
    ensures { OnlyTheSilentAreMissed }
{}

/// Whatever happens to the rings of one network, in whatever order: each DEATH that was sent its sender told in a tick, of the member
/// that it watched then, in the ring that it was in, where at least `every * misses` of its own ticks were silent.
pub fn deaths_are_of_the_silent()
    ensures { DeathsAreOfTheSilent }
{}
