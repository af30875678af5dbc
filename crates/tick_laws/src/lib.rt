//! At which moments a daemon ticks.
#![tactic(auto)]

ghost use Rattle.tick_laws.specs.Ticks.{TicksAlwaysAreDue};

/// A daemon's node ticks at a moment that the daemon reads just where 100 milliseconds have passed since the last tick, or since the
/// start. So ticks are at least that far apart, and so many take at least that long, by the daemon's own clock.
pub fn ticks_are_due()
    ensures { TicksAlwaysAreDue }
{}
