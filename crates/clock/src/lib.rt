// How often the host ticks makes no difference, as contracts of functions that do nothing.
#![tactic(auto)]

ghost use Rattle.clock.specs.Clock.{SlowClock};
ghost use Rattle.clock.specs.Hosts.{TwoHosts};

// Ticks whose steps add up to less than 2^31 come to one tick at the last reading.
pub fn slow_clock()
    ensures { SlowClock }
{}

// What follows for a host that ticks every millisecond and one that ticks ten times a second.
pub fn two_hosts()
    ensures { TwoHosts }
{}
