// The theorems of the product, as contracts of functions that do nothing: each has its line in the verdict.
#![tactic(auto)]

ghost use Rattle.promise.specs.Kept.{CallsKeep};
ghost use Rattle.promise.specs.Whole.{DemandThree};
ghost use Rattle.promise.specs.Examples.{ExamplesWorked};
ghost use Rattle.promise.specs.Closure.{ClosureLeavesNothing};
ghost use Rattle.promise.specs.Heartbeats.{HeartbeatSent};
ghost use Rattle.promise.specs.Overrun.{NoOverrun};
ghost use Rattle.promise.specs.Reset.{ResetByKey, RackFreeAgain};
ghost use Rattle.promise.specs.ResetExamples.{ResetWorked};
ghost use Rattle.promise.specs.ContextExamples.{ContextsWorked};
ghost use Rattle.promise.specs.ResetKey.{LatestKeyCounts, KeyStaysInside};

// Every call keeps the record rules and the area, so refusals 1 and 2 never come in a run.
pub fn calls_keep()
    ensures { CallsKeep }
{}

// R81. From a fresh record on, every answer, output, record and area is what the rules give over whole messages, and undecided bytes.
pub fn demand_three()
    ensures { DemandThree }
{}

// R83. The examples, as one table.
pub fn examples_worked()
    ensures { ExamplesWorked }
{}

// At a closure nothing of that connection is left, and nothing of the others is touched.
pub fn closure_leaves_nothing()
    ensures { ClosureLeavesNothing }
{}

// A connection on which nothing was sent for its heartbeat is due, and the takes that follow send it something.
pub fn heartbeat_sent()
    ensures { HeartbeatSent }
{}

// No count comes near the end of 64 bits, so there is no refusal 7: a record whose counts could run over is refused by 1.
pub fn no_overrun()
    ensures { NoOverrun }
{}

// Exactly when a datagram resets, what it leaves, and that any other changes nothing.
pub fn reset_by_key()
    ensures { ResetByKey }
{}

// After a reset every channel can be locked, and the first to ask for it gets it.
pub fn rack_free_again()
    ensures { RackFreeAgain }
{}

// Only 3.14 with status 0 or a reset changes the key, over any list of calls.
pub fn latest_key_counts()
    ensures { LatestKeyCounts }
{}

// But for whether a datagram was the key, no answer, reply, notification or byte of the area tells anything of it.
pub fn key_stays_inside()
    ensures { KeyStaysInside }
{}

// Statuses of 3.14, datagrams and a rack that hung, as one computed table.
pub fn reset_worked()
    ensures { ResetWorked }
{}

// Subscriptions with contexts of 0, 1, 63, 64 and 65 bytes, and what is then sent, as one computed table.
pub fn contexts_worked()
    ensures { ContextsWorked }
{}
