// The technician's question, as contracts of functions that do nothing.
#![tactic(auto)]

ghost use Rattle.technician.specs.Technician.{TechnicianLetIn};
ghost use Rattle.technician.specs.Evening.{EveningInAHall};

// When a lock of a connection that has gone silent can be taken.
pub fn technician_let_in()
    ensures { TechnicianLetIn }
{}

// The hypotheses of that theorem hold of an evening played through the calls, from a fresh record on.
pub fn evening_in_a_hall()
    ensures { EveningInAHall }
{}
