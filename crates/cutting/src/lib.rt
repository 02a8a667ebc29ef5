// How a connection's bytes are cut makes no difference to a host's loop: theorems, as the contracts of functions that do nothing.
#![tactic(auto)]

ghost use Rattle.cutting.specs.Cutting.{CuttingDoesNotMatter};
ghost use Rattle.cutting.specs.Taken.{AllIsTaken};

// R28, R81. Any two cuttings of the same bytes come to the same.
pub fn cutting_does_not_matter()
    ensures { CuttingDoesNotMatter }
{}

// R28, R63. Where there is room, every byte is taken while the connection is open.
pub fn all_is_taken()
    ensures { AllIsTaken }
{}
