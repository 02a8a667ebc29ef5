// Bytes of one connection that decide nothing, mixed with any calls that are not to it: the order makes no difference.
#![tactic(auto)]

ghost use Rattle.mixing.specs.Mixing.{MixingDoesNotMatter};

pub fn mixing_does_not_matter()
    ensures { MixingDoesNotMatter }
{}
