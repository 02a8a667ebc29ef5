//! The messages of some bytes, whoever reads them: the first up to its deciding byte, and then on.
#![tactic(auto)]

ghost use Rattle.split.specs.Exactly.{SplitsExactly};

/// The messages of some bytes are what the deciding bytes make of them, and nothing is lost.
#[tactic(auto, using(crate::proofs::Splits::splits_exactly))]
pub fn splits_exactly()
    ensures { SplitsExactly }
{}
