//! The machine over pieces, over any device that keeps its laws: proofs/ alone.
#![tactic(auto)]
