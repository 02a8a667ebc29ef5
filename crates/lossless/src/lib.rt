//! Reading loses nothing: what the reader answers tells the bytes, and is enough to write them again.
#![tactic(auto)]

ghost use Rattle.lossless.specs.Lossless.{FieldsDetermine, WriteAfterRead};

/// Well formed entries, and messages, that are read alike are the same bytes.
#[tactic(auto, using(crate::proofs::Alike::fields_determine))]
pub fn fields_determine()
    ensures { FieldsDetermine }
{}

/// Every sound message, written again from what the reader's public calls answered, is the same bytes.
#[tactic(auto, using(crate::proofs::Alike::write_after_read))]
pub fn write_after_read()
    ensures { WriteAfterRead }
{}
