// A count goes with its bytes, and a context stands within its entry: theorems, as contracts of functions that do nothing.
#![tactic(auto)]

ghost use Rattle.counts.specs.Refused.{CountWithoutBytes, ContextRefused};
ghost use Rattle.counts.specs.Told.{NoneTold, ContextTold};
ghost use Rattle.counts.specs.Worked.{CountsRead};

// An entry that announces parameters and has no byte of them is refused: read, written, delivered and listed.
pub fn count_without_bytes()
    ensures { CountWithoutBytes }
{}

// An entry with a context above 64 bytes, or one that ends behind the entry, is refused in the same ways.
pub fn context_refused()
    ensures { ContextRefused }
{}

// Of every entry that is read, the count is the least exactly where the part is empty.
pub fn none_told()
    ensures { NoneTold }
{}

// Of every notification that is read, the context handed back is as long as its count says.
pub fn context_told()
    ensures { ContextTold }
{}

// R83. Messages of each type, with counts that go with their bytes and counts that do not.
pub fn counts_read()
    ensures { CountsRead }
{}
