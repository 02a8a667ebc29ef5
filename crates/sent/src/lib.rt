// What the device sends is read: theorems, as contracts of functions that do nothing.
#![tactic(auto)]

ghost use Rattle.sent.specs.Sent.{SentIsRead, NotifiedIsRead};
ghost use Rattle.sent.specs.Longest.{LongestReached};

use endpoint::Record;

// Every keep-alive and every reply is read as what it is of; no reply has more than 2,628 bytes.
pub fn sent_is_read()
    ensures { SentIsRead }
{}

// Every notification is. Of a record of the code, since definitions do not say that its numbers have 32 bits and its contexts 64 bytes.
pub fn notified_is_read(rec: Record)
    ensures { NotifiedIsRead rec }
{}

// A reply of 2,628 bytes there is.
pub fn longest_reached()
    ensures { LongestReached }
{}
