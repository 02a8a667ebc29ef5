//! Refusals, faults, kinds of answer and statuses, by name, each number in one place.
#![tactic(auto)]

ghost use Rattle.std.specs.Prelude.{◌≡◌, Some};
ghost use Rattle.std.specs.Fmt.{decimal};
ghost use Rattle.numbers.specs.Refusal.{refusal_number, fault_refusal, fault_told};
ghost use Rattle.numbers.specs.Fault.{fault_number};
ghost use Rattle.numbers.specs.Kind.{kinds};
ghost use Rattle.numbers.specs.Status.{status_number};
ghost use Rattle.numbers.specs.Text.{refusal_text};
ghost use Rattle.numbers.specs.Table.{NumbersTable};

use std::error::Error;
use std::fmt;

/// The number of an answer that refuses nothing.
pub const NOT_REFUSED: u8 = 0;

/// The kind of a delivery's answer: more is needed.
pub const KIND_MORE: u8 = 1;

/// The kind of a delivery's answer: a message was carried out.
pub const KIND_MESSAGE: u8 = 2;

/// The kind of a delivery's answer: closed by a fault.
pub const KIND_CLOSED: u8 = 3;

/// The kind of a taking's answer: nothing waits to be sent.
pub const KIND_NOTHING: u8 = 0;

/// The kind of a taking's answer: a notification.
pub const KIND_NOTIFICATION: u8 = 1;

/// The kind of a taking's answer: a keep-alive.
pub const KIND_KEEP_ALIVE: u8 = 2;

/// The kind of a datagram's answer: nothing changed.
pub const KIND_UNCHANGED: u8 = 0;

/// The kind of a datagram's answer: the device started anew.
pub const KIND_RESET: u8 = 1;

/// The status of a command that is carried out.
pub const CARRIED_OUT: u8 = 0;

/// What is wrong with a message, in the order in which it is looked for.
#[derive(Clone, Copy, Debug, PartialEq, Eq)]
pub enum Fault {
    /// The first byte is not 3B.
    Start,
    /// protocolVersion is not 1.
    Version,
    /// pduSize is below 9 or above 2,048.
    Size,
    /// pduType is above 4.
    Type,
    /// messageCount is 0, or not 1 in a keep-alive.
    Count,
    /// The data is no run of entries, or no heartbeat.
    Data,
}

/// Why a call is refused. The record and every lent buffer are then as they stood; no refusal has the number 7.
#[derive(Clone, Copy, Debug, PartialEq, Eq)]
pub enum Refusal {
    /// A record rule is broken.
    BadRecord,
    /// The area has another length, or does not hold what the record counts.
    BadArea,
    /// The number is above 7, or that connection is not open.
    NoConnection,
    /// The output or the buffer is too small.
    NoRoom,
    /// No connection is free.
    TableFull,
    /// The step is 2^31 milliseconds or more.
    ClockBack,
    /// The bytes decide a fault.
    Fault(Fault),
    /// The bytes have no deciding byte.
    Short,
    /// pduSize would be above 2,048.
    TooLong,
    /// The entry or the heartbeat cannot be written.
    BadEntry,
    /// The message has no entry of that number.
    NoEntry,
}

/// Why a command is not carried out, in the order in which it is tried; the status of one that is carried out is 0.
#[derive(Clone, Copy, Debug, PartialEq, Eq)]
pub enum Status {
    /// The target is no object.
    NoObject,
    /// The object has no such method.
    NoMethod,
    /// Lock or unlock of a manager.
    Forbidden,
    /// Wrong parameter count, length or last pair.
    Malformed,
    /// Another connection holds the mute's lock.
    HeldByOther,
    /// The emitter is no mute, or the event not 1.1.
    StrangeEmitter,
    /// A mode, a mute's value, a text or a port that is not taken.
    BadValue,
    /// Nothing to unlock or remove, or a subscription that is held already.
    OutOfTurn,
    /// All subscription entries are used.
    NoFreeEntry,
}

impl Fault {
    pub fn number(self) -> u8
        ensures { result ≡ fault_number self }
    {
        match self {
            Fault::Start => 1,
            Fault::Version => 2,
            Fault::Size => 3,
            Fault::Type => 4,
            Fault::Count => 5,
            Fault::Data => 6,
        }
    }
}

impl Refusal {
    pub fn number(self) -> u8
        ensures { result ≡ refusal_number self }
    {
        match self {
            Refusal::BadRecord => 1,
            Refusal::BadArea => 2,
            Refusal::NoConnection => 3,
            Refusal::NoRoom => 4,
            Refusal::TableFull => 5,
            Refusal::ClockBack => 6,
            Refusal::Fault(_) => 8,
            Refusal::Short => 9,
            Refusal::TooLong => 10,
            Refusal::BadEntry => 11,
            Refusal::NoEntry => 12,
        }
    }

    /// The fault that the bytes decide, where that is why.
    pub fn fault(self) -> Option<Fault>
        ensures { result ≡ fault_told self }
    {
        match self {
            Refusal::Fault(fault) => Some(fault),
            _ => None,
        }
    }
}

impl Status {
    pub fn number(self) -> u8
        ensures { result ≡ status_number self }
    {
        match self {
            Status::NoObject => 5,
            Status::NoMethod => 11,
            Status::Forbidden => 8,
            Status::Malformed => 4,
            Status::HeldByOther => 3,
            Status::StrangeEmitter => 6,
            Status::BadValue => 7,
            Status::OutOfTurn => 9,
            Status::NoFreeEntry => 10,
        }
    }
}

impl From<Fault> for Refusal {
    ghost from_gives = { λ f r. r ≡ fault_refusal f };

    fn from(fault: Fault) -> Refusal {
        Refusal::Fault(fault)
    }
}

impl fmt::Display for Fault {
    ghost output = { λ f. Some (decimal (fault_number f)) };

    fn fmt<W: fmt::Write>(&self, f: &mut fmt::Formatter<W>) -> fmt::Result {
        write!(f, "{}", self.number())
    }
}

impl fmt::Display for Refusal {
    ghost output = { λ r. Some (refusal_text r) };

    fn fmt<W: fmt::Write>(&self, f: &mut fmt::Formatter<W>) -> fmt::Result {
        match self {
            Refusal::Fault(fault) => write!(f, "{} {fault}", self.number()),
            _ => write!(f, "{}", self.number()),
        }
    }
}

impl fmt::Display for Status {
    ghost output = { λ s. Some (decimal (status_number s)) };

    fn fmt<W: fmt::Write>(&self, f: &mut fmt::Formatter<W>) -> fmt::Result {
        write!(f, "{}", self.number())
    }
}

impl Error for Refusal {}

// The code's kinds are those of the definitions.
pub fn kinds() -> [u8; 8]
    ensures { result ≡ kinds }
{
    [
        KIND_MORE,
        KIND_MESSAGE,
        KIND_CLOSED,
        KIND_NOTHING,
        KIND_NOTIFICATION,
        KIND_KEEP_ALIVE,
        KIND_UNCHANGED,
        KIND_RESET,
    ]
}

// Each name with its number; no two refusals tell the same, and none has 7; no status of a failure is 0.
#[tactic(auto, using(crate::proofs::Tables::numbers_table))]
pub fn numbers_table()
    ensures { NumbersTable }
{}
