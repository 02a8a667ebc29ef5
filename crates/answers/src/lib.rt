//! What the calls of a host answer, and each answer in its numbers.
//!
//! A call answers `Result<T, Refusal>`: clear and close `()`, open and tick `u8`, deliver [`Delivery`], take [`Taking`], and a
//! datagram [`Resetting`].
#![tactic(auto)]

ghost use Rattle.std.specs.Prelude.{◌≡◌, ◌<◌, ℕ, List};
ghost use Rattle.numbers.specs.Kind.{kind_closed};
ghost use Rattle.numbers.specs.Refusal.{refusal_numbers};
ghost use Rattle.answers.specs.Numbers.{numbers_with, numbers_of, answer_numbers};
ghost use Rattle.answers.specs.Numbers.{opening_numbers, closing_numbers};
ghost use Rattle.answers.specs.Numbers.{delivery_numbers, taking_numbers, resetting_numbers};
ghost use Rattle.answers.specs.Fits.{FaultFits, ConnectionFits};
ghost use Rattle.answers.specs.Tell.{AnswersTell};
ghost use Rattle.answers.specs.Laws.{units_tell, bytes_tell, deliveries_tell, takings_tell, resettings_tell};

use numbers::{Fault, Refusal};

/// Of a delivery that is not refused, each with how many bytes of the piece were taken.
#[derive(Clone, Copy, Debug, PartialEq, Eq)]
pub enum Delivery {
    /// Nothing is decided yet: all of the piece was taken.
    More(usize),
    /// A sound message was carried out; the length in bytes of the reply, 0 for none.
    Message(usize, usize),
    /// The bytes decided a fault, and the connection is closed.
    Closed(usize, Fault),
}

/// Of a taking that is not refused.
#[derive(Clone, Copy, Debug, PartialEq, Eq)]
pub enum Taking {
    /// Nothing waits to be sent.
    Nothing,
    /// A notification: the number of the connection that it is for, and its length in bytes.
    Notification(u8, usize),
    /// A keep-alive: the number of the connection that it is for, and its length in bytes.
    KeepAlive(u8, usize),
}

/// Of a datagram on the reset mechanism's port that is not refused.
#[derive(Clone, Copy, Debug, PartialEq, Eq)]
pub enum Resetting {
    /// The datagram is not the armed mechanism's: nothing changed.
    Nothing,
    /// The device started anew.
    Done,
}

/// An answer's numbers in their order, and zeros behind them.
#[derive(Clone, Copy, Debug, PartialEq, Eq)]
pub struct Numbers {
    /// 0, or the refusal.
    pub number: u8,
    /// The kind, the connection opened, the connections closed (a bit each), or the fault of a refusal.
    pub first: u8,
    /// The bytes taken, or the connection of a message.
    pub second: usize,
    /// The length of a message, or the fault.
    pub third: usize,
}

/// An answer that refuses nothing, in its numbers.
pub trait Told {
    /// The numbers of the answer.
    ghost told: { Self → List ℕ };

    /// The same, zeros behind them.
    fn numbers(self) -> Numbers
        ensures { result ≡ numbers_of (told self) };

    // Answers with the same numbers are the same.
    ghost tells: { (a b : Self) → told a ≡ told b → a ≡ b };
}

fn answered(first: u8, second: usize, third: usize) -> Numbers
    ensures { result ≡ numbers_with 0 first second third }
{
    Numbers {
        number: numbers::NOT_REFUSED,
        first,
        second,
        third,
    }
}

impl Told for () {
    ghost told = { closing_numbers };

    ghost tells = { units_tell };

    #[tactic(auto, unfolding(crate::specs::Numbers::numbers_of))]
    fn numbers(self) -> Numbers {
        answered(0, 0, 0)
    }
}

impl Told for u8 {
    ghost told = { opening_numbers };

    ghost tells = { bytes_tell };

    #[tactic(auto, unfolding(crate::specs::Numbers::numbers_of))]
    fn numbers(self) -> Numbers {
        answered(self, 0, 0)
    }
}

impl Told for Delivery {
    ghost told = { delivery_numbers };

    ghost tells = { deliveries_tell };

    // A closure's third number is a fault, and fits a byte.
    #[tactic(auto, unfolding(crate::specs::Numbers::numbers_of))]
    fn numbers(self) -> Numbers
        ensures told { result ≡ numbers_of (delivery_numbers self) }
        ensures fits { result.first ≡ kind_closed → result.third < 256 }
    {
        match self {
            Delivery::More(taken) => answered(numbers::KIND_MORE, taken, 0),
            Delivery::Message(taken, length) => answered(numbers::KIND_MESSAGE, taken, length),
            Delivery::Closed(taken, fault) => {
                answered(numbers::KIND_CLOSED, taken, fault.number() as usize)
            }
        }
    }
}

impl Told for Taking {
    ghost told = { taking_numbers };

    ghost tells = { takings_tell };

    // The second number is a connection's, and fits a byte.
    #[tactic(auto, unfolding(crate::specs::Numbers::numbers_of))]
    fn numbers(self) -> Numbers
        ensures told { result ≡ numbers_of (taking_numbers self) }
        ensures fits { result.second < 256 }
    {
        match self {
            Taking::Nothing => answered(numbers::KIND_NOTHING, 0, 0),
            Taking::Notification(n, length) => answered(
                numbers::KIND_NOTIFICATION,
                n as usize,
                length,
            ),
            Taking::KeepAlive(n, length) => answered(numbers::KIND_KEEP_ALIVE, n as usize, length),
        }
    }
}

impl Told for Resetting {
    ghost told = { resetting_numbers };

    ghost tells = { resettings_tell };

    #[tactic(auto, unfolding(crate::specs::Numbers::numbers_of))]
    fn numbers(self) -> Numbers {
        match self {
            Resetting::Nothing => answered(numbers::KIND_UNCHANGED, 0, 0),
            Resetting::Done => answered(numbers::KIND_RESET, 0, 0),
        }
    }
}

// A fault's number stands behind that of the refusal.
fn refused(refusal: Refusal) -> Numbers
    ensures { result ≡ numbers_of (refusal_numbers refusal) }
{
    let number = refusal.number();
    let first = refusal.fault().map_or(0, Fault::number);
    Numbers {
        number,
        first,
        second: 0,
        third: 0,
    }
}

/// The numbers of any call's answer.
pub fn numbers_told<T: Told>(answer: Result<T, Refusal>) -> Numbers
    ensures { result ≡ numbers_of (answer_numbers T.told answer) }
{
    match answer {
        Ok(told) => told.numbers(),
        Err(refusal) => refused(refusal),
    }
}

// A closure's third number is a fault, and fits a byte.
#[tactic(auto, using(crate::proofs::Fits::fault_fits))]
pub fn fault_fits(answer: Result<Delivery, Refusal>)
    ensures { FaultFits answer }
{}

// A taking's second number is a connection's, and fits a byte.
#[tactic(auto, unfolding(crate::specs::Numbers::numbers_of))]
pub fn connection_fits(answer: Result<Taking, Refusal>)
    ensures { ConnectionFits answer }
{}

// The numbers of an answer tell it from every other.
#[tactic(auto, using(crate::proofs::Tells::answers_tell))]
pub fn answers_tell()
    ensures { AnswersTell }
{}
