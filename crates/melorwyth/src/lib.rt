//! What C is handed: every call with numbers and structs in place of enums and results. A call that is passed the record is one
//! line over a call that changes it in place, which the archive makes: handed on by value the record would be copied once more.
#![tactic(auto)]

ghost use Rattle.std.specs.Prelude.{◌≡◌};
ghost use Rattle.answers.specs.Numbers.{numbers_of, answer_numbers, delivery_numbers, taking_numbers};
ghost use Rattle.melorwyth.specs.Answers.{fault_in, length_in};
ghost use Rattle.melorwyth.specs.Promises.{VersionHands, FreshHands, ClearHands, OpenHands, CloseHands, TickHands, DeliverHands};
ghost use Rattle.melorwyth.specs.Promises.{TakeHands, DatagramHands, HandedTell};
ghost use Rattle.melorwyth.specs.Told.{NumbersTold};

use answers::{Delivery, Taking};
use endpoint::Record;
use numbers::Refusal;

pub mod messages;

/// 0.1.0, as the header has it: a byte for each number.
pub const VERSION: u32 = 256;

/// What clear hands C.
#[repr(C)]
#[derive(Clone, Copy)]
pub struct Cleared {
    pub number: u8,
}

/// What open hands C; `number` is 0 or the refusal, and then the record is as it was passed.
#[repr(C)]
#[derive(Clone, Copy)]
pub struct Opened {
    pub state: Record,
    pub number: u8,
    pub connection: u8,
}

/// What close hands C, as for `Opened`.
#[repr(C)]
#[derive(Clone, Copy)]
pub struct Closed {
    pub state: Record,
    pub number: u8,
}

/// What tick hands C, as for `Opened`.
#[repr(C)]
#[derive(Clone, Copy)]
pub struct Ticked {
    pub state: Record,
    pub number: u8,
    /// Bit n is set for connection n closed.
    pub closed: u8,
}

/// What deliver hands C, as for `Opened`.
#[repr(C)]
#[derive(Clone, Copy)]
pub struct Delivered {
    pub state: Record,
    pub number: u8,
    /// 1 more needed, 2 a message, 3 closed.
    pub kind: u8,
    pub fault: u8,
    pub taken: usize,
    pub length: usize,
}

/// What take hands C, as for `Opened`.
#[repr(C)]
#[derive(Clone, Copy)]
pub struct Taken {
    pub state: Record,
    pub number: u8,
    /// 0 nothing, 1 a notification, 2 a keep-alive.
    pub kind: u8,
    pub connection: u8,
    pub length: usize,
}

/// What a datagram hands C, as for `Opened`.
#[repr(C)]
#[derive(Clone, Copy)]
pub struct Reset {
    pub state: Record,
    pub number: u8,
    /// 1 if the device was reset.
    pub reset: u8,
}

/// The fault that a delivery closed its connection for, else 0.
#[tactic(auto, using(crate::proofs::Tellings::no_fault), unfolding(answers::specs::Numbers::numbers_of, crate::specs::Answers::fault_in))]
pub fn fault_of(answer: Result<Delivery, Refusal>) -> u8
    ensures { result ≡ fault_in (numbers_of (answer_numbers delivery_numbers answer)) }
{
    match answer {
        Ok(Delivery::Closed(_, fault)) => fault.number(),
        Ok(_) => 0,
        Err(_) => 0,
    }
}

/// The length in bytes of the reply to a delivered message, else 0.
#[tactic(auto, using(crate::proofs::Tellings::no_length), unfolding(answers::specs::Numbers::numbers_of, crate::specs::Answers::length_in))]
pub fn length_of(answer: Result<Delivery, Refusal>) -> usize
    ensures { result ≡ length_in (numbers_of (answer_numbers delivery_numbers answer)) }
{
    match answer {
        Ok(Delivery::Message(_, length)) => length,
        Ok(_) => 0,
        Err(_) => 0,
    }
}

/// The connection that a taken message is for, else 0.
#[tactic(auto, using(crate::proofs::Tellings::no_second), unfolding(answers::specs::Numbers::numbers_of))]
pub fn connection_of(answer: Result<Taking, Refusal>) -> u8
    ensures { result ≡ (numbers_of (answer_numbers taking_numbers answer)).second }
{
    match answer {
        Ok(Taking::Notification(n, _)) => n,
        Ok(Taking::KeepAlive(n, _)) => n,
        Ok(Taking::Nothing) => 0,
        Err(_) => 0,
    }
}

/// The version of the library: the first number times 65,536, the second times 256, the third.
pub fn melorwyth_version() -> u32
    ensures { VersionHands result }
{
    VERSION
}

/// The fresh record, at a first reading of the host's counter in milliseconds.
pub fn melorwyth_fresh(reading: u32) -> Record
    ensures { FreshHands reading result }
{
    Record::fresh(reading)
}

/// An area of 16,392 bytes is zeroed; refused by 2 at another length.
#[tactic(auto, unfolding(crate::specs::Answers::cleared_of))]
pub fn melorwyth_clear(area: &mut [u8]) -> Cleared
    ensures { ClearHands area.old result area.new }
{
    let told = answers::numbers_told(endpoint::clear_area(area));
    Cleared {
        number: told.number,
    }
}

/// A connection is opened, in the record where it stands: its number.
#[tactic(auto, using(crate::proofs::Tellings::told), unfolding(crate::specs::Answers::opened_of))]
pub fn open_in_place(state: &mut Record) -> Opened
    ensures handed { OpenHands state.old result }
    ensures left { state.new ≡ result.state }
{
    let answer = state.try_open();
    let told = answers::numbers_told(answer);
    Opened {
        state: *state,
        number: told.number,
        connection: told.first,
    }
}

/// `open_in_place` of a record that is passed and handed back.
pub fn melorwyth_open(mut state: Record) -> Opened
    ensures { OpenHands state result }
{
    open_in_place(&mut state)
}

/// The host's close of connection `n`, in the record where it stands.
#[tactic(auto, using(crate::proofs::Tellings::told, crate::proofs::Tellings::area_told), unfolding(crate::specs::Answers::closed_of))]
pub fn close_in_place(state: &mut Record, area: &mut [u8], n: u8) -> Closed
    ensures handed { CloseHands state.old area.old n result area.new }
    ensures left { state.new ≡ result.state }
{
    let answer = state.try_close(area, n);
    let told = answers::numbers_told(answer);
    Closed {
        state: *state,
        number: told.number,
    }
}

/// `close_in_place` of a record that is passed and handed back.
pub fn melorwyth_close(mut state: Record, area: &mut [u8], n: u8) -> Closed
    ensures { CloseHands state area.old n result area.new }
{
    close_in_place(&mut state, area, n)
}

/// Time passes, to a reading in milliseconds, in the record where it stands: the connections closed, a bit each.
#[tactic(auto, using(crate::proofs::Tellings::told, crate::proofs::Tellings::area_told), unfolding(crate::specs::Answers::ticked_of))]
pub fn tick_in_place(state: &mut Record, area: &mut [u8], reading: u32) -> Ticked
    ensures handed { TickHands state.old area.old reading result area.new }
    ensures left { state.new ≡ result.state }
{
    let answer = state.try_tick(area, reading);
    let told = answers::numbers_told(answer);
    Ticked {
        state: *state,
        number: told.number,
        closed: told.first,
    }
}

/// `tick_in_place` of a record that is passed and handed back.
pub fn melorwyth_tick(mut state: Record, area: &mut [u8], reading: u32) -> Ticked
    ensures { TickHands state area.old reading result area.new }
{
    tick_in_place(&mut state, area, reading)
}

/// A piece of connection `n`'s bytes is delivered, to the record where it stands.
#[tactic(auto, using(crate::proofs::Tellings::told, crate::proofs::Tellings::area_told, crate::proofs::Tellings::output_told), unfolding(crate::specs::Answers::delivered_of))]
pub fn deliver_in_place(
    state: &mut Record,
    area: &mut [u8],
    n: u8,
    piece: &[u8],
    output: &mut [u8],
) -> Delivered
    ensures handed { DeliverHands state.old area.old n piece.now output.old result
        area.new output.new }
    ensures left { state.new ≡ result.state }
{
    let answer = state.try_deliver(area, n, piece, output);
    let told = answers::numbers_told(answer);
    let fault = fault_of(answer);
    let length = length_of(answer);
    Delivered {
        state: *state,
        number: told.number,
        kind: told.first,
        fault,
        taken: told.second,
        length,
    }
}

/// `deliver_in_place` of a record that is passed and handed back.
pub fn melorwyth_deliver(
    mut state: Record,
    area: &mut [u8],
    n: u8,
    piece: &[u8],
    output: &mut [u8],
) -> Delivered
    ensures { DeliverHands state area.old n piece.now output.old result
        area.new output.new }
{
    deliver_in_place(&mut state, area, n, piece, output)
}

/// One message that waits is taken, of the record where it stands.
#[tactic(auto, using(crate::proofs::Tellings::told, crate::proofs::Tellings::output_told), unfolding(crate::specs::Answers::taken_of))]
pub fn take_in_place(state: &mut Record, output: &mut [u8]) -> Taken
    ensures handed { TakeHands state.old output.old result output.new }
    ensures left { state.new ≡ result.state }
{
    let answer = state.try_take(output);
    let told = answers::numbers_told(answer);
    let connection = connection_of(answer);
    Taken {
        state: *state,
        number: told.number,
        kind: told.first,
        connection,
        length: told.third,
    }
}

/// `take_in_place` of a record that is passed and handed back.
pub fn melorwyth_take(mut state: Record, output: &mut [u8]) -> Taken
    ensures { TakeHands state output.old result output.new }
{
    take_in_place(&mut state, output)
}

/// A datagram came on the reset mechanism's port, to the record where it stands.
#[tactic(auto, using(crate::proofs::Tellings::told, crate::proofs::Tellings::area_told), unfolding(crate::specs::Answers::reset_of))]
pub fn datagram_in_place(state: &mut Record, area: &mut [u8], datagram: &[u8]) -> Reset
    ensures handed { DatagramHands state.old area.old datagram.now result area.new }
    ensures left { state.new ≡ result.state }
{
    let answer = reset::try_datagram(state, area, datagram);
    let told = answers::numbers_told(answer);
    Reset {
        state: *state,
        number: told.number,
        reset: told.first,
    }
}

/// `datagram_in_place` of a record that is passed and handed back.
pub fn melorwyth_datagram(mut state: Record, area: &mut [u8], datagram: &[u8]) -> Reset
    ensures { DatagramHands state area.old datagram.now result area.new }
{
    datagram_in_place(&mut state, area, datagram)
}

// Two results of a function that its promise allows are equal.
#[tactic(auto, using(crate::proofs::Handed::handed_tell))]
pub fn handed_tell()
    ensures { HandedTell }
{}

// Every number that is told is 0 or a refusal of the table, and 7 is none.
#[tactic(auto, using(crate::proofs::Told::numbers_told))]
pub fn numbers_told()
    ensures { NumbersTold }
{}
