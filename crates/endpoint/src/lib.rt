//! The endpoint: the record that is passed and handed back, the lent area, and the calls of a host.
#![tactic(auto)]

ghost use Rattle.std.specs.Prelude.{◌≡◌, [], ◌<◌, ◌≤◌, length, map, OnOk, MatchResult};
ghost use Rattle.numbers.specs.declared.Refusal.TheVariants as refusals;
ghost use Rattle.connection.specs.State.{is_live, live_at};
ghost use Rattle.area.specs.Area.{area_sound};
ghost use Rattle.replies.specs.Bytes.{least_output};
ghost use Rattle.answers.specs.Numbers.{answer_numbers, opening_numbers, closing_numbers};
ghost use Rattle.endpoint.specs.State.{closed_state, record_obeys};
ghost use Rattle.endpoint.specs.Outcome.{outcome};
ghost use Rattle.endpoint.specs.Check.{Checks};
ghost use Rattle.endpoint.specs.Calls.{open_call, close_call};
ghost use Rattle.endpoint.specs.Promises.{ClearGives, FreshGives, ObeysGives, OpenGives, CloseGives};
ghost use Rattle.endpoint.specs.Tell.{ResultsTell};

use connection::Connection;
use device::Device;
use numbers::Refusal;

pub mod deliver;
pub mod take;
pub mod tick;

/// The least output in bytes of delivery and take.
pub const OUTPUT: usize = 4096;

/// The device, and each connection's count of undecided bytes.
#[repr(C)]
#[derive(Clone, Copy)]
pub struct Record {
    pub device: Device,
    pub held: [u16; 8],
}

/// What a call hands back: the record, and its answer. Where the answer is a refusal, the record is as it was passed.
#[derive(Clone, Copy)]
pub struct Handed<A> {
    pub state: Record,
    pub answer: Result<A, Refusal>,
}

/// An area of zeros, for a fresh record; refused by `BadArea` unless it has 16,392 bytes.
#[tactic(auto, using(crate::proofs::States::clear_done, laws::proofs::Conds::tests), unfolding(crate::specs::Calls::clear_answer, crate::specs::Calls::cleared_area))]
pub fn clear_area(area: &mut [u8]) -> Result<(), Refusal>
    ensures { ClearGives area.old result area.new }
{
    if area.len() != area::AREA {
        return Err(Refusal::BadArea);
    }
    octets::clear(area);
    Ok(())
}

// Of each connection, whether it is open.
#[tactic(auto, using(crate::proofs::States::filling_none, crate::proofs::States::filling_all))]
fn lives(connections: &[Connection; 8]) -> [bool; 8]
    ensures each { result ≡ map is_live connections.now }
    ensures sized { length connections.now ≡ 8 }
{
    let mut out = [false; 8];
    for (n, c) in connections.iter().enumerate() {
        out[n] = c.live;
    }
    out
}

// Refusal 3: connection n is not open.
#[tactic(auto, using(crate::proofs::States::live_low))]
fn check_connection(connections: &[Connection; 8], n: u8) -> Result<(), Refusal>
    ensures open { Checks (live_at connections.now n) refusals.NoConnection result }
    ensures low { OnOk result (n < 8) }
{
    if connection::live_at(connections, n) {
        Ok(())
    } else {
        Err(Refusal::NoConnection)
    }
}

// Refusal 4: the output is too small.
fn check_room(output: &[u8]) -> Result<(), Refusal>
    ensures { MatchResult result (λ passed. least_output ≤ length output.now)
        (λ e. (e ≡ refusals.NoRoom) × (length output.now < least_output)) }
{
    if output.len() < OUTPUT {
        return Err(Refusal::NoRoom);
    }
    Ok(())
}

impl Record {
    /// The fresh record, at a first reading of the host's counter in milliseconds.
    #[tactic(auto, unfolding(octets::specs::Zeros::zeros, crate::specs::State::fresh_state))]
    pub fn fresh(reading: u32) -> Record
        ensures { FreshGives reading result }
    {
        let device = Device::fresh(reading);
        let held = [0u16; 8];
        Record { device, held }
    }

    /// The record rules hold.
    #[tactic(auto, unfolding(crate::specs::State::record_obeys, device::specs::State::lives_in))]
    pub fn keeps_rules(&self) -> bool
        ensures rules { result ≡ record_obeys self.now }
        ensures sized { length self.now.device.connections ≡ 8 }
        ensures counted { length self.now.held ≡ 8 }
    {
        let a = self.device.obeys();
        let b = area::held_obey(lives(&self.device.connections), self.held);
        a & b
    }

    /// The same, of a record that is passed by value.
    pub fn obeys(self) -> bool
        ensures { ObeysGives self result }
    {
        self.keeps_rules()
    }

    /// `BadRecord`, unless the record rules hold.
    pub fn check(&self) -> Result<(), Refusal>
        ensures rules { Checks (record_obeys self.now) refusals.BadRecord result }
        ensures sized { length self.now.device.connections ≡ 8 }
        ensures counted { length self.now.held ≡ 8 }
    {
        if self.keeps_rules() {
            Ok(())
        } else {
            Err(Refusal::BadRecord)
        }
    }

    /// `BadArea`, unless the area has its length and holds the undecided bytes that the record counts.
    pub fn check_area(&self, area: &[u8]) -> Result<(), Refusal>
        ensures { Checks (area_sound self.now.held area.now) refusals.BadArea result }
    {
        if area::area_sound(area, self.held) {
            Ok(())
        } else {
            Err(Refusal::BadArea)
        }
    }

    /// A connection is opened: its number. Refused by `BadRecord` and `TableFull`, in this order.
    #[tactic(auto, using(crate::proofs::States::open_bad, crate::proofs::States::opened))]
    pub fn try_open(&mut self) -> Result<u8, Refusal>
        ensures { outcome (answer_numbers opening_numbers result) self.new [] [] ≡ open_call self.old }
    {
        self.check()?;
        self.device.open().ok_or(Refusal::TableFull)
    }

    /// `try_open` of a record that is passed and handed back.
    pub fn open(mut self) -> Handed<u8>
        ensures { OpenGives self result }
    {
        let answer = self.try_open();
        Handed {
            state: self,
            answer,
        }
    }

    // Connection n is closed, and no byte of it counted.
    #[tactic(auto, using(device::proofs::Times::close_device), unfolding(crate::specs::State::closed_state))]
    fn shut(&mut self, n: u8)
        requires { n < 8 }
        ensures { self.new ≡ closed_state self.old n }
    {
        let at = n as usize;
        self.device.close(n);
        self.held[at] = 0;
    }

    /// The host's close of connection `n`: its part of the area is zeroed. Refused by `BadRecord`, `BadArea` and `NoConnection`, in
    /// this order.
    #[tactic(auto, using(crate::proofs::States::close_bad, crate::proofs::States::close_area, crate::proofs::States::close_none, crate::proofs::States::close_done, crate::proofs::States::part_within))]
    pub fn try_close(&mut self, area: &mut [u8], n: u8) -> Result<(), Refusal>
        ensures { outcome (answer_numbers closing_numbers result) self.new area.new [] ≡ close_call self.old area.old n }
    {
        self.check()?;
        self.check_area(area)?;
        check_connection(&self.device.connections, n)?;
        area::clear_part(area, n as usize);
        self.shut(n);
        Ok(())
    }

    /// `try_close` of a record that is passed and handed back.
    pub fn close(mut self, area: &mut [u8], n: u8) -> Handed<()>
        ensures { CloseGives self area.old n result area.new }
    {
        let answer = self.try_close(area, n);
        Handed {
            state: self,
            answer,
        }
    }
}

// Two results of a call that its promise allows are equal.
#[tactic(auto, using(crate::proofs::Tells::results_tell))]
pub fn results_tell()
    ensures { ResultsTell }
{}
