//! The device's state: its connections, subscriptions, mutes, locks and reset mechanism.
#![tactic(auto)]

ghost use Rattle.std.specs.Prelude.{◌≡◌, ◌<◌, true, slice_set};
ghost use Rattle.connection.specs.State.{closed};
ghost use Rattle.device.specs.State.{fresh_of, open_of, sweep_of, closing_of, heard_at, beating_at};
ghost use Rattle.device.specs.Obeys.{device_obeys};
ghost use Rattle.device.specs.Kept.{RulesKept, FailuresChangeNothing};
ghost use Rattle.device.specs.Closure.{ClosureFrees};
ghost use Rattle.device.specs.Time.{step_of, tick_of};

use connection::Connection;
use heartbeat::Heartbeat;
use mechanism::Mechanism;
use subscription::Subscription;

// A step of 2^31 or more is a clock that went back.
const BACK: u32 = 2147483648;

/// What the record holds of the device itself.
#[repr(C)]
#[derive(Clone, Copy)]
pub struct Device {
    /// The clock's last reading, in milliseconds; it goes round at 2^32.
    pub reading: u32,
    /// The connections, by number.
    pub connections: [Connection; 8],
    /// The subscription entries, by place.
    pub subscriptions: [Subscription; 32],
    /// What each mute is set to, 1 for muted and 2 for unmuted.
    pub mutes: [u8; 8],
    /// Who holds each mute's lock: 0 for nobody, else connection + 1.
    pub holders: [u8; 8],
    /// The reset mechanism.
    pub mechanism: Mechanism,
}

// R51. The step: one subtraction that goes round.
fn since(reading: u32, last: u32) -> u32
    ensures { result ≡ step_of reading last }
{
    reading.wrapping_sub(last)
}

// Connection n is closed; a number past the last closes none.
#[tactic(auto, using(laws::proofs::Tables::length_mapped, crate::proofs::Times::shut_out))]
fn shut(connections: &mut [Connection; 8], n: u8)
    ensures { connections.new ≡ slice_set connections.old n closed }
{
    let at = n as usize;
    if at < connections.len() {
        connections[at] = Connection::CLOSED;
    }
}

impl Device {
    /// A fresh device at its clock's first reading: nothing open, subscribed, muted, locked or armed.
    #[tactic(auto, unfolding(octets::specs::Zeros::zeros, crate::specs::State::fresh_of))]
    pub fn fresh(reading: u32) -> Device
        ensures { result ≡ fresh_of reading }
    {
        Device {
            reading,
            connections: [Connection::CLOSED; 8],
            subscriptions: [Subscription::FREE; 32],
            mutes: [objects::UNMUTED; 8],
            holders: [0; 8],
            mechanism: Mechanism::DISARMED,
        }
    }

    /// The record rules hold, all but those on the lent area.
    #[tactic(auto, unfolding(crate::specs::Obeys::device_obeys))]
    pub fn obeys(&self) -> bool
        ensures { result ≡ device_obeys self.now }
    {
        connection::all_obey(&self.connections)
            && subscription::all_obey(&self.subscriptions, &self.connections)
            && objects::all_mute_values(&self.mutes)
            && holders::all_obey(&self.holders, &self.connections)
            && self.mechanism.obeys()
    }

    /// The lowest free connection is opened: its number, or `None` if each is open.
    #[tactic(auto, using(crate::proofs::Times::open_full, crate::proofs::Times::open_done, crate::proofs::Times::told_full, crate::proofs::Times::told_number))]
    pub fn open(&mut self) -> Option<u8>
        ensures device { self.new ≡ (open_of self.old).device }
        ensures answer { result ≡ (open_of self.old).answer }
    {
        let n = connection::lowest_free(&self.connections)?;
        self.connections[n] = Connection::OPENED;
        Some(n as u8)
    }

    // Whatever belongs to a connection that is not open is freed.
    #[tactic(auto, using(crate::proofs::Times::swept_all))]
    fn sweep(&mut self)
        ensures { self.new ≡ sweep_of self.old }
    {
        subscription::all_swept(&mut self.subscriptions, &self.connections);
        holders::all_swept(&mut self.holders, &self.connections);
    }

    /// Connection `n` is not open afterwards, and nothing of it is left; whether it was open.
    #[tactic(auto, using(crate::proofs::Times::close_left, crate::proofs::Times::close_told))]
    pub fn close(&mut self, n: u8) -> bool
        ensures device { self.new ≡ (closing_of self.old n).device }
        ensures answer { result ≡ (closing_of self.old n).answer }
    {
        let live = connection::live_at(&self.connections, n);
        shut(&mut self.connections, n);
        self.sweep();
        live
    }

    /// Time passes, to `reading` milliseconds of the host's counter: the connections closed, a bit each, or `None` where the
    /// clock went back and nothing changed.
    // The rules leave every count room for its step.
    #[tactic(auto, using(crate::proofs::Times::tick_back, crate::proofs::Times::back_told, crate::proofs::Times::tick_done, crate::proofs::Times::done_told))]
    pub fn tick(&mut self, reading: u32) -> Option<u8>
        requires { device_obeys self.old ≡ true }
        ensures device { self.new ≡ (tick_of self.old reading).device }
        ensures answer { result ≡ (tick_of self.old reading).answer }
    {
        let step = since(reading, self.reading);
        if step >= BACK {
            return None;
        }
        let mask = connection::closing(&self.connections, step);
        connection::all_ticked(&mut self.connections, step);
        self.reading = reading;
        self.sweep();
        Some(mask)
    }

    /// A sound message came on connection `n`.
    #[tactic(auto, using(laws::proofs::Tables::length_mapped, crate::proofs::Times::heard_in))]
    pub fn heard(&mut self, n: u8)
        requires { n < 8 }
        ensures { self.new ≡ heard_at self.old n }
    {
        let c = &mut self.connections[n as usize];
        *c = c.heard();
    }

    /// A keep-alive came on connection `n` and is answered: its heartbeat is `h` from then on. Where it is not open, nothing.
    #[tactic(auto, using(laws::proofs::Tables::length_mapped, crate::proofs::Times::live_place, crate::proofs::Times::beating_not, crate::proofs::Times::beating_in))]
    pub fn keep_alive(&mut self, n: u8, h: Heartbeat)
        ensures { self.new ≡ beating_at self.old n h }
    {
        if connection::live_at(&self.connections, n) {
            let c = &mut self.connections[n as usize];
            *c = c.beating(h);
        }
    }
}

// The theorems of the device, as contracts of functions that do nothing: each has its line in the verdict.

/// Every call keeps the record rules.
#[tactic(auto, using(crate::proofs::Keeps::rules_kept))]
pub fn rules_kept()
    ensures { RulesKept }
{}

/// A command whose status is not 0 changes nothing.
#[tactic(auto, using(crate::proofs::Keeps::failures_change_nothing))]
pub fn failures_change_nothing()
    ensures { FailuresChangeNothing }
{}

/// A closure frees what the connection had, and nothing else.
#[tactic(auto, using(crate::proofs::Closures::closure_frees))]
pub fn closure_frees()
    ensures { ClosureFrees }
{}
