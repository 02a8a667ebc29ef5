//! A connection of the device: open or closed, its heartbeat, and what is counted while it is supervised.
#![tactic(auto)]

ghost use Rattle.std.specs.Prelude.{◌≡◌, true, map, ◌+◌, ◌^◌, ◌<◌, ◌≤◌, IfSome, position};
ghost use Rattle.laws.specs.Lists.{all, mask};
ghost use Rattle.connection.specs.State.{live_at, is_not_open, is_due};
ghost use Rattle.connection.specs.Obeys.{is_closed, is_idle, form_obeys, is_timed, connection_obeys};
ghost use Rattle.connection.specs.Kept.{SupervisionKept};
ghost use Rattle.connection.specs.Steps.{StepsAdd};
ghost use Rattle.connection.specs.Supervision.{greatest_quiet, closes_at, quiet_after, connection_ticked};
ghost use Rattle.connection.specs.Supervision.{heard_of, sent_of, set_beat, beating_of, heartbeat_kept};

use heartbeat::{Heartbeat, Milliseconds};

/// How many connections a device has: their numbers are 0 to 7.
pub const CONNECTIONS: usize = 8;

/// The greatest heartbeat in seconds, as milliseconds.
pub const TOP_SECONDS: u64 = heartbeat::GREATEST_SECONDS as u64 * 1000;

/// The greatest heartbeat in milliseconds.
pub const TOP_MILLISECONDS: u64 = heartbeat::GREATEST_MILLISECONDS as u64;

/// One connection, as the record holds it: all zero while it is not open.
#[repr(C)]
#[derive(Clone, Copy, Debug, PartialEq, Eq)]
pub struct Connection {
    /// It is open.
    pub live: bool,
    /// The form of its heartbeat, 1 for seconds and 2 for milliseconds; 0 without one.
    pub form: u8,
    /// Its heartbeat H in milliseconds; 0 without one.
    pub beat: u64,
    /// Milliseconds since something was heard, below 3 x H.
    pub silence: u64,
    /// Milliseconds since something was sent, below H.
    pub quiet: u64,
    /// A keep-alive is due to it.
    pub due: bool,
}

impl Connection {
    /// A connection that is not open.
    pub const CLOSED: Connection = Connection {
        live: false,
        form: 0,
        beat: 0,
        silence: 0,
        quiet: 0,
        due: false,
    };

    /// A connection newly opened.
    pub const OPENED: Connection = Connection {
        live: true,
        form: 0,
        beat: 0,
        silence: 0,
        quiet: 0,
        due: false,
    };

    #[tactic(auto, unfolding(crate::specs::Obeys::is_closed))]
    fn is_closed(self) -> bool
        ensures { result ≡ is_closed self }
    {
        self == Connection::CLOSED
    }

    #[tactic(auto, unfolding(crate::specs::Obeys::is_idle))]
    fn is_idle(self) -> bool
        ensures { result ≡ is_idle self }
    {
        (self.beat == 0) & (self.silence == 0) & (self.quiet == 0) & (self.form == 0) & !self.due
    }

    #[tactic(auto, unfolding(crate::specs::Obeys::form_obeys))]
    fn form_obeys(self) -> bool
        ensures { result ≡ form_obeys self }
    {
        ((self.form == heartbeat::SECONDS_FORM)
            & (self.beat % 1000 == 0)
            & (self.beat <= TOP_SECONDS))
            | ((self.form == heartbeat::MILLISECONDS_FORM) & (self.beat <= TOP_MILLISECONDS))
    }

    // A third of silence is compared, since 3 x H might not fit.
    #[tactic(auto, using(crate::proofs::Keeps::timed_tested))]
    fn is_timed(self) -> bool
        ensures { result ≡ is_timed self }
    {
        let form = self.form_obeys();
        !(self.beat == 0)
            & (self.silence / 3 < self.beat)
            & (self.quiet < self.beat)
            & (!self.due | (self.quiet == 0))
            & form
    }

    /// It keeps the record rules of a connection.
    #[tactic(auto, using(crate::proofs::Times::obeys_shut, crate::proofs::Times::obeys_timed, crate::proofs::Times::obeys_idle))]
    pub fn obeys(self) -> bool
        ensures { result ≡ connection_obeys self }
    {
        if !self.live {
            return self.is_closed();
        }
        if self.beat > 0 {
            return self.is_timed();
        }
        self.is_idle()
    }

    /// A tick of `step` milliseconds closes it: its silence comes to 3 x H.
    // No test that the sum fits: the rules leave silence far below 64 bits.
    #[tactic(auto, using(crate::proofs::Times::third_late, crate::proofs::Keeps::silence_fits), unfolding(crate::specs::Supervision::closes_at))]
    pub fn closes(self, step: u32) -> bool
        requires { (connection_obeys self ≡ true) × (step < 2 ^ 31) }
        ensures { result ≡ closes_at step self }
    {
        let silence = self.silence + step as u64;
        !(self.beat == 0) & (self.beat <= silence / 3)
    }

    #[tactic(auto, using(crate::proofs::Times::quiet_due, crate::proofs::Times::quiet_falls_due, crate::proofs::Times::quiet_more))]
    fn quieter(mut self, step: u32) -> Connection
        requires { self.quiet + step ≤ greatest_quiet }
        ensures { result ≡ quiet_after step self }
    {
        if self.due {
            return self;
        }
        let quiet = self.quiet + step as u64;
        if quiet >= self.beat {
            self.quiet = 0;
            self.due = true;
            return self;
        }
        self.quiet = quiet;
        self
    }

    /// What a tick of `step` milliseconds makes of it.
    #[tactic(auto, using(crate::proofs::Times::tick_zero, crate::proofs::Times::tick_closed, crate::proofs::Times::tick_stays, crate::proofs::Keeps::silence_fits, crate::proofs::Keeps::quiet_fits))]
    pub fn ticked(mut self, step: u32) -> Connection
        requires { (connection_obeys self ≡ true) × (step < 2 ^ 31) }
        ensures { result ≡ connection_ticked step self }
    {
        if self.beat == 0 {
            return self;
        }
        if self.closes(step) {
            return Connection::CLOSED;
        }
        self.silence = self.silence + step as u64;
        self.quieter(step)
    }

    /// Something sound was received on it.
    #[tactic(auto, unfolding(crate::specs::Supervision::heard_of))]
    pub fn heard(mut self) -> Connection
        ensures { result ≡ heard_of self }
    {
        self.silence = 0;
        self
    }

    /// Something was sent on it.
    #[tactic(auto, unfolding(crate::specs::Supervision::sent_of))]
    pub fn sent(mut self) -> Connection
        ensures { result ≡ sent_of self }
    {
        self.quiet = 0;
        self.due = false;
        self
    }

    // Zero stops supervision.
    #[tactic(auto, using(crate::proofs::Times::beat_none, crate::proofs::Times::beat_some))]
    fn beat_set(mut self, h: Heartbeat) -> Connection
        ensures { result ≡ set_beat h self }
    {
        let beat = h.milliseconds().0;
        if beat == 0 {
            self.form = 0;
            self.beat = 0;
            return self;
        }
        self.form = h.form();
        self.beat = beat as u64;
        self
    }

    /// A keep-alive was received on it and answered: its heartbeat is H from then on.
    #[tactic(auto, unfolding(crate::specs::Supervision::beating_of))]
    pub fn beating(self, h: Heartbeat) -> Connection
        ensures { result ≡ beating_of h self }
    {
        self.beat_set(h).heard().sent()
    }

    /// What a keep-alive that is due to it carries: its H, in its own form.
    #[tactic(auto, using(crate::proofs::Times::told_seconds, laws::proofs::Conds::tests, crate::proofs::Times::beat_fits_lem, crate::proofs::Times::seconds_fit), unfolding(crate::specs::Supervision::heartbeat_kept))]
    pub fn heartbeat(self) -> Heartbeat
        requires { connection_obeys self ≡ true }
        ensures { result ≡ heartbeat_kept self }
    {
        let beat = Milliseconds(self.beat as u32);
        if self.form == heartbeat::SECONDS_FORM {
            return Heartbeat::InSeconds(beat.to_seconds());
        }
        Heartbeat::InMilliseconds(beat)
    }
}

/// Connection `n` is open; a number past the last is not.
#[tactic(auto, using(crate::proofs::Times::live_out, crate::proofs::Times::live_in))]
pub fn live_at(connections: &[Connection; 8], n: u8) -> bool
    ensures { result ≡ live_at connections.now n }
{
    connections.get(n as usize).is_some_and(|c| c.live)
}

/// The lowest free number, if one is free.
#[tactic(auto, using(arrays::proofs::Places::found_low), unfolding(crate::specs::State::is_not_open))]
pub fn lowest_free(connections: &[Connection; 8]) -> Option<usize>
    ensures place { result ≡ position is_not_open connections.now }
    ensures low { IfSome result (λ n. n < 8) }
{
    connections.iter().position(|c| !c.live)
}

/// The lowest connection that is due, if one is.
#[tactic(auto, using(arrays::proofs::Places::found_low), unfolding(crate::specs::State::is_due))]
pub fn lowest_due(connections: &[Connection; 8]) -> Option<usize>
    ensures place { result ≡ position is_due connections.now }
    ensures low { IfSome result (λ n. n < 8) }
{
    connections.iter().position(|c| c.due)
}

/// Each connection keeps the record rules.
pub fn all_obey(connections: &[Connection; 8]) -> bool
    ensures { result ≡ all connection_obeys connections.now }
{
    connections.iter().all(|c| c.obeys())
}

/// Bit n is set where a tick of `step` milliseconds closes connection n.
#[tactic(auto, using(laws::proofs::Loops::masking_none, laws::proofs::Loops::masking_more, laws::proofs::Loops::masking_low, laws::proofs::Loops::masking_all, laws::proofs::Loops::all_last_of))]
pub fn closing(connections: &[Connection; 8], step: u32) -> u8
    requires { (all connection_obeys connections.now ≡ true) × (step < 2 ^ 31) }
    ensures { result ≡ mask (closes_at step) connections.now }
{
    let mut m = 0;
    for c in connections.iter().rev() {
        m = m * 2 + u8::from(c.closes(step));
    }
    m
}

/// Each connection after a tick of `step` milliseconds.
#[tactic(auto, using(crate::proofs::Times::obeys_at))]
pub fn all_ticked(connections: &mut [Connection; 8], step: u32)
    requires { (all connection_obeys connections.old ≡ true) × (step < 2 ^ 31) }
    ensures { connections.new ≡ map (connection_ticked step) connections.old }
{
    arrays::map_in_place(connections, |c| c.ticked(step));
}

/// The rules are kept by whatever happens to a connection: a theorem, with a line in the verdict as this contract.
#[tactic(auto, using(crate::proofs::Keeps::supervision_kept))]
pub fn supervision_kept()
    ensures { SupervisionKept }
{}

/// Two ticks of a connection come to one tick of both steps: a theorem.
#[tactic(auto, using(crate::proofs::Keeps::steps_add))]
pub fn steps_add()
    ensures { StepsAdd }
{}
