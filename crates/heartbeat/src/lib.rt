//! R15. A heartbeat's value: a kind for seconds and one for milliseconds, with the factor 1,000 as the only way from one to the other.
#![tactic(auto)]

ghost use Rattle.std.specs.Prelude.{◌≡◌, ◌*◌, ◌/◌, ◌≤◌};
ghost use Rattle.heartbeat.specs.Beat.{form_of, value_of, beat_of};

/// The form of seconds, where a record keeps it.
pub const SECONDS_FORM: u8 = 1;

/// The form of milliseconds, where a record keeps it.
pub const MILLISECONDS_FORM: u8 = 2;

/// The most seconds that 2 bytes hold.
pub const GREATEST_SECONDS: u32 = 65535;

/// The most milliseconds that 4 bytes hold.
pub const GREATEST_MILLISECONDS: u32 = 4294967295;

/// A time in whole seconds.
#[derive(Clone, Copy, Debug, PartialEq, Eq)]
pub struct Seconds(pub u16);

/// A time in milliseconds.
#[derive(Clone, Copy, Debug, PartialEq, Eq)]
pub struct Milliseconds(pub u32);

/// A heartbeat, in the unit that it came in.
#[derive(Clone, Copy, Debug, PartialEq, Eq)]
pub enum Heartbeat {
    InSeconds(Seconds),
    InMilliseconds(Milliseconds),
}

impl From<Seconds> for Milliseconds {
    ghost from_gives = { λ seconds result. result.0 ≡ seconds.0 * 1000 };

    fn from(seconds: Seconds) -> Milliseconds {
        Milliseconds(u32::from(seconds.0) * 1000)
    }
}

impl Milliseconds {
    /// The whole seconds: exact for what came from seconds.
    pub fn to_seconds(self) -> Seconds
        requires { self.0 ≤ 65535999 }
        ensures { result.0 ≡ self.0 / 1000 }
    {
        Seconds((self.0 / 1000) as u16)
    }
}

impl Heartbeat {
    /// The form: 1 for seconds, 2 for milliseconds.
    #[tactic(auto, unfolding(crate::specs::Beat::form_of))]
    pub fn form(self) -> u8
        ensures { result ≡ form_of self }
    {
        match self {
            Heartbeat::InSeconds(_) => SECONDS_FORM,
            Heartbeat::InMilliseconds(_) => MILLISECONDS_FORM,
        }
    }

    /// The value in the form's own unit.
    #[tactic(auto, unfolding(crate::specs::Beat::value_of))]
    pub fn value(self) -> u32
        ensures { result ≡ value_of self }
    {
        match self {
            Heartbeat::InSeconds(s) => u32::from(s.0),
            Heartbeat::InMilliseconds(m) => m.0,
        }
    }

    /// H, in milliseconds.
    #[tactic(auto, unfolding(crate::specs::Beat::beat_of))]
    pub fn milliseconds(self) -> Milliseconds
        ensures { result.0 ≡ beat_of self }
    {
        match self {
            Heartbeat::InSeconds(s) => s.into(),
            Heartbeat::InMilliseconds(m) => m,
        }
    }
}
