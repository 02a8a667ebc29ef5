//! A script: calls written in bytes, made one after another on one record, one area and one output.
#![tactic(auto)]

ghost use Rattle.std.specs.Prelude.{◌≡◌, ◌≤◌, ◌<◌, length, get_or, MatchResult};
ghost use Rattle.script.specs.Chain.{ScriptsRun};
ghost use Rattle.script.specs.Script.{stage, stage_of, call_head, call_take, call_lent, call_size, PieceIs, FirstCall};
ghost use Rattle.script.specs.Tell.{RunGives, RunsTell};

use answers::{Numbers, numbers_told};
use endpoint::Record;

/// A call starts with six bytes: its kind, a connection's number, and a number of 32 bits.
pub const HEAD: usize = 6;

pub const OPEN: u8 = 0;

pub const CLOSE: u8 = 1;

pub const TICK: u8 = 2;

pub const TAKE: u8 = 3;

/// On the reset mechanism's port; any kind above delivers to a connection.
pub const DATAGRAM: u8 = 4;

/// What a script leaves.
#[derive(Clone, Copy)]
pub struct Played {
    pub state: Record,
    /// Of the last call; zeros where there was none.
    pub answer: Numbers,
}

/// The bytes are fewer than any call has.
#[derive(Clone, Copy, Debug, PartialEq, Eq)]
pub struct TooShort;

/// A call of a host, as a script writes it.
#[derive(Clone, Copy, Debug, PartialEq, Eq)]
pub enum Call<'a> {
    Open,
    /// The host's close of that connection.
    Close(u8),
    /// A clock reading, in milliseconds.
    Tick(u32),
    Take,
    /// A datagram on the reset mechanism's port.
    Datagram(&'a [u8]),
    /// A piece that came on that connection.
    Deliver(u8, &'a [u8]),
}

// What stands behind the first six bytes: as many bytes as their number says, or as are left.
fn piece(s: &[u8]) -> &[u8]
    requires { 6 ≤ length s.now }
    ensures { call_take < get_or s.now 0 0 → PieceIs s.now result.now }
{
    let rest = &s[HEAD..];
    let n = octets::be32(s, 2) as usize;
    if rest.len() < n { rest } else { &rest[..n] }
}

// The first call of a script.
impl<'a> TryFrom<&'a [u8]> for Call<'a> {
    type Error = TooShort;

    ghost try_from_gives = { λ s r. MatchResult r (FirstCall s.now) (λ _. length s.now < call_head) };

    fn try_from(s: &'a [u8]) -> Result<Call<'a>, TooShort> {
        if s.len() < HEAD {
            return Err(TooShort);
        }
        match s[0] {
            OPEN => Ok(Call::Open),
            CLOSE => Ok(Call::Close(s[1])),
            TICK => Ok(Call::Tick(octets::be32(s, 2))),
            TAKE => Ok(Call::Take),
            DATAGRAM => Ok(Call::Datagram(piece(s))),
            _ => Ok(Call::Deliver(s[1], piece(s))),
        }
    }
}

impl Call<'_> {
    // How many bytes it has in a script, of which there are no more than a slice can have.
    fn size(&self) -> usize
        requires { call_size self.now < 18446744073709551616 }
        ensures { result ≡ call_size self.now }
    {
        match self {
            Call::Datagram(piece) => HEAD + piece.len(),
            Call::Deliver(_, piece) => HEAD + piece.len(),
            _ => HEAD,
        }
    }

    // Makes the call. The answer is its numbers.
    fn make(self, state: &mut Record, area: &mut [u8], output: &mut [u8]) -> Numbers
        ensures { stage state.new area.new output.new result ≡ stage_of (call_lent self.entry output.old) state.old area.old output.old }
    {
        match self {
            Call::Open => numbers_told(state.try_open()),
            Call::Close(n) => numbers_told(state.try_close(area, n)),
            Call::Tick(reading) => numbers_told(state.try_tick(area, reading)),
            Call::Take => numbers_told(state.try_take(output)),
            Call::Datagram(piece) => numbers_told(reset::try_datagram(state, area, piece)),
            Call::Deliver(n, piece) => numbers_told(state.try_deliver(area, n, piece, output)),
        }
    }
}

/// Makes a script's calls by the code of the endpoint, each state passed on as handed back.
#[tactic(auto, using(laws::proofs::Parts::rest, crate::proofs::Stages::playing_none, crate::proofs::Stages::playing_more, crate::proofs::Stages::playing_all))]
pub fn run(mut state: Record, area: &mut [u8], script: &[u8], output: &mut [u8]) -> Played
    ensures { RunGives state area.old script.now output.old result
        area.new output.new }
{
    let mut answer = Numbers {
        number: numbers::NOT_REFUSED,
        first: 0,
        second: 0,
        third: 0,
    };
    let mut rest = script;
    while let Ok(call) = Call::try_from(rest) {
        answer = call.make(&mut state, area, output);
        rest = &rest[call.size()..];
    }
    Played { state, answer }
}

// Two results of run that its promise allows are equal.
pub fn runs_tell()
    ensures { RunsTell }
{}

// R81, R82. What a script's calls leave is what the rules give over whole messages.
pub fn scripts_run()
    ensures { ScriptsRun }
{}
