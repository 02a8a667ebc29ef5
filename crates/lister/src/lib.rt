//! The listing of some bytes: a line for each message, and a last line that says how it ended.
#![tactic(auto)]

ghost use Rattle.std.specs.Prelude.{◌≡◌, ◌++◌, ◌+◌, ◌*◌, ◌^◌, ◌≤◌, ◌<◌, length, take, drop, None, [], MatchResult};
ghost use Rattle.frame.specs.Limits.{greatest_size};
ghost use Rattle.frame.specs.Decide.{decide};
ghost use Rattle.frame.specs.declared.Decision.TheVariants.{Sound};
ghost use Rattle.lines.specs.Scaffold.{line_room, PutsLine};
ghost use Rattle.split.specs.Split.{sound_messages};
ghost use Rattle.lister.specs.Listing.{line_of, last_by, unlisted};
ghost use Rattle.lister.specs.Pieces.{over_by, ListsPiece, Pieces};
ghost use Rattle.lister.specs.Scaffold.{first_of, fault_by, stopped_by, Lists};
ghost use Rattle.lister.specs.Sample.{SampleListed};

use numbers::Fault;
use reader::Reading;

// The line of a message.
#[derive(Clone, Copy)]
struct Line {
    // the message's bytes
    length: usize,
    // the place in the output behind the line
    put: usize,
}

#[derive(Clone, Copy)]
struct Listed {
    // the bytes of the messages that were listed
    used: usize,
    // the place in the output behind their lines
    put: usize,
    // the fault at which the listing stopped, if it did
    fault: Option<Fault>,
}

/// What was listed of some bytes.
#[derive(Clone, Copy, Debug, PartialEq, Eq)]
pub struct Piece {
    /// The bytes of the messages that were listed.
    pub used: usize,
    /// The place in the output behind their lines.
    pub put: usize,
    /// The last line was put.
    pub over: bool,
}

// Lists the message at the front of s, if it is sound; else hands back the fault of s, if it has one.
#[tactic(auto, using(crate::proofs::Readings::read_size, crate::proofs::Walks::first_listed, crate::proofs::Walks::first_refused))]
fn list_first(s: &[u8], offset: u64, out: &mut [u8], at: usize) -> Result<Line, Option<Fault>>
    requires { at + line_room ≤ length out.old }
    ensures { MatchResult result
        (λ line. (decide s.now ≡ Sound line.length)
        × PutsLine (line_of offset (take line.length s.now)) out.old at out.new line.put)
        (λ fault. (first_of s.now ≡ []) × (fault ≡ fault_by (decide s.now)) × (out.new ≡ out.old)) }
{
    match reader::read_message(s) {
        Ok(Reading { message, length }) => {
            let size = (length - 1) as u16;
            let put = lines::put_message(out, at, offset, message.kind(), message.count(), size);
            Ok(Line { length, put })
        }
        Err(refusal) => Err(refusal.fault()),
    }
}

// Lists the sound messages at the front of s.
#[tactic(auto, using(laws::proofs::Parts::rest, lines::proofs::Putting::puts_length, crate::proofs::Walks::walked_none, crate::proofs::Walks::walked_more, crate::proofs::Walks::walked_stop, crate::proofs::Walks::walked_all, crate::proofs::Walks::nothing_unsound, crate::proofs::Walks::nothing_fault))]
fn list_messages(s: &[u8], offset: u64, out: &mut [u8]) -> Listed
    requires { (4 * length s.now + line_room ≤ length out.old) × (offset + length s.now < 2 ^ 64) }
    ensures { Lists (sound_messages s.now) s.now offset out.old 0 out.new result
        × (result.fault ≡ fault_by (decide (unlisted s.now))) }
{
    let mut used = 0;
    let mut put = 0;
    while used < s.len() {
        match list_first(&s[used..], offset + used as u64, out, put) {
            Ok(line) => {
                used += line.length;
                put = line.put;
            }
            Err(fault) => return Listed { used, put, fault },
        }
    }
    Listed {
        used,
        put,
        fault: None,
    }
}

// A fault stops the listing wherever it stands; without one only the input's end does.
#[tactic(auto, unfolding(crate::specs::Pieces::over_by, crate::specs::Scaffold::stopped_by))]
fn is_over(fault: Option<Fault>, end: bool) -> bool
    ensures { result ≡ over_by end (stopped_by fault) }
{
    match fault {
        Some(_) => true,
        None => end,
    }
}

// Bytes left without a fault are undecided, and so few enough for 16 bits.
#[tactic(auto, unfolding(crate::specs::Listing::last_by, crate::specs::Scaffold::stopped_by))]
fn put_last(fault: Option<Fault>, left: usize, offset: u64, out: &mut [u8], at: usize) -> usize
    requires { (at + line_room ≤ length out.old) × (fault ≡ None → left ≤ greatest_size) }
    ensures { PutsLine (last_by (stopped_by fault) offset left) out.old at out.new result }
{
    match fault {
        Some(fault) => lines::put_stop(out, at, offset, fault.number()),
        None => lines::put_end(out, at, offset, left as u16),
    }
}

/// Lists the bytes `s`, which stand from the offset on; `end` says that the input ends with them.
#[tactic(auto, using(crate::proofs::Ends::left_short, crate::proofs::Ends::piece_over, crate::proofs::Ends::piece_on))]
pub fn list_piece(s: &[u8], offset: u64, out: &mut [u8], end: bool) -> Piece
    requires { (4 * length s.now + line_room ≤ length out.old) × (offset + length s.now < 2 ^ 64) }
    ensures { ListsPiece end offset s.now out.old out.new result }
{
    let Listed { used, put, fault } = list_messages(s, offset, out);
    if !is_over(fault, end) {
        return Piece {
            used,
            put,
            over: false,
        };
    }
    Piece {
        used,
        put: put_last(fault, s.len() - used, offset + used as u64, out, put),
        over: true,
    }
}

/// Moves `n` bytes from a place on to the front.
pub fn move_down(buf: &mut [u8], from: usize, n: usize)
    requires { from + n ≤ length buf.old }
    ensures { buf.new ≡ take n (drop from buf.old) ++ drop n buf.old }
{
    buf.copy_within(from..from + n, 0);
}

// The laws by which input that comes in pieces is listed as the whole.
#[tactic(auto, using(crate::proofs::Cuts::pieces_laws))]
pub fn pieces()
    ensures { Pieces }
{}

// R83. The listing's example.
pub fn sample_listed()
    ensures { SampleListed }
{}
