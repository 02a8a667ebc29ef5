//! The listing's loop: a piece is read and listed, and its text handed over to be written, until the last line.
//!
//! The loop runs over any [`Source`] and [`Sink`]. Of a file or a standard stream no clause says which bytes it gives or gets; where they
//! are known, as in memory, what is proved of the loop names every byte that was read and handed over. It is one loop, and one proof.
#![tactic(auto)]

ghost use Rattle.std.specs.Prelude.{◌≡◌, ◌<◌, length, take, IsOkUnless};
ghost use Rattle.turns.specs.Ends.{ListingEnds, DescriptorListed, TapeListed};
ghost use Rattle.turns.specs.Scaffold.{TurnReady, ReadsMore, HandsOver, HandsWhole, OfWhole};
ghost use Rattle.turns.specs.Turns.{Turned, TurnedWhole};

use sink::{Page, Sink};
use source::{Source, Tape, Through};
use std::io::{Read, Write};

pub mod sink;
pub mod source;
#[cfg(test)]
mod tests;

/// The bytes of the input's buffer. A message has at least 10 bytes and a line at most 40, so io's large buffer has room for the lines of
/// a piece.
pub const PIECE: usize = 16000;

/// Below it every offset of a piece fits 64 bits.
pub const GREATEST_OFFSET: u64 = 18446744073709500000;

/// What is read and not yet listed: `held` bytes at the front of the input's buffer, of which the first stands at `offset` of the input.
#[derive(Clone, Copy, Debug, PartialEq, Eq)]
pub struct Held {
    pub offset: u64,
    pub held: usize,
}

/// Why a listing stopped otherwise than with the last line of its whole input.
#[derive(Clone, Copy, Debug, PartialEq, Eq)]
pub enum Stopped {
    /// The input could not be read. What came before is listed as if it had ended there.
    Unread,
    /// Not all of the text could be handed over.
    Unsaid,
    /// The offset came to its limit.
    Limit(Held),
}

// Reads behind the bytes held, and tells if that cannot be done.
fn read_piece<S: Source, E: Write>(
    source: &mut S,
    errors: &mut E,
    buf: &mut [u8],
    held: usize,
) -> Result<usize, Stopped>
    requires { held < length buf.old }
    ensures reads { ReadsMore (S.left source.old) (S.left source.new) S.sure held buf.old buf.new result }
    ensures unread { IsOkUnless result Stopped.Unread }
    ensures same_reference { S.name source.new ≡ S.name source.old }
{
    match source.read_more(buf, held) {
        Ok(count) => Ok(count),
        Err(_) => {
            let _ = errors.write_all(b"listing: the input cannot be read\n");
            Err(Stopped::Unread)
        }
    }
}

// Hands some text over, and tells if that cannot be done.
fn hand_over<K: Sink, E: Write>(sink: &mut K, errors: &mut E, text: &[u8]) -> Result<(), Stopped>
    ensures hands { HandsOver (K.text sink.old) (K.text sink.new) (K.room sink.old) (K.room sink.new) text.now result }
    ensures all_or_none { OfWhole K.whole (HandsWhole (K.text sink.old) (K.text sink.new) (K.room sink.old) (K.room sink.new)
        text.now result) }
    ensures unsaid { IsOkUnless result Stopped.Unsaid }
    ensures same_reference { K.name sink.new ≡ K.name sink.old }
{
    match sink.hand_over(text) {
        Ok(()) => Ok(()),
        Err(_) => {
            let _ = errors.write_all(b"listing: the output cannot be written\n");
            Err(Stopped::Unsaid)
        }
    }
}

// Reads once, lists what came behind the bytes held, hands the text over, and keeps what is left: nothing behind the last line.
fn turn<S: Source, K: Sink, E: Write>(
    source: &mut S,
    sink: &mut K,
    errors: &mut E,
    input: &mut [u8],
    out: &mut [u8],
    offset: u64,
    held: usize,
) -> Result<Option<Held>, Stopped>
    requires { TurnReady input.old out.old offset held }
    ensures turned { Turned (S.left source.old) (S.left source.new) S.sure (K.text sink.old) (K.text sink.new) (K.room sink.old)
        (K.room sink.new) offset (take held input.old) input.new out.new result }
    ensures all_or_none { OfWhole K.whole (TurnedWhole (S.left source.old) (S.left source.new) S.sure (K.text sink.old) (K.text sink.new)
        (K.room sink.old) (K.room sink.new) offset (take held input.old) input.new out.new result) }
    ensures same_references { (S.name source.new ≡ S.name source.old) × (K.name sink.new ≡ K.name sink.old) }
{
    let came = read_piece(source, errors, input, held);
    let got = came.unwrap_or(0);
    let end = held + got;
    let done = lister::list_piece(&input[..end], offset, out, got == 0);
    let used = done.used;
    let said = hand_over(sink, errors, &out[..done.put]);
    lister::move_down(input, used, end - used);
    came?;
    said?;
    if done.over {
        return Ok(None);
    }
    Ok(Some(Held {
        offset: offset + used as u64,
        held: end - used,
    }))
}

/// Lists what the source gives until the last line is handed over, which `Ok` says. What cannot be read or handed over is told to `errors`.
// Each turn but the last reads a byte or more, so offset and bytes held grow to their limit.
pub fn list_from<S: Source, K: Sink, E: Write>(
    source: &mut S,
    sink: &mut K,
    errors: &mut E,
) -> Result<(), Stopped>
    ensures ends { ListingEnds (S.left source.old) (S.left source.new) S.sure (K.text sink.old) (K.text sink.new) (K.room sink.old) result }
    ensures same_references { (S.name source.new ≡ S.name source.old) × (K.name sink.new ≡ K.name sink.old) }
{
    let mut space = [0u8; PIECE];
    let mut lines = io::large_buffer();
    let mut offset = 0;
    let mut held = 0;
    while offset < GREATEST_OFFSET {
        match turn(source, sink, errors, &mut space, &mut lines, offset, held)? {
            Some(next) => {
                offset = next.offset;
                held = next.held;
            }
            None => return Ok(()),
        }
    }
    Err(Stopped::Limit(Held { offset, held }))
}

/// Lists what a reader gives to a writer: whether its whole input was listed. Nothing failed then, and the offset stayed below its limit.
pub fn list<R: Read, W: Write, E: Write>(reader: &mut R, writer: &mut W, errors: &mut E) -> bool
    ensures { DescriptorListed (R.remaining reader.old) (R.remaining reader.new) (W.contents writer.old) (W.contents writer.new) result }
{
    let mut source = Through { at: reader };
    let mut sink = Through { at: writer };
    list_from(&mut source, &mut sink, errors).is_ok()
}

/// Lists a tape that is read in pieces of at most so many bytes, 0: as many as there is room for. Answers how many bytes of text it kept.
pub fn list_tape(tape: &[u8], most: usize, text: &mut [u8]) -> usize
    ensures { TapeListed tape.now text.new result }
{
    let mut source = Tape { rest: tape, most };
    let mut page = Page { text, handed: 0 };
    let _ = list_from(&mut source, &mut page, &mut std::io::sink());
    page.handed
}

/// Lists standard input on standard output.
pub fn run(rt: &HostRuntime) {
    list(&mut rt.stdin(), &mut rt.stdout(), &mut rt.stderr());
}
