//! The lines of the listing, put into an output buffer.
//!
//! Each function puts one line from place `at` of `out` on, where there are to be 40 bytes or more, and answers the place behind it.
#![tactic(auto)]

ghost use Rattle.std.specs.Prelude.{◌≡◌, cond, ◌++◌, ◌+◌, ◌≤◌, eqb, length};
ghost use Rattle.lines.specs.Text.{space, newline, number_text, message_line, stop_line, part_line, end_line};
ghost use Rattle.lines.specs.Scaffold.{line_room, Puts, PutsLine};

fn put_text(out: &mut [u8], at: usize, s: &[u8]) -> usize
    requires { at + length s.now ≤ length out.old }
    ensures { Puts s.now out.old at out.new result }
{
    let end = at + s.len();
    out[at..end].copy_from_slice(s);
    end
}

#[tactic(auto, using(crate::proofs::Putting::puts_then, crate::proofs::Putting::puts_one, crate::proofs::Putting::puts_length, crate::proofs::Decimals::decimal_text, crate::proofs::Decimals::number_length), unfolding(crate::specs::Text::number_text))]
fn put_number(out: &mut [u8], at: usize, n: u64, mark: u8) -> usize
    requires { at + length (number_text n mark) ≤ length out.old }
    ensures { Puts (number_text n mark) out.old at out.new result }
{
    let end = put_text(out, at, itoa::Buffer::new().format(n).as_bytes());
    out[end] = mark;
    end + 1
}

/// The line of a message at an offset of the input: offset, type, messageCount and pduSize, each but the last before a space.
#[tactic(auto, using(crate::proofs::Putting::puts_then, crate::proofs::Putting::puts_length, crate::proofs::Decimals::short64, crate::proofs::Decimals::short16, crate::proofs::Decimals::short8), unfolding(crate::specs::Text::message_line))]
pub fn put_message(out: &mut [u8], at: usize, offset: u64, kind: u8, count: u16, size: u16) -> usize
    requires { at + line_room ≤ length out.old }
    ensures { PutsLine (message_line offset kind count size) out.old at out.new result }
{
    let a = put_number(out, at, offset, b' ');
    let b = put_number(out, a, kind as u64, b' ');
    let c = put_number(out, b, count as u64, b' ');
    put_number(out, c, size as u64, b'\n')
}

// The offset, a word and a number.
#[tactic(auto, using(crate::proofs::Putting::puts_then, crate::proofs::Putting::puts_length, crate::proofs::Decimals::short64, crate::proofs::Decimals::short16))]
fn put_word(out: &mut [u8], at: usize, offset: u64, word: &[u8], n: u16) -> usize
    requires { (at + line_room ≤ length out.old) × (length word.now ≡ 5) }
    ensures { PutsLine (number_text offset space ++ (word.now ++ number_text n newline)) out.old at out.new result }
{
    let a = put_number(out, at, offset, b' ');
    let b = put_text(out, a, word);
    put_number(out, b, n as u64, b'\n')
}

/// The last line where a fault of that number stands at the offset.
#[tactic(auto, unfolding(crate::specs::Text::stop_line))]
pub fn put_stop(out: &mut [u8], at: usize, offset: u64, fault: u8) -> usize
    requires { at + line_room ≤ length out.old }
    ensures { PutsLine (stop_line offset fault) out.old at out.new result }
{
    put_word(out, at, offset, b"stop ", fault as u16)
}

/// The last line where the input ended with `left` bytes from the offset on that decide nothing.
#[tactic(auto, using(crate::proofs::Putting::puts_then, crate::proofs::Putting::puts_length, crate::proofs::Decimals::short64), unfolding(crate::specs::Text::end_line, crate::specs::Text::part_line))]
pub fn put_end(out: &mut [u8], at: usize, offset: u64, left: u16) -> usize
    requires { at + line_room ≤ length out.old }
    ensures { PutsLine (cond (eqb left 0) (end_line offset) (part_line offset left)) out.old at out.new result }
{
    if left > 0 {
        return put_word(out, at, offset, b"part ", left);
    }
    let a = put_number(out, at, offset, b' ');
    put_text(out, a, b"end\n")
}
