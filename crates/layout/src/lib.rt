//! A message's bytes in a buffer: the 3B and the header, and a keep-alive whole.
#![tactic(auto)]

ghost use Rattle.std.specs.Prelude.{◌≡◌, ◌≤◌, length};
ghost use Rattle.std.proofs.lemmas.List.Edits.{sets};
ghost use Rattle.octets.specs.Numbers.{bytes16, bytes32};
ghost use Rattle.frame.specs.Limits.{header_end, keep_alive};
ghost use Rattle.layout.specs.Message.{head_bytes, message, at_front};

/// The 3B and the header, at the front of `buf`.
#[tactic(auto, using(crate::proofs::Messages::head_stores))]
pub fn put_head(buf: &mut [u8], kind: u8, count: u16, size: u32)
    requires { header_end ≤ length buf.old }
    ensures { buf.new ≡ sets buf.old 0 (head_bytes kind count size) }
{
    buf[0] = frame::SYNC;
    octets::put16(buf, frame::places::VERSION, frame::VERSION);
    octets::put32(buf, frame::places::SIZE, size);
    buf[frame::places::TYPE] = kind;
    octets::put16(buf, frame::places::MESSAGE_COUNT, count);
}

/// The keep-alive that carries these seconds, at the front of `buf`.
#[tactic(auto, using(octets::proofs::Digits::length_bytes16, crate::proofs::Messages::put_whole))]
pub fn put_seconds(buf: &mut [u8], beat: heartbeat::Seconds)
    requires { 12 ≤ length buf.old }
    ensures { buf.new ≡ at_front (message keep_alive 1 (bytes16 beat.0)) buf.old }
{
    put_head(
        buf,
        frame::KEEP_ALIVE,
        1,
        frame::SECONDS_BYTES as u32 + frame::LEAST_SIZE,
    );
    octets::put16(buf, frame::HEADER_END, beat.0);
}

/// The keep-alive that carries these milliseconds, at the front of `buf`.
#[tactic(auto, using(octets::proofs::Digits::length_bytes32, crate::proofs::Messages::put_whole))]
pub fn put_milliseconds(buf: &mut [u8], beat: heartbeat::Milliseconds)
    requires { 14 ≤ length buf.old }
    ensures { buf.new ≡ at_front (message keep_alive 1 (bytes32 beat.0)) buf.old }
{
    put_head(
        buf,
        frame::KEEP_ALIVE,
        1,
        frame::MILLISECONDS_BYTES as u32 + frame::LEAST_SIZE,
    );
    octets::put32(buf, frame::HEADER_END, beat.0);
}
