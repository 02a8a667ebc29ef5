//! The writer of whole messages: start with one entry, append an entry, write a keep-alive.
#![tactic(auto)]

ghost use Rattle.std.specs.Prelude.{◌≡◌, ◌++◌, ◌+◌, ◌<◌, ◌≤◌, length, OnOk};
ghost use Rattle.frame.specs.Limits.{header_end, greatest_size};
ghost use Rattle.frame.specs.Header.{message_count};
ghost use Rattle.frame.specs.Decide.{decide};
ghost use Rattle.frame.specs.declared.Decision.TheVariants.{Sound};
ghost use Rattle.reader.specs.Read.{data_of};
ghost use Rattle.writer.specs.Numbers.{writing};
ghost use Rattle.writer.specs.Scaffold.{room_check, length_by};
ghost use Rattle.layout.specs.Message.{size_of, message, at_front};
ghost use Rattle.writer.specs.Round.{ReadAfterWrite, OneResult};
ghost use Rattle.writer.specs.Write.{least_room, append_sound, Starts, Appends, WritesKeepAlive};

use frame::Decision;
use heartbeat::{Milliseconds, Seconds};
use numbers::Refusal;

/// Room for the longest message: the least buffer.
pub const ROOM: usize = frame::LONGEST_MESSAGE;

const SECONDS_LENGTH: usize = frame::HEADER_END + frame::SECONDS_BYTES;

const MILLISECONDS_LENGTH: usize = frame::HEADER_END + frame::MILLISECONDS_BYTES;

// Refusal 4 does not apply.
#[tactic(auto, using(laws::proofs::Conds::tests), unfolding(crate::specs::Scaffold::room_check))]
fn check_room(buf: &[u8]) -> Result<(), Refusal>
    ensures value { result ≡ room_check buf.now }
    ensures enough { OnOk result (least_room ≤ length buf.now) }
{
    if buf.len() < ROOM {
        return Err(Refusal::NoRoom);
    }
    Ok(())
}

// The length of the sound message at the buffer's front.
#[tactic(auto, unfolding(crate::specs::Scaffold::length_by))]
fn sound_length(buf: &[u8]) -> Result<usize, Refusal>
    ensures { result ≡ length_by (decide buf.now) }
{
    match frame::decide(buf) {
        // 2,049 bytes always decide
        Decision::Undecided => Err(Refusal::NoRoom),
        Decision::Faulty(fault, _) => Err(fault.into()),
        Decision::Sound(n) => Ok(n),
    }
}

// The message of one entry.
#[tactic(auto, using(layout::proofs::Messages::put_whole))]
fn put_message(buf: &mut [u8], kind: u8, e: &[u8])
    requires { (size_of e.now ≤ greatest_size) × (least_room ≤ length buf.old) }
    ensures { buf.new ≡ at_front (message kind 1 e.now) buf.old }
{
    layout::put_head(buf, kind, 1, e.len() as u32 + frame::LEAST_SIZE);
    octets::copy(e, buf, frame::HEADER_END);
}

/// R25. Writes a message of one entry, and answers its length; 4 where the buffer is too small, 11 where `kind` is no type of an
/// entry or the entry is not well formed, 10 where it is too long.
#[tactic(auto, using(crate::proofs::Outcomes::start_unroomed, crate::proofs::Outcomes::start_bad, crate::proofs::Outcomes::start_long, crate::proofs::Outcomes::start_done))]
pub fn start(buf: &mut [u8], kind: u8, e: &[u8]) -> Result<usize, Refusal>
    ensures { Starts buf.old kind e.now result buf.new }
{
    check_room(buf)?;
    if !frame::well_formed(kind, e) {
        return Err(Refusal::BadEntry);
    }
    if ROOM - frame::HEADER_END < e.len() {
        return Err(Refusal::TooLong);
    }
    let length = e.len() + frame::HEADER_END;
    put_message(buf, kind, e);
    Ok(length)
}

// The message of n bytes, with one entry more: only its header and the bytes behind it are written.
#[tactic(auto, using(laws::proofs::Parts::rest, crate::proofs::Messages::put_behind))]
fn put_more(buf: &mut [u8], n: usize, kind: u8, e: &[u8])
    requires { (header_end ≤ n) × (n + length e.now ≤ least_room) × (least_room ≤ length buf.old) × (message_count buf.old < 65535) }
    ensures { buf.new
        ≡ at_front (message kind (message_count buf.old + 1) (data_of buf.old n ++ e.now))
        buf.old }
{
    let count = octets::be16(buf, frame::places::MESSAGE_COUNT);
    let end = n + e.len();
    layout::put_head(buf, kind, count + 1, (end - 1) as u32);
    octets::copy(e, buf, n);
}

#[tactic(auto, using(laws::proofs::Conds::and_left, frame::proofs::Entries::well_kind, crate::proofs::Outcomes::sound_bounds, crate::proofs::Outcomes::sound_few, crate::proofs::Outcomes::append_other, crate::proofs::Outcomes::append_bad, crate::proofs::Outcomes::append_long, crate::proofs::Outcomes::append_done))]
fn append_sound(buf: &mut [u8], n: usize, kind: u8, e: &[u8]) -> Result<usize, Refusal>
    requires { (least_room ≤ length buf.old) × (decide buf.old ≡ Sound n) }
    ensures { writing result buf.new ≡ append_sound n buf.old kind e.now }
{
    if kind != buf[frame::places::TYPE] {
        return Err(Refusal::BadEntry);
    }
    let well = frame::well_formed(kind, e);
    if !well {
        return Err(Refusal::BadEntry);
    }
    if ROOM - n < e.len() {
        return Err(Refusal::TooLong);
    }
    put_more(buf, n, kind, e);
    Ok(n + e.len())
}

/// Appends an entry to the sound message at the buffer's front, and answers the longer message's length; 4 where the buffer is too
/// small, 8 where its front decides a fault, 11 where the entry is of another type or not well formed, 10 where it is too long.
#[tactic(auto, using(crate::proofs::Outcomes::append_unroomed, crate::proofs::Outcomes::append_unsound, crate::proofs::Outcomes::length_sound, crate::proofs::Outcomes::append_sound_lem))]
pub fn append(buf: &mut [u8], kind: u8, e: &[u8]) -> Result<usize, Refusal>
    ensures { Appends buf.old kind e.now result buf.new }
{
    check_room(buf)?;
    let n = sound_length(buf)?;
    append_sound(buf, n, kind, e)
}

/// R27. Writes a keep-alive of that form, with a value in its unit, and answers its length; 4 where the buffer is too small, 11
/// where there is no such form or 2 bytes do not hold the seconds.
#[tactic(auto, using(crate::proofs::Outcomes::beat_unroomed, crate::proofs::Outcomes::no_form, crate::proofs::Outcomes::no_seconds, crate::proofs::Outcomes::in_seconds, crate::proofs::Outcomes::in_milliseconds))]
pub fn keep_alive(buf: &mut [u8], form: u8, value: u32) -> Result<usize, Refusal>
    ensures { WritesKeepAlive buf.old form value result buf.new }
{
    check_room(buf)?;
    match form {
        heartbeat::SECONDS_FORM => {
            let Ok(seconds) = u16::try_from(value) else {
                return Err(Refusal::BadEntry);
            };
            layout::put_seconds(buf, Seconds(seconds));
            Ok(SECONDS_LENGTH)
        }
        heartbeat::MILLISECONDS_FORM => {
            layout::put_milliseconds(buf, Milliseconds(value));
            Ok(MILLISECONDS_LENGTH)
        }
        _ => Err(Refusal::BadEntry),
    }
}

// What start, append and keep_alive write is read as it was given.
#[tactic(auto, using(crate::proofs::Results::read_after_write))]
pub fn read_after_write()
    ensures { ReadAfterWrite }
{}

// Two results that a promise of the writer allows are equal.
#[tactic(auto, using(crate::proofs::Results::one_results))]
pub fn one_result()
    ensures { OneResult }
{}
