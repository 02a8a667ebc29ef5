//! The reader and the writer for C.
ghost use Rattle.std.specs.Prelude.{◌≡◌, ◌∷◌, get_or};
ghost use Rattle.numbers.specs.Refusal.{not_refused, refusal_numbers};
ghost use Rattle.reader.specs.Numbers.{message_numbers, reading_numbers, command_numbers, notification_numbers, entry_numbers};
ghost use Rattle.writer.specs.Numbers.{written_numbers};
ghost use Rattle.melorwyth.specs.Messages.{reading_with, reading_of, plain_with, entry_from, written_with, written_of};
ghost use Rattle.melorwyth.specs.Promises.{ReadingHands, EntryHands, PartHands, ContextHands};
ghost use Rattle.melorwyth.specs.Promises.{StartHands, AppendHands, KeepAliveHands};

use fields::{CommandFields, NotificationFields};
use numbers::{Fault, NOT_REFUSED, Refusal};
use reader::Message;

/// A message, or a refusal.
#[repr(C)]
#[derive(Clone, Copy, Debug, PartialEq, Eq)]
pub struct Reading {
    /// 0, or the refusal's number.
    pub number: u8,
    /// The fault behind refusal 8, else 0.
    pub fault: u8,
    /// The message's type.
    pub kind: u8,
    /// Its messageCount.
    pub count: u16,
    /// A keep-alive's form, else 0.
    pub form: u8,
    /// A keep-alive's value in that form's unit, else 0.
    pub value: u32,
    /// The message's length, its 3B counted.
    pub length: usize,
}

/// An entry's fields, or a refusal; a field that the entry has not is 0.
#[repr(C)]
#[derive(Clone, Copy, Debug, PartialEq, Eq)]
pub struct Entry {
    /// 0, or the refusal's number.
    pub number: u8,
    /// The fault behind refusal 8, else 0.
    pub fault: u8,
    /// 0 a command of either type, 2 a notification, 3 a response.
    pub kind: u8,
    pub handle: u32,
    pub target: u32,
    pub level: u16,
    pub index: u16,
    pub count: u8,
    pub status: u8,
    pub context_count: u16,
    pub emitter: u32,
    pub event_level: u16,
    pub event_index: u16,
}

/// Where a part stands in the bytes that were lent.
#[repr(C)]
#[derive(Clone, Copy, Debug, PartialEq, Eq)]
pub struct Part {
    pub start: usize,
    pub length: usize,
}

/// The length of what was written, or a refusal.
#[repr(C)]
#[derive(Clone, Copy, Debug, PartialEq, Eq)]
pub struct Written {
    /// 0, or the refusal's number.
    pub number: u8,
    /// The fault behind refusal 8, else 0.
    pub fault: u8,
    /// The message's length, its 3B counted.
    pub length: usize,
}

// The fault that is told behind a refusal's number, else 0.
#[tactic(auto, using(numbers::proofs::Tables::told_behind))]
fn fault_behind(refusal: Refusal) -> u8
    ensures { result ≡ get_or (refusal_numbers refusal) 1 0 }
{
    refusal.fault().map_or(0, Fault::number)
}

fn unread(number: u8, fault: u8) -> Reading
    ensures { result ≡ reading_with number fault 0 0 0 0 0 }
{
    Reading {
        number,
        fault,
        kind: 0,
        count: 0,
        form: 0,
        value: 0,
        length: 0,
    }
}

#[tactic(auto, unfolding(reader::specs::Numbers::message_numbers, reader::specs::Numbers::heartbeat_numbers, crate::specs::Messages::reading_of))]
fn of_message(message: Message, length: usize) -> Reading
    ensures { result ≡ reading_of (not_refused ∷ length ∷ message_numbers message) }
{
    let (form, value) = match message {
        Message::KeepAlive(beat) => (beat.form(), beat.value()),
        _ => (0, 0),
    };
    Reading {
        number: NOT_REFUSED,
        fault: 0,
        kind: message.kind(),
        count: message.count(),
        form,
        value,
        length,
    }
}

impl From<Result<reader::Reading, Refusal>> for Reading {
    ghost from_gives = { λ answer told. told ≡ reading_of (reading_numbers answer) };

    #[tactic(auto, using(crate::proofs::Tellings::reading_refused), unfolding(reader::specs::Numbers::reading_numbers))]
    fn from(answer: Result<reader::Reading, Refusal>) -> Reading {
        match answer {
            Ok(reading) => of_message(reading.message, reading.length),
            Err(refusal) => unread(refusal.number(), fault_behind(refusal)),
        }
    }
}

pub fn melorwyth_read_message(bytes: &[u8]) -> Reading
    ensures { ReadingHands bytes.now result }
{
    reader::read_message(bytes).into()
}

#[tactic(auto, unfolding(reader::specs::Numbers::command_numbers, crate::specs::Messages::command_from, crate::specs::Messages::entry_from))]
fn of_command(c: CommandFields) -> Entry
    ensures { result ≡ entry_from (not_refused ∷ command_numbers c) }
{
    Entry {
        number: NOT_REFUSED,
        fault: 0,
        kind: frame::COMMAND,
        handle: c.handle,
        target: c.target,
        level: c.method.level,
        index: c.method.index,
        count: c.count,
        status: 0,
        context_count: 0,
        emitter: 0,
        event_level: 0,
        event_index: 0,
    }
}

#[tactic(auto, unfolding(reader::specs::Numbers::notification_numbers, crate::specs::Messages::notification_from, crate::specs::Messages::entry_from))]
fn of_notification(n: NotificationFields) -> Entry
    ensures { result ≡ entry_from (not_refused ∷ notification_numbers n) }
{
    Entry {
        number: NOT_REFUSED,
        fault: 0,
        kind: frame::NOTIFICATION,
        handle: 0,
        target: n.target,
        level: n.method.level,
        index: n.method.index,
        count: n.count,
        status: 0,
        context_count: n.context_count,
        emitter: n.emitter,
        event_level: n.event.level,
        event_index: n.event.index,
    }
}

// A response, or the number and fault of a refusal.
fn plain(number: u8, fault: u8, kind: u8, handle: u32, status: u8, count: u8) -> Entry
    ensures { result ≡ plain_with number fault kind handle status count }
{
    Entry {
        number,
        fault,
        kind,
        handle,
        target: 0,
        level: 0,
        index: 0,
        count,
        status,
        context_count: 0,
        emitter: 0,
        event_level: 0,
        event_index: 0,
    }
}

impl From<Result<reader::Entry, Refusal>> for Entry {
    ghost from_gives = { λ answer told. told ≡ entry_from (entry_numbers answer) };

    #[tactic(auto, using(crate::proofs::Tellings::entry_refused), unfolding(reader::specs::Numbers::entry_numbers, reader::specs::Numbers::response_numbers, crate::specs::Messages::entry_from))]
    fn from(answer: Result<reader::Entry, Refusal>) -> Entry {
        match answer {
            Ok(reader::Entry::Command(c)) => of_command(c),
            Ok(reader::Entry::Notification(n)) => of_notification(n),
            Ok(reader::Entry::Response(r)) => plain(
                NOT_REFUSED,
                0,
                frame::RESPONSE,
                r.handle,
                r.status,
                r.count,
            ),
            Err(refusal) => plain(refusal.number(), fault_behind(refusal), 0, 0, 0, 0),
        }
    }
}

pub fn melorwyth_read_entry(bytes: &[u8], index: usize) -> Entry
    ensures { EntryHands bytes.now index result }
{
    reader::read_entry(bytes, index).into()
}

// Where the entry's part stands: `PartStands` of the reader says that the bytes there are the part.
#[tactic(auto, using(crate::proofs::Tellings::part_told))]
pub fn melorwyth_entry_part(bytes: &[u8], index: usize) -> Part
    ensures { PartHands bytes.now index result }
{
    let part = reader::part_place(bytes, index);
    Part {
        start: part.start,
        length: part.length,
    }
}

// Where the entry's context stands: `ContextStands` of the reader says that the bytes there are the context.
#[tactic(auto, using(crate::proofs::Tellings::context_told))]
pub fn melorwyth_entry_context(bytes: &[u8], index: usize) -> Part
    ensures { ContextHands bytes.now index result }
{
    let context = reader::context_place(bytes, index);
    Part {
        start: context.start,
        length: context.length,
    }
}

fn put(number: u8, fault: u8, length: usize) -> Written
    ensures { result ≡ written_with number fault length }
{
    Written {
        number,
        fault,
        length,
    }
}

impl From<Result<usize, Refusal>> for Written {
    ghost from_gives = { λ answer told. told ≡ written_of (written_numbers answer) };

    #[tactic(auto, using(crate::proofs::Tellings::written_refused), unfolding(writer::specs::Numbers::written_numbers, crate::specs::Messages::written_of))]
    fn from(answer: Result<usize, Refusal>) -> Written {
        match answer {
            Ok(length) => put(NOT_REFUSED, 0, length),
            Err(refusal) => put(refusal.number(), fault_behind(refusal), 0),
        }
    }
}

#[tactic(auto, using(crate::proofs::Tellings::written_told))]
pub fn melorwyth_start(buffer: &mut [u8], kind: u8, entry: &[u8]) -> Written
    ensures { StartHands buffer.old kind entry.now result buffer.new }
{
    writer::start(buffer, kind, entry).into()
}

#[tactic(auto, using(crate::proofs::Tellings::written_told))]
pub fn melorwyth_append(buffer: &mut [u8], kind: u8, entry: &[u8]) -> Written
    ensures { AppendHands buffer.old kind entry.now result buffer.new }
{
    writer::append(buffer, kind, entry).into()
}

#[tactic(auto, using(crate::proofs::Tellings::written_told))]
pub fn melorwyth_keep_alive(buffer: &mut [u8], form: u8, value: u32) -> Written
    ensures { KeepAliveHands buffer.old form value result buffer.new }
{
    writer::keep_alive(buffer, form, value).into()
}
