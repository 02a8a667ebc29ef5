//! The reader of whole messages: the message at the front of some bytes, its entries, and each entry's part.
#![tactic(auto)]

ghost use Rattle.std.specs.Prelude.{◌≡◌, [], ◌∷◌, cond, ◌+◌, ◌≤◌, length, get_or, eqb, Ok, IfOk};
ghost use Rattle.frame.specs.Limits.{notification};
ghost use Rattle.frame.specs.Places.{context_place};
ghost use Rattle.frame.specs.Entry.{least_entry, context_count, parameter_offset};
ghost use Rattle.frame.specs.Scaffold.{SoundAt};
ghost use Rattle.reader.specs.Numbers.{message_numbers, entry_numbers};
ghost use Rattle.reader.specs.Read.{message_of, ReadsMessage};
ghost use Rattle.reader.specs.Entry.{fields_of, ReadsEntry, GivesPart, TellsStart, PlacesPart, PartStands};
ghost use Rattle.reader.specs.Context.{GivesContext, PlacesContext, ContextStands};
ghost use Rattle.reader.specs.Scaffold.{place_at, entry_place, RestStands, AtPlace};
ghost use Rattle.reader.specs.Tell.{NumbersTell};
ghost use Rattle.reader.specs.Examples.{ExamplesRead};

use fields::{CommandFields, NotificationFields, ResponseFields};
use frame::{Decision, Found, places};
use heartbeat::Heartbeat;
use numbers::Refusal;

/// A sound message: its messageCount, or a keep-alive's heartbeat.
#[derive(Clone, Copy, Debug, PartialEq, Eq)]
pub enum Message {
    Command(u16),
    CommandWantingReply(u16),
    Notification(u16),
    Response(u16),
    KeepAlive(Heartbeat),
}

impl Message {
    /// The message's type.
    #[tactic(auto, unfolding(crate::specs::Numbers::message_numbers))]
    pub fn kind(self) -> u8
        ensures { result ≡ get_or (message_numbers self) 0 0 }
    {
        match self {
            Message::Command(_) => frame::COMMAND,
            Message::CommandWantingReply(_) => frame::COMMAND_WANTING_REPLY,
            Message::Notification(_) => frame::NOTIFICATION,
            Message::Response(_) => frame::RESPONSE,
            Message::KeepAlive(_) => frame::KEEP_ALIVE,
        }
    }

    /// The message's messageCount, which is 1 in a keep-alive.
    #[tactic(auto, unfolding(crate::specs::Numbers::message_numbers))]
    pub fn count(self) -> u16
        ensures { result ≡ get_or (message_numbers self) 1 0 }
    {
        match self {
            Message::Command(count)
            | Message::CommandWantingReply(count)
            | Message::Notification(count)
            | Message::Response(count) => count,
            Message::KeepAlive(_) => 1,
        }
    }
}

/// A message, and its length with the 3B counted.
#[derive(Clone, Copy, Debug, PartialEq, Eq)]
pub struct Reading {
    pub message: Message,
    pub length: usize,
}

/// An entry's fields, by its type.
#[derive(Clone, Copy, Debug, PartialEq, Eq)]
pub enum Entry {
    Command(CommandFields),
    Notification(NotificationFields),
    Response(ResponseFields),
}

// Where an entry stands in the caller's bytes, up to the byte behind its last.
#[derive(Clone, Copy)]
struct Place {
    from: usize,
    end: usize,
}

/// Where an entry's part stands in the caller's bytes.
#[derive(Clone, Copy, Debug, PartialEq, Eq)]
pub struct Part {
    pub start: usize,
    pub length: usize,
}

impl Part {
    /// The part of an entry that is refused.
    pub const NONE: Part = Part {
        start: 0,
        length: 0,
    };
}

#[tactic(auto, unfolding(crate::specs::Numbers::message_numbers))]
fn message_of(kind: u8, count: u16) -> Message
    requires { kind ≤ 3 }
    ensures { message_numbers result ≡ kind ∷ count ∷ [] }
{
    match kind {
        frame::COMMAND => Message::Command(count),
        frame::COMMAND_WANTING_REPLY => Message::CommandWantingReply(count),
        frame::NOTIFICATION => Message::Notification(count),
        _ => Message::Response(count),
    }
}

// The sound message of n bytes at the front of s.
#[tactic(auto, using(laws::proofs::Parts::drop_take, crate::proofs::Sounds::kind_low, crate::proofs::Sounds::keep_data), unfolding(crate::specs::Numbers::message_numbers, crate::specs::Read::message_of))]
fn message_in(s: &[u8], n: usize) -> Message
    requires { SoundAt s.now n }
    ensures { message_numbers result ≡ message_of s.now n }
{
    if s[places::TYPE] == frame::KEEP_ALIVE {
        return Message::KeepAlive(fields::heartbeat_of(&s[frame::HEADER_END..n]));
    }
    message_of(s[places::TYPE], octets::be16(s, places::MESSAGE_COUNT))
}

/// The message at the front of `s`; 8 where its bytes decide a fault, 9 where they decide nothing yet.
#[tactic(auto, using(frame::proofs::Sounds::sound_at), unfolding(crate::specs::Read::read_by, crate::specs::Numbers::reading_numbers, crate::specs::Read::read_of))]
pub fn read_message(s: &[u8]) -> Result<Reading, Refusal>
    ensures { ReadsMessage s.now result }
{
    match frame::decide(s) {
        Decision::Undecided => Err(Refusal::Short),
        Decision::Faulty(fault, _) => Err(fault.into()),
        Decision::Sound(length) => Ok(Reading {
            message: message_in(s, length),
            length,
        }),
    }
}

#[tactic(auto, using(frame::proofs::Entries::least_command_lem, frame::proofs::Entries::least_response_lem, frame::proofs::Entries::offset_low), unfolding(crate::specs::Numbers::entry_numbers, crate::specs::Entry::fields_of))]
fn fields_of(kind: u8, e: &[u8]) -> Entry
    requires { parameter_offset kind e.now ≤ length e.now }
    ensures { entry_numbers (Ok result) ≡ fields_of kind e.now }
{
    match kind {
        frame::COMMAND | frame::COMMAND_WANTING_REPLY => Entry::Command(fields::command_of(e)),
        frame::NOTIFICATION => Entry::Notification(fields::notification_of(e)),
        _ => Entry::Response(fields::response_of(e)),
    }
}

// The entry from whose first byte on `rest` of the message's n bytes stand, if it has such an entry.
#[tactic(auto, using(laws::proofs::Parts::rest), unfolding(crate::specs::Scaffold::place_at))]
fn place_in(s: &[u8], n: usize, rest: Option<usize>) -> Result<Place, Refusal>
    requires { RestStands s.now n rest }
    ensures { result ≡ place_at s.now n rest }
{
    let from = n - rest.ok_or(Refusal::NoEntry)?;
    let end = from + frame::given_size(&s[from..]);
    Ok(Place { from, end })
}

// Where entry index of the message at the front of s stands: found by the walk that decides the message, for every call below.
#[tactic(auto, using(frame::proofs::Sounds::sound_at, crate::proofs::Places::rest_stands, crate::proofs::Places::place_stands), unfolding(crate::specs::Scaffold::place_by, crate::specs::Scaffold::entry_place))]
fn place_of(s: &[u8], index: usize) -> Result<Place, Refusal>
    ensures place { result ≡ entry_place s.now index }
    ensures stands { IfOk result (λ p. AtPlace s.now p.from p.end) }
{
    let Found { decision, rest } = frame::find(s, index);
    match decision {
        Decision::Undecided => Err(Refusal::Short),
        Decision::Faulty(fault, _) => Err(fault.into()),
        Decision::Sound(n) => place_in(s, n, rest),
    }
}

/// Entry `index` of the message at the front of `s`; 12 where that message has no such entry, and 8 or 9 where there is no message.
#[tactic(auto, using(crate::proofs::Places::entry_ok, crate::proofs::Places::entry_err, crate::proofs::Places::at_long), unfolding(crate::specs::Numbers::entry_numbers))]
pub fn read_entry(s: &[u8], index: usize) -> Result<Entry, Refusal>
    ensures { ReadsEntry s.now index result }
{
    let Place { from, end } = place_of(s, index)?;
    Ok(fields_of(s[places::TYPE], &s[from..end]))
}

/// R21, R22. Where the parameters of entry `index` stand in `s`; nothing where the entry is refused.
#[tactic(auto, using(crate::proofs::Places::part_ok, crate::proofs::Places::part_err, crate::proofs::Places::at_least))]
pub fn part_place(s: &[u8], index: usize) -> Part
    ensures { PlacesPart s.now index result }
{
    let Ok(Place { from, end }) = place_of(s, index) else {
        return Part::NONE;
    };
    let start = from + frame::parameter_offset(s[places::TYPE], &s[from..end]);
    Part {
        start,
        length: end - start,
    }
}

/// R21. The parameters of entry index, as a slice of s; empty where it is refused.
#[tactic(auto, using(crate::proofs::Starts::part_stands))]
pub fn entry_part<'a>(s: &'a [u8], index: usize) -> &'a [u8]
    ensures { GivesPart s.now index result.now }
{
    let Part { start, length } = part_place(s, index);
    &s[start..start + length]
}

/// Where entry index's part starts in s, for a caller that cannot be handed a slice: 0 where the entry is refused.
pub fn part_start(s: &[u8], index: usize) -> usize
    ensures { TellsStart s.now index result }
{
    part_place(s, index).start
}

// The bytes from there on, as many as the part has, are the part.
#[tactic(auto, using(crate::proofs::Starts::part_stands))]
pub fn part_stands()
    ensures { PartStands }
{}

// The context of an entry of that type, whose first byte stands at `from`.
#[tactic(auto, unfolding(frame::specs::Entry::context_count))]
fn context_at(kind: u8, from: usize, e: &[u8]) -> Part
    requires { (least_entry kind ≤ length e.now) × (from ≤ 2049) }
    ensures { (result.start ≡ cond (eqb kind notification) (from + context_place) 0)
        × (result.length ≡ context_count kind e.now) }
{
    if kind != frame::NOTIFICATION {
        return Part::NONE;
    }
    Part {
        start: from + places::CONTEXT,
        length: frame::context_count(kind, e),
    }
}

/// R21, R22. Where the context of entry index stands in s: a notification's alone has one.
#[tactic(auto, using(crate::proofs::Places::context_ok, crate::proofs::Places::context_err, crate::proofs::Places::at_least))]
pub fn context_place(s: &[u8], index: usize) -> Part
    ensures { PlacesContext s.now index result }
{
    let Ok(Place { from, end }) = place_of(s, index) else {
        return Part::NONE;
    };
    context_at(s[places::TYPE], from, &s[from..end])
}

/// R21. The context of entry index, as a slice of s; empty where it is refused or has none.
#[tactic(auto, using(crate::proofs::Starts::context_stands))]
pub fn entry_context<'a>(s: &'a [u8], index: usize) -> &'a [u8]
    ensures { GivesContext s.now index result.now }
{
    let Part { start, length } = context_place(s, index);
    &s[start..start + length]
}

// The bytes from its start on, as many as the context has, are the context.
#[tactic(auto, using(crate::proofs::Starts::context_stands))]
pub fn context_stands()
    ensures { ContextStands }
{}

// The numbers of an answer tell it from every other, and each promise allows one answer.
#[tactic(auto, using(crate::proofs::Tells::numbers_tell))]
pub fn numbers_tell()
    ensures { NumbersTell }
{}

// R83. The messages of the examples are read as their table says.
pub fn examples_read()
    ensures { ExamplesRead }
{}
