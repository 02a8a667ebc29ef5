//! The limits, the header, the deciding byte and the walk over a message's entries.
#![tactic(auto)]

ghost use Rattle.std.specs.Prelude.{◌≡◌, false, cond, ◌+◌, ◌-◌, ◌^◌, ◌<◌, ◌≤◌, length, Some, None, IfSome};
ghost use Rattle.octets.specs.Numbers.{be32_at};
ghost use Rattle.frame.specs.Header.{count_fault, fields_fault, header_fault};
ghost use Rattle.frame.specs.Entry.{least_entry, context_count, parameter_offset, is_context_bad};
ghost use Rattle.frame.specs.Entry.{count_place, least_count, count_fits, entry_fits, entry_size, entries_fill, well_formed};
ghost use Rattle.frame.specs.Counts.{CountTells};
ghost use Rattle.frame.specs.Contexts.{ContextTells};
ghost use Rattle.frame.specs.Decide.{keep_alive_fill, data_sound, decide_data, decide_header, decide};
ghost use Rattle.frame.specs.Deciding.{Deciding};
ghost use Rattle.frame.specs.declared.Decision.TheVariants.{Sound, Faulty};
ghost use Rattle.numbers.specs.declared.Fault.TheVariants as fault;
ghost use Rattle.frame.specs.Scaffold.{nonzero, walked, rest_from, rest_by, has_header, Finds};

use numbers::Fault;

pub mod places;

pub const SYNC: u8 = 59;

pub const HEADER_END: usize = 10;

pub const VERSION: u16 = 1;

pub const LEAST_SIZE: u32 = 9;

pub const GREATEST_SIZE: u32 = 2048;

// With its 3B.
pub const LONGEST_MESSAGE: usize = GREATEST_SIZE as usize + 1;

pub const COMMAND: u8 = 0;

pub const COMMAND_WANTING_REPLY: u8 = 1;

pub const NOTIFICATION: u8 = 2;

pub const RESPONSE: u8 = 3;

pub const KEEP_ALIVE: u8 = 4;

pub const LEAST_COMMAND: usize = 17;

pub const LEAST_NOTIFICATION: usize = 23;

pub const LEAST_RESPONSE: usize = 10;

pub const GREATEST_CONTEXT: usize = 64;

pub const SECONDS_BYTES: usize = 2;

pub const MILLISECONDS_BYTES: usize = 4;

/// What the bytes so far decide, with how many of them that takes.
#[derive(Clone, Copy, Debug, PartialEq, Eq)]
pub enum Decision {
    /// Nothing yet.
    Undecided,
    /// A fault, by so many bytes.
    Faulty(Fault, usize),
    /// A sound message of so many bytes.
    Sound(usize),
}

/// A decision, and of a sound message how many bytes stand from the entry that was looked for on, if it has that entry.
#[derive(Clone, Copy, Debug, PartialEq, Eq)]
pub struct Found {
    pub decision: Decision,
    pub rest: Option<usize>,
}

#[tactic(auto, using(laws::proofs::Conds::tests), unfolding(crate::specs::Header::count_fault))]
fn count_fault(kind: u8, count: u16) -> Option<Fault>
    ensures { result ≡ count_fault kind count }
{
    if count == 0 {
        return Some(Fault::Count);
    }
    if kind == KEEP_ALIVE && count != 1 {
        return Some(Fault::Count);
    }
    None
}

// The first fault of the header's fields, 2 to 5, if they have one.
#[tactic(auto, using(laws::proofs::Conds::tests), unfolding(crate::specs::Header::fields_fault))]
fn fields_fault(version: u16, size: u32, kind: u8, count: u16) -> Option<Fault>
    ensures { result ≡ fields_fault version size kind count }
{
    if version != VERSION {
        return Some(Fault::Version);
    }
    if size < LEAST_SIZE {
        return Some(Fault::Size);
    }
    if GREATEST_SIZE < size {
        return Some(Fault::Size);
    }
    if KEEP_ALIVE < kind {
        return Some(Fault::Type);
    }
    count_fault(kind, count)
}

#[tactic(auto, unfolding(crate::specs::Header::header_fault))]
fn header_fault(s: &[u8]) -> Option<Fault>
    requires { 10 ≤ length s.now }
    ensures { result ≡ header_fault s.now }
{
    fields_fault(
        octets::be16(s, places::VERSION),
        octets::be32(s, places::SIZE),
        s[places::TYPE],
        octets::be16(s, places::MESSAGE_COUNT),
    )
}

// The least size of an entry, without its context.
#[tactic(auto, using(laws::proofs::Conds::tests), unfolding(crate::specs::Entry::least_entry))]
pub fn least_entry(kind: u8) -> usize
    ensures { result ≡ least_entry kind }
{
    match kind {
        COMMAND | COMMAND_WANTING_REPLY => LEAST_COMMAND,
        NOTIFICATION => LEAST_NOTIFICATION,
        _ => LEAST_RESPONSE,
    }
}

// How many bytes the context has of the entry at the front of e: a notification's, which others have not. Nothing is checked.
#[tactic(auto, using(crate::proofs::Entries::least_notification_lem), unfolding(crate::specs::Entry::context_count))]
pub fn context_count(kind: u8, e: &[u8]) -> usize
    requires { least_entry kind ≤ length e.now }
    ensures { (result ≡ context_count kind e.now) × (result < 2 ^ 16) }
{
    if kind == NOTIFICATION {
        octets::be16(e, places::CONTEXT_COUNT) as usize
    } else {
        0
    }
}

// Where the parameters start of the entry at the front of e.
#[tactic(auto, using(crate::proofs::Entries::least_holds), unfolding(crate::specs::Entry::parameter_offset))]
pub fn parameter_offset(kind: u8, e: &[u8]) -> usize
    requires { least_entry kind ≤ length e.now }
    ensures { (result ≡ parameter_offset kind e.now) × (result < 2 ^ 17) }
{
    least_entry(kind) + context_count(kind, e)
}

#[tactic(auto, unfolding(crate::specs::Entry::is_context_bad))]
fn is_context_bad(kind: u8, t: &[u8]) -> bool
    requires { least_entry kind ≤ length t.now }
    ensures { result ≡ is_context_bad kind t.now }
{
    (GREATEST_CONTEXT < context_count(kind, t)) | (t.len() < parameter_offset(kind, t))
}

#[tactic(auto, using(laws::proofs::Conds::tests), unfolding(crate::specs::Entry::count_place))]
fn count_place(kind: u8) -> usize
    ensures { result ≡ count_place kind }
{
    match kind {
        COMMAND | COMMAND_WANTING_REPLY => places::COMMAND_COUNT,
        NOTIFICATION => places::NOTIFICATION_COUNT,
        _ => places::RESPONSE_COUNT,
    }
}

#[tactic(auto, using(laws::proofs::Conds::tests), unfolding(crate::specs::Entry::least_count))]
fn least_count(kind: u8) -> u8
    ensures { result ≡ least_count kind }
{
    u8::from(kind == NOTIFICATION)
}

// least is the count that has no parameter bytes; above it there is at least one.
#[tactic(auto, using(laws::proofs::Conds::tests), unfolding(crate::specs::Entry::count_fits))]
fn count_fits(least: u8, count: u8, bytes: usize) -> bool
    ensures { result ≡ count_fits least count bytes }
{
    if count < least {
        return false;
    }
    if count == least {
        return bytes == 0;
    }
    0 < bytes
}

// The entry check: part is the message from the entry's parameter offset on.
#[tactic(auto, unfolding(crate::specs::Entry::entry_fits))]
fn entry_fits(kind: u8, offset: usize, size: usize, count: u8, part: &[u8]) -> bool
    ensures { result ≡ entry_fits kind offset size count part.now }
{
    if size < offset {
        return false;
    }
    if part.len() < size - offset {
        return false;
    }
    count_fits(least_count(kind), count, size - offset)
}

// The size that the entry at the front of t gives: its size, where it is known to be well formed. Nothing is checked.
pub fn given_size(t: &[u8]) -> usize
    requires { 4 ≤ length t.now }
    ensures { (result ≡ be32_at t.now 0) × (result < 2 ^ 32) }
{
    octets::be32(t, 0) as usize
}

// The check of an entry, which the walk alone makes: the size of the entry at the front of t, if that is well formed.
#[tactic(auto, using(laws::proofs::Parts::rest, crate::proofs::Entries::least_holds, crate::proofs::Entries::context_good, laws::proofs::Conds::tests), unfolding(crate::specs::Entry::entry_size, crate::specs::Scaffold::nonzero))]
fn entry_size(t: &[u8], kind: u8) -> Option<usize>
    ensures { result ≡ nonzero (entry_size kind t.now) }
{
    if t.len() < least_entry(kind) {
        return None;
    }
    if is_context_bad(kind, t) {
        return None;
    }
    let offset = parameter_offset(kind, t);
    let size = given_size(t);
    let count = t[count_place(kind)];
    entry_fits(kind, offset, size, count, &t[offset..]).then_some(size)
}

// The walk over so many entries: how many bytes stand behind them, if each is well formed.
#[tactic(auto, using(crate::proofs::Walks::walked_end, crate::proofs::Walks::walked_bad, crate::proofs::Walks::walked_next, crate::proofs::Entries::counted_within, laws::proofs::Parts::rest))]
fn walk(body: &[u8], kind: u8, count: u16) -> Option<usize>
    ensures { result ≡ walked count kind body.now }
{
    let mut t = body;
    for _ in 0..count {
        t = &t[entry_size(t, kind)?..];
    }
    Some(t.len())
}

// Count entries of that type fill the body exactly.
#[tactic(auto, using(crate::proofs::Walks::fill_walked))]
fn entries_fill(body: &[u8], kind: u8, count: u16) -> bool
    ensures { result ≡ entries_fill count kind body.now }
{
    walk(body, kind, count) == Some(0)
}

// Of entries that fill the body the bytes from entry index on: one walk, up to that entry and then on.
#[tactic(auto, using(crate::proofs::Walks::found_some, crate::proofs::Walks::found_none, crate::proofs::Walks::found_within, laws::proofs::Parts::rest))]
fn entries_found(body: &[u8], kind: u8, count: u16, index: u16) -> Option<usize>
    requires { index < count }
    ensures { result ≡ cond (entries_fill count kind body.now) (Some (rest_from index kind body.now)) None }
{
    let rest = walk(body, kind, index)?;
    let behind = &body[body.len() - rest..];
    entries_fill(behind, kind, count - index).then_some(rest)
}

// R14. The bytes are one entry of that type, 0 to 3, and nothing more.
#[tactic(auto, using(laws::proofs::Conds::tests), unfolding(crate::specs::Entry::well_formed))]
pub fn well_formed(kind: u8, e: &[u8]) -> bool
    ensures { result ≡ well_formed kind e.now }
{
    if RESPONSE < kind {
        return false;
    }
    entries_fill(e, kind, 1)
}

// R12. No parameters and no parameter bytes are the same, whatever the type.
#[tactic(auto, using(crate::proofs::Counts::count_tells))]
pub fn count_tells()
    ensures { CountTells }
{}

// R9. A context has at most 64 bytes, and the parameters start behind it.
#[tactic(auto, using(crate::proofs::Contexts::context_tells))]
pub fn context_tells()
    ensures { ContextTells }
{}

#[tactic(auto, using(laws::proofs::Conds::tests), unfolding(crate::specs::Decide::keep_alive_fill))]
fn keep_alive_fill(body: &[u8]) -> bool
    ensures { result ≡ keep_alive_fill body.now }
{
    if body.len() == SECONDS_BYTES {
        return true;
    }
    body.len() == MILLISECONDS_BYTES
}

#[tactic(auto, using(laws::proofs::Conds::tests), unfolding(crate::specs::Decide::data_sound))]
fn data_sound(kind: u8, count: u16, body: &[u8]) -> bool
    ensures { result ≡ data_sound kind count body.now }
{
    if kind == KEEP_ALIVE {
        keep_alive_fill(body)
    } else {
        entries_fill(body, kind, count)
    }
}

// The decision of the last of n bytes.
fn decide_last(sound: bool, n: usize) -> Decision
    ensures { result ≡ cond sound (Sound n) (Faulty fault.Data n) }
{
    if sound {
        Decision::Sound(n)
    } else {
        Decision::Faulty(Fault::Data, n)
    }
}

// A decision that finds no entry.
#[tactic(auto, unfolding(crate::specs::Scaffold::nonzero))]
fn unfound(decision: Decision) -> Found
    ensures { (result.decision ≡ decision) × (result.rest ≡ nonzero 0) }
{
    Found {
        decision,
        rest: None,
    }
}

// m is a whole message with a sound header; an entry is looked for only where one is wanted.
fn decide_data(m: &[u8], wanted: Option<usize>) -> Found
    requires { 10 ≤ length m.now }
    ensures decided { result.decision ≡ decide_data m.now }
    ensures found { IfSome wanted (λ i. result.rest ≡ nonzero (rest_by (decide_data m.now) m.now i)) }
{
    let kind = m[places::TYPE];
    let count = octets::be16(m, places::MESSAGE_COUNT);
    let body = &m[HEADER_END..];
    if let Some(index) = wanted {
        if kind != KEEP_ALIVE && index < count as usize {
            let rest = entries_found(body, kind, count, index as u16);
            return Found {
                decision: decide_last(rest.is_some(), m.len()),
                rest,
            };
        }
    }
    unfound(decide_last(data_sound(kind, count, body), m.len()))
}

// s has a whole header.
#[tactic(auto, using(crate::proofs::Headers::sound_header, crate::proofs::Walks::rest_front), unfolding(crate::specs::Scaffold::rest_by, crate::specs::Decide::decide_header))]
fn decide_header(s: &[u8], wanted: Option<usize>) -> Found
    requires { 10 ≤ length s.now }
    ensures decided { result.decision ≡ decide_header (header_fault s.now) s.now }
    ensures found { IfSome wanted (λ i. result.rest ≡ nonzero (rest_by (decide_header (header_fault s.now) s.now) s.now i)) }
{
    if let Some(fault) = header_fault(s) {
        return unfound(Decision::Faulty(fault, HEADER_END));
    }
    let n = octets::be32(s, places::SIZE) as usize + 1;
    if s.len() < n {
        return unfound(Decision::Undecided);
    }
    decide_data(&s[..n], wanted)
}

// A header stands at the front of s.
#[tactic(auto, using(laws::proofs::Conds::tests), unfolding(crate::specs::Scaffold::has_header))]
fn has_header(s: &[u8]) -> bool
    ensures { result ≡ has_header s.now }
{
    s.len() >= HEADER_END && s[0] == SYNC
}

// What is decided where there is no header: a wrong first byte, or nothing yet.
#[tactic(auto, using(crate::proofs::Ways::unheaded), unfolding(crate::specs::Decide::decide))]
fn decide_start(s: &[u8]) -> Decision
    requires { has_header s.now ≡ false }
    ensures { result ≡ decide s.now }
{
    match s.first() {
        Some(&SYNC) | None => Decision::Undecided,
        Some(_) => Decision::Faulty(Fault::Start, 1),
    }
}

// What the bytes at the front of s decide.
#[tactic(auto, using(crate::proofs::Ways::headed))]
pub fn decide(s: &[u8]) -> Decision
    ensures { result ≡ decide s.now }
{
    if has_header(s) {
        return decide_header(s, None).decision;
    }
    decide_start(s)
}

// The same, and where entry index stands: it is found by the walk that decides.
#[tactic(auto, using(crate::proofs::Ways::headed, crate::proofs::Ways::unheaded_rest))]
pub fn find(s: &[u8], index: usize) -> Found
    ensures { Finds (decide s.now) s.now index result }
{
    if has_header(s) {
        return decide_header(s, Some(index));
    }
    unfound(decide_start(s))
}

// The laws of the deciding byte that a stream of messages needs.
#[tactic(auto, using(crate::proofs::Ways::deciding))]
pub fn deciding()
    ensures { Deciding }
{}
