//! An entry's fields and its parameters, and the heartbeat that a keep-alive carries; in the definitions, where an entry stands.
#![tactic(auto)]

ghost use Rattle.std.specs.Prelude.{◌≡◌, true, ◌+◌, ◌≤◌, length};
ghost use Rattle.frame.specs.Limits.{notification};
ghost use Rattle.frame.specs.Entry.{parameter_offset};
ghost use Rattle.frame.specs.Decide.{keep_alive_fill};
ghost use Rattle.fields.specs.Place.{parameters_of};
ghost use Rattle.fields.specs.Fields.{method_at, command_of, notification_of, response_of, heartbeat_of};

use frame::places;
use heartbeat::{Heartbeat, Milliseconds, Seconds};

/// The method of a class, by its level and its index there; an event is told by the same two.
#[derive(Clone, Copy, Debug, PartialEq, Eq)]
pub struct Method {
    pub level: u16,
    pub index: u16,
}

/// A command's fields.
#[derive(Clone, Copy, Debug, PartialEq, Eq)]
pub struct CommandFields {
    pub handle: u32,
    pub target: u32,
    pub method: Method,
    pub count: u8,
}

/// A notification's fields but its context, of which it has the count.
#[derive(Clone, Copy, Debug, PartialEq, Eq)]
pub struct NotificationFields {
    pub target: u32,
    pub method: Method,
    pub count: u8,
    pub context_count: u16,
    pub emitter: u32,
    pub event: Method,
}

/// A response's fields.
#[derive(Clone, Copy, Debug, PartialEq, Eq)]
pub struct ResponseFields {
    pub handle: u32,
    pub status: u8,
    pub count: u8,
}

/// The entry's parameters, as a part of it.
#[tactic(auto, using(frame::proofs::Entries::offset_low, laws::proofs::Parts::rest), unfolding(crate::specs::Place::parameters_of))]
pub fn parameters<'a>(kind: u8, e: &'a [u8]) -> &'a [u8]
    requires { parameter_offset kind e.now ≤ length e.now }
    ensures { result.now ≡ parameters_of kind e.now }
{
    &e[frame::parameter_offset(kind, e)..]
}

#[tactic(auto, unfolding(crate::specs::Fields::method_at))]
fn method_at(e: &[u8], at: usize) -> Method
    requires { at + 4 ≤ length e.now }
    ensures { result ≡ method_at e.now at }
{
    Method {
        level: octets::be16(e, at),
        index: octets::be16(e, at + 2),
    }
}

/// The fields of the command that starts `e`.
#[tactic(auto, unfolding(crate::specs::Fields::command_of))]
pub fn command_of(e: &[u8]) -> CommandFields
    requires { 17 ≤ length e.now }
    ensures { result ≡ command_of e.now }
{
    CommandFields {
        handle: octets::be32(e, places::HANDLE),
        target: octets::be32(e, places::COMMAND_TARGET),
        method: method_at(e, places::COMMAND_METHOD),
        count: e[places::COMMAND_COUNT],
    }
}

/// The fields of the notification that starts `e`; its emitter and event stand behind its context.
#[tactic(auto, using(frame::proofs::Entries::offset_notification), unfolding(crate::specs::Fields::notification_of, frame::specs::Entry::context_count))]
pub fn notification_of(e: &[u8]) -> NotificationFields
    requires { parameter_offset notification e.now ≤ length e.now }
    ensures { result ≡ notification_of e.now }
{
    let context_count = octets::be16(e, places::CONTEXT_COUNT);
    let behind = context_count as usize;
    NotificationFields {
        target: octets::be32(e, places::NOTIFICATION_TARGET),
        method: method_at(e, places::NOTIFICATION_METHOD),
        count: e[places::NOTIFICATION_COUNT],
        context_count,
        emitter: octets::be32(e, places::EMITTER + behind),
        event: method_at(e, places::EVENT + behind),
    }
}

/// The fields of the response that starts `e`.
#[tactic(auto, unfolding(crate::specs::Fields::response_of))]
pub fn response_of(e: &[u8]) -> ResponseFields
    requires { 10 ≤ length e.now }
    ensures { result ≡ response_of e.now }
{
    ResponseFields {
        handle: octets::be32(e, places::HANDLE),
        status: e[places::STATUS],
        count: e[places::RESPONSE_COUNT],
    }
}

/// The heartbeat of a keep-alive's data.
#[tactic(auto, using(crate::proofs::Places::keep_long), unfolding(crate::specs::Fields::heartbeat_of))]
pub fn heartbeat_of(body: &[u8]) -> Heartbeat
    requires { keep_alive_fill body.now ≡ true }
    ensures { result ≡ heartbeat_of body.now }
{
    if body.len() == frame::SECONDS_BYTES {
        Heartbeat::InSeconds(Seconds(octets::be16(body, 0)))
    } else {
        Heartbeat::InMilliseconds(Milliseconds(octets::be32(body, 0)))
    }
}
