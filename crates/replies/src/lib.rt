//! What the device sends, written into a lent output.
#![tactic(auto)]

ghost use Rattle.std.specs.Prelude.{◌≡◌, ◌+◌, ◌≤◌, ◌++◌, length, take};
ghost use Rattle.std.proofs.lemmas.List.Edits.{sets};
ghost use Rattle.octets.specs.Numbers.{bytes16};
ghost use Rattle.frame.specs.Limits.{least_response, greatest_context};
ghost use Rattle.layout.specs.Message.{at_front};
ghost use Rattle.objects.specs.Answers.{answer_in};
ghost use Rattle.replies.specs.Bytes.{answer_told, response_bytes, subscriber_bytes, change_bytes, notification_bytes, keep_alive_bytes};

use frame::places;
use heartbeat::Heartbeat;
use numbers::Status;
use objects::Reply;
use subscription::Subscription;

// A notification's entry of six bytes of event parameters, and its message, without the context.
const NOTIFICATION_ENTRY: usize = frame::LEAST_NOTIFICATION + 6;

const NOTIFICATION_LENGTH: usize = NOTIFICATION_ENTRY + frame::HEADER_END;

// Where its fields stand in the message.
const TARGET: usize = frame::HEADER_END + places::NOTIFICATION_TARGET;

const METHOD: usize = frame::HEADER_END + places::NOTIFICATION_METHOD;

const COUNT: usize = frame::HEADER_END + places::NOTIFICATION_COUNT;

const CONTEXT_COUNT: usize = frame::HEADER_END + places::CONTEXT_COUNT;

const CONTEXT: usize = frame::HEADER_END + places::CONTEXT;

// And those behind the context, counted from its end.
const EVENT: usize = 4;

const PROPERTY: usize = EVENT + 4;

const VALUE: usize = PROPERTY + 4;

const CHANGE_TYPE: usize = VALUE + 1;

/// One response from place `at` on, of these parameter bytes: the place behind it.
#[tactic(auto, using(crate::proofs::Puts::response_stores))]
pub fn put_response(
    out: &mut [u8],
    at: usize,
    handle: u32,
    status: u8,
    count: u8,
    parameters: &[u8],
) -> usize
    requires { (length parameters.now ≤ 12) × (at + 22 ≤ length out.old) }
    ensures { (result ≡ at + (least_response + length parameters.now))
        × (out.new ≡ sets out.old at (response_bytes handle (answer_told status count parameters.now))) }
{
    let length = frame::LEAST_RESPONSE + parameters.len();
    octets::put32(out, at, length as u32);
    octets::put32(out, at + places::HANDLE, handle);
    octets::put8(out, at + places::STATUS, status);
    octets::put8(out, at + places::RESPONSE_COUNT, count);
    octets::copy(parameters, out, at + frame::LEAST_RESPONSE);
    at + length
}

/// The response to a command from place `at` on, with a status or what it carries: the place behind it.
#[tactic(auto, using(crate::proofs::Puts::reply_told, crate::proofs::Puts::reply_long, crate::proofs::Puts::status_told, crate::proofs::Puts::status_long))]
pub fn put_answer(out: &mut [u8], at: usize, handle: u32, answer: Result<Reply, Status>) -> usize
    requires { at + 22 ≤ length out.old }
    ensures { (result ≡ at + (least_response + (answer_in answer).length))
        × (out.new ≡ sets out.old at (response_bytes handle (answer_in answer))) }
{
    match answer {
        Ok(reply) => put_response(
            out,
            at,
            handle,
            numbers::CARRIED_OUT,
            reply.count(),
            reply.parameters(),
        ),
        Err(status) => put_response(out, at, handle, status.number(), 0, &[]),
    }
}

// Behind its count.
#[tactic(auto, using(crate::proofs::Puts::context_stores))]
fn put_context(out: &mut [u8], count: u8, context: &[u8; 64])
    requires { (count ≤ greatest_context) × (103 ≤ length out.old) }
    ensures { out.new ≡ sets out.old 23 (bytes16 count ++ take count context.now) }
{
    octets::put16(out, CONTEXT_COUNT, count as u16);
    octets::copy(&context[..count as usize], out, CONTEXT);
}

#[tactic(auto, using(crate::proofs::Puts::subscriber_stores))]
fn put_subscriber(out: &mut [u8], s: &Subscription)
    requires { (s.now.context_count ≤ greatest_context) × (103 ≤ length out.old) }
    ensures { out.new ≡ sets out.old 10 (subscriber_bytes s.now) }
{
    let n = s.context_count as usize;
    octets::put32(out, frame::HEADER_END, (NOTIFICATION_ENTRY + n) as u32);
    octets::put32(out, TARGET, s.object);
    octets::put32(out, METHOD, s.method);
    octets::put8(out, COUNT, 2);
    put_context(out, s.context_count, &s.context);
}

// From the end of the context on.
#[tactic(auto, using(crate::proofs::Puts::change_stores))]
fn put_change(out: &mut [u8], at: usize, s: &Subscription, value: u8)
    requires { at + 14 ≤ length out.old }
    ensures { out.new ≡ sets out.old at (change_bytes s.now value) }
{
    octets::put32(out, at, s.emitter);
    octets::put32(out, at + EVENT, s.event);
    octets::put32(out, at + PROPERTY, objects::MUTE_PROPERTY);
    octets::put8(out, at + VALUE, value);
    octets::put8(out, at + CHANGE_TYPE, 1);
}

/// The notification of a mute's value to a subscriber, at the output's front: its length.
#[tactic(auto, using(crate::proofs::Puts::length_notification, crate::proofs::Puts::notification_stores))]
pub fn put_notification(out: &mut [u8], s: &Subscription, value: u8) -> usize
    requires { (s.now.context_count ≤ greatest_context) × (103 ≤ length out.old) }
    ensures { (result ≡ length (notification_bytes s.now value))
        × (out.new ≡ at_front (notification_bytes s.now value) out.old) }
{
    let n = s.context_count as usize;
    let length = NOTIFICATION_LENGTH + n;
    layout::put_head(out, frame::NOTIFICATION, 1, (length - 1) as u32);
    put_subscriber(out, s);
    put_change(out, CONTEXT + n, s, value);
    length
}

/// A keep-alive that carries a heartbeat, at the output's front: its length.
#[tactic(auto, using(octets::proofs::Digits::length_bytes16, octets::proofs::Digits::length_bytes32, layout::proofs::Messages::length_message), unfolding(crate::specs::Bytes::keep_alive_bytes, heartbeat::specs::Beat::form_of, heartbeat::specs::Beat::value_of, layout::specs::Message::beat_bytes))]
pub fn put_keep_alive(out: &mut [u8], h: Heartbeat) -> usize
    requires { 14 ≤ length out.old }
    ensures { (result ≡ length (keep_alive_bytes h)) × (out.new ≡ at_front (keep_alive_bytes h) out.old) }
{
    match h {
        Heartbeat::InSeconds(s) => {
            layout::put_seconds(out, s);
            12
        }
        Heartbeat::InMilliseconds(m) => {
            layout::put_milliseconds(out, m);
            14
        }
    }
}
