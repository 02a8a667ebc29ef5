//! A subscription entry: who is told of which mute's changes.
#![tactic(auto)]

ghost use Rattle.std.specs.Prelude.{◌≡◌, true, ◌&&◌, map, ◌+◌, ◌<◌, ◌≤◌, length, slice_set, slice_index_or, position, IfSome, fold, zip};
ghost use Rattle.laws.specs.Lists.{all, all_pairs};
ghost use Rattle.frame.specs.Limits.{greatest_context};
ghost use Rattle.objects.specs.Tests.{context_given};
ghost use Rattle.subscription.specs.Setters.{with_context, without_context};
ghost use Rattle.subscription.specs.State.{free, is_twin, is_waiting, marked_of, told_of, swept_of};
ghost use Rattle.subscription.specs.Arguments.{context_held, subscription_from, is_strange};
ghost use Rattle.subscription.specs.Obeys.{is_free, is_context_kept, is_sound, entry_obeys, apart};
ghost use Rattle.subscription.specs.Kept.{EntriesKept};
ghost use Rattle.subscription.specs.Scaffold.{zero_past, places, is_apart_of};

use connection::Connection;

/// How many entries a device has: their places are 0 to 31.
pub const ENTRIES: usize = 32;

// The places of a context's bytes, as bytes: beside a count of one byte they are compared sixteen at a time.
const PLACES: [u8; 64] = [
    0, 1, 2, 3, 4, 5, 6, 7, 8, 9, 10, 11, 12, 13, 14, 15, 16, 17, 18, 19, 20, 21, 22, 23, 24, 25,
    26, 27, 28, 29, 30, 31, 32, 33, 34, 35, 36, 37, 38, 39, 40, 41, 42, 43, 44, 45, 46, 47, 48, 49,
    50, 51, 52, 53, 54, 55, 56, 57, 58, 59, 60, 61, 62, 63,
];

/// One entry, as the record holds it: all zero while it is free. An event and a method are level x 65,536 + index.
#[repr(C)]
#[derive(Clone, Copy, Debug, PartialEq, Eq)]
pub struct Subscription {
    /// It is in use.
    pub used: bool,
    /// Its notification waits to be taken.
    pub waiting: bool,
    /// The connection that is told, 0 to 7.
    pub connection: u8,
    /// How many bytes the context has, at most 64.
    pub context_count: u8,
    /// The object number of the mute whose changes are told.
    pub emitter: u32,
    /// The event: 1.1, a property has changed.
    pub event: u32,
    /// The object number that a notification is for.
    pub object: u32,
    /// The method that a notification calls.
    pub method: u32,
    /// The context, zeros behind it.
    pub context: [u8; 64],
}

/// The subscription that the arguments of add and remove name, for connection `n`: without a context, which does not tell it.
#[tactic(auto, unfolding(octets::specs::Zeros::zeros, crate::specs::Arguments::subscription_from))]
pub fn entry(n: u8, part: &[u8]) -> Subscription
    requires { 16 ≤ length part.now }
    ensures { result ≡ without_context (subscription_from n part.now) }
{
    let emitter = octets::be32(part, 0);
    let event = octets::be32(part, 4);
    let object = octets::be32(part, 8);
    let method = octets::be32(part, 12);
    Subscription {
        used: true,
        waiting: false,
        connection: n,
        context_count: 0,
        emitter,
        event,
        object,
        method,
        context: [0u8; 64],
    }
}

// The context that the arguments of add give, zeros behind it.
#[tactic(auto, using(crate::proofs::Entries::context_copied))]
fn context_held(part: &[u8]) -> [u8; 64]
    requires { (context_given part.now ≤ greatest_context) × (21 + context_given part.now ≤ length part.now) }
    ensures { result ≡ context_held part.now }
{
    let end = objects::CONTEXT + objects::context_given(part);
    let mut context = [0u8; 64];
    octets::copy(&part[objects::CONTEXT..end], &mut context, 0);
    context
}

// Every byte past the count is zero. Each byte is looked at, whatever the count is: so they are tested sixteen at a time.
fn is_zero_past(count: u8, context: &[u8; 64]) -> bool
    ensures { result ≡ fold (zero_past count) true (zip context.now places) }
{
    context.iter().zip(&PLACES).fold(
        true,
        |kept, (&b, &place)| kept & ((place < count) | (b == 0)),
    )
}

// A context has at most 64 bytes, and the bytes held past them are zero.
#[tactic(auto, using(crate::proofs::Contexts::kept_is))]
fn is_context_kept(count: u8, context: &[u8; 64]) -> bool
    ensures { result ≡ is_context_kept count context.now }
{
    let past = is_zero_past(count, context);
    (count <= 64) & past
}

/// The arguments of add or remove have no mute as emitter, or another event than 1.1.
#[tactic(auto, unfolding(crate::specs::Arguments::is_strange))]
pub fn is_strange(part: &[u8]) -> bool
    requires { 8 ≤ length part.now }
    ensures { result ≡ is_strange part.now }
{
    let emitter = octets::be32(part, 0);
    let event = octets::be32(part, 4);
    let mute = objects::is_mute(emitter);
    !(mute & (event == objects::CHANGE_EVENT))
}

impl Subscription {
    /// An entry that is not in use.
    pub const FREE: Subscription = Subscription {
        used: false,
        waiting: false,
        connection: 0,
        context_count: 0,
        emitter: 0,
        event: 0,
        object: 0,
        method: 0,
        context: [0u8; 64],
    };

    /// The subscription with the context that the arguments of add give.
    pub fn with_context(self, part: &[u8]) -> Subscription
        requires { (context_given part.now ≤ greatest_context) × (21 + context_given part.now ≤ length part.now) }
        ensures { result ≡ with_context self (context_given part.now) (context_held part.now) }
    {
        let context_count = objects::context_given(part) as u8;
        let context = context_held(part);
        Subscription {
            context_count,
            context,
            ..self
        }
    }

    #[tactic(auto, using(crate::proofs::Contexts::free_same), unfolding(octets::specs::Zeros::zeros))]
    fn is_free(&self) -> bool
        ensures { result ≡ is_free self.now }
    {
        *self == Subscription::FREE
    }

    #[tactic(auto, unfolding(crate::specs::Obeys::is_sound))]
    fn is_sound(&self, connections: &[Connection; 8]) -> bool
        ensures { result ≡ is_sound connections.now self.now }
    {
        self.used
            && connection::live_at(connections, self.connection)
            && objects::is_mute(self.emitter)
            && self.event == objects::CHANGE_EVENT
            && is_context_kept(self.context_count, &self.context)
    }

    #[tactic(auto, unfolding(crate::specs::Obeys::entry_obeys))]
    fn obeys(&self, connections: &[Connection; 8]) -> bool
        ensures { result ≡ entry_obeys connections.now self.now }
    {
        self.is_free() || self.is_sound(connections)
    }

    /// Both are in use for the same subscription, whatever their contexts.
    // Most pairs differ in their emitters.
    #[tactic(auto, using(crate::proofs::Entries::twin_not), unfolding(crate::specs::State::is_twin))]
    pub fn is_twin(&self, t: &Subscription) -> bool
        ensures { result ≡ is_twin self.now t.now }
    {
        if self.emitter != t.emitter {
            return false;
        }
        self.used
            & t.used
            & (self.connection == t.connection)
            & (self.emitter == t.emitter)
            & (self.event == t.event)
            & (self.object == t.object)
            & (self.method == t.method)
    }

    // None of these is the same subscription: an unused entry is nobody's twin.
    #[tactic(auto, using(crate::proofs::Pairs::apart_unused), unfolding(crate::specs::Obeys::apart))]
    fn is_apart(&self, others: &[Subscription]) -> bool
        ensures { result ≡ all (is_apart_of self.now) others.now }
    {
        !self.used || others.iter().all(|t| !t.is_twin(self))
    }

    #[tactic(auto, using(crate::proofs::Entries::marked_now, crate::proofs::Entries::marked_not))]
    fn mark(&mut self, emitter: u32)
        ensures { self.new ≡ marked_of emitter self.old }
    {
        if self.used & (self.emitter == emitter) {
            self.waiting = true;
        }
    }

    #[tactic(auto, using(crate::proofs::Entries::swept_gone, crate::proofs::Entries::swept_kept), unfolding(octets::specs::Zeros::zeros))]
    fn sweep(&mut self, connections: &[Connection; 8])
        ensures { self.new ≡ swept_of connections.now self.old }
    {
        if self.used & !connection::live_at(connections, self.connection) {
            *self = Subscription::FREE;
        }
    }
}

// Each with those before it: the used ones are the lowest, as long as none is removed.
#[tactic(auto, using(crate::proofs::Pairs::last_apart, crate::proofs::Pairs::last_twin))]
fn all_apart(entries: &[Subscription; 32]) -> bool
    ensures { result ≡ all_pairs apart entries.now }
{
    let mut rest: &[Subscription] = entries;
    while let Some((last, before)) = rest.split_last() {
        if !last.is_apart(before) {
            return false;
        }
        rest = before;
    }
    true
}

fn each_obeys(entries: &[Subscription; 32], connections: &[Connection; 8]) -> bool
    ensures { result ≡ all (entry_obeys connections.now) entries.now }
{
    entries.iter().all(|s| s.obeys(connections))
}

/// Each entry keeps the record rules, and no two are the same subscription.
pub fn all_obey(entries: &[Subscription; 32], connections: &[Connection; 8]) -> bool
    ensures { result ≡ (all (entry_obeys connections.now) entries.now && all_pairs apart entries.now) }
{
    each_obeys(entries, connections) && all_apart(entries)
}

/// The lowest waiting entry, if one waits.
#[tactic(auto, using(arrays::proofs::Places::found_low, crate::proofs::Entries::waits_here), unfolding(crate::specs::State::is_waiting))]
pub fn lowest_waiting(entries: &[Subscription; 32]) -> Option<usize>
    ensures place { result ≡ position is_waiting entries.now }
    ensures low { IfSome result (λ n. n < 32) }
    ensures waits { IfSome result (λ n. is_waiting (slice_index_or entries.now n free) ≡ true) }
{
    entries.iter().position(|s| s.waiting)
}

/// The entry at a place is told: it waits no more.
#[tactic(auto, using(crate::proofs::Entries::told_in), unfolding(crate::specs::State::told_of))]
pub fn tell(entries: &mut [Subscription; 32], at: usize)
    requires { at < 32 }
    ensures { entries.new ≡ slice_set entries.old at (told_of (slice_index_or entries.old at free)) }
{
    entries[at].waiting = false;
}

/// A mute changed: each entry that is told of it waits for its notification.
#[tactic(auto, using(arrays::proofs::Steps::map_by_index))]
pub fn all_marked(entries: &mut [Subscription; 32], emitter: u32)
    ensures { entries.new ≡ map (marked_of emitter) entries.old }
{
    for s in entries {
        s.mark(emitter);
    }
}

/// The entries of connections that are not open are freed.
#[tactic(auto, using(arrays::proofs::Steps::map_by_index))]
pub fn all_swept(entries: &mut [Subscription; 32], connections: &[Connection; 8])
    ensures { entries.new ≡ map (swept_of connections.now) entries.old }
{
    for s in entries {
        s.sweep(connections);
    }
}

/// Marking, telling, sweeping and opening keep the rules of the entries: a theorem.
#[tactic(auto, using(crate::proofs::Keeps::entries_kept))]
pub fn entries_kept()
    ensures { EntriesKept }
{}
