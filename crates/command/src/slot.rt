// Add and remove: they concern one subscription entry, which they change in place; the methods by value hand the table back.
ghost use Rattle.std.specs.Prelude.{◌≡◌, false, ◌<◌, IfSome};
ghost use Rattle.std.specs.List.{position};
ghost use Rattle.subscription.specs.State.{is_twin, is_unused};
ghost use Rattle.objects.specs.Methods.{add_method, remove_method};
ghost use Rattle.objects.specs.Tests.{is_malformed};
ghost use Rattle.objects.specs.Answers.{answer_in};
ghost use Rattle.command.specs.Booking.{slot_for, slot_found, Stores};

use numbers::Status;
use objects::Reply;
use subscription::Subscription;

/// The table of subscription entries.
#[derive(Clone, Copy)]
pub struct Subscriptions {
    pub entries: [Subscription; 32],
}

impl Subscriptions {
    /// Connection `n` adds the subscription of these arguments: status 6, 7, 9 or 10, in this order.
    pub fn subscribe(mut self, n: u8, part: &[u8]) -> (Subscriptions, Result<Reply, Status>)
        requires { is_malformed add_method 5 part.now ≡ false }
        ensures { Stores self.entries result.0.entries n add_method 5 part.now (answer_in result.1) }
    {
        let answer = subscribe(&mut self.entries, n, part);
        (self, answer)
    }

    /// Connection `n` removes the subscription of these arguments: status 6 or 9, in this order.
    pub fn unsubscribe(mut self, n: u8, part: &[u8]) -> (Subscriptions, Result<Reply, Status>)
        requires { is_malformed remove_method 2 part.now ≡ false }
        ensures { Stores self.entries result.0.entries n remove_method 2 part.now (answer_in result.1) }
    {
        let answer = unsubscribe(&mut self.entries, n, part);
        (self, answer)
    }
}

// The entry of the same subscription: its context does not tell.
#[tactic(auto)]
fn twin(entries: &[Subscription; 32], wanted: &Subscription) -> Option<usize>
    ensures { result ≡ position (is_twin wanted.now) entries.now }
{
    entries.iter().position(|t| wanted.is_twin(t))
}

#[tactic(auto, unfolding(subscription::specs::State::is_unused))]
fn unused(entries: &[Subscription; 32]) -> Option<usize>
    ensures { result ≡ position is_unused entries.now }
{
    entries.iter().position(|t| !t.used)
}

/// The place of the same subscription, else the lowest free one.
#[tactic(auto, using(crate::proofs::Books::found_twin, crate::proofs::Books::found_room, crate::proofs::Books::found_none))]
pub fn slot_for(entries: &[Subscription; 32], wanted: &Subscription) -> Option<usize>
    ensures found { slot_found entries.now result ≡ slot_for entries.now wanted.now }
    ensures low { IfSome result (λ place. place < 32) }
{
    twin(entries, wanted).or_else(|| unused(entries))
}

#[tactic(auto, using(crate::proofs::Books::subscribe_strange, crate::proofs::Books::held_fits, crate::proofs::Books::subscribe_bad, crate::proofs::Books::subscribe_twin, crate::proofs::Books::subscribe_full, crate::proofs::Books::subscribe_done, device::proofs::Shapes::add_size))]
pub(crate) fn subscribe(
    entries: &mut [Subscription; 32],
    n: u8,
    part: &[u8],
) -> Result<Reply, Status>
    requires { is_malformed add_method 5 part.now ≡ false }
    ensures { Stores entries.old entries.new n add_method 5 part.now (answer_in result) }
{
    if subscription::is_strange(part) {
        return Err(Status::StrangeEmitter);
    }
    if objects::is_add_bad(part) {
        return Err(Status::BadValue);
    }
    let wanted = subscription::entry(n, part);
    let place = slot_for(entries, &wanted).ok_or(Status::NoFreeEntry)?;
    if entries[place].used {
        return Err(Status::OutOfTurn);
    }
    entries[place] = wanted.with_context(part);
    Ok(Reply::Done)
}

#[tactic(auto, using(crate::proofs::Books::unsubscribe_strange, crate::proofs::Books::unsubscribe_none, crate::proofs::Books::unsubscribe_done, device::proofs::Shapes::remove_size), unfolding(octets::specs::Zeros::zeros))]
pub(crate) fn unsubscribe(
    entries: &mut [Subscription; 32],
    n: u8,
    part: &[u8],
) -> Result<Reply, Status>
    requires { is_malformed remove_method 2 part.now ≡ false }
    ensures { Stores entries.old entries.new n remove_method 2 part.now (answer_in result) }
{
    if subscription::is_strange(part) {
        return Err(Status::StrangeEmitter);
    }
    let wanted = subscription::entry(n, part);
    let place = twin(entries, &wanted).ok_or(Status::OutOfTurn)?;
    entries[place] = Subscription::FREE;
    Ok(Reply::Done)
}
