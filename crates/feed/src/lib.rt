//! The host's loop: a piece is offered again until all of it is taken, the connection is closed, or a delivery is refused.
#![tactic(auto)]

ghost use Rattle.std.specs.Prelude.{◌≡◌, ◌≤◌, length};
ghost use Rattle.answers.specs.Numbers.{answer_numbers, delivery_numbers};
ghost use Rattle.feed.specs.Feed.{is_message, reply_length, Feeds};
ghost use Rattle.feed.specs.Scaffold.{goes_on, Offers};
ghost use Rattle.feed.specs.Tell.{FeedingTells};

use answers::{Delivery, numbers_told};
use endpoint::Record;
use numbers::Refusal;

/// What feeding a piece comes to.
#[derive(Clone, Copy)]
pub struct Fed {
    pub state: Record,
    /// Of the last delivery.
    pub answer: Result<Delivery, Refusal>,
    /// How many bytes of the piece were taken.
    pub taken: usize,
    /// How many bytes of replies stand at the output's front.
    pub put: usize,
}

#[tactic(auto, using(crate::proofs::Feedings::told_kind))]
fn is_message(answer: Result<Delivery, Refusal>) -> bool
    ensures { result ≡ is_message (answer_numbers delivery_numbers answer) }
{
    let told = numbers_told(answer);
    told.first == numbers::KIND_MESSAGE
}

#[tactic(auto, using(crate::proofs::Feedings::told_length, crate::proofs::Feedings::told_none))]
fn reply_length(answer: Result<Delivery, Refusal>) -> usize
    ensures { result ≡ reply_length (answer_numbers delivery_numbers answer) }
{
    if is_message(answer) {
        let told = numbers_told(answer);
        return told.third;
    }
    0
}

// What is left of the piece is delivered, with the output behind the replies so far.
#[tactic(auto, using(laws::proofs::Parts::rest, laws::proofs::Tables::length_mapped, crate::proofs::Feedings::put_back, crate::proofs::Feedings::told_taken, crate::proofs::Feedings::offer_within, crate::proofs::Feedings::offer_fits, crate::proofs::Feedings::offers))]
fn offer(
    state: Record,
    area: &mut [u8],
    n: u8,
    piece: &[u8],
    output: &mut [u8],
    taken: usize,
    put: usize,
) -> Fed
    requires { (taken ≤ length piece.now) × (put ≤ length output.old) }
    ensures { Offers state area.old n piece.now output.old taken put result
        area.new output.new }
{
    let delivered = state.deliver(area, n, &piece[taken..], &mut output[put..]);
    let answer = delivered.answer;
    let told = numbers_told(answer);
    let length = reply_length(answer);
    let state = delivered.state;
    Fed {
        state,
        answer,
        taken: taken + told.second,
        put: put + length,
    }
}

// Behind a sound message, bytes of the piece are left.
#[tactic(auto, unfolding(crate::specs::Scaffold::goes_on))]
fn goes_on(fed: Fed, whole: usize) -> bool
    ensures { result ≡ goes_on fed whole }
{
    let answer = fed.answer;
    is_message(answer) & (fed.taken < whole)
}

/// A piece of connection `n`'s bytes is delivered, and what is left of it again behind each sound message; the replies stand one
/// behind another at the output's front.
#[tactic(auto, using(crate::proofs::Feedings::left_to, crate::proofs::Feedings::going_first, crate::proofs::Feedings::going_again, crate::proofs::Feedings::less_left, crate::proofs::Feedings::going_all))]
pub fn feed(state: Record, area: &mut [u8], n: u8, piece: &[u8], output: &mut [u8]) -> Fed
    ensures { Feeds state area.old n piece.now output.old result
        area.new output.new }
{
    let mut fed = offer(state, area, n, piece, output, 0, 0);
    while goes_on(fed, piece.len()) {
        fed = offer(fed.state, area, n, piece, output, fed.taken, fed.put);
    }
    fed
}

// Two results that the promise of feeding allows are equal.
#[tactic(auto, using(crate::proofs::Tells::feeding_told))]
pub fn feeding_tells()
    ensures { FeedingTells }
{}
