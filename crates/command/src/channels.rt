// Get, lock, unlock and set: they concern the mutes and the holders of their locks. What changes the record does so in place;
// the methods by value hand it back.
ghost use Rattle.std.specs.Prelude.{false, [], ◌∷◌, ◌+◌, ◌<◌, List, ℕ};
ghost use Rattle.objects.specs.Methods.{first_mute, get_method, lock_method, unlock_method, set_method};
ghost use Rattle.objects.specs.Answers.{answer_in, answer_with, carried_bytes};
ghost use Rattle.command.specs.Acting.{channels, acted, is_changed, change_answer, Acts};

use numbers::Status;
use objects::Reply;

/// The values of the mutes, and the holders of their locks.
#[derive(Clone, Copy, Debug, PartialEq, Eq)]
pub struct Channels {
    pub mutes: [u8; 8],
    pub holders: [u8; 8],
}

impl Channels {
    /// What get tells of the mute at a place, whichever connection asks: its value.
    pub fn get(self, at: usize) -> Reply
        requires { at < 8 }
        ensures { (n : ℕ) → Acts self n (first_mute + at) get_method 0 []
            (acted self (answer_with (carried_bytes result)) false) }
    {
        get(&self.mutes, at)
    }

    /// The mute at a place is locked for connection `n`: status 3 where another holds it.
    pub fn lock(mut self, n: u8, at: usize) -> (Channels, Result<Reply, Status>)
        requires { at < 8 }
        ensures { Acts self n (first_mute + at) lock_method 0 [] (acted result.0 (answer_in result.1) false) }
    {
        let answer = lock(&mut self.holders, n, at);
        (self, answer)
    }

    /// Connection `n` lets the lock go: status 3 where another holds it, 9 where nobody does.
    pub fn unlock(mut self, n: u8, at: usize) -> (Channels, Result<Reply, Status>)
        requires { at < 8 }
        ensures { Acts self n (first_mute + at) unlock_method 0 [] (acted result.0 (answer_in result.1) false) }
    {
        let answer = unlock(&mut self.holders, n, at);
        (self, answer)
    }

    /// The mute at a place gets a value: status 3 where another holds it, 7 for a value that no mute has. The answer tells
    /// whether the value is another than before: then the mute's subscriptions are to be marked.
    pub fn set(mut self, n: u8, at: usize, v: u8) -> (Channels, Result<bool, Status>)
        requires { at < 8 }
        ensures { Acts self n (first_mute + at) set_method 1 (v ∷ [])
            (acted result.0 (change_answer result.1) (is_changed result.1)) }
    {
        let answer = set(&mut self.mutes, &self.holders, n, at, v);
        (self, answer)
    }
}

// Whoever holds the lock.
#[tactic(auto, using(crate::proofs::Acts::got))]
pub(crate) fn get(mutes: &[u8; 8], at: usize) -> Reply
    requires { at < 8 }
    ensures { (holders : List ℕ) (n : ℕ) → Acts (channels mutes.now holders) n (first_mute + at) get_method 0 []
        (acted (channels mutes.now holders) (answer_with (carried_bytes result)) false) }
{
    Reply::Byte(mutes[at])
}

#[tactic(auto, using(crate::proofs::Acts::lock_refused, crate::proofs::Acts::locked))]
pub(crate) fn lock(holders: &mut [u8; 8], n: u8, at: usize) -> Result<Reply, Status>
    requires { at < 8 }
    ensures { (mutes : List ℕ) → Acts (channels mutes holders.old) n (first_mute + at) lock_method 0 []
        (acted (channels mutes holders.new) (answer_in result) false) }
{
    if holders::is_other(holders[at], n) {
        return Err(Status::HeldByOther);
    }
    holders[at] = holders::owner(n);
    Ok(Reply::Done)
}

#[tactic(auto, using(crate::proofs::Acts::unlock_refused, crate::proofs::Acts::unlock_early, crate::proofs::Acts::unlocked))]
pub(crate) fn unlock(holders: &mut [u8; 8], n: u8, at: usize) -> Result<Reply, Status>
    requires { at < 8 }
    ensures { (mutes : List ℕ) → Acts (channels mutes holders.old) n (first_mute + at) unlock_method 0 []
        (acted (channels mutes holders.new) (answer_in result) false) }
{
    if holders::is_other(holders[at], n) {
        return Err(Status::HeldByOther);
    }
    if holders[at] == 0 {
        return Err(Status::OutOfTurn);
    }
    holders[at] = 0;
    Ok(Reply::Done)
}

// Whether the mute has another value: then its subscriptions are to be marked.
#[tactic(auto, using(crate::proofs::Acts::set_refused, crate::proofs::Acts::set_strange, crate::proofs::Acts::set_stays, crate::proofs::Acts::set_done))]
pub(crate) fn set(
    mutes: &mut [u8; 8],
    holders: &[u8; 8],
    n: u8,
    at: usize,
    v: u8,
) -> Result<bool, Status>
    requires { at < 8 }
    ensures { Acts (channels mutes.old holders.now) n (first_mute + at) set_method 1 (v ∷ [])
        (acted (channels mutes.new holders.now) (change_answer result) (is_changed result)) }
{
    if holders::is_other(holders[at], n) {
        return Err(Status::HeldByOther);
    }
    if !objects::is_mute_value(v) {
        return Err(Status::BadValue);
    }
    if mutes[at] == v {
        return Ok(false);
    }
    mutes[at] = v;
    Ok(true)
}
