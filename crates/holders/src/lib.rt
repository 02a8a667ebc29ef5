//! The holders of the mutes' locks: 0 where none holds it, else connection + 1.
#![tactic(auto)]

ghost use Rattle.std.specs.Prelude.{◌≡◌, map};
ghost use Rattle.laws.specs.Lists.{all};
ghost use Rattle.holders.specs.Holders.{owner_of, is_other, holder_obeys, swept_holder};
ghost use Rattle.holders.specs.Kept.{HoldersKept};

use connection::Connection;

/// The holders of a device's locks: one for each mute.
pub const HOLDERS: usize = 8;

/// Connection `n` as a holder: n + 1; 0 for a number that no connection has.
#[tactic(auto, using(laws::proofs::Conds::tests), unfolding(crate::specs::Holders::owner_of))]
pub fn owner(n: u8) -> u8
    ensures { result ≡ owner_of n }
{
    let at = n as usize;
    if at < connection::CONNECTIONS {
        n + 1
    } else {
        0
    }
}

/// Somebody holds the lock, and it is not connection `n`.
#[tactic(auto, unfolding(crate::specs::Holders::is_other))]
pub fn is_other(holder: u8, n: u8) -> bool
    ensures { result ≡ is_other holder n }
{
    let own = owner(n);
    !(holder == 0) & !(holder == own)
}

#[tactic(auto, unfolding(crate::specs::Holders::holder_obeys))]
fn obeys(holder: u8, connections: &[Connection; 8]) -> bool
    ensures { result ≡ holder_obeys connections.now holder }
{
    holder == 0 || connection::live_at(connections, holder - 1)
}

#[tactic(auto, unfolding(crate::specs::Holders::swept_holder))]
fn swept(holder: u8, connections: &[Connection; 8]) -> u8
    ensures { result ≡ swept_holder connections.now holder }
{
    if obeys(holder, connections) {
        holder
    } else {
        0
    }
}

/// Each holder is nobody or an open connection.
pub fn all_obey(holders: &[u8; HOLDERS], connections: &[Connection; 8]) -> bool
    ensures { result ≡ all (holder_obeys connections.now) holders.now }
{
    holders.iter().all(|&h| obeys(h, connections))
}

/// The locks of connections that are not open are freed.
pub fn all_swept(holders: &mut [u8; HOLDERS], connections: &[Connection; 8])
    ensures { holders.new ≡ map (swept_holder connections.now) holders.old }
{
    arrays::map_in_place(holders, |h| swept(h, connections));
}

/// Locking, sweeping and opening keep the rule of the holders: a theorem.
#[tactic(auto, using(crate::proofs::Keeps::holders_kept))]
pub fn holders_kept()
    ensures { HoldersKept }
{}
