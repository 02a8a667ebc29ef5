//! The lent area of undecided bytes: its check, the gathering of a piece, and the clearing of a connection's part.
#![tactic(auto)]

ghost use Rattle.std.specs.Prelude.{◌≡◌, ◌++◌, ◌+◌, ◌-◌, ◌≤◌, min, length, zip};
ghost use Rattle.std.specs.List.{list_all};
ghost use Rattle.frame.specs.Decide.{decide};
ghost use Rattle.area.specs.Area.{part_bytes, area_bytes, part_at, part_sound, parts_sound, area_sound, undecided_of};
ghost use Rattle.area.specs.Area.{part_cleared, closed_cleared, held_kept, count_obeys, held_obeys};
ghost use Rattle.area.specs.Scaffold.{ZerosBehind, Lying, gathered};

use frame::Decision;

/// The connections of a device.
pub const CONNECTIONS: usize = 8;

/// The bytes of one connection's part.
pub const PART: usize = frame::LONGEST_MESSAGE;

/// The bytes of the area.
pub const AREA: usize = CONNECTIONS * PART;

// R4. A connection's part has held undecided bytes in front, and zeros behind them.
#[tactic(auto, using(crate::proofs::Sounds::part_waits, crate::proofs::Sounds::part_decided, crate::proofs::Sounds::part_long, laws::proofs::Parts::rest), unfolding(frame::specs::Decide::settled))]
fn part_sound(part: &[u8], held: u16) -> bool
    requires { length part.now ≡ part_bytes }
    ensures { result ≡ part_sound held part.now }
{
    // 2,049 bytes always decide
    if frame::GREATEST_SIZE < u32::from(held) {
        return false;
    }
    let (front, behind) = part.split_at(held as usize);
    match frame::decide(front) {
        Decision::Undecided => octets::all_zero(behind),
        Decision::Faulty(..) | Decision::Sound(_) => false,
    }
}

#[tactic(auto, unfolding(crate::specs::Area::parts_sound))]
fn parts_sound(area: &[u8], held: [u16; 8]) -> bool
    requires { length area.now ≡ area_bytes }
    ensures { result ≡ parts_sound held area.now }
{
    for (part, &k) in area.chunks_exact(PART).zip(&held) {
        if !part_sound(part, k) {
            return false;
        }
    }
    true
}

/// R63. Whether refusal 2 does not apply to the area.
#[tactic(auto, using(laws::proofs::Conds::tests), unfolding(crate::specs::Area::area_sound))]
pub fn area_sound(area: &[u8], held: [u16; 8]) -> bool
    ensures { result ≡ area_sound held area.now }
{
    area.len() == AREA && parts_sound(area, held)
}

/// How many of so many bytes fit behind k undecided ones.
pub fn fitting(k: usize, length: usize) -> usize
    requires { k ≤ part_bytes }
    ensures { result ≡ min (part_bytes - k) length }
{
    length.min(PART - k)
}

/// The piece, as far as it fits, behind connection n's k undecided bytes; and what they all decide.
#[tactic(auto, using(crate::proofs::Gathers::room, crate::proofs::Gathers::copied, crate::proofs::Gathers::looked, crate::proofs::Gathers::same_decision))]
pub fn gather(area: &mut [u8], n: usize, k: usize, piece: &[u8]) -> Decision
    requires { Lying area.old n k }
    ensures { (result ≡ decide (undecided_of area.old n k ++ piece.now))
        × (area.new ≡ gathered area.old n k piece.now) }
{
    let m = fitting(k, piece.len());
    let base = n * PART;
    let end = base + k + m;
    octets::copy(&piece[..m], area, base + k);
    frame::decide(&area[base..end])
}

/// Connection `n`'s part all zeros.
#[tactic(auto, using(octets::proofs::Scans::length_zeros, laws::proofs::Stores::sets_mid), unfolding(crate::specs::Area::part_cleared))]
pub fn clear_part(area: &mut [u8], n: usize)
    requires { part_at n + part_bytes ≤ length area.old }
    ensures { area.new ≡ part_cleared area.old n }
{
    let base = n * PART;
    octets::clear(&mut area[base..base + PART]);
}

/// The same where only the first `used` bytes need it: a message is mostly far shorter than its part.
#[tactic(auto, using(crate::proofs::Clears::used_cleared, octets::proofs::Scans::length_zeros, laws::proofs::Stores::sets_mid))]
pub fn clear_used(area: &mut [u8], n: usize, used: usize)
    requires { (part_at n + part_bytes ≤ length area.old) × (used ≤ part_bytes) × ZerosBehind area.old n used }
    ensures { area.new ≡ part_cleared area.old n }
{
    let base = n * PART;
    let end = base + used;
    octets::clear(&mut area[base..end]);
}

/// The part of each connection that is not open all zeros.
#[tactic(auto, using(crate::proofs::Clears::clearing_none, crate::proofs::Clears::clearing_open, crate::proofs::Clears::clearing_closed, crate::proofs::Clears::clearing_all))]
pub fn clear_closed(area: &mut [u8], lives: [bool; 8])
    requires { length area.old ≡ area_bytes }
    ensures { area.new ≡ closed_cleared lives area.old }
{
    for (n, &live) in lives.iter().enumerate() {
        if !live {
            clear_part(area, n);
        }
    }
}

#[tactic(auto, unfolding(crate::specs::Area::count_obeys))]
fn count_obeys(live: bool, k: u16) -> bool
    ensures { result ≡ count_obeys live k }
{
    if live {
        u32::from(k) <= frame::GREATEST_SIZE
    } else {
        k == 0
    }
}

fn counts_obey(lives: &[bool; 8], held: &[u16; 8]) -> bool
    ensures { result ≡ list_all (λ pair. count_obeys pair.0 pair.1) (zip lives.now held.now) }
{
    lives
        .iter()
        .zip(held)
        .all(|(&live, &k)| count_obeys(live, k))
}

/// Whether every count of undecided bytes keeps the record rules.
pub fn held_obey(lives: [bool; 8], held: [u16; 8]) -> bool
    ensures { result ≡ held_obeys lives held }
{
    counts_obey(&lives, &held)
}

/// The count of each connection that is not open 0.
#[tactic(auto, using(crate::proofs::Counts::keeping_none, crate::proofs::Counts::keeping_open, crate::proofs::Counts::keeping_closed, crate::proofs::Counts::keeping_all))]
pub fn held_kept(lives: [bool; 8], held: [u16; 8]) -> [u16; 8]
    ensures { result ≡ held_kept lives held }
{
    let mut kept = held;
    for (n, &is_open) in lives.iter().enumerate() {
        if !is_open {
            kept[n] = 0;
        }
    }
    kept
}
