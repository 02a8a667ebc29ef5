//! Numbers of the wire, most significant byte first, read from and written to slices of bytes.
#![tactic(auto)]

ghost use Rattle.std.specs.Prelude.{◌≡◌, ◌&&◌, [], ◌∷◌, ◌+◌, ◌≤◌, length, eqb, fold, max, zip, true};
ghost use Rattle.std.proofs.lemmas.List.Edits.{sets};
ghost use Rattle.octets.specs.Numbers.{be16_at, be32_at, bytes16, bytes32};
ghost use Rattle.octets.specs.Zeros.{zeros, all_zero};
ghost use Rattle.octets.specs.Same.{same_bytes};

/// The number of the two bytes from place `at` on.
#[tactic(auto, unfolding(crate::specs::Numbers::be16_at))]
pub fn be16(s: &[u8], at: usize) -> u16
    requires { at + 2 ≤ length s.now }
    ensures { result ≡ be16_at s.now at }
{
    u16::from_be_bytes([s[at], s[at + 1]])
}

/// The number of the four bytes from place `at` on.
#[tactic(auto, unfolding(crate::specs::Numbers::be32_at))]
pub fn be32(s: &[u8], at: usize) -> u32
    requires { at + 4 ≤ length s.now }
    ensures { result ≡ be32_at s.now at }
{
    u32::from_be_bytes([s[at], s[at + 1], s[at + 2], s[at + 3]])
}

/// The byte `v`, stored at place `at`.
pub fn put8(s: &mut [u8], at: usize, v: u8)
    requires { at + 1 ≤ length s.old }
    ensures { s.new ≡ sets s.old at (v ∷ []) }
{
    s[at] = v;
}

/// The two bytes of `v`, stored from place `at` on.
#[tactic(auto, using(laws::proofs::Stores::sets_mid), unfolding(crate::specs::Numbers::bytes16))]
pub fn put16(s: &mut [u8], at: usize, v: u16)
    requires { at + 2 ≤ length s.old }
    ensures { s.new ≡ sets s.old at (bytes16 v) }
{
    s[at..at + 2].copy_from_slice(&v.to_be_bytes());
}

/// The four bytes of `v`, stored from place `at` on.
#[tactic(auto, using(laws::proofs::Stores::sets_mid), unfolding(crate::specs::Numbers::bytes32))]
pub fn put32(s: &mut [u8], at: usize, v: u32)
    requires { at + 4 ≤ length s.old }
    ensures { s.new ≡ sets s.old at (bytes32 v) }
{
    s[at..at + 4].copy_from_slice(&v.to_be_bytes());
}

/// All of `src`, stored from place `at` on.
#[tactic(auto, using(laws::proofs::Stores::sets_rest))]
pub fn copy(src: &[u8], dst: &mut [u8], at: usize)
    requires { at + length src.now ≤ length dst.old }
    ensures { dst.new ≡ sets dst.old at src.now }
{
    dst[at..at + src.len()].copy_from_slice(src);
}

/// Every byte 0.
#[tactic(auto, unfolding(crate::specs::Zeros::zeros))]
pub fn clear(s: &mut [u8])
    ensures { s.new ≡ zeros (length s.old) }
{
    s.fill(0);
}

// A fold looks at every byte: a test that left at the first would not be vectorised.
fn greatest(s: &[u8]) -> u8
    ensures { result ≡ fold max 0 s.now }
{
    s.iter().fold(0, |greatest: u8, &b| greatest.max(b))
}

/// Whether every byte is 0.
#[tactic(auto, using(crate::proofs::Scans::greatest_zero))]
pub fn all_zero(s: &[u8]) -> bool
    ensures { result ≡ all_zero s.now }
{
    greatest(s) == 0
}

// Every byte is looked at, wherever they differ: the time taken tells nothing of how many were right.
fn all_same(a: &[u8], b: &[u8]) -> bool
    ensures { result ≡ fold (λ same pair. same && eqb pair.0 pair.1) true (zip a.now b.now) }
{
    a.iter()
        .zip(b)
        .fold(true, |same: bool, (&x, &y)| same & (x == y))
}

/// Whether the bytes are the same and as many, in a time that tells their number alone.
#[tactic(auto, using(crate::proofs::Sames::same_long))]
pub fn same(a: &[u8], b: &[u8]) -> bool
    ensures { result ≡ same_bytes a.now b.now }
{
    if a.len() != b.len() {
        return false;
    }
    all_same(a, b)
}
