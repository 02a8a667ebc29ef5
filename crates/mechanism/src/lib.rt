//! The reset mechanism: its key, address and port, the arguments that arm it, and the datagram that it heeds.
#![tactic(auto)]

ghost use Rattle.std.specs.Prelude.{◌≡◌, false, ◌≤◌, length};
ghost use Rattle.mechanism.specs.Arguments.{key_in, is_misfit, is_multicast, address_taken, arming_of, mechanism_in};
ghost use Rattle.mechanism.specs.Obeys.{mechanism_obeys};
ghost use Rattle.mechanism.specs.Datagram.{resets};
ghost use Rattle.mechanism.specs.Kept.{MechanismKept, ResetsExactly, AddressesTaken};

/// Bytes of a key.
pub const KEY: usize = 16;

/// Bytes of a datagram that resets: the sentinel and the key.
pub const DATAGRAM: usize = 24;

const SENTINEL: &[u8; 8] = b"\xDE\xAF\xDA\xDA\xCA\xFE\xBA\xBE";

// The key and the text's length, before the text.
const TEXT: usize = 18;

// The port, behind the text.
const PORT: usize = 2;

// The arguments of 3.14 but for the text.
const BARE: usize = TEXT + PORT;

const FIRST_MULTICAST: u8 = 224;

const LAST_MULTICAST: u8 = 239;

/// The reset mechanism, all zero where it is not armed.
#[repr(C)]
#[derive(Clone, Copy, Debug, PartialEq, Eq)]
pub struct Mechanism {
    pub armed: bool,
    pub key: [u8; 16],
    /// Zeros where no text was given.
    pub address: [u8; 4],
    /// Where the datagram is awaited: 0 only where the mechanism is not armed.
    pub port: u16,
}

/// Whether arguments of 3.14 are shorter or longer than the text's length field tells.
#[tactic(auto, using(crate::proofs::Laws::misfit_short, crate::proofs::Laws::misfit_told))]
pub fn is_misfit(part: &[u8]) -> bool
    ensures { result ≡ is_misfit part.now }
{
    part.len() < BARE || part.len() != BARE + octets::be16(part, KEY) as usize
}

#[tactic(auto, unfolding(crate::specs::Arguments::is_multicast))]
fn is_multicast(address: [u8; 4]) -> bool
    ensures { result ≡ is_multicast address }
{
    (FIRST_MULTICAST..=LAST_MULTICAST).contains(&address[0])
}

#[tactic(auto, unfolding(crate::specs::Arguments::key_in))]
fn key_in(part: &[u8]) -> [u8; KEY]
    requires { 16 ≤ length part.now }
    ensures { result ≡ key_in part.now }
{
    let mut key = [0; KEY];
    key.copy_from_slice(&part[..KEY]);
    key
}

// The address of a text that 3.14 takes: zeros for the empty one, else a multicast address.
#[tactic(auto, unfolding(crate::specs::Arguments::is_text_taken, crate::specs::Arguments::address_of, crate::specs::Arguments::is_group))]
fn address_taken(text: &[u8]) -> Option<[u8; 4]>
    ensures { result ≡ address_taken text.now }
{
    if text.is_empty() {
        return Some([0; 4]);
    }
    let address = dotted::read(text)?;
    if is_multicast(address) {
        Some(address)
    } else {
        None
    }
}

/// The mechanism that the arguments of 3.14 arm, or `None` where the text or the port is not taken.
#[tactic(auto, using(crate::proofs::Laws::fitting, crate::proofs::Laws::text_untaken, crate::proofs::Laws::portless, crate::proofs::Laws::armed))]
pub fn arming_of(part: &[u8]) -> Option<Mechanism>
    requires { is_misfit part.now ≡ false }
    ensures { result ≡ mechanism_in (arming_of part.now) }
{
    let end = part.len() - PORT;
    let address = address_taken(&part[TEXT..end])?;
    let port = octets::be16(part, end);
    if port == 0 {
        return None;
    }
    Some(Mechanism {
        armed: true,
        key: key_in(part),
        address,
        port,
    })
}

impl Mechanism {
    /// Not armed, all zero.
    pub const DISARMED: Mechanism = Mechanism {
        armed: false,
        key: [0; 16],
        address: [0; 4],
        port: 0,
    };

    /// Whether the record rules hold: armed, an address that 3.14 would take and a port; else all zero.
    #[tactic(auto, using(crate::proofs::Laws::armed_obeys, crate::proofs::Laws::disarmed_obeys))]
    pub fn obeys(self) -> bool
        ensures { result ≡ mechanism_obeys self }
    {
        let none = octets::all_zero(&self.address);
        if self.armed {
            return (none | is_multicast(self.address)) & (self.port != 0);
        }
        let blank = octets::all_zero(&self.key);
        blank & none & (self.port == 0)
    }

    /// Whether the datagram is the sentinel and the key of a mechanism that is armed.
    // The time taken tells nothing of how many bytes of the key were right.
    #[tactic(auto, using(crate::proofs::Laws::other_length, crate::proofs::Laws::resets_is))]
    pub fn resets(self, datagram: &[u8]) -> bool
        ensures { result ≡ resets self datagram.now }
    {
        if datagram.len() != DATAGRAM {
            return false;
        }
        let (sentinel, key) = datagram.split_at(SENTINEL.len());
        let marked = octets::same(sentinel, SENTINEL);
        let known = octets::same(key, &self.key);
        self.armed & marked & known
    }
}

// The theorems of the mechanism, as contracts of functions that do nothing: each has its line in the verdict.
#[tactic(auto, using(crate::proofs::Kept::mechanism_kept))]
pub fn mechanism_kept()
    ensures { MechanismKept }
{}

#[tactic(auto, using(crate::proofs::Kept::resets_exactly))]
pub fn resets_exactly()
    ensures { ResetsExactly }
{}

#[tactic(auto, using(crate::proofs::Kept::addresses_taken))]
pub fn addresses_taken()
    ensures { AddressesTaken }
{}
