//! A text that is to be an IPv4 address in dotted decimal.
#![tactic(auto)]

ghost use Rattle.std.specs.Prelude.{◌≡◌};
ghost use Rattle.dotted.specs.Text.{dotted_of, address_in};
ghost use Rattle.dotted.specs.Exact.{DottedExact};
ghost use Rattle.dotted.specs.Table.{TextsTold};

use std::net::Ipv4Addr;

/// The four numbers of the address that a text says, in its order, or `None` where the text is no address's.
#[tactic(auto, using(crate::proofs::Parses::taken, crate::proofs::Parses::unparsed))]
pub fn read(text: &[u8]) -> Option<[u8; 4]>
    ensures { result ≡ address_in (dotted_of text.now) }
{
    match Ipv4Addr::parse_ascii(text) {
        Ok(address) => Some(address.octets()),
        Err(_) => None,
    }
}

// A text is sound exactly where it is the decimal text of four numbers of at most 255.
#[tactic(auto, using(crate::proofs::Exacts::dotted_exact))]
pub fn dotted_exact()
    ensures { DottedExact }
{}

pub fn texts_told()
    ensures { TextsTold }
{}
