//! A datagram that came on the reset mechanism's port: the right one starts the device anew.
#![tactic(auto)]

ghost use Rattle.std.specs.Prelude.{◌≡◌, []};
ghost use Rattle.answers.specs.Numbers.{answer_numbers, resetting_numbers};
ghost use Rattle.endpoint.specs.Outcome.{outcome};
ghost use Rattle.reset.specs.Datagram.{datagram_call, DatagramGives};
ghost use Rattle.reset.specs.Tell.{ResettingsTell};

use answers::Resetting;
use endpoint::{Handed, Record};
use numbers::Refusal;

/// A datagram's bytes: the armed mechanism's own start the device anew at its last reading and zero the area, any other changes
/// nothing. Refused by `BadRecord` and `BadArea`, in this order.
#[tactic(auto, using(crate::proofs::Datagrams::area_whole, crate::proofs::Datagrams::all_cleared, crate::proofs::Datagrams::datagram_bad, crate::proofs::Datagrams::datagram_area, crate::proofs::Datagrams::datagram_nothing, crate::proofs::Datagrams::datagram_done))]
pub fn try_datagram(
    state: &mut Record,
    area: &mut [u8],
    datagram: &[u8],
) -> Result<Resetting, Refusal>
    ensures { outcome (answer_numbers resetting_numbers result) state.new area.new [] ≡ datagram_call state.old area.old datagram.now }
{
    state.check()?;
    state.check_area(area)?;
    if !state.device.mechanism.resets(datagram) {
        return Ok(Resetting::Nothing);
    }
    octets::clear(&mut area[0..area::AREA]);
    *state = Record::fresh(state.device.reading);
    Ok(Resetting::Done)
}

/// `try_datagram` of a record that is passed and handed back.
pub fn datagram(mut state: Record, area: &mut [u8], datagram: &[u8]) -> Handed<Resetting>
    ensures { DatagramGives state area.old datagram.now result area.new }
{
    let answer = try_datagram(&mut state, area, datagram);
    Handed { state, answer }
}

// Two results of a datagram that its promise allows are equal.
#[tactic(auto, using(crate::proofs::Tells::resettings_told))]
pub fn resettings_tell()
    ensures { ResettingsTell }
{}
