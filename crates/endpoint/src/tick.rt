// A tick: the refusals in their order, and then time passes.
ghost use Rattle.std.specs.Prelude.{◌≡◌, true, [], length};
ghost use Rattle.answers.specs.Numbers.{answer_numbers, ticking_numbers};
ghost use Rattle.area.specs.Area.{area_bytes};
ghost use Rattle.device.specs.Obeys.{device_obeys};
ghost use Rattle.device.specs.Time.{tick_of};
ghost use Rattle.endpoint.specs.Outcome.{outcome};
ghost use Rattle.endpoint.specs.Calls.{ticked_by, tick_call};
ghost use Rattle.endpoint.specs.Promises.{TickGives};

use crate::{Handed, Record};
use numbers::Refusal;

impl Record {
    // Time passes for a record and an area that are not refused.
    #[tactic(auto, using(crate::proofs::States::tick_closed, crate::proofs::States::tick_back), unfolding(device::specs::State::lives_in))]
    fn pass(&mut self, area: &mut [u8], reading: u32) -> Result<u8, Refusal>
        requires { (length area.old ≡ area_bytes) × (device_obeys self.old.device ≡ true) }
        ensures { outcome (answer_numbers ticking_numbers result) self.new area.new []
            ≡ ticked_by (tick_of self.old.device reading).answer self.old (tick_of self.old.device reading) area.old }
    {
        let mask = self.device.tick(reading).ok_or(Refusal::ClockBack)?;
        let open = crate::lives(&self.device.connections);
        area::clear_closed(area, open);
        let kept = area::held_kept(open, self.held);
        self.held = kept;
        Ok(mask)
    }

    /// Time passes, to a reading of the host's counter in milliseconds: the connections closed, a bit each. Refused by `BadRecord`,
    /// `BadArea` and `ClockBack`, in this order.
    #[tactic(auto, using(crate::proofs::States::tick_bad, crate::proofs::States::tick_area, crate::proofs::States::tick_passed, crate::proofs::States::area_whole, crate::proofs::States::device_obeys_lem))]
    pub fn try_tick(&mut self, area: &mut [u8], reading: u32) -> Result<u8, Refusal>
        ensures { outcome (answer_numbers ticking_numbers result) self.new area.new [] ≡ tick_call self.old area.old reading }
    {
        self.check()?;
        self.check_area(area)?;
        self.pass(area, reading)
    }

    /// `try_tick` of a record that is passed and handed back.
    pub fn tick(mut self, area: &mut [u8], reading: u32) -> Handed<u8>
        ensures { TickGives self area.old reading result area.new }
    {
        let answer = self.try_tick(area, reading);
        Handed {
            state: self,
            answer,
        }
    }
}
