// A delivery: the refusals in their order, and then what the piece does.
ghost use Rattle.std.specs.Prelude.{◌≡◌, ◌<◌, ◌≤◌, length};
ghost use Rattle.answers.specs.Numbers.{answer_numbers, delivery_numbers};
ghost use Rattle.area.specs.Scaffold.{Lying};
ghost use Rattle.replies.specs.Bytes.{least_output};
ghost use Rattle.delivery.specs.Intake.{taken_in};
ghost use Rattle.endpoint.specs.Outcome.{outcome};
ghost use Rattle.endpoint.specs.Deliver.{held_at, with_intake, deliver_call};
ghost use Rattle.endpoint.specs.Promises.{DeliverGives};

use crate::{Handed, Record, check_connection, check_room};
use answers::Delivery;
use numbers::Refusal;

impl Record {
    // A piece of connection n, which is open.
    #[tactic(auto, using(crate::proofs::Delivers::brought_in))]
    fn take_in(&mut self, area: &mut [u8], n: u8, piece: &[u8], output: &mut [u8]) -> Delivery
        requires { (n < 8) × Lying area.old n (held_at self.old n) × (least_output ≤ length output.old) }
        ensures { outcome (delivery_numbers result) self.new area.new output.new
            ≡ with_intake self.old n
            (taken_in self.old.device area.old n (held_at self.old n) piece.now output.old) }
    {
        let at = n as usize;
        let mut held = self.held[at];
        let answer = delivery::take_in(&mut self.device, &mut held, area, n, piece, output);
        self.held[at] = held;
        answer
    }

    /// A piece of connection `n`'s bytes, taken as far as the first byte that decides; the reply to a sound message stands at the
    /// output's front. Refused by `BadRecord`, `BadArea`, `NoConnection` and `NoRoom` (below 4,096 bytes), in this order.
    #[tactic(auto, using(crate::proofs::Delivers::deliver_bad, crate::proofs::Delivers::deliver_area, crate::proofs::Delivers::deliver_none, crate::proofs::Delivers::deliver_room, crate::proofs::Delivers::deliver_done, crate::proofs::Delivers::deliver_lies))]
    #[inline(never)]
    pub fn try_deliver(
        &mut self,
        area: &mut [u8],
        n: u8,
        piece: &[u8],
        output: &mut [u8],
    ) -> Result<Delivery, Refusal>
        ensures { outcome (answer_numbers delivery_numbers result) self.new area.new output.new
            ≡ deliver_call self.old area.old n piece.now output.old }
    {
        self.check()?;
        self.check_area(area)?;
        check_connection(&self.device.connections, n)?;
        check_room(output)?;
        Ok(self.take_in(area, n, piece, output))
    }

    /// `try_deliver` of a record that is passed and handed back.
    pub fn deliver(
        mut self,
        area: &mut [u8],
        n: u8,
        piece: &[u8],
        output: &mut [u8],
    ) -> Handed<Delivery>
        ensures { DeliverGives self area.old n piece.now output.old result
            area.new output.new }
    {
        let answer = self.try_deliver(area, n, piece, output);
        Handed {
            state: self,
            answer,
        }
    }
}
