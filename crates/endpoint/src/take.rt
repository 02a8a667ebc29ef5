// Taking: the refusals in their order, and then the message that waits.
ghost use Rattle.std.specs.Prelude.{◌≡◌, []};
ghost use Rattle.answers.specs.Numbers.{answer_numbers, taking_numbers};
ghost use Rattle.endpoint.specs.Outcome.{outcome};
ghost use Rattle.endpoint.specs.Take.{take_call};
ghost use Rattle.endpoint.specs.Promises.{TakeGives};

use crate::{Handed, Record, check_room};
use answers::Taking;
use numbers::Refusal;

impl Record {
    /// One message that waits is taken, and stands at the output's front: its connection and its length in bytes. Refused by
    /// `BadRecord` and `NoRoom` (below 4,096 bytes), in this order.
    #[tactic(auto, using(crate::proofs::Takes::take_broken, crate::proofs::Takes::take_short, crate::proofs::Takes::take_done, crate::proofs::States::device_obeys_lem))]
    pub fn try_take(&mut self, output: &mut [u8]) -> Result<Taking, Refusal>
        ensures { outcome (answer_numbers taking_numbers result) self.new [] output.new ≡ take_call self.old output.old }
    {
        self.check()?;
        check_room(output)?;
        Ok(taking::take(&mut self.device, output))
    }

    /// `try_take` of a record that is passed and handed back.
    pub fn take(mut self, output: &mut [u8]) -> Handed<Taking>
        ensures { TakeGives self output.old result output.new }
    {
        let answer = self.try_take(output);
        Handed {
            state: self,
            answer,
        }
    }
}
