//! What a piece of an open connection does: it is gathered and decided, and then waits, closes or runs.
#![tactic(auto)]

ghost use Rattle.std.specs.Prelude.{◌≡◌, ◌-◌, ◌≤◌, length};
ghost use Rattle.answers.specs.Numbers.{delivery_numbers};
ghost use Rattle.area.specs.Area.{undecided_of};
ghost use Rattle.area.specs.Scaffold.{Lying, MessageLies};
ghost use Rattle.replies.specs.Bytes.{least_output};
ghost use Rattle.serve.specs.Sound.{sound_of};
ghost use Rattle.delivery.specs.Intake.{intake, messaged, taken_in};

use answers::Delivery;
use device::Device;
use frame::Decision;

// The sound message of t bytes at the front of connection n's part, of which k were there before, is run; `used` bytes lie there.
#[tactic(auto, using(crate::proofs::Delivers::messaged_is), unfolding(area::specs::Area::undecided_of))]
fn run(
    device: &mut Device,
    area: &mut [u8],
    n: u8,
    k: usize,
    t: usize,
    used: usize,
    output: &mut [u8],
) -> Delivery
    requires { MessageLies area.old n k t used × (least_output ≤ length output.old) }
    ensures { intake (delivery_numbers result) device.new 0 area.new output.new
        ≡ messaged (sound_of device.old n (undecided_of area.old n t)) area.old n (t - k) output.old }
{
    let at = n as usize;
    let base = at * area::PART;
    let end = base + t;
    let length = serve::sound(device, n, &area[base..end], output);
    area::clear_used(area, at, used);
    Delivery::Message(t - k, length)
}

/// A piece of connection `n`, which is open and has `held` undecided bytes: taken as far as the first byte that decides. The output
/// has 4,096 bytes at least, and the reply to a sound message stands at its front.
#[tactic(auto, using(area::proofs::Gathers::waits_few, area::proofs::Gathers::waits_gathered, area::proofs::Gathers::cleared_gathered, area::proofs::Gathers::decided_behind, area::proofs::Gathers::message_lies, area::proofs::Gathers::message_whole, device::proofs::Times::close_device, crate::proofs::Delivers::taken_waits, crate::proofs::Delivers::taken_closed, crate::proofs::Delivers::taken_runs), unfolding(frame::specs::Decide::taken, frame::specs::Decide::settled))]
pub fn take_in(
    device: &mut Device,
    held: &mut u16,
    area: &mut [u8],
    n: u8,
    piece: &[u8],
    output: &mut [u8],
) -> Delivery
    requires { Lying area.old n held.old × (least_output ≤ length output.old) }
    ensures { intake (delivery_numbers result) device.new held.new area.new output.new
        ≡ taken_in device.old area.old n held.old piece.now output.old }
{
    let at = n as usize;
    let k = *held as usize;
    match area::gather(area, at, k, piece) {
        Decision::Undecided => {
            *held = (k + piece.len()) as u16;
            Delivery::More(piece.len())
        }
        Decision::Faulty(f, t) => {
            area::clear_part(area, at);
            device.close(n);
            *held = 0;
            Delivery::Closed(t - k, f)
        }
        Decision::Sound(t) => {
            let used = k + area::fitting(k, piece.len());
            *held = 0;
            run(device, area, n, k, t, used, output)
        }
    }
}
