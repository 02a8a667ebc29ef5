//! A command of a connection: its method is found once, and each method changes the part of the device that it concerns.
#![tactic(auto)]

ghost use Rattle.std.specs.Prelude.{◌≡◌, false};
ghost use Rattle.objects.specs.Methods.{device_manager, method_number, reset_key_method};
ghost use Rattle.objects.specs.Tests.{is_malformed};
ghost use Rattle.objects.specs.Answers.{answer_in};
ghost use Rattle.device.specs.Run.{unchanged, run_of};
ghost use Rattle.command.specs.Booking.{armed, Arms};

use device::Device;
use fields::CommandFields;
use mechanism::Mechanism;
use numbers::Status;
use objects::{Class, Method, Reply};

pub mod channels;
pub mod slot;

// 3.14 of the device manager: the mechanism is set in place.
#[tactic(auto, using(device::proofs::Shapes::arm_fits, crate::proofs::Books::arm_untaken, crate::proofs::Books::arm_taken))]
fn set_key(mechanism: &mut Mechanism, part: &[u8]) -> Result<Reply, Status>
    requires { is_malformed reset_key_method 2 part.now ≡ false }
    ensures { Arms mechanism.old device_manager 2 part.now (armed mechanism.new (answer_in result)) }
{
    *mechanism = mechanism::arming_of(part).ok_or(Status::BadValue)?;
    Ok(Reply::Done)
}

/// 3.14 of an object, whichever connection it is: the mechanism is the device's. Refused by the first status that applies.
#[tactic(auto, using(crate::proofs::Books::arm_stopped, crate::proofs::Books::arm_asked, crate::proofs::Books::armed_formed))]
pub fn arm(
    mut mechanism: Mechanism,
    target: u32,
    count: u8,
    part: &[u8],
) -> (Mechanism, Result<Reply, Status>)
    ensures { Arms mechanism target count part.now (armed result.0 (answer_in result.1)) }
{
    match objects::first_status(target, 3, 14, count, part) {
        Ok(_) => {
            let answer = set_key(&mut mechanism, part);
            (mechanism, answer)
        }
        Err(status) => (mechanism, Err(status)),
    }
}

/// The command of these fields from connection `n`; `part` is the message from the entry's parameters on. A command that is
/// refused changes nothing, and its status is the first that applies.
pub fn run(device: &mut Device, n: u8, c: CommandFields, part: &[u8]) -> Result<Reply, Status>
    ensures { unchanged device.new (answer_in result)
        ≡ run_of device.old n c.target (method_number c.method.level c.method.index) c.count part.now }
{
    match objects::first_status(c.target, c.method.level, c.method.index, c.count, part)? {
        Method::Class => Ok(Reply::Class(Class::of(c.target))),
        Method::Lockable => Ok(Reply::Byte(objects::is_mute(c.target) as u8)),
        Method::Lock => channels::lock(&mut device.holders, n, objects::place(c.target)),
        Method::Unlock => channels::unlock(&mut device.holders, n, objects::place(c.target)),
        Method::Add => slot::subscribe(&mut device.subscriptions, n, part),
        Method::Remove => slot::unsubscribe(&mut device.subscriptions, n, part),
        Method::ResetKey => set_key(&mut device.mechanism, part),
        Method::Get => Ok(channels::get(&device.mutes, objects::place(c.target))),
        Method::Set => {
            let at = objects::place(c.target);
            if channels::set(&mut device.mutes, &device.holders, n, at, part[0])? {
                subscription::all_marked(&mut device.subscriptions, c.target);
            }
            Ok(Reply::Done)
        }
    }
}
