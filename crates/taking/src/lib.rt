//! Taking one message that waits to be sent: what it does to the device and to a lent output.
#![tactic(auto)]

ghost use Rattle.std.specs.Prelude.{◌≡◌, true, ◌<◌, ◌≤◌, length, slice_index_or, IfSome, MatchOption};
ghost use Rattle.connection.specs.State.{lowest_due};
ghost use Rattle.answers.specs.Numbers.{taking_numbers};
ghost use Rattle.subscription.specs.State.{free, is_waiting, lowest_waiting};
ghost use Rattle.layout.specs.Message.{at_front};
ghost use Rattle.replies.specs.Bytes.{least_output};
ghost use Rattle.device.specs.Obeys.{device_obeys};
ghost use Rattle.taking.specs.Dispatch.{dispatch, subscription_at, notification_at, notifying, reminding, dispatched};

use answers::Taking;
use connection::Connection;
use device::Device;
use subscription::Subscription;

// The notification of the waiting entry at a place: its length.
#[tactic(auto, using(laws::proofs::Tables::length_mapped, crate::proofs::Takes::entry_read, crate::proofs::Takes::emitter_mute, crate::proofs::Takes::context_low))]
fn put_notification(device: &Device, output: &mut [u8], at: usize) -> usize
    requires { (device_obeys device.now ≡ true) × (at < 32) × (is_waiting (subscription_at device.now at) ≡ true)
        × (least_output ≤ length output.old) }
    ensures { (result ≡ length (notification_at device.now at))
        × (output.new ≡ at_front (notification_at device.now at) output.old) }
{
    let s = &device.subscriptions[at];
    let place = objects::place(s.emitter);
    replies::put_notification(output, s, device.mutes[place])
}

// The waiting entry at a place gets its notification.
#[tactic(auto, using(laws::proofs::Tables::length_mapped, crate::proofs::Takes::entry_place))]
fn notify(device: &mut Device, output: &mut [u8], at: usize) -> Taking
    requires { (device_obeys device.old ≡ true) × (at < 32) × (is_waiting (subscription_at device.old at) ≡ true)
        × (least_output ≤ length output.old) }
    ensures { dispatch (taking_numbers result) device.new output.new ≡ notifying device.old output.old at }
{
    let length = put_notification(device, output, at);
    let number = device.subscriptions[at].connection;
    subscription::tell(&mut device.subscriptions, at);
    let n = number as usize;
    device.connections[n] = device.connections[n].sent();
    Taking::Notification(number, length)
}

// Connection n gets a keep-alive.
#[tactic(auto, using(laws::proofs::Tables::length_mapped, crate::proofs::Takes::connection_obeys_lem, crate::proofs::Takes::reminded_is))]
fn remind(device: &mut Device, output: &mut [u8], n: usize) -> Taking
    requires { (device_obeys device.old ≡ true) × (n < 8) × (least_output ≤ length output.old) }
    ensures { dispatch (taking_numbers result) device.new output.new ≡ reminding device.old output.old n }
{
    let c = device.connections[n];
    let length = replies::put_keep_alive(output, c.heartbeat());
    device.connections[n] = c.sent();
    Taking::KeepAlive(n as u8, length)
}

// The lowest entry that waits, if one does.
#[tactic(auto, using(crate::proofs::Takes::entry_found))]
fn waiting(entries: &[Subscription; 32]) -> Option<usize>
    ensures place { MatchOption result (lowest_waiting entries.now ≡ 32) (λ at. (at ≡ lowest_waiting entries.now) × (at < 32)) }
    ensures waits { IfSome result (λ at. is_waiting (slice_index_or entries.now at free) ≡ true) }
{
    subscription::lowest_waiting(entries)
}

// The lowest connection that is due, if one is.
#[tactic(auto, using(crate::proofs::Takes::due_found))]
fn due(connections: &[Connection; 8]) -> Option<usize>
    ensures { MatchOption result (lowest_due connections.now ≡ 8) (λ n. (n ≡ lowest_due connections.now) × (n < 8)) }
{
    connection::lowest_due(connections)
}

/// One message for one connection is taken out of the device, and written at the output's front: the notification of the lowest
/// entry that waits, else the keep-alive of the lowest connection that is due, else nothing.
#[tactic(auto, using(crate::proofs::Takes::take_notified, crate::proofs::Takes::take_reminded, crate::proofs::Takes::take_nothing))]
pub fn take(device: &mut Device, output: &mut [u8]) -> Taking
    requires { (device_obeys device.old ≡ true) × (least_output ≤ length output.old) }
    ensures { dispatch (taking_numbers result) device.new output.new ≡ dispatched device.old output.old }
{
    match waiting(&device.subscriptions) {
        Some(at) => notify(device, output, at),
        None => match due(&device.connections) {
            Some(n) => remind(device, output, n),
            None => Taking::Nothing,
        },
    }
}
