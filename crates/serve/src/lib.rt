//! What a whole message does: its commands run in order, a response to each in a lent output, and the reply.
#![tactic(auto)]

ghost use Rattle.std.specs.Prelude.{◌≡◌, cond, true, ◌+◌, ◌*◌, ◌<◌, ◌≤◌, length, eqb};
ghost use Rattle.std.proofs.lemmas.List.Edits.{sets};
ghost use Rattle.frame.specs.Limits.{least_response};
ghost use Rattle.frame.specs.Header.{pdu_type};
ghost use Rattle.frame.specs.Entry.{entries_fill};
ghost use Rattle.frame.specs.Scaffold.{SoundAt};
ghost use Rattle.layout.specs.Message.{at_front};
ghost use Rattle.objects.specs.Answers.{answer_in};
ghost use Rattle.device.specs.State.{sent_at};
ghost use Rattle.replies.specs.Bytes.{response_bytes};
ghost use Rattle.serve.specs.Serve.{last_of, responses_of};
ghost use Rattle.serve.specs.Sound.{commands_of, sound_of};
ghost use Rattle.serve.specs.Kept.{SoundKept};

use device::Device;
use numbers::Status;
use objects::Reply;

// A command of type 0 gets no response.
fn answer_to(
    out: &mut [u8],
    at: usize,
    kind: u8,
    handle: u32,
    answer: Result<Reply, Status>,
) -> usize
    requires { at + 22 ≤ length out.old }
    ensures { (result ≡ cond (eqb kind 0) at (at + (least_response + (answer_in answer).length)))
        × (out.new ≡ cond (eqb kind 0) out.old (sets out.old at (response_bytes handle (answer_in answer)))) }
{
    match kind {
        frame::COMMAND => at,
        _ => replies::put_answer(out, at, handle, answer),
    }
}

// Runs count commands of connection n; those of type 1 are answered from the end of the output's header on.
#[tactic(auto, using(laws::proofs::Parts::rest, frame::proofs::Entries::offset_other, frame::proofs::Entries::least_command_lem, crate::proofs::Serves::size_given, crate::proofs::Serves::serving_none, crate::proofs::Serves::serving_step, crate::proofs::Serves::serving_last, crate::proofs::Serves::serving_end, crate::proofs::Serves::serving_bytes), unfolding(crate::specs::Serve::ran_first))]
fn serve(device: &mut Device, n: u8, kind: u8, count: u16, body: &[u8], out: &mut [u8]) -> usize
    requires { (kind < 2) × (entries_fill count kind body.now ≡ true) × (10 + count * 22 ≤ length out.old) }
    ensures { let told = responses_of count device.old n kind body.now in
        (device.new ≡ last_of count device.old n kind body.now)
        × (result ≡ cond (eqb kind 0) 10 (10 + length told))
        × (out.new ≡ cond (eqb kind 0) out.old (sets out.old 10 told)) }
{
    let mut t = body;
    let mut at = frame::HEADER_END;
    for _ in 0..count {
        let size = frame::given_size(t);
        let e = &t[..size];
        let c = fields::command_of(e);
        let answer = command::run(device, n, c, fields::parameters(kind, e));
        at = answer_to(out, at, kind, c.handle, answer);
        t = &t[size..];
    }
    at
}

// A reply is something sent.
fn sent(device: &mut Device, n: u8)
    requires { n < 8 }
    ensures { device.new ≡ sent_at device.old n }
{
    let at = n as usize;
    device.connections[at] = device.connections[at].sent();
}

// Runs count commands; those of type 1 get a reply, whose head stands before the responses.
#[tactic(auto, using(crate::proofs::Replies::commands_silent, crate::proofs::Replies::commands_told, crate::proofs::Replies::front_none, crate::proofs::Replies::room, crate::proofs::Replies::reply_stores))]
fn commands(device: &mut Device, n: u8, kind: u8, count: u16, body: &[u8], out: &mut [u8]) -> usize
    requires { (n < 8) × (kind < 2) × (entries_fill count kind body.now ≡ true) × (10 + count * 22 ≤ length out.old)
        × (count ≤ 119) }
    ensures { let q = commands_of device.old n kind count body.now in
        (device.new ≡ q.device) × (result ≡ length q.reply) × (out.new ≡ at_front q.reply out.old) }
{
    let end = serve(device, n, kind, count, body, out);
    match kind {
        frame::COMMAND => 0,
        _ => {
            sent(device, n);
            layout::put_head(out, frame::RESPONSE, count, (end - 1) as u32);
            end
        }
    }
}

// A message of commands is heard, and they are run.
#[tactic(auto, using(laws::proofs::Parts::rest, crate::proofs::Replies::fills, crate::proofs::Replies::few), unfolding(crate::specs::Sound::sound_of))]
fn commanded(device: &mut Device, n: u8, m: &[u8], out: &mut [u8]) -> usize
    requires { (n < 8) × (pdu_type m.now < 2) × SoundAt m.now (length m.now) × (4096 ≤ length out.old) }
    ensures { let q = sound_of device.old n m.now in
        (device.new ≡ q.device) × (result ≡ length q.reply) × (out.new ≡ at_front q.reply out.old) }
{
    device.heard(n);
    commands(
        device,
        n,
        m[frame::places::TYPE],
        octets::be16(m, frame::places::MESSAGE_COUNT),
        &m[frame::HEADER_END..],
        out,
    )
}

/// A sound message `m` of connection `n`: commands are run, a keep-alive is answered, and a notification or a response is
/// only heard. The reply, if any, fills the output's front: its length, or 0.
#[tactic(auto, using(laws::proofs::Parts::rest, laws::proofs::Conds::tests, crate::proofs::Replies::beats, crate::proofs::Replies::front_none), unfolding(crate::specs::Sound::kept_alive, crate::specs::Sound::sound_of))]
pub fn sound(device: &mut Device, n: u8, m: &[u8], out: &mut [u8]) -> usize
    requires { (n < 8) × SoundAt m.now (length m.now) × (4096 ≤ length out.old) }
    ensures { let q = sound_of device.old n m.now in
        (device.new ≡ q.device) × (result ≡ length q.reply) × (out.new ≡ at_front q.reply out.old) }
{
    match m[frame::places::TYPE] {
        frame::COMMAND | frame::COMMAND_WANTING_REPLY => commanded(device, n, m, out),
        frame::KEEP_ALIVE => {
            let beat = fields::heartbeat_of(&m[frame::HEADER_END..]);
            device.keep_alive(n, beat);
            replies::put_keep_alive(out, beat)
        }
        _ => {
            device.heard(n);
            0
        }
    }
}

// The theorems of a sound message, as the contract of a function that does nothing: it has its line in the verdict.
#[tactic(auto, using(crate::proofs::Keeps::sound_kept))]
pub fn sound_kept()
    ensures { SoundKept }
{}
