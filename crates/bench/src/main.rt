//! R83. The examples that are run, by the calls of the endpoint, the reader and the writer: a line for each.
#![tactic(auto)]

use answers::Delivery;
use endpoint::Record;
use numbers::Fault;
use std::fmt::Display;
use std::io::Write;

// What is printed for an answer that no example has.
const OTHER: u64 = 999999;

// A heartbeat of 2 s.
const HEARTBEAT: [u8; 12] = [0x3B, 0, 1, 0, 0, 0, 0x0B, 4, 0, 1, 0, 2];

// Class identification of 4097.
const CLASS_OF_4097: [u8; 17] = [0, 0, 0, 0x11, 0, 0, 0, 7, 0, 0, 0x10, 0x01, 0, 1, 0, 1, 0];

// Text, number and end are each tried, whatever became of those before.
fn print_line<W: Write, T: Display + Drop>(to: &mut W, text: &str, answer: Option<T>) {
    let _ = to.write_all(text.as_bytes());
    let _ = match answer {
        Some(n) => write!(to, "{n}"),
        None => write!(to, "{OTHER}"),
    };
    let _ = to.write_all(b"\n");
}

// Heartbeat 2 s on connection 0, then silence up to a reading: the tick's mask.
fn closed_at(reading: u32) -> Option<u8> {
    let mut area = [0; area::AREA];
    let mut output = [0; endpoint::OUTPUT];
    let opened = Record::fresh(0).open();
    let heard = opened.state.deliver(&mut area, 0, &HEARTBEAT, &mut output);
    heard.state.tick(&mut area, reading).answer.ok()
}

fn length_read(s: &[u8]) -> Option<usize> {
    match reader::read_message(s) {
        Ok(reading) => Some(reading.length),
        Err(_) => None,
    }
}

fn fault_read(s: &[u8]) -> Option<Fault> {
    reader::read_message(s).err()?.fault()
}

// One command of 2,039 bytes, which makes pduSize 2,048.
fn longest_command() -> [u8; 2039] {
    let mut e = [0u8; 2039];
    e[2] = 0x07;
    e[3] = 0xF7;
    e[16] = 1;
    e
}

// As many commands of 17 bytes as fit.
fn fill(buf: &mut [u8]) -> u64 {
    if writer::start(buf, 1, &CLASS_OF_4097).is_err() {
        return 0;
    }
    for n in 1..200 {
        if writer::append(buf, 1, &CLASS_OF_4097).is_err() {
            return n;
        }
    }
    200
}

// The length of the reply to the message at the front of some bytes.
fn reply_to(s: &[u8]) -> Option<usize> {
    let mut area = [0; area::AREA];
    let mut output = [0; endpoint::OUTPUT];
    let opened = Record::fresh(0).open();
    match opened.state.deliver(&mut area, 0, s, &mut output).answer {
        Ok(Delivery::Message(_, length)) => Some(length),
        _ => None,
    }
}

fn sizes<W: Write>(to: &mut W) {
    // The longest message fills it.
    let mut space = [0; area::PART];
    let _ = writer::start(&mut space, 1, &longest_command());
    print_line(to, "pduSize 2048: read, bytes ", length_read(&space));
    space[6] = 1;
    print_line(to, "pduSize 2049: fault ", fault_read(&space));
}

fn least_commands<W: Write>(to: &mut W) {
    let mut space = [0; area::PART];
    let n = fill(&mut space);
    print_line(to, "least commands that fit: ", Some(n));
    print_line(to, "longest reply, bytes ", reply_to(&space));
}

fn examples<W: Write>(to: &mut W) {
    print_line(to, "heartbeat 2 s, silence 5999: closed ", closed_at(5999));
    print_line(to, "heartbeat 2 s, silence 6000: closed ", closed_at(6000));
    sizes(to);
    least_commands(to);
}

fn main(rt: HostRuntime) {
    examples(&mut rt.stdout());
}
