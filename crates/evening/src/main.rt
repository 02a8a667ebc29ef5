//! An evening in a hall, through the calls of the endpoint: two tablets (connections 0 and 1), a panel (2), and channel 5, object 4101.
#![tactic(auto)]

use endpoint::Record;
use hall::{Hall, PANEL, TABLET_0, TABLET_1};
use std::io::Write;

// Lock of 4101.
const LOCK: [u8; 27] = [
    0x3B, 0, 1, 0, 0, 0, 0x1A, 1, 0, 1, 0, 0, 0, 0x11, 0, 0, 0, 7, 0, 0, 0x10, 0x05, 0, 1, 0, 3, 0,
];

// Add: emitter 4101, event 1.1, subscriber object 9 method 3.1, context 01 02 03 04.
const SUBSCRIBE: [u8; 52] = [
    0x3B, 0, 1, 0, 0, 0, 0x33, 1, 0, 1, 0, 0, 0, 0x2A, 0, 0, 0, 9, 0, 0, 0, 4, 0, 3, 0, 1, 5, 0, 0,
    0x10, 0x05, 0, 1, 0, 1, 0, 0, 0, 9, 0, 3, 0, 1, 0, 4, 1, 2, 3, 4, 1, 0, 0,
];

// The first bytes of a lock command.
const HALF_MESSAGE: [u8; 13] = [0x3B, 0, 1, 0, 0, 0, 0x1A, 1, 0, 1, 0, 0, 0];

fn lock<W: Write>(hall: &mut Hall<'_, W>, n: u8) {
    hall.command(n, &LOCK, b" asks for the lock of channel 5");
}

fn set<W: Write>(hall: &mut Hall<'_, W>, n: u8, value: u8, deed: &[u8]) {
    let piece = [
        0x3Bu8, 0, 1, 0, 0, 0, 0x1B, 1, 0, 1, 0, 0, 0, 0x12, 0, 0, 0, 8, 0, 0, 0x10, 0x05, 0, 4, 0,
        2, 1, value,
    ];
    hall.command(n, &piece, deed);
}

// Tablet 0 locks channel 5, mutes it and dies.
fn first_part<W: Write>(hall: &mut Hall<'_, W>) {
    hall.open(b"tablet 0");
    hall.open(b"tablet 1");
    hall.open(b"the panel");
    hall.heartbeat(TABLET_0);
    lock(hall, TABLET_0);
    hall.command(PANEL, &SUBSCRIBE, b" subscribes to channel 5");
    set(hall, TABLET_0, objects::MUTED, b" mutes channel 5");
    hall.take();
    lock(hall, TABLET_1);
    hall.command(TABLET_0, &HALF_MESSAGE, b" sends half a message and dies");
}

// Its connection is closed, and tablet 1 takes over.
fn second_part<W: Write>(hall: &mut Hall<'_, W>) {
    hall.tick(89999);
    lock(hall, TABLET_1);
    hall.tick(90000);
    lock(hall, TABLET_1);
    set(hall, TABLET_1, objects::UNMUTED, b" unmutes channel 5");
    hall.take();
    hall.command(PANEL, &[0], b" sends a faulty byte");
    hall.open(b"a new controller");
    hall.close(TABLET_1);
}

fn evening<W: Write>(hall: &mut Hall<'_, W>) {
    hall.clear();
    first_part(hall);
    second_part(hall);
}

fn main(rt: HostRuntime) {
    let mut hall = Hall {
        to: &mut rt.stdout(),
        record: Record::fresh(0),
        area: &mut [0; area::AREA],
        output: &mut [0; endpoint::OUTPUT],
    };
    evening(&mut hall);
}
