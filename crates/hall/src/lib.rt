//! What two tablets (connections 0 and 1), a panel (2) and the host of a hall do through the calls of the endpoint, each told in a line.
#![tactic(auto)]

use answers::{Delivery, Taking};
use endpoint::Record;
use std::fmt::Display;
use std::io::Write;

// The connections, by who speaks on them.
pub const TABLET_0: u8 = 0;

pub const TABLET_1: u8 = 1;

pub const PANEL: u8 = 2;

// Where a reply has the status of its first command, a keep-alive the last byte of its seconds, and a notification the new value:
// the panel's has a context of 4 bytes.
const STATUS_AT: usize = 18;

const SECONDS_AT: usize = 11;

const VALUE_AT: usize = 41;

// What is printed for a byte past the end.
const NO_BYTE: u8 = 255;

// A heartbeat of 30 s.
const HEARTBEAT: [u8; 12] = [0x3B, 0, 1, 0, 0, 0, 0x0B, 4, 0, 1, 0, 30];

/// The device of a hall, what its host lends to the calls, and where they are told. What cannot be written is passed over.
#[derive(Drop)]
pub struct Hall<'a, W> {
    pub to: &'a mut W,
    pub record: Record,
    pub area: &'a mut [u8],
    pub output: &'a mut [u8],
}

// A text and a number are each tried, whatever became of those before.
impl<W: Write> Hall<'_, W> {
    fn say(&mut self, text: &[u8]) {
        let _ = self.to.write_all(text);
    }

    fn say_number<T: Display + Drop>(&mut self, text: &[u8], n: T) {
        self.say(text);
        let _ = write!(self.to, "{n}");
    }

    fn end_line<T: Display + Drop>(&mut self, text: &[u8], n: T) {
        self.say_number(text, n);
        self.say(b"\n");
    }

    // Who speaks on a connection, and what is done.
    fn say_who(&mut self, n: u8, deed: &[u8]) {
        match n {
            PANEL => self.say(b"the panel"),
            _ => self.say_number(b"tablet ", n),
        }
        self.say(deed);
    }

    pub fn clear(&mut self) {
        match endpoint::clear_area(self.area) {
            Ok(()) => self.say(b"the area is cleared: done\n"),
            Err(_) => self.say(b"the area is cleared: refused\n"),
        }
    }

    pub fn open(&mut self, who: &[u8]) {
        let opened = self.record.try_open();
        self.say(who);
        match opened {
            Ok(n) => self.end_line(b" connects: connection ", n),
            Err(_) => self.say(b" connects: refused\n"),
        }
    }

    fn byte_at(&self, at: usize) -> u8 {
        self.output.get(at).copied().unwrap_or(NO_BYTE)
    }

    // A piece is delivered; of a reply, the byte at a place is told behind its name.
    fn hear(&mut self, n: u8, piece: &[u8], at: usize, name: &[u8]) {
        match self.record.try_deliver(self.area, n, piece, self.output) {
            Ok(Delivery::More(taken)) => self.end_line(b": more needed, bytes taken ", taken),
            Ok(Delivery::Message(_, 0)) => self.say(b": no reply\n"),
            Ok(Delivery::Message(_, _)) => {
                let byte = self.byte_at(at);
                self.end_line(name, byte);
            }
            Ok(Delivery::Closed(_, fault)) => self.end_line(b": closed, fault ", fault),
            Err(_) => self.say(b": refused\n"),
        }
    }

    /// A command wanting reply: its status is told.
    pub fn command(&mut self, n: u8, piece: &[u8], deed: &[u8]) {
        self.say_who(n, deed);
        self.hear(n, piece, STATUS_AT, b": status ");
    }

    pub fn heartbeat(&mut self, n: u8) {
        self.say_who(n, b" sets its heartbeat");
        self.hear(n, &HEARTBEAT, SECONDS_AT, b": answered, seconds ");
    }

    pub fn take(&mut self) {
        match self.record.try_take(self.output) {
            Ok(Taking::Notification(n, length)) => {
                let value = self.byte_at(VALUE_AT);
                self.say_number(b"take: notification to connection ", n);
                self.say_number(b", bytes ", length);
                self.end_line(b", value ", value);
            }
            Ok(Taking::KeepAlive(n, _)) => self.end_line(b"take: keep-alive to connection ", n),
            Ok(Taking::Nothing) => self.say(b"take: nothing\n"),
            Err(_) => self.say(b"take: refused\n"),
        }
    }

    pub fn tick(&mut self, reading: u32) {
        let ticked = self.record.try_tick(self.area, reading);
        self.say_number(b"tick at ", reading);
        match ticked {
            Ok(mask) => self.end_line(b" ms: closed mask ", mask),
            Err(_) => self.say(b" ms: refused\n"),
        }
    }

    pub fn close(&mut self, n: u8) {
        let closed = self.record.try_close(self.area, n);
        self.say_number(b"the host closes connection ", n);
        match closed {
            Ok(()) => self.say(b": done\n"),
            Err(_) => self.say(b": refused\n"),
        }
    }
}
