//! A sink that keeps the front of a text for which there is no room, as another crate may have one; and sinks that are whole.

ghost use Rattle.std.specs.Prelude.{◌≤◌, Some, length, take};
ghost use Rattle.turns.specs.Scaffold.{HandsWhole};

use super::sink::{Page, Sink, WholeSink};
use super::source::{Tape, Through};
use super::{Stopped, list_from, list_tape};
use std::io::{self, ErrorKind};

// A heartbeat of 2 s, and a byte behind it that begins no message; and what is listed of them.
const TAPE: [u8; 13] = [0x3B, 0, 1, 0, 0, 0, 0x0B, 4, 0, 1, 0, 2, 0];

const LINES: &[u8] = b"0 4 1 11\n12 stop 1\n";

// Text that is kept in memory, as much of it as there is room for.
#[derive(Drop)]
struct Front<'a> {
    text: &'a mut [u8],
    handed: usize,

    ghost placed: { handed ≤ length text.now },
}

impl Sink for Front<'_> {
    ghost text = { λ s. Some (take s.handed s.text.now) };

    ghost room = { λ s. Some (length s.text.now) };

    ghost name = { λ s. s.text.ghost_name };

    fn hand_over(&mut self, s: &[u8]) -> io::Result<()> {
        let at = self.handed;
        let room = self.text.len() - at;
        if room < s.len() {
            self.text[at..].copy_from_slice(&s[..room]);
            self.handed = at + room;
            return Err(ErrorKind::WriteZero.into());
        }
        let end = at + s.len();
        self.text[at..end].copy_from_slice(s);
        self.handed = end;
        Ok(())
    }
}

// The text that is kept, its bytes, and how the listing ended.
fn list_front(room: usize, most: usize) -> ([u8; 30], usize, Result<(), Stopped>) {
    let mut text = [0; 30];
    let mut source = Tape { rest: &TAPE, most };
    let mut front = Front {
        text: &mut text[..room.min(30)],
        handed: 0,
    };
    let end = list_from(&mut source, &mut front, &mut io::sink());
    let kept = front.handed;
    (text, kept, end)
}

#[test]
fn a_front_is_kept(rt: HostRuntime) {
    let full = Err(Stopped::Unsaid);
    for (room, end) in [(0, full), (5, full), (18, full), (19, Ok(())), (30, Ok(()))] {
        for most in 0..14 {
            let (text, kept, ended) = list_front(room, most);
            assert_eq!(rt;
                text.get(..kept),
                LINES.get(..room.min(19)),
                "room for {room}, reads of {most}"
            );
            assert_eq!(rt; ended, end, "room for {room}, reads of {most}");
        }
    }
}

// Whichever sink it is, as long as it is whole.
fn give<K: WholeSink>(sink: &mut K, s: &[u8]) -> io::Result<()>
    ensures { HandsWhole (K.text sink.old) (K.text sink.new) (K.room sink.old) (K.room sink.new) s.now result }
{
    sink.hand_over(s)
}

#[test]
fn a_whole_sink_is_given_to(rt: HostRuntime) {
    let mut text = [0; 4];
    let mut page = Page {
        text: &mut text,
        handed: 0,
    };
    for (s, fits, handed) in [(b"abc", true, 3), (b"def", false, 3)] {
        assert_eq!(rt; give(&mut page, s).is_ok(), fits);
        assert_eq!(rt; page.handed, handed);
    }
    assert_eq!(rt; &text, b"abc\0");
    let mut nowhere = io::sink();
    assert!(rt; give(&mut Through { at: &mut nowhere }, b"abc").is_ok());
}

// Of a text for which it has no room a page takes none.
#[test]
fn a_page_takes_all_or_none(rt: HostRuntime) {
    for (room, kept) in [(0, 0), (8, 0), (9, 9), (18, 9), (19, 19)] {
        let mut text = [0; 30];
        let n = list_tape(&TAPE, 12, &mut text[..room]);
        assert_eq!(rt; text.get(..n), LINES.get(..kept), "room for {room}");
    }
}
