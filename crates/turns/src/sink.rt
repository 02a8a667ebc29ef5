//! Where the listing's text goes.
ghost use Rattle.std.specs.Prelude.{◌≡◌, ◌≤◌, ◌<◌, ℕ, List, Bool, true, false, refl, None, Some, is_err, length, take};
ghost use Rattle.std.specs.declared.option.Option.{Option};
ghost use Rattle.turns.specs.Scaffold.{HandsOver, HandsWhole, OfWhole};
ghost use Rattle.turns.specs.Turns.{TextKept};

use super::source::Through;
use std::io::{self, ErrorKind, Write};

/// What takes text, a part behind the other.
pub trait Sink {
    // the text that was handed over, where it is known
    ghost text: { Self → Option (List ℕ) };
    // where it is known: how many bytes of text it has room for, and it refuses nothing for which there is room
    ghost room: { Self → Option ℕ };
    // where the room is known, a text that is refused is not taken at all
    ghost whole: { Bool } = { false };
    // the reference that is written through
    ghost name: { Self → ℕ };

    /// Takes all of `s`. On an error its front alone was taken, or none of it.
    fn hand_over(&mut self, s: &[u8]) -> io::Result<()>
        ensures hands { HandsOver (text self.old) (text self.new) (room self.old) (room self.new) s.now result }
        ensures all_or_none { OfWhole whole (HandsWhole (text self.old) (text self.new) (room self.old) (room self.new) s.now result) }
        ensures same_reference { name self.new ≡ name self.old };
}

/// A sink of which, where the room is known, an error says that nothing was taken.
pub trait WholeSink: Sink {
    ghost is_whole: { Self.whole ≡ true };
}

impl<W: Write> Sink for Through<'_, W> {
    ghost text = { λ s. W.contents s.at.now };

    ghost room = { λ _. None };

    ghost whole = { true };

    ghost name = { λ s. s.at.ghost_name };

    // As std's write_all, of which no clause says what it wrote before it failed.
    fn hand_over(&mut self, s: &[u8]) -> io::Result<()> {
        let mut done = 0;
        'write: for _ in 0..u64::MAX {
            if done == s.len() {
                return Ok(());
            }
            match self.at.write(&s[done..]) {
                Ok(0) => return Err(ErrorKind::WriteZero.into()),
                Ok(n) => done += n,
                Err(e) if e.kind() == ErrorKind::Interrupted => {}
                Err(e) => return Err(e),
            }
        }
        Err(ErrorKind::TimedOut.into())
    }
}

impl<W: Write> WholeSink for Through<'_, W> {
    ghost is_whole = { refl };
}

/// Text that is kept in memory.
#[derive(Drop)]
pub struct Page<'a> {
    pub text: &'a mut [u8],
    pub handed: usize,

    ghost placed: { handed ≤ length text.now },
}

impl Sink for Page<'_> {
    ghost text = { λ s. Some (take s.handed s.text.now) };

    ghost room = { λ s. Some (length s.text.now) };

    ghost whole = { true };

    ghost name = { λ s. s.text.ghost_name };

    fn hand_over(&mut self, s: &[u8]) -> io::Result<()>
        ensures hands { HandsOver (Some (take self.old.handed self.old.text.now)) (Some (take self.new.handed self.new.text.now))
            (Some (length self.old.text.now)) (Some (length self.new.text.now)) s.now result }
        ensures all_or_none { HandsWhole (Some (take self.old.handed self.old.text.now)) (Some (take self.new.handed self.new.text.now))
            (Some (length self.old.text.now)) (Some (length self.new.text.now)) s.now result }
        ensures same_reference { self.new.text.ghost_name ≡ self.old.text.ghost_name }
        ensures kept { TextKept s.now self.old.text.now self.old.handed self.new.text.now self.new.handed (is_err result) }
    {
        let at = self.handed;
        if self.text.len() - at < s.len() {
            return Err(ErrorKind::WriteZero.into());
        }
        let end = at + s.len();
        self.text[at..end].copy_from_slice(s);
        self.handed = end;
        Ok(())
    }
}

impl WholeSink for Page<'_> {
    ghost is_whole = { refl };
}
