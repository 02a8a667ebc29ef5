//! Where the listing's bytes come from.
ghost use Rattle.std.proofs.lemmas.List.Edits.{sets};
ghost use Rattle.std.specs.Prelude.{◌≡◌, ◌++◌, ◌≤◌, ◌<◌, ℕ, List, Bool, true, false, Some, length, take};
ghost use Rattle.std.specs.Result.{result_unwrap_or};
ghost use Rattle.std.specs.declared.option.Option.{Option};
ghost use Rattle.turns.specs.Scaffold.{ReadsMore};
ghost use Rattle.turns.specs.Turns.{FromTape};

use std::io::{self, Read};

/// Bytes that are read piece by piece.
pub trait Source {
    // the bytes that are left to read, where they are known
    ghost left: { Self → Option (List ℕ) };
    // no read fails
    ghost sure: { Bool };
    // the reference that is read through
    ghost name: { Self → ℕ };

    /// Reads behind the first `held` bytes of `buf`, which stay, and answers how many bytes came: none at the end alone.
    fn read_more(&mut self, buf: &mut [u8], held: usize) -> io::Result<usize>
        requires { held < length buf.old }
        ensures reads { ReadsMore (left self.old) (left self.new) sure held buf.old buf.new result }
        ensures same_reference { name self.new ≡ name self.old };
}

/// A reader or a writer of std.
#[derive(Drop)]
pub struct Through<'a, T> {
    pub at: &'a mut T,
}

impl<R: Read> Source for Through<'_, R> {
    ghost left = { λ s. R.remaining s.at.now };

    ghost sure = { false };

    ghost name = { λ s. s.at.ghost_name };

    fn read_more(&mut self, buf: &mut [u8], held: usize) -> io::Result<usize> {
        self.at.read(&mut buf[held..])
    }
}

/// Bytes in memory, of which a read takes at most so many; 0: as many as there is room for.
#[derive(Drop)]
pub struct Tape<'a> {
    pub rest: &'a [u8],
    pub most: usize,
}

impl<'a> Tape<'a> {
    // The next piece: as many bytes as there is room for, but not more than a read takes.
    fn piece(&mut self, room: usize) -> &'a [u8]
        requires { 0 < room }
        ensures from_tape { FromTape self.old.rest.now 0 result.now }
        ensures rest { self.old.rest.now ≡ result.now ++ self.new.rest.now }
        ensures within { length result.now ≤ room }
    {
        let most = if self.most == 0 { room } else { self.most };
        let n = self.rest.len().min(room).min(most);
        let (piece, rest) = self.rest.split_at(n);
        self.rest = rest;
        piece
    }
}

impl Source for Tape<'_> {
    ghost left = { λ s. Some s.rest.now };

    ghost sure = { true };

    ghost name = { λ _. 0 };

    fn read_more(&mut self, buf: &mut [u8], held: usize) -> io::Result<usize>
        requires { held < length buf.old }
        ensures reads { ReadsMore (Some self.old.rest.now) (Some self.new.rest.now) true held buf.old buf.new result }
        ensures written { buf.new ≡ sets buf.old held (take (result_unwrap_or result 0) self.old.rest.now) }
    {
        let piece = self.piece(buf.len() - held);
        buf[held..held + piece.len()].copy_from_slice(piece);
        Ok(piece.len())
    }
}
