//! The C boundary, and the archive that C and Rust link: each export is one call of melorwyth. Where it is passed the record, that is
//! the call in place: handed on by value the record would be copied once more.
#![tactic(auto)]

ghost use Rattle.melorwyth.specs.Promises.{VersionHands, FreshHands, ClearHands, OpenHands, CloseHands, TickHands};
ghost use Rattle.melorwyth.specs.Promises.{DeliverHands, TakeHands, DatagramHands};
ghost use Rattle.melorwyth.specs.Promises.{AppendHands, ContextHands, EntryHands, KeepAliveHands, PartHands, ReadingHands, StartHands};

use endpoint::Record;
use melorwyth::messages::{Entry, Part, Reading, Written};
use melorwyth::{Cleared, Closed, Delivered, Opened, Reset, Taken, Ticked};

/// The version of the library.
#[unsafe(no_mangle)]
pub extern "C" fn melorwyth_version() -> u32
    ensures { VersionHands result }
{
    melorwyth::melorwyth_version()
}

/// The fresh record, at a first reading in milliseconds.
#[unsafe(no_mangle)]
pub extern "C" fn melorwyth_fresh(reading: u32) -> Record
    ensures { FreshHands reading result }
{
    melorwyth::melorwyth_fresh(reading)
}

/// An area is zeroed.
#[unsafe(no_mangle)]
pub extern "C" fn melorwyth_clear(area: &mut [u8]) -> Cleared
    ensures { ClearHands area.old result area.new }
{
    melorwyth::melorwyth_clear(area)
}

/// A connection is opened: its number.
#[unsafe(no_mangle)]
pub extern "C" fn melorwyth_open(mut state: Record) -> Opened
    ensures { OpenHands state result }
{
    melorwyth::open_in_place(&mut state)
}

/// The host's close of connection `n`.
#[unsafe(no_mangle)]
pub extern "C" fn melorwyth_close(mut state: Record, area: &mut [u8], n: u8) -> Closed
    ensures { CloseHands state area.old n result area.new }
{
    melorwyth::close_in_place(&mut state, area, n)
}

/// Time passes, to a reading in milliseconds: the connections closed, a bit each.
#[unsafe(no_mangle)]
pub extern "C" fn melorwyth_tick(mut state: Record, area: &mut [u8], reading: u32) -> Ticked
    ensures { TickHands state area.old reading result area.new }
{
    melorwyth::tick_in_place(&mut state, area, reading)
}

/// A piece of connection `n`'s bytes is delivered.
#[unsafe(no_mangle)]
pub extern "C" fn melorwyth_deliver(
    mut state: Record,
    area: &mut [u8],
    n: u8,
    piece: &[u8],
    output: &mut [u8],
) -> Delivered
    ensures { DeliverHands state area.old n piece.now output.old result
        area.new output.new }
{
    melorwyth::deliver_in_place(&mut state, area, n, piece, output)
}

/// One message that waits is taken.
#[unsafe(no_mangle)]
pub extern "C" fn melorwyth_take(mut state: Record, output: &mut [u8]) -> Taken
    ensures { TakeHands state output.old result output.new }
{
    melorwyth::take_in_place(&mut state, output)
}

/// A datagram came on the reset mechanism's port.
#[unsafe(no_mangle)]
pub extern "C" fn melorwyth_datagram(mut state: Record, area: &mut [u8], datagram: &[u8]) -> Reset
    ensures { DatagramHands state area.old datagram.now result area.new }
{
    melorwyth::datagram_in_place(&mut state, area, datagram)
}

/// The message at the bytes' front.
#[unsafe(no_mangle)]
pub extern "C" fn melorwyth_read_message(bytes: &[u8]) -> Reading
    ensures { ReadingHands bytes.now result }
{
    melorwyth::messages::melorwyth_read_message(bytes)
}

/// Entry `index` of the message at the bytes' front.
#[unsafe(no_mangle)]
pub extern "C" fn melorwyth_read_entry(bytes: &[u8], index: usize) -> Entry
    ensures { EntryHands bytes.now index result }
{
    melorwyth::messages::melorwyth_read_entry(bytes, index)
}

/// Where the entry's part stands: `PartStands` of the reader says that the bytes there are the part.
#[unsafe(no_mangle)]
pub extern "C" fn melorwyth_entry_part(bytes: &[u8], index: usize) -> Part
    ensures { PartHands bytes.now index result }
{
    melorwyth::messages::melorwyth_entry_part(bytes, index)
}

/// Where the entry's context stands: `ContextStands` of the reader says that the bytes there are the context.
#[unsafe(no_mangle)]
pub extern "C" fn melorwyth_entry_context(bytes: &[u8], index: usize) -> Part
    ensures { ContextHands bytes.now index result }
{
    melorwyth::messages::melorwyth_entry_context(bytes, index)
}

/// A message of one entry is started in the buffer.
#[unsafe(no_mangle)]
pub extern "C" fn melorwyth_start(buffer: &mut [u8], kind: u8, entry: &[u8]) -> Written
    ensures { StartHands buffer.old kind entry.now result buffer.new }
{
    melorwyth::messages::melorwyth_start(buffer, kind, entry)
}

/// An entry is appended to the sound message at the buffer's front.
#[unsafe(no_mangle)]
pub extern "C" fn melorwyth_append(buffer: &mut [u8], kind: u8, entry: &[u8]) -> Written
    ensures { AppendHands buffer.old kind entry.now result buffer.new }
{
    melorwyth::messages::melorwyth_append(buffer, kind, entry)
}

/// A keep-alive is written to the buffer.
#[unsafe(no_mangle)]
pub extern "C" fn melorwyth_keep_alive(buffer: &mut [u8], form: u8, value: u32) -> Written
    ensures { KeepAliveHands buffer.old form value result buffer.new }
{
    melorwyth::messages::melorwyth_keep_alive(buffer, form, value)
}
