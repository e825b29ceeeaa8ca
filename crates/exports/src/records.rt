// Records one after another in a stream, and the lines that are printed of them.
ghost use Rattle.std.specs.Prelude.{◌≡◌};
ghost use Rattle.codec.specs.Output.{writes};
ghost use Rattle.archive.specs.Record.{record_at};
ghost use Rattle.stream.specs.Lines.{head_line, epoch_line, end_line};
ghost use Rattle.wire.specs.Values.{table_at};
ghost use Rattle.exports.specs.Reply.{reply, sized};
ghost use Rattle.exports.specs.Calls.{record_reply};

use crate::answer;
use archive::record;
use archive::record::Unread;
use codec::refusal::Refusal;
use stream::lines;
use wire::{places, values};

// The record that bytes begin with, its votes having so many bytes, into cells: 0; or how many bytes are missing at least; or minus 25, 21.
#[unsafe(no_mangle)]
pub extern "C" fn ergo_read_record(bytes: &[u8], votes_size: usize, out: &mut [u8]) -> usize
    ensures { reply result out.new ≡ record_reply (record_at bytes.now votes_size) out.old }
{
    match record::read_record(bytes, votes_size) {
        Ok(p) => answer::place_of(places::write_record(p, out)),
        Err(Unread::Short(n)) => n,
        Err(Unread::Malformed) => answer::minus(Refusal::RecordMalformed.number()),
    }
}

// The first line: how many bytes were written, or minus 21.
#[unsafe(no_mangle)]
pub extern "C" fn ergo_write_head(out: &mut [u8]) -> usize
    ensures { reply result out.new ≡ sized (writes head_line out.old) }
{
    answer::size_of(lines::write_head(out))
}

// The line of an accepted epoch, with its height and the table after its boundary.
#[unsafe(no_mangle)]
pub extern "C" fn ergo_write_epoch(height: u32, table: &[u8], out: &mut [u8]) -> usize
    ensures { reply result out.new ≡ sized (writes (epoch_line height (table_at table.now 0).fork) out.old) }
{
    let t = values::table_of(table);
    answer::size_of(lines::write_epoch(height, t.fork, out))
}

// The last line, with the number of epochs that were accepted and the refusal's number or 0.
#[unsafe(no_mangle)]
pub extern "C" fn ergo_write_end(accepted: u32, refusal: u8, out: &mut [u8]) -> usize
    ensures { reply result out.new ≡ sized (writes (end_line accepted refusal) out.old) }
{
    answer::size_of(lines::write_end(accepted, refusal, out))
}
