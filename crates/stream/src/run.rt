// A run over an input of records that comes in pieces. docs/RULES.md, "Replay".
ghost use Rattle.std.specs.Prelude.{IfOk, ◌≡◌, ◌+◌, ◌≤◌, ◌||◌, length, take, ◌==◌, nat_lt};
ghost use Rattle.codec.specs.Output.{outcome, writes, written};
ghost use Rattle.voting.specs.Settings.{voting_length, mainnet};
ghost use Rattle.archive.specs.Record.{record_at};
ghost use Rattle.archive.specs.Replay.{votes_size};
ghost use Rattle.stream.specs.Lines.{line_most};
ghost use Rattle.stream.specs.declared.run.Print.TheVariants.{Nothing, End};
ghost use Rattle.stream.specs.Stream.{missing};
ghost use Rattle.stream.specs.Added.{Added};
ghost use Rattle.stream.specs.Run.{prints, end_at, begun, longest_record, too_short, Ready, text_of, waits_with, ended, ends_by, after_replay, on_bytes, took_of, took_cells, feed_of, last_of, finish_of, fail_of, fed_of, Feeds, Ends};
ghost use Rattle.stream.specs.Driven.{mainnet_start, replay_prints, Begins};

use crate::lines;
use archive::record::{RecordPlace, Unread};
use archive::replay::{Rejection, Replay};
use archive::{record, replay};
use codec::output;
use codec::refusal::Refusal;
use voting::settings::{MAINNET_VOTING_LENGTH, Network};
use voting::table;
use voting::table::Fork;

// No line has more bytes.
pub const LINE_MOST: usize = 47;

// The bytes of a record beside its body and its votes.
const RECORD_REST: usize = 13;

// The longest record of mainnet.
pub const MAINNET_LONGEST: usize = RECORD_REST
    + record::BODY_MOST
    + 3 * (MAINNET_VOTING_LENGTH as usize);

// The state of the replay, how many epochs were accepted, how many bytes of a record that is not whole stand at the start of the buffer, and
// whether the reading has ended.
#[derive(Clone, Copy)]
pub struct Run {
    pub replay: Replay,
    pub accepted: u32,
    pub filled: usize,
    pub over: bool,
}

#[derive(Clone, Copy)]
struct EpochPrint {
    height: u32,
    fork: Fork,
}

#[derive(Clone, Copy)]
struct EndPrint {
    accepted: u32,
    refusal: u8,
}

// What is to be printed: nothing, the line of an accepted epoch, or the last line.
#[derive(Clone, Copy)]
enum Print {
    Nothing,
    Epoch(EpochPrint),
    End(EndPrint),
}

// The next state, how many bytes of the piece were taken, and what is to be printed.
#[derive(Clone, Copy)]
struct Took {
    run: Run,
    used: usize,
    print: Print,
}

// The next state, how many bytes of the piece were taken, and how many bytes of text stand at the start of the output.
#[derive(Clone, Copy)]
pub struct Fed {
    pub run: Run,
    pub used: usize,
    pub wrote: usize,
}

// A run at its beginning.
pub fn begin(replay: Replay) -> Run
    ensures value { result ≡ begun replay }
    ensures begins { 1 ≤ voting_length replay.settings → Begins (prints replay) (longest_record replay.settings) result }
{
    Run {
        replay,
        accepted: 0,
        filled: 0,
        over: false,
    }
}

// The run of program `replay`: from mainnet's first epoch on, with mainnet's first table.
pub fn begin_mainnet() -> Run
    ensures value { result ≡ begun mainnet_start }
    ensures begins { Begins replay_prints (longest_record mainnet) result }
{
    let opened = replay::open(
        MAINNET_VOTING_LENGTH,
        table::default_parameters(Network::Mainnet),
    );
    begin(opened.unwrap())
}

// Takes bytes of a piece into a run and the buffer that belongs to it, as long as their lines find room in `out`, and writes the lines from its
// start.
pub fn feed(run: Run, cells: &mut [u8], piece: &[u8], out: &mut [u8]) -> Result<Fed, Refusal>
    ensures value { result ≡ fed_of (feed_of run cells.old piece.now (length out.old)) }
    ensures lent { cells.new ≡ (feed_of run cells.old piece.now (length out.old)).cells }
    ensures lines { out.new ≡ written (feed_of run cells.old piece.now (length out.old)).text out.old }
    ensures feeds { Ready run cells.old → line_most ≤ length out.old → Feeds run cells.old piece.now (length out.old) (feed_of run cells.old piece.now (length out.old)) }
    ensures inside { IfOk result (λ fed. (fed.used ≤ length piece.now) × (fed.wrote ≤ length out.old)) }
{
    if too_short(run, cells.len(), out.len()) {
        return Err(Refusal::OutputShort);
    }
    let mut state = run;
    let mut at: usize = 0;
    let mut wrote: usize = 0;
    for _ in 0..piece.len() {
        if no_more(piece.len() - at, out.len() - wrote) {
            break;
        }
        let took = take_record(state, cells, &piece[at..]);
        state = took.run;
        wrote = add(out, wrote, took.print);
        at += took.used;
    }
    Ok(stopped(state, at, wrote))
}

// The end of the input: writes the last line. The buffer of the run is lent as to `feed`.
pub fn finish(run: Run, cells: &[u8], out: &mut [u8]) -> Result<Fed, Refusal>
    ensures value { result ≡ fed_of (finish_of run cells.now (length out.old)) }
    ensures lines { out.new ≡ written (finish_of run cells.now (length out.old)).text out.old }
    ensures ends { Ready run cells.now → line_most ≤ length out.old → Ends run cells.now (length out.old) (finish_of run cells.now (length out.old)) }
{
    if run.filled == 0 {
        return last(run, cells, 0, out);
    }
    last(run, cells, Refusal::RecordMalformed.number(), out)
}

// An input that can't be read on: writes the last line.
pub fn fail(run: Run, cells: &[u8], out: &mut [u8]) -> Result<Fed, Refusal>
    ensures value { result ≡ fed_of (fail_of run cells.now (length out.old)) }
    ensures lines { out.new ≡ written (fail_of run cells.now (length out.old)).text out.old }
{
    last(run, cells, Refusal::RecordMalformed.number(), out)
}

fn last(run: Run, cells: &[u8], n: u8, out: &mut [u8]) -> Result<Fed, Refusal>
    ensures value { result ≡ fed_of (last_of run cells.now n (length out.old)) }
    ensures lines { out.new ≡ written (last_of run cells.now n (length out.old)).text out.old }
{
    if too_short(run, cells.len(), out.len()) {
        return Err(Refusal::OutputShort);
    }
    if run.over {
        return Ok(stopped(run, 0, 0));
    }
    let wrote = add(out, 0, end_print(run, n));
    Ok(stopped(end_run(run), 0, wrote))
}

fn stopped(run: Run, used: usize, wrote: usize) -> Fed
    ensures { result ≡ record { run = run; used = used; wrote = wrote } }
{
    Fed { run, used, wrote }
}

// A line might find no room, or the longest record; or the buffer does not have the bytes so far.
fn too_short(run: Run, cells: usize, room: usize) -> bool
    ensures { result ≡ too_short run cells room }
{
    let length = run.replay.settings.voting_length as usize;
    let longest = RECORD_REST + record::BODY_MOST + 3 * length;
    (room < LINE_MOST) | (cells < longest) | (cells < run.filled)
}

// The piece is used up, or a line might find no room.
fn no_more(left: usize, room: usize) -> bool
    ensures { result ≡ (left == 0 || nat_lt room line_most) }
{
    (left == 0) | (room < LINE_MOST)
}

// Puts a line behind what stands in the buffer.
fn add(out: &mut [u8], wrote: usize, print: Print) -> usize
    requires { wrote + line_most ≤ length out.old }
    ensures { Added (text_of print) wrote result out.old out.new }
{
    match print.write(&mut out[wrote..]) {
        Ok(n) => wrote + n,
        Err(_) => wrote,
    }
}

impl Print {
    // Writes the line.
    fn write(self, out: &mut [u8]) -> Result<usize, Refusal>
        ensures out_after { outcome result out.new ≡ writes (text_of self) out.old }
        ensures short { length (text_of self) ≤ line_most }
    {
        match self {
            Print::Nothing => Ok(0),
            Print::Epoch(e) => lines::write_epoch(e.height, e.fork, out),
            Print::End(e) => lines::write_end(e.accepted, e.refusal, out),
        }
    }
}

// Takes bytes of a piece, of one record at most, into a buffer that holds the longest record.
fn take_record(run: Run, cells: &mut [u8], piece: &[u8]) -> Took
    requires { (run.filled ≤ length cells.old) × (longest_record run.replay.settings ≤ length cells.old) }
    ensures value { result ≡ took_of run cells.old piece.now }
    ensures lent { cells.new ≡ took_cells run cells.old piece.now }
{
    if run.over {
        return taken_all(run, piece.len());
    }
    let filled = run.filled;
    let used = taken(run, &cells[..filled], piece);
    output::put_bytes(cells, filled, &piece[..used]);
    on_bytes(run, &cells[..filled + used], used)
}

fn taken_all(run: Run, used: usize) -> Took
    ensures { result ≡ record { run = run; used = used; print = Nothing } }
{
    Took {
        run,
        used,
        print: Print::Nothing,
    }
}

// How many bytes of a piece are taken after the bytes so far.
fn taken(run: Run, bytes: &[u8], piece: &[u8]) -> usize
    ensures { result ≡ length (take (missing (end_at run.replay.settings bytes.now)) piece.now) }
{
    missing_of(run, bytes).min(piece.len())
}

// At least how many bytes of a record are missing.
fn missing_of(run: Run, bytes: &[u8]) -> usize
    ensures { result ≡ missing (end_at run.replay.settings bytes.now) }
{
    match record_of(run, bytes) {
        Err(Unread::Short(k)) => k,
        _ => 0,
    }
}

fn record_of(run: Run, bytes: &[u8]) -> Result<RecordPlace, Unread>
    ensures { result ≡ record_at bytes.now (votes_size run.replay.settings) }
{
    record::read_record(bytes, 3 * (run.replay.settings.voting_length as usize))
}

fn on_bytes(run: Run, bytes: &[u8], used: usize) -> Took
    ensures { result ≡ on_bytes run bytes.now used }
{
    match record_of(run, bytes) {
        Ok(p) => after_replay(run, p.height, used, run.replay.replay(bytes)),
        Err(Unread::Short(_)) => waits(run, bytes.len(), used),
        Err(Unread::Malformed) => ends_by(run, used, Refusal::RecordMalformed.number()),
    }
}

fn waits(run: Run, filled: usize, used: usize) -> Took
    ensures { result ≡ waits_with run filled used }
{
    Took {
        run: Run {
            filled,
            over: false,
            ..run
        },
        used,
        print: Print::Nothing,
    }
}

fn after_replay(run: Run, height: u32, used: usize, x: Result<Replay, Rejection>) -> Took
    ensures { result ≡ after_replay run height used x }
{
    match x {
        Ok(replay) => goes_on(run, height, used, replay),
        Err(e) => ends_by(run, used, e.number()),
    }
}

fn goes_on(run: Run, height: u32, used: usize, replay: Replay) -> Took
    ensures { result ≡ after_replay run height used (Ok replay) }
{
    Took {
        run: Run {
            replay,
            accepted: run.accepted.wrapping_add(1),
            filled: 0,
            over: false,
        },
        used,
        print: Print::Epoch(EpochPrint {
            height,
            fork: replay.table.fork,
        }),
    }
}

fn ends_by(run: Run, used: usize, n: u8) -> Took
    ensures { result ≡ ends_by run used n }
{
    Took {
        run: end_run(run),
        used,
        print: end_print(run, n),
    }
}

fn end_run(run: Run) -> Run
    ensures { result ≡ ended run }
{
    Run {
        filled: 0,
        over: true,
        ..run
    }
}

fn end_print(run: Run, n: u8) -> Print
    ensures { result ≡ End (record { accepted = run.accepted; refusal = n }) }
{
    Print::End(EndPrint {
        accepted: run.accepted,
        refusal: n,
    })
}
