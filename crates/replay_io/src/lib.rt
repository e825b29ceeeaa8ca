// Replays records of a reader on mainnet and writes what is printed to a writer. docs/RULES.md, "Replay". Bytes are only moved here: library
// `stream` says what is taken and what is printed, and library `ports` what was read and handed over, each under the number of a descriptor.
#![tactic(auto)]

ghost use Rattle.std.specs.Io.KnownBytes.{Appends, Consumes, IsAtEnd};
ghost use Rattle.stream.specs.Driven.{replay_prints};
ghost use Rattle.std.specs.Prelude.{◌≡◌, ◌<◌, IfSome, false, ◌||◌, cond, ◌≤◌, ltb, eqb, length, take};
ghost use Rattle.codec.specs.declared.refusal.Refusal.TheVariants.{OutputShort};
ghost use Rattle.voting.specs.Settings.{mainnet};
ghost use Rattle.ports.specs.Ports.{wrote, sent};
ghost use Rattle.stream.specs.Lines.{head_line, line_most};
ghost use Rattle.stream.specs.Run.{longest_record, Ready};
ghost use Rattle.replay_io.specs.Replays.{Feeding, GoesOn, Moves, IsEmpty, Reading, Replays};

use codec::refusal::Refusal;
use ports::{Input, Output, Sent};
use std::io::{Eprint, Read, Write};
use stream::run::Run;
use stream::{lines, run};

// No read and no write is of more bytes.
pub const MOST: usize = 0x1_0000;

// What was read and handed over; 21, where the call was refused; whether the end of the input was met, a read failed, a write failed, or the input is too long.
#[derive(Clone, Copy)]
pub struct Done {
    pub input: Input,
    pub output: Output,
    pub refusal: Option<Refusal>,
    pub ended: bool,
    pub read_failed: bool,
    pub write_failed: bool,
    pub too_long: bool,
}

#[derive(Clone, Copy)]
struct Passed {
    run: Run,
    output: Output,
    at: usize,
    failed: bool,
}

// Reads the records from a reader, at most so many bytes at a time, and writes what is printed to a writer, at most so many bytes at a time.
// It reads to the end, to the first refusal, or to a read or a write that failed, and writes the lines of each piece after reading it.
pub fn replay<R: Read, W: Write>(
    rt: &impl Eprint,
    source: &mut R,
    sink: &mut W,
    from: u32,
    to: u32,
    piece: usize,
    room: usize,
) -> Done
    ensures replays { Replays from to result }
    ensures moves { Moves (Consumes (R.remaining source.old) (R.remaining source.new)) (Appends (W.contents sink.old) (W.contents sink.new)) (IsAtEnd (R.remaining source.new)) from to result }
    ensures printed { result.refusal ≡ None → result.read_failed ≡ false → result.write_failed ≡ false → result.too_long ≡ false
        → IfSome (R.remaining source.old) (λ xs. Appends (W.contents sink.old) (W.contents sink.new) (replay_prints xs)) }
    ensures refused { result.refusal ≡ cond (eqb piece 0 || ltb room line_most) (Some OutputShort) None }
{
    if too_short(piece, room) {
        return unmoved(from, to);
    }
    let mut cells = [0u8; run::MAINNET_LONGEST];
    let mut buf = [0u8; MOST];
    let mut out = [0u8; MOST];
    replay_from(
        rt,
        source,
        sink,
        from,
        to,
        &mut cells,
        &mut buf[..piece.min(MOST)],
        &mut out[..room.min(MOST)],
    )
}

fn too_short(piece: usize, room: usize) -> bool
    ensures { result ≡ (eqb piece 0 || ltb room line_most) }
{
    (piece == 0) | (room < run::LINE_MOST)
}

// 21: nothing was read, and nothing handed over.
fn unmoved(from: u32, to: u32) -> Done
    ensures { Moves IsEmpty IsEmpty ⊥ from to result × (result.refusal ≡ Some OutputShort) }
{
    Done {
        input: ports::no_input(from),
        output: ports::no_output(to),
        refusal: Some(Refusal::OutputShort),
        ended: false,
        read_failed: false,
        write_failed: false,
        too_long: false,
    }
}

fn stopped(
    input: Input,
    output: Output,
    ended: bool,
    read_failed: bool,
    write_failed: bool,
    too_long: bool,
) -> Done
    ensures { result ≡ record { input = input; output = output; refusal = None; ended = ended; read_failed = read_failed; write_failed = write_failed; too_long = too_long } }
{
    Done {
        input,
        output,
        refusal: None,
        ended,
        read_failed,
        write_failed,
        too_long,
    }
}

// Writes the first line, and reads on.
fn replay_from<R: Read, W: Write>(
    rt: &impl Eprint,
    source: &mut R,
    sink: &mut W,
    from: u32,
    to: u32,
    cells: &mut [u8],
    buf: &mut [u8],
    out: &mut [u8],
) -> Done
    requires { (longest_record mainnet ≤ length cells.old) × (line_most ≤ length out.old) }
    ensures { Moves (Consumes (R.remaining source.old) (R.remaining source.new)) (Appends (W.contents sink.old) (W.contents sink.new)) (0 < length buf.old → IsAtEnd (R.remaining source.new)) from to result × (result.refusal ≡ None) }
{
    let run = run::begin_mainnet();
    let input = ports::no_input(from);
    let sent = send_head(rt, sink, out, ports::no_output(to));
    let output = sent.output;
    if sent.failed {
        return stopped(input, output, false, false, true, false);
    }
    read_all(
        rt, source, sink, from, to, run, cells, buf, out, input, output,
    )
}

// Reads to the end, to the first refusal, or to a read or a write that failed. The turns are counted, up to a number that no run uses up, since
// nothing says that an input ends; each reads a byte at least.
fn read_all<R: Read, W: Write>(
    rt: &impl Eprint,
    source: &mut R,
    sink: &mut W,
    from: u32,
    to: u32,
    run: Run,
    cells: &mut [u8],
    buf: &mut [u8],
    out: &mut [u8],
    input: Input,
    output: Output,
) -> Done
    requires { Reading IsEmpty (λ text. text ≡ head_line) from to 18446744073709551615 run cells.old input output × (line_most ≤ length out.old) }
    ensures { Moves (Consumes (R.remaining source.old) (R.remaining source.new)) (GoesOn head_line (W.contents sink.old) (W.contents sink.new)) (0 < length buf.old → IsAtEnd (R.remaining source.new)) from to result × (result.refusal ≡ None) }
{
    let mut state = run;
    let mut got = input;
    let mut handed = output;
    for _ in 0..u64::MAX {
        let came = ports::receive(rt, source, got, buf);
        got = came.input;
        if came.failed {
            let fed = run::fail(state, cells, out).unwrap();
            let sent = hand_over(rt, sink, handed, out, fed.wrote);
            return stopped(got, sent.output, false, true, sent.failed, false);
        }
        let n = came.count;
        if n == 0 {
            let fed = run::finish(state, cells, out).unwrap();
            let sent = hand_over(rt, sink, handed, out, fed.wrote);
            return stopped(got, sent.output, true, false, sent.failed, false);
        }
        let passed = feed_piece(rt, sink, state, cells, &buf[..n], out, handed);
        state = passed.run;
        handed = passed.output;
        if passed.failed {
            return stopped(got, handed, false, false, true, false);
        }
        if state.over {
            return stopped(got, handed, false, false, false, false);
        }
    }
    stopped(got, handed, false, false, false, true)
}

// Feeds a piece, and hands over its lines; stops where a write failed.
fn feed_piece<W: Write>(
    rt: &impl Eprint,
    sink: &mut W,
    run: Run,
    cells: &mut [u8],
    piece: &[u8],
    out: &mut [u8],
    output: Output,
) -> Passed
    requires { Ready run cells.old × (line_most ≤ length out.old) }
    ensures { Feeding (Appends (W.contents sink.old) (W.contents sink.new)) run cells.old piece.now output result.at result.run cells.new result.failed result.output
        × (result.failed ≡ false → length piece.now ≤ result.at) }
{
    let mut state = run;
    let mut handed = output;
    let mut at: usize = 0;
    while at < piece.len() {
        let fed = run::feed(state, cells, &piece[at..], out).unwrap();
        let sent = hand_over(rt, sink, handed, out, fed.wrote);
        state = fed.run;
        handed = sent.output;
        at += fed.used;
        if sent.failed {
            return Passed {
                run: state,
                output: handed,
                at,
                failed: true,
            };
        }
    }
    Passed {
        run: state,
        output: handed,
        at,
        failed: false,
    }
}

fn send_head<W: Write>(rt: &impl Eprint, sink: &mut W, out: &mut [u8], output: Output) -> Sent
    requires { line_most ≤ length out.old }
    ensures booked { result.output ≡ sent result.failed (wrote output head_line) }
    ensures bytes { result.failed ≡ false → Appends (W.contents sink.old) (W.contents sink.new) head_line }
{
    let n = lines::write_head(out).unwrap();
    hand_over(rt, sink, output, out, n)
}

// Hands over what stands at the start of the buffer. Every text goes this way.
fn hand_over<W: Write>(rt: &impl Eprint, sink: &mut W, output: Output, out: &[u8], n: usize) -> Sent
    requires { n ≤ length out.now }
    ensures booked { result.output ≡ sent result.failed (wrote output (take n out.now)) }
    ensures bytes { result.failed ≡ false → Appends (W.contents sink.old) (W.contents sink.new) (take n out.now) }
{
    ports::send(rt, sink, output, &out[..n])
}
