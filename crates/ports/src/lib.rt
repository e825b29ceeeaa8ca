// A reader that is read and a writer that is written, each with a value that stands for the bytes that went through it, under the number of a
// descriptor. Only these calls make such a value.
#![tactic(auto)]

ghost use Rattle.std.specs.Prelude.{◌≡◌, ◌+◌, ◌%◌, ◌^◌, ◌<◌, ◌≤◌, false, true, length, take, IfSome, IfOk, OnOk, OnErr};
ghost use Rattle.std.specs.Io.{ReadsAtMost};
ghost use Rattle.std.specs.Io.KnownBytes.{Keeps, Appends, Consumes, IsAtEnd};
ghost use Rattle.ports.specs.Cause.{CauseOf};
ghost use Rattle.ports.specs.Ports.{unread, unwritten, read_by, stopped_by, came, wrote, handed_by, sent};

use std::env::{Env, FillError};
use std::fmt::InlineText;
use std::io;
use std::io::{Eprint, ErrorKind, Read, Write};

// All that was read so far: its number of bytes, modulo 2^64; and how it ended.
#[derive(Clone, Copy)]
pub struct Input {
    descriptor: u32,
    bytes: u64,
    end: End,
}

// All that was handed over so far: its number of bytes, modulo 2^64; and whether a write failed.
#[derive(Clone, Copy)]
pub struct Output {
    descriptor: u32,
    bytes: u64,
    cut: bool,
}

// How an input ended: not yet, at its end, or by a read that failed.
#[derive(Clone, Copy, Debug, PartialEq, Eq)]
pub enum End {
    Open,
    Met,
    Broken,
}

// How many bytes stand at the start of the buffer, 0 at the end of the input; and whether the read failed.
#[derive(Clone, Copy)]
pub struct Came {
    pub input: Input,
    pub count: usize,
    pub failed: bool,
}

#[derive(Clone, Copy)]
pub struct Sent {
    pub output: Output,
    pub failed: bool,
}

pub fn no_input(descriptor: u32) -> Input
    ensures { result ≡ unread descriptor }
{
    Input {
        descriptor,
        bytes: 0,
        end: End::Open,
    }
}

pub fn no_output(descriptor: u32) -> Output
    ensures { result ≡ unwritten descriptor }
{
    Output {
        descriptor,
        bytes: 0,
        cut: false,
    }
}

// Reads once, and again where a signal interrupted it. A read that failed is told on standard error with its cause.
pub fn receive<R: Read>(rt: &impl Eprint, source: &mut R, input: Input, buf: &mut [u8]) -> Came
    ensures within { result.count ≤ length buf.new }
    ensures booked { result.input ≡ came result.failed result.count input (take result.count buf.new) }
    ensures bytes { Consumes (R.remaining source.old) (R.remaining source.new) (take result.count buf.new) }
    ensures none { result.failed ≡ true → result.count ≡ 0 }
    ensures end { result.failed ≡ false → result.count ≡ 0 → 0 < length buf.old → IsAtEnd (R.remaining source.new) }
{
    match read_on(source, buf) {
        Ok(0) => stopped(input, End::Met, false),
        Ok(n) => reached(input, n),
        Err(error) => {
            tell(rt, "a read failed", error);
            stopped(input, End::Broken, true)
        }
    }
}

fn stopped(input: Input, end: End, failed: bool) -> Came
    ensures { result ≡ record { input = stopped_by input end; count = 0; failed = failed } }
{
    Came {
        input: Input {
            descriptor: input.descriptor,
            bytes: input.bytes,
            end,
        },
        count: 0,
        failed,
    }
}

fn reached(input: Input, n: usize) -> Came
    ensures { result ≡ record { input = read_by input n; count = n; failed = false } }
{
    let next = counted(input.bytes, n);
    Came {
        input: Input {
            descriptor: input.descriptor,
            bytes: next,
            end: input.end,
        },
        count: n,
        failed: false,
    }
}

// Writes a text whole, or says that a write failed, and tells its cause on standard error.
pub fn send<W: Write>(rt: &impl Eprint, sink: &mut W, output: Output, text: &[u8]) -> Sent
    ensures booked { result.output ≡ sent result.failed (wrote output text.now) }
    ensures bytes { result.failed ≡ false → Appends (W.contents sink.old) (W.contents sink.new) text.now }
{
    match sink.write_all(text) {
        Ok(()) => handed(output, text.len(), output.cut, false),
        Err(error) => {
            tell(rt, "a write failed", error);
            handed(output, text.len(), true, true)
        }
    }
}

fn handed(output: Output, n: usize, cut: bool, failed: bool) -> Sent
    ensures { result ≡ record { output = handed_by output n cut; failed = failed } }
{
    let next = counted(output.bytes, n);
    Sent {
        output: Output {
            descriptor: output.descriptor,
            bytes: next,
            cut,
        },
        failed,
    }
}

fn counted(before: u64, n: usize) -> u64
    ensures { result ≡ (before + n) % 2 ^ 64 }
{
    before.wrapping_add(n as u64)
}

// Tells on standard error what failed, and its cause. Nothing more can be told where that fails.
fn tell(rt: &impl Eprint, what: &str, error: io::Error) {
    let text = InlineText::<256>::of(error);
    let cause = cause_of(text.as_str());
    let _ = rt.eprintln(format_args!("{what}: {cause}"));
}

// An error's text without the system's number of it.
pub fn cause_of(text: &str) -> &str
    ensures { CauseOf text.now result.now }
{
    match text.find(" (os error ") {
        Some(end) => &text[..end],
        None => text,
    }
}

// What the first read that no signal interrupted answers. The turns are counted, up to a number that no run uses up.
fn read_on<R: Read>(source: &mut R, buf: &mut [u8]) -> io::Result<usize>
    ensures bound { ReadsAtMost result buf.new }
    ensures ok { IfOk result (λ n. Consumes (R.remaining source.old) (R.remaining source.new) (take n buf.new)) }
    ensures end { IfOk result (λ n. n ≡ 0 → 0 < length buf.old → IsAtEnd (R.remaining source.new)) }
    ensures err { OnErr result (Keeps (R.remaining source.old) (R.remaining source.new)) }
{
    for _ in 0..u64::MAX {
        match source.read(buf) {
            Ok(n) => return Ok(n),
            Err(error) => {
                if error.kind() != ErrorKind::Interrupted {
                    return Err(error);
                }
            }
        }
    }
    Err(io::Error::from(ErrorKind::Interrupted))
}

// Reads until the buffer is full, the input ends or a read fails; how many bytes stand at its start.
pub fn read_full<R: Read>(source: &mut R, buf: &mut [u8]) -> usize
    ensures within { result ≤ length buf.new }
    ensures bytes { Consumes (R.remaining source.old) (R.remaining source.new) (take result buf.new) }
{
    let mut at = 0;
    while at < buf.len() {
        match source.read(&mut buf[at..]) {
            Ok(0) => break,
            Ok(n) => at += n,
            Err(_) => break,
        }
    }
    at
}

// The program's argument at a place, put at a buffer's start: how many bytes it has, 0 where they are more than the buffer's; none behind the last.
pub fn argument(rt: &impl Env, place: usize, buf: &mut [u8]) -> Option<usize>
    ensures { IfSome result (λ n. n ≤ length buf.new) }
{
    match rt.arg(place, buf) {
        Ok(n) => Some(n),
        Err(FillError::TooLong) => Some(0),
        Err(FillError::NotPresent) => None,
    }
}
