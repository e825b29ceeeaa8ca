// Runs streams of records. For each name of its arguments it runs the loop of program `replay` on the file NAME.records, with several sizes of
// the bytes that are read and written at a time, and compares what was written with the file NAME.lines. It prints a line for each name, and
// how many of them differ. docs/VECTORS.md, "Streams".
#![tactic(auto)]

use std::fmt::InlineText;
use std::fs::File;
use std::io::{Eprint, Error, ErrorKind, Print, Write};
use std::os::fd::AsRawFd;
use std::{io, str};

// Under which number the bytes that are kept are counted.
const KEPT: u32 = 1;

// A name and its ending have at most so many bytes.
const NAME_MOST: usize = 4096;

// Lines have at most so many bytes.
const LINES_MOST: usize = 0x1_0000;

// What is written: its first bytes, one more than lines can have.
#[derive(Drop)]
struct Kept {
    bytes: [u8; 0x1_0001],
    len: usize,
}

impl Write for Kept {
    fn write(&mut self, buf: &[u8]) -> io::Result<usize> {
        for b in buf {
            self.keep(*b);
        }
        Ok(buf.len())
    }

    fn flush(&mut self) -> io::Result<()> {
        Ok(())
    }
}

impl Kept {
    fn keep(&mut self, b: u8) {
        let at = self.len;
        if at <= LINES_MOST {
            self.bytes[at] = b;
            self.len = at + 1;
        }
    }
}

fn kept_none() -> Kept {
    Kept {
        bytes: [0; 0x1_0001],
        len: 0,
    }
}

// The bytes up to a position; all where there are fewer.
fn part(s: &[u8], n: usize) -> &[u8] {
    if s.len() < n {
        return s;
    }
    &s[0..n]
}

// Opens the file of a name with an ending; an error, that was told, where it can't be opened.
fn open(rt: &HostRuntime, name: &str, ending: &str) -> io::Result<File> {
    let path = InlineText::<NAME_MOST>::of(format_args!("{name}{ending}"));
    open_path(rt, path.as_str())
}

// Tells on standard error what failed, and its cause.
fn tell(rt: &impl Eprint, what: &str, error: Error) {
    let text = InlineText::<256>::of(error);
    let cause = ports::cause_of(text.as_str());
    let _ = rt.eprintln(format_args!("{what}: {cause}"));
}

fn open_path(rt: &HostRuntime, path: &str) -> io::Result<File> {
    let opened = File::open(rt, path);
    if let Err(error) = &opened {
        tell(rt, path, *error);
    }
    opened
}

fn run(rt: &HostRuntime, from: io::Result<File>, piece: usize, room: usize, lines: &[u8]) -> bool {
    match from {
        Ok(mut file) => {
            let mut to = kept_none();
            let descriptor = file.as_raw_fd().cast_unsigned();
            replay_io::replay(rt, &mut file, &mut to, descriptor, KEPT, piece, room);
            part(&to.bytes, to.len) == lines
        }
        Err(_) => false,
    }
}

fn print_answer(rt: &impl Print, piece: usize, room: usize, same: bool) {
    let answer = if same { "same" } else { "differs" };
    let _ = rt.print(format_args!(" {piece}/{room} {answer}"));
}

// Whether what is written, with so many bytes read and written at a time, is what the lines say; prints it.
fn run_size(rt: &HostRuntime, name: &str, piece: usize, room: usize, lines: &[u8]) -> bool {
    let from = open(rt, name, ".records");
    let same = run(rt, from, piece, room, lines);
    print_answer(rt, piece, room, same);
    same
}

fn run_sizes(rt: &HostRuntime, name: &str, lines: &[u8]) -> bool {
    let a = run_size(rt, name, 1, 64, lines);
    let b = run_size(rt, name, 7, 47, lines);
    let c = run_size(rt, name, 1021, 65536, lines);
    let d = run_size(rt, name, 65536, 64, lines);
    a & b & c & d
}

fn run_lines(rt: &HostRuntime, name: &str, lines: &[u8; 0x1_0001], n: usize) -> bool {
    if LINES_MOST < n {
        let _ = rt.print(" too long");
        return false;
    }
    run_sizes(rt, name, part(lines, n))
}

fn run_pair(rt: &HostRuntime, name: &str) -> bool {
    match open(rt, name, ".lines") {
        Ok(mut file) => {
            let mut lines = [0u8; 0x1_0001];
            let n = ports::read_full(&mut file, &mut lines);
            run_lines(rt, name, &lines, n)
        }
        Err(_) => unopened(rt),
    }
}

fn unopened(rt: &impl Print) -> bool {
    let _ = rt.print(" not opened");
    false
}

// Runs the pair that a name names, and prints what came of it. A file's name is text in UTF-8.
fn run_name(rt: &HostRuntime, name: &[u8]) -> bool {
    let _ = rt.write_all(name);
    let _ = rt.print(":");
    let same = match str::from_utf8(name) {
        Ok(text) => run_pair(rt, text),
        Err(_) => {
            tell(rt, "a name", Error::from(ErrorKind::InvalidFilename));
            unopened(rt)
        }
    };
    let _ = rt.print("\n");
    same
}

fn print_counts(rt: &impl Print, pairs: u64, differ: u64) {
    let _ = rt.print(format_args!("{pairs} run, {differ} differ\n"));
}

fn one_if(b: bool) -> u64 {
    if b { 1 } else { 0 }
}

fn main(rt: HostRuntime) {
    let mut pairs: u64 = 0;
    let mut differ: u64 = 0;
    for place in 1..usize::MAX {
        let mut name = [0u8; NAME_MOST];
        match ports::argument(&rt, place, &mut name) {
            Some(n) => {
                let same = run_name(&rt, part(&name, n));
                pairs = pairs.wrapping_add(1);
                differ = differ.wrapping_add(one_if(!same));
            }
            None => break,
        }
    }
    print_counts(&rt, pairs, differ);
}
