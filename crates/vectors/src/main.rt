// Runs recorded answers: the rows of the files that its arguments name. It prints each file's name, the lines whose rows differ, and how many
// rows were run and differ. docs/VECTORS.md has the form of a row.
#![tactic(auto)]

mod calls;
mod lists;
mod row;
mod run;
mod text;

use std::fmt::InlineText;
use std::fs::File;
use std::io::{Eprint, Error, ErrorKind, Print};
use std::str;

// A file has at most so many bytes.
const FILE_MOST: usize = 0x20_0000;

// So many are read of it, so that one that is too long shows.
const LINES_MOST: usize = FILE_MOST + 1;

// The bytes of a row's groups, one after another, are at most so many.
const BYTES_MOST: usize = 0x8_0000;

// A file's name has at most so many bytes.
const NAME_MOST: usize = 4096;

// The lines so far, the rows among them, and how many of those differ.
#[derive(Clone, Copy, Default)]
struct Counts {
    pub lines: u64,
    pub rows: u64,
    pub differ: u64,
}

impl Counts {
    fn line(mut self) -> Counts {
        self.lines = self.lines.saturating_add(1);
        self
    }

    fn row(mut self, rt: &impl Print, agrees: bool) -> Counts {
        self.rows = self.rows.saturating_add(1);
        if agrees {
            return self;
        }
        self.differ = self.differ.saturating_add(1);
        let line = self.lines;
        let _ = rt.print(format_args!("line {line} differs\n"));
        self
    }
}

// A line that is empty or begins with # is no row.
fn run_line(rt: &impl Print, line: &[u8], cells: &mut [u8; BYTES_MOST], counts: Counts) -> Counts {
    let c = counts.line();
    match line {
        [] | [b'#', ..] => c,
        _ => c.row(rt, agrees(line, cells)),
    }
}

// A line that is no text is out of form.
fn agrees(line: &[u8], cells: &mut [u8; BYTES_MOST]) -> bool {
    match str::from_utf8(line) {
        Ok(text) => match row::read(text, cells) {
            Some(row) => run::agrees(&row),
            None => false,
        },
        Err(_) => false,
    }
}

fn run_lines(rt: &impl Print, lines: &[u8], cells: &mut [u8; BYTES_MOST]) -> Counts {
    let mut counts = Counts::default();
    for line in lines.split(|b| *b == b'\n') {
        counts = run_line(rt, line, cells, counts);
    }
    counts
}

fn print_counts(rt: &impl Print, counts: Counts) {
    let rows = counts.rows;
    let differ = counts.differ;
    let _ = rt.print(format_args!("{rows} run, {differ} differ\n"));
}

fn run_text(rt: &impl Print, lines: &[u8]) {
    if FILE_MOST < lines.len() {
        let _ = rt.print("too long\n");
        return;
    }
    let mut cells = [0u8; BYTES_MOST];
    let counts = run_lines(rt, lines, &mut cells);
    print_counts(rt, counts);
}

// Runs the file that an argument names, and prints what came of it. A file's name is text in UTF-8.
fn run_file(rt: &HostRuntime, name: &[u8]) {
    let _ = rt.write_all(name);
    let _ = rt.print("\n");
    match str::from_utf8(name) {
        Ok(path) => run_path(rt, path),
        Err(_) => tell_unopened(rt, "a name", Error::from(ErrorKind::InvalidFilename)),
    }
}

fn run_path(rt: &HostRuntime, path: &str) {
    match File::open(rt, path) {
        Ok(mut file) => run_open(rt, &mut file),
        Err(error) => tell_unopened(rt, path, error),
    }
}

// Tells on standard error what failed, and its cause.
fn tell(rt: &impl Eprint, what: &str, error: Error) {
    let text = InlineText::<256>::of(error);
    let cause = ports::cause_of(text.as_str());
    let _ = rt.eprintln(format_args!("{what}: {cause}"));
}

fn tell_unopened(rt: &HostRuntime, path: &str, error: Error) {
    tell(rt, path, error);
    let _ = rt.print("not opened\n");
}

fn run_open(rt: &HostRuntime, file: &mut File) {
    let mut lines = [0u8; LINES_MOST];
    run_read(rt, file, &mut lines);
}

// Apart from where the array is made: a proof of the cut there opens all of it.
fn run_read(rt: &HostRuntime, file: &mut File, lines: &mut [u8; LINES_MOST]) {
    let n = ports::read_full(file, lines);
    run_text(rt, &lines[..n]);
}

fn main(rt: HostRuntime) {
    for place in 1..usize::MAX {
        let mut name = [0u8; NAME_MOST];
        match ports::argument(&rt, place, &mut name) {
            Some(n) => run_file(&rt, &name[..n]),
            None => break,
        }
    }
}
