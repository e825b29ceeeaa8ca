// Replays records on mainnet, from standard input or from a file, and prints a line for each epoch. docs/RULES.md, "Replay". Bytes are moved by
// library `replay_io`.
#![tactic(auto)]

use std::env::Env;
use std::fmt::InlineText;
use std::fs::File;
use std::io::{Eprint, ErrorKind, Print, Read};
use std::os::fd::AsRawFd;
use std::{io, str};

const STANDARD_INPUT: u32 = 0;

const STANDARD_OUTPUT: u32 = 1;

// A word that is longer names no file.
const WORD_MOST: usize = 4096;

// Six lines.
const USAGE: &str =
    "replay: replays records of epochs on mainnet, from height 1024 on\n  replay          reads them from standard input\n  replay FILE     reads them from a file\n  replay --help   prints this text\nFor each accepted epoch it prints the height, and entries 123, 122 and 121.\nThe last line is `end N R`: N epochs were accepted; R is 0, or a refusal's number.\n";

fn tell(rt: &impl Eprint) {
    let _ = rt.eprint(USAGE);
}

fn run<R: Read>(rt: &HostRuntime, source: &mut R, descriptor: u32) {
    replay_io::replay(
        rt,
        source,
        &mut rt.stdout(),
        descriptor,
        STANDARD_OUTPUT,
        replay_io::MOST,
        replay_io::MOST,
    );
}

fn tell_unopened(rt: &impl Eprint, path: &str, error: io::Error) {
    let text = InlineText::<256>::of(error);
    let cause = ports::cause_of(text.as_str());
    let _ = rt.eprintln(format_args!("replay: {path}: {cause}"));
}

fn run_file(rt: &HostRuntime, path: &str) {
    match File::open(rt, path) {
        Ok(mut file) => {
            let descriptor = file.as_raw_fd().cast_unsigned();
            run(rt, &mut file, descriptor);
        }
        Err(error) => tell_unopened(rt, path, error),
    }
}

// A word: a file, `--help`, or another word that begins with `-`.
fn run_word(rt: &HostRuntime, word: &str) {
    if word == "--help" {
        let _ = rt.print(USAGE);
        return;
    }
    if word.is_empty() || word.starts_with('-') {
        tell(rt);
        return;
    }
    run_file(rt, word);
}

// Whether there is a word, of any length, at a place behind the program's name.
fn has_word(rt: &impl Env, place: usize) -> bool {
    let mut start = [0u8; 1];
    ports::argument(rt, place, &mut start).is_some()
}

// The word at a place; none where it is too long. A file's name is text in UTF-8.
fn run_place(rt: &HostRuntime, place: usize) {
    let mut word = [0u8; WORD_MOST];
    let n = ports::argument(rt, place, &mut word).unwrap_or(0);
    match str::from_utf8(&word[..n]) {
        Ok(text) => run_word(rt, text),
        Err(_) => tell_unopened(rt, "a name", io::Error::from(ErrorKind::InvalidFilename)),
    }
}

fn main(rt: HostRuntime) {
    if !has_word(&rt, 1) {
        run(&rt, &mut rt.stdin(), STANDARD_INPUT);
        return;
    }
    if has_word(&rt, 2) {
        tell(&rt);
        return;
    }
    run_place(&rt, 1);
}
