// Prints the number of every legal header, a number a line, in rising order. docs/RULES.md, "Every legal header". Bytes are only moved here: library
// `legal` says what stands in a piece, and library `ports` what was handed over.
#![tactic(auto)]

ghost use Rattle.std.specs.Prelude.{◌≡◌, ◌≤◌, false, length};
ghost use Rattle.std.specs.Io.KnownBytes.{Appends};
ghost use Rattle.legal.specs.Listing.{line_most, listing};
ghost use Rattle.legal_votes.specs.Prints.{Prints};

use legal::listing;
use ports::Sent;
use std::env::Env;
use std::io::{Eprint, Write};

const STANDARD_OUTPUT: u32 = 1;

// No write is of more bytes.
const MOST: usize = 0x1_0000;

// Three lines.
fn tell(rt: &impl Eprint) {
    let _ = rt.eprint(
        "legal_votes: prints every header that the header check accepts, as a number\nof 24 bits, the first vote byte highest: one decimal number a line, in rising\norder. It takes no words.\n",
    );
}

// Piece after piece, until the end or a write that failed.
fn print_all<W: Write>(rt: &impl Eprint, sink: &mut W, to: u32, out: &mut [u8]) -> Sent
    requires { line_most ≤ length out.old }
    ensures prints { Prints to result }
    ensures printed { result.failed ≡ false → Appends (W.contents sink.old) (W.contents sink.new) listing }
{
    let mut at = listing::begin();
    let mut handed = ports::no_output(to);
    loop {
        let filled = listing::fill(at, out).unwrap();
        let n = filled.wrote;
        let sent = ports::send(rt, sink, handed, &out[0..n]);
        handed = sent.output;
        if sent.failed {
            return Sent {
                output: handed,
                failed: true,
            };
        }
        let next = filled.next;
        match next {
            None => {
                return Sent {
                    output: handed,
                    failed: false,
                };
            }
            Some(v) => {
                at = Some(v);
            }
        }
    }
}

fn print_in<W: Write>(rt: &impl Eprint, sink: &mut W, out: &mut [u8; MOST]) -> Sent
    ensures prints { Prints 1 result }
    ensures printed { result.failed ≡ false → Appends (W.contents sink.old) (W.contents sink.new) listing }
{
    print_all(rt, sink, STANDARD_OUTPUT, out)
}

// Whether there is a word, of any length, at a place behind the program's name.
fn has_word(rt: &impl Env, place: usize) -> bool {
    let mut start = [0u8; 1];
    ports::argument(rt, place, &mut start).is_some()
}

fn main(rt: HostRuntime) {
    if has_word(&rt, 1) {
        tell(&rt);
        return;
    }
    let mut out = [0u8; MOST];
    print_in(&rt, &mut rt.stdout(), &mut out);
}
