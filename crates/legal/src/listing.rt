// Every legal number in print, a number a line, in pieces. docs/RULES.md, "Every legal header".
ghost use Rattle.std.specs.Prelude.{IfOk, ◌≡◌, ◌+◌, ◌<◌, ◌≤◌, length};
ghost use Rattle.codec.specs.Output.{written};
ghost use Rattle.codec.specs.Put.{Put};
ghost use Rattle.legal.specs.Legal.{total, votes};
ghost use Rattle.legal.specs.Search.{position_of, votes_at};
ghost use Rattle.legal.specs.Listing.{line_of, line_most, text_of, fill_of, Pieces, GoesOn};

use crate::next;
use crate::next::Votes;
use codec::refusal::Refusal;
use codec::{decimal, output};

// No line has more bytes.
pub const LINE_MOST: usize = 9;

const NEWLINE: u8 = 10;

// The position after the lines, and how many bytes of text stand at the start of the buffer.
#[derive(Clone, Copy)]
pub struct Filled {
    pub next: Option<Votes>,
    pub wrote: usize,
}

// Where the listing begins.
pub fn begin() -> Option<Votes>
    ensures value { result ≡ Some (votes 0 0 0) }
    ensures pieces { Pieces result }
{
    Some(Votes(0, 0, 0))
}

// Fills a buffer with the lines of the legal numbers from a position on, as long as the longest line has room; or 21.
pub fn fill(at: Option<Votes>, out: &mut [u8]) -> Result<Filled, Refusal>
    ensures value { result ≡ fill_of at (length out.old) }
    ensures lines { out.new ≡ written (text_of at (length out.old)) out.old }
    ensures inside { IfOk result (λ filled. filled.wrote ≤ length out.old) }
    ensures goes_on { GoesOn at (length out.old) }
{
    if out.len() < LINE_MOST {
        return Err(Refusal::OutputShort);
    }
    let mut n = next::first_from(position_of(at));
    let mut wrote: usize = 0;
    while n < next::TOTAL {
        if out.len() - wrote < LINE_MOST {
            return Ok(stopped(n, wrote));
        }
        wrote = put_line(out, wrote, n);
        n = next::first_from(n + 1);
    }
    Ok(stopped(n, wrote))
}

// The lines so far, and what is next.
fn stopped(n: u32, wrote: usize) -> Filled
    ensures { result ≡ record { next = votes_at n; wrote = wrote } }
{
    Filled {
        next: next::votes_of(n),
        wrote,
    }
}

// The number of a position; 2^24 at the end.
fn position_of(at: Option<Votes>) -> u32
    ensures { result ≡ position_of at }
{
    match at {
        Some(v) => next::number_of(v.0, v.1, v.2),
        None => next::TOTAL,
    }
}

// Puts the line of a number behind what stands in the buffer.
fn put_line(out: &mut [u8], at: usize, n: u32) -> usize
    requires { (at + line_most ≤ length out.old) × (n < total) }
    ensures { Put (line_of n) line_most at result out.old out.new }
{
    let k = decimal::put_digits(out, at, n);
    output::put(out, at + k, NEWLINE);
    at + k + 1
}
