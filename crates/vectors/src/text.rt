// Text of a row: its groups of bytes. docs/VECTORS.md has their form.
ghost use Rattle.std.specs.Prelude.{◌<◌, IfSome};

use std::num::NonZeroUsize;

// The value of a hexadecimal digit. A capital is none, so that std's reading by a radix doesn't fit here.
fn digit_of(digit: u8) -> Option<u8>
    ensures { IfSome result (λ value. value < 16) }
{
    match digit {
        b'0'..=b'9' => Some(digit - b'0'),
        b'a'..=b'f' => Some(digit - b'a' + 10),
        _ => None,
    }
}

// The byte of two digits.
fn byte_of(digits: &[u8]) -> Option<u8> {
    match digits {
        [high, low] => Some(digit_of(*high)? * 16 + digit_of(*low)?),
        _ => None,
    }
}

// Two hexadecimal digits a byte, put at a position; the position after them.
fn put_hex(s: &str, bytes: &mut [u8], at: usize) -> Option<usize> {
    if s.is_empty() {
        return None;
    }
    let mut to = at;
    for digits in s.as_bytes().chunks(2) {
        *bytes.get_mut(to)? = byte_of(digits)?;
        to += 1;
    }
    Some(to)
}

// A piece of a group: bytes, and how often they stand there where it is more than once.
fn put_piece(s: &str, bytes: &mut [u8], at: usize) -> Option<usize> {
    match s.split_once('*') {
        Some((hex, times)) => put_times(hex, times.parse::<NonZeroUsize>().ok()?.get(), bytes, at),
        None => put_hex(s, bytes, at),
    }
}

// The same so many times.
fn put_times(hex: &str, times: usize, bytes: &mut [u8], at: usize) -> Option<usize> {
    let mut to = at;
    for _ in 0..times {
        to = put_hex(hex, bytes, to)?;
    }
    Some(to)
}

// A group: a dash for no bytes, or pieces with + between them; put at the start of free cells. Its bytes, and the cells that are left.
pub(crate) fn put_group<'a>(s: &str, free: &'a mut [u8]) -> Option<(&'a [u8], &'a mut [u8])> {
    let mut end = 0;
    if s != "-" {
        for piece in s.split('+') {
            end = put_piece(piece, free, end)?;
        }
    }
    let (bytes, left) = free.split_at_mut_checked(end)?;
    Some((bytes, left))
}
