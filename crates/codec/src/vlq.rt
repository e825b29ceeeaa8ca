// Numbers of variable length (VLQ): seven bits a byte, low first, the high bit continues. docs/RULES.md, "Settings update".
ghost use Rattle.std.specs.Prelude.{◌≡◌, length, drop};
ghost use Rattle.std.proofs.lemmas.List.Edits.{sets};
ghost use Rattle.codec.specs.Output.{outcome, writes};
ghost use Rattle.codec.specs.Vlq.{number_of, low64, below, placed, vlq_at, vlq_bytes, Shortest};

use crate::refusal::Refusal;

// A number that was read, and the position after its bytes.
#[derive(Clone, Copy)]
pub struct Number {
    pub value: u64,
    pub next: usize,
}

// The number of 16 bits at a position.
pub fn read_u16(s: &[u8], at: usize) -> Option<Number>
    ensures { result ≡ vlq_at 16 s.now at }
{
    read_below(s, at, 0x1_0000)
}

// The number of 32 bits at a position.
pub fn read_u32(s: &[u8], at: usize) -> Option<Number>
    ensures { result ≡ vlq_at 32 s.now at }
{
    read_below(s, at, 0x1_0000_0000)
}

// The number at a position, if it is below limit.
fn read_below(s: &[u8], at: usize, limit: u64) -> Option<Number>
    ensures { result ≡ placed at (below limit (low64 (number_of 10 (drop at s.now)))) }
{
    let n = read_from(s, at, 10)?;
    if n.value < limit { Some(n) } else { None }
}

// The number at a position, of at most left bytes.
fn read_from(s: &[u8], at: usize, left: usize) -> Option<Number>
    ensures { result ≡ placed at (low64 (number_of left (drop at s.now))) }
{
    if left == 0 {
        return None;
    }
    if s.len() <= at {
        return None;
    }
    let b = s[at] as u64;
    if b < 128 {
        return Some(Number {
            value: b,
            next: at + 1,
        });
    }
    let n = read_from(s, at + 1, left - 1)?;
    Some(Number {
        value: (n.value % 0x200_0000_0000_0000) * 128 + b % 128,
        next: n.next,
    })
}

// How many bytes the shortest form of x takes.
pub fn size(x: u64) -> usize
    ensures { result ≡ length (vlq_bytes x) }
{
    let mut v = x;
    for n in 1..10 {
        if v < 128 {
            return n;
        }
        v = v / 128;
    }
    10
}

// Writes the shortest form of x from the buffer's start.
pub fn write(x: u64, out: &mut [u8]) -> Result<usize, Refusal>
    ensures out_after { outcome result out.new ≡ writes (vlq_bytes x) out.old }
    ensures shortest { Shortest x }
{
    let n = size(x);
    if out.len() < n {
        return Err(Refusal::OutputShort);
    }
    put(out, 0, x);
    Ok(n)
}

// For the layers above: stores the shortest form of x from a position on, as far as the buffer reaches.
pub fn put(out: &mut [u8], at: usize, x: u64)
    ensures { out.new ≡ sets out.old at (vlq_bytes x) }
{
    let mut v = x;
    for i in at..out.len() {
        if v < 128 {
            out[i] = v as u8;
            return;
        }
        out[i] = (128 + v % 128) as u8;
        v = v / 128;
    }
}
