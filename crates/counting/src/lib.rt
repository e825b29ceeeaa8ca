// How often a byte stands among bytes. They are counted in blocks of 192: a block's count fits a byte, so the compiler counts sixteen
// bytes at a time, where a wider sum, as that of `count()`, would take the bytes apart: 5,000 ns for 3,072 bytes, and not 80. 192 divides
// the 3,072 vote bytes of a mainnet epoch, which leaves no rest.
#![tactic(auto)]

ghost use Rattle.std.specs.Prelude.{◌≡◌, ◌+◌, ◌≤◌, eqb, length, drop};
ghost use Rattle.counting.specs.Count.{count};

const BLOCK: usize = 192;

// How often a byte stands among bytes.
pub fn times_in(bytes: &[u8], b: u8) -> usize
    ensures { result ≡ count (eqb b) bytes.now }
{
    let blocks = bytes.len() / BLOCK;
    let mut n: usize = 0;
    for k in 0..blocks {
        n += wide(times_in_block(bytes, BLOCK * k, b));
    }
    n + wide(times_after(bytes, BLOCK * blocks, b))
}

// In the block at a position.
fn times_in_block(bytes: &[u8], at: usize, b: u8) -> u8
    requires { at + 192 ≤ length bytes.now }
    ensures { (result ≤ 192) × (result + count (eqb b) (drop (at + 192) bytes.now) ≡ count (eqb b) (drop at bytes.now)) }
{
    times_in_few(&bytes[at..at + BLOCK], b)
}

// From a position on, where at most a block is left.
fn times_after(bytes: &[u8], at: usize, b: u8) -> u8
    requires { (at ≤ length bytes.now) × (length bytes.now ≤ at + 192) }
    ensures { result ≡ count (eqb b) (drop at bytes.now) }
{
    times_in_few(&bytes[at..], b)
}

// Among at most as many bytes as a block has.
fn times_in_few(bytes: &[u8], b: u8) -> u8
    requires { length bytes.now ≤ 192 }
    ensures { result ≡ count (eqb b) bytes.now }
{
    bytes.iter().map(|x| u8::from(b == *x)).sum()
}

fn wide(n: u8) -> usize
    ensures { result ≡ n }
{
    n as usize
}
