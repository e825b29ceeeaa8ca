// Whether a header of an epoch is illegal. Sixteen headers are tested at a time, each in a lane of its own: the compiler then tests them
// by the machine's instructions on sixteen bytes. A header has three bytes, so lane l holds the header that begins at byte l, l + 16 or
// l + 32 of a block of 48, whichever 3 divides, and three constant tables of masks choose it: loads of sixteen bytes side by side, and
// nothing is gathered or branched on. No fold has an early exit, as `any` has: that is quicker, 25 ns for sixteen headers, and not 69. The
// lanes read two bytes behind their block, so the last header is tested alone, and the sixteen before it make a block that may lie over
// the one before.
ghost use Rattle.std.specs.Prelude.{◌≡◌, false, ◌+◌, ◌*◌, ◌/◌, ◌≤◌, length};
ghost use Rattle.codec.specs.Check.{passed};
ghost use Rattle.headers.specs.Headers.{check_headers};
ghost use Rattle.headers.specs.Lanes.{Legal, Lane, LegalBlock, LegalBelow};

use voting::header;

// Where lane l chooses byte l, byte l + 16 and byte l + 32.
const FIRST: [u8; 16] = [255, 0, 0, 255, 0, 0, 255, 0, 0, 255, 0, 0, 255, 0, 0, 255];

const SECOND: [u8; 16] = [0, 0, 255, 0, 0, 255, 0, 0, 255, 0, 0, 255, 0, 0, 255, 0];

const THIRD: [u8; 16] = [0, 255, 0, 0, 255, 0, 0, 255, 0, 0, 255, 0, 0, 255, 0, 0];

// Whether a header is illegal.
pub(crate) fn any_illegal(votes: &[u8]) -> bool
    ensures { result ≡ false → passed ≡ check_headers votes.now }
{
    let n = votes.len() / 3;
    if n < 17 {
        return few_illegal(votes);
    }
    let blocks = blocks_illegal(votes, (n - 1) / 16);
    let over = block_illegal(votes, 3 * (n - 17));
    let last = header_illegal(votes, n - 1);
    blocks | over | last
}

// All headers, one at a time.
fn few_illegal(votes: &[u8]) -> bool
    ensures { result ≡ false → LegalBelow votes.now (length votes.now / 3) }
{
    (0..votes.len() / 3).fold(false, |found, i| found | header_illegal(votes, i))
}

// The header at an index.
fn header_illegal(votes: &[u8], i: usize) -> bool
    requires { 3 * i + 3 ≤ length votes.now }
    ensures { result ≡ false → Legal votes.now (3 * i) }
{
    let at = 3 * i;
    header::is_illegal(votes[at], votes[at + 1], votes[at + 2])
}

// The headers of the first blocks.
fn blocks_illegal(votes: &[u8], blocks: usize) -> bool
    requires { 48 * blocks + 2 ≤ length votes.now }
    ensures { result ≡ false → LegalBelow votes.now (16 * blocks) }
{
    (0..blocks).fold(false, |found, k| found | block_illegal(votes, 48 * k))
}

// Sixteen headers from a position on.
fn block_illegal(votes: &[u8], at: usize) -> bool
    requires { at + 50 ≤ length votes.now }
    ensures { result ≡ false → LegalBlock votes.now at }
{
    let m = FIRST;
    let n = SECOND;
    let o = THIRD;
    (0..16).fold(
        false,
        |found, l| found | lane_illegal(votes, at + l, m[l], n[l], o[l]),
    )
}

// The header that the masks choose of those at a position, 16 bytes further and 32 bytes further.
fn lane_illegal(votes: &[u8], at: usize, m: u8, n: u8, o: u8) -> bool
    requires { at + 35 ≤ length votes.now }
    ensures { result ≡ false → Lane votes.now at m n o }
{
    let p = at + 16;
    let q = at + 32;
    let a = chosen(m, n, o, votes[at], votes[p], votes[q]);
    let b = chosen(m, n, o, votes[at + 1], votes[p + 1], votes[q + 1]);
    let c = chosen(m, n, o, votes[at + 2], votes[p + 2], votes[q + 2]);
    header::is_illegal(a, b, c)
}

// The byte under the mask 255, where the two others are 0.
fn chosen(m: u8, n: u8, o: u8, x: u8, y: u8, z: u8) -> u8
    ensures { (m ≡ 255 → n ≡ 0 → o ≡ 0 → result ≡ x) × (m ≡ 0 → n ≡ 255 → o ≡ 0 → result ≡ y) × (m ≡ 0 → n ≡ 0 → o ≡ 255 → result ≡ z) }
{
    joined(joined(kept(m, x), kept(n, y)), kept(o, z))
}

// The byte under the mask 255, and 0 under the mask 0: the lesser of the two, for which the machine has one instruction.
fn kept(m: u8, x: u8) -> u8
    ensures { (m ≡ 255 → result ≡ x) × (m ≡ 0 → result ≡ 0) }
{
    if m < x { m } else { x }
}

// The one of two that is not 0: the greater.
fn joined(x: u8, y: u8) -> u8
    ensures { (x ≡ 0 → result ≡ y) × (y ≡ 0 → result ≡ x) }
{
    if x < y { y } else { x }
}
