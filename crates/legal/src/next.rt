// The first legal header above another. docs/RULES.md, "Every legal header".
ghost use Rattle.std.specs.Prelude.{◌≡◌, ◌<◌};
ghost use Rattle.legal.specs.Legal.{number, legal, total, next_legal_votes, Next, ListsAll};
ghost use Rattle.legal.specs.Search.{step_of, first_from, votes_at};

use voting::header;

// Numbers of 24 bits are below.
pub(crate) const TOTAL: u32 = 0x100_0000;

// The three vote bytes of a header.
#[derive(Clone, Copy, Debug, PartialEq, Eq)]
pub struct Votes(pub u8, pub u8, pub u8);

// The first legal header above three bytes, if there is one.
pub fn next_legal_votes(a: u8, b: u8, c: u8) -> Option<Votes>
    ensures value { result ≡ next_legal_votes a b c }
    ensures next { Next (number a b c) result }
    ensures lists { ListsAll }
{
    votes_of(first_from(number_of(a, b, c) + 1))
}

pub(crate) fn number_of(a: u8, b: u8, c: u8) -> u32
    ensures { (result ≡ number a b c) × (result < total) }
{
    (a as u32) * 0x1_0000 + (b as u32) * 256 + c as u32
}

// A number below 2^24 as three bytes; none for any other.
pub(crate) fn votes_of(n: u32) -> Option<Votes>
    ensures { result ≡ votes_at n }
{
    if TOTAL <= n {
        return None;
    }
    Some(Votes((n / 0x1_0000) as u8, (n / 256 % 256) as u8, (n % 256) as u8))
}

// The first legal number from one on; 2^24 where there is none.
pub(crate) fn first_from(n: u32) -> u32
    ensures { result ≡ first_from n }
{
    let mut m = n;
    while m < TOTAL {
        if is_legal(m) {
            return m;
        }
        m += step(m);
    }
    TOTAL
}

fn is_legal(n: u32) -> bool
    requires { n < total }
    ensures { result ≡ legal n }
{
    !header::is_illegal((n / 0x1_0000) as u8, (n / 256 % 256) as u8, (n % 256) as u8)
}

// How many numbers from one on begin with the same bytes, the zeros at its end left out. If it is not legal, none of them is: a legal header stays
// legal when its last votes are taken away.
fn step(n: u32) -> u32
    ensures { result ≡ step_of n }
{
    if n % 0x1_0000 == 0 {
        return 0x1_0000;
    }
    if n % 256 == 0 {
        return 256;
    }
    1
}
