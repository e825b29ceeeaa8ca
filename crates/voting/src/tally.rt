// The tally of an epoch. docs/RULES.md, "Tally".
ghost use Rattle.std.specs.Prelude.{◌≡◌, ◌≤◌, length};
ghost use Rattle.voting.specs.Tally.{no_tally, slot_entry, seeded, tally_votes_seeded};

use codec::refusal::Refusal;
use codec::signed;

#[repr(C)]
#[derive(Clone, Copy)]
pub struct Entry {
    pub id: i8,
    pub count: u32,
}

// One place for each slot of the first header; id 0 is no entry.
#[derive(Clone, Copy)]
pub struct Tally {
    pub first: Entry,
    pub second: Entry,
    pub third: Entry,
}

// The tally without entries.
pub fn no_tally() -> Tally
    ensures { result ≡ no_tally }
{
    Tally {
        first: Entry { id: 0, count: 0 },
        second: Entry { id: 0, count: 0 },
        third: Entry { id: 0, count: 0 },
    }
}

fn slot_entry(later: &[u8], b: u8) -> Entry
    requires { length later.now ≤ 196608 }
    ensures { result ≡ slot_entry later.now b }
{
    if b == 0 {
        return Entry { id: 0, count: 0 };
    }
    let n = counting::times_in(later, b) as u32;
    let id = signed::i8_of(b);
    Entry { id, count: n + 1 }
}

fn epoch_tally(votes: &[u8]) -> Tally
    requires { length votes.now ≤ 196608 }
    ensures { result ≡ seeded votes.now }
{
    if votes.len() < 3 {
        return no_tally();
    }
    let first = slot_entry(&votes[3..], votes[0]);
    let second = slot_entry(&votes[3..], votes[1]);
    let third = slot_entry(&votes[3..], votes[2]);
    Tally {
        first,
        second,
        third,
    }
}

// The tally of a window of headers, three vote bytes each; or 22.
pub fn tally_votes_seeded(
    first_height: u32,
    votes: &[u8],
    boundary_height: u32,
    voting_length: u32,
) -> Result<Tally, Refusal>
    ensures { result ≡ tally_votes_seeded first_height votes.now boundary_height voting_length }
{
    let n = votes.len() / 3;
    if 65536 < n {
        return Err(Refusal::InputLong);
    }
    if (first_height as u64) + (voting_length as u64) != boundary_height as u64 {
        return Ok(no_tally());
    }
    Ok(epoch_tally(&votes[..3 * n]))
}
