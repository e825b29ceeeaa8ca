// The header check of an epoch's headers. docs/RULES.md, "Replay".
#![tactic(auto)]

ghost use Rattle.std.specs.Prelude.{◌≡◌, not, eqb, ltb};
ghost use Rattle.counting.specs.Count.{count};
ghost use Rattle.headers.specs.Headers.{check_headers};

use codec::refusal::Refusal;
use voting::header;

mod lanes;

// The header check of every header in order: 9, 10 or 11 of the first that is not legal. One or two bytes left over are no header.
pub fn check_headers(votes: &[u8]) -> Result<(), Refusal>
    ensures { result ≡ check_headers votes.now }
{
    if any_vote(votes) && lanes::any_illegal(votes) {
        return first_illegal(votes);
    }
    Ok(())
}

// Whether a byte is a vote: not all are 0.
fn any_vote(votes: &[u8]) -> bool
    ensures { result ≡ ltb 0 (count (λ x. not (eqb 0 x)) votes.now) }
{
    counting::times_in(votes, 0) < votes.len()
}

fn first_illegal(votes: &[u8]) -> Result<(), Refusal>
    ensures { result ≡ check_headers votes.now }
{
    for h in votes.chunks_exact(3) {
        header::check_header_votes([h[0], h[1], h[2]])?;
    }
    Ok(())
}
