// Header votes: three bytes, each a signed id, 0 for no vote. docs/RULES.md, "Header bytes".
ghost use Rattle.std.specs.Prelude.{◌≡◌, is_err, ◌+◌, ◌%◌, not, ◌&&◌, ◌||◌, [], ◌∷◌, if◌then◌else◌, ◌==◌, nat_eq};
ghost use Rattle.counting.specs.Count.{count};
ghost use Rattle.codec.specs.Check.{passed};
ghost use Rattle.voting.specs.Header.{soft_fork_vote, votes_in, negation, fault, check_header_votes, votes_for};
ghost use Rattle.codec.specs.Signed.{bits_of, signed_of};

use codec::refusal::Refusal;
use codec::signed;

// The vote for the fork, as a byte and as an id.
pub const SOFT_FORK_VOTE: u8 = 120;

pub const SOFT_FORK_ID: i8 = SOFT_FORK_VOTE as i8;

// The byte of -128, which is its own negation.
const OWN_NEGATION: u8 = 128;

// How many ordinary votes a header may have.
pub const PARAM_VOTES_COUNT: u8 = 2;

// How often v stands among three bytes.
fn times(v: u8, a: u8, b: u8, c: u8) -> u8
    ensures { result ≡ count (nat_eq v) (a ∷ b ∷ c ∷ []) }
{
    u8::from(v == a) + u8::from(v == b) + u8::from(v == c)
}

// Whether a byte is an ordinary vote.
fn is_ordinary(x: u8) -> bool
    ensures { result ≡ (not (x == 0) && not (x == soft_fork_vote)) }
{
    (x != 0) & (x != SOFT_FORK_VOTE)
}

// How many of three bytes are ordinary votes.
fn ordinary(a: u8, b: u8, c: u8) -> u8
    ensures { result ≡ count (λ x. not (x == 0) && not (x == soft_fork_vote)) (a ∷ b ∷ c ∷ []) }
{
    u8::from(is_ordinary(a)) + u8::from(is_ordinary(b)) + u8::from(is_ordinary(c))
}

// The byte of the negation, which wraps.
fn negated(v: u8) -> u8
    ensures { result ≡ bits_of 8 (negation (signed_of 8 v)) }
{
    signed::bits_i8(signed::wrapping_neg_i8(signed::i8_of(v)))
}

// What is wrong with the vote v among three bytes; nothing where it is none.
fn check_vote(v: u8, a: u8, b: u8, c: u8) -> Result<(), Refusal>
    ensures { result ≡ (if nat_eq v 0 then passed else fault (votes_in (a ∷ b ∷ c ∷ [])) (signed_of 8 v)) }
{
    if v == 0 {
        return Ok(());
    }
    if 1 < times(v, a, b, c) {
        return Err(Refusal::RepeatedVote);
    }
    if 0 < times(negated(v), a, b, c) {
        return Err(Refusal::ContradictoryVote);
    }
    Ok(())
}

// Whether two bytes are the same, or one is the negation of the other.
fn clashes(x: u8, y: u8) -> bool
    ensures { result ≡ (x == y || (x + y) % 256 == 0) }
{
    (x == y) | (std::num::wrapping_add_u8(x, y) == 0)
}

// For the layers above: whether a header's votes are turned down, by a test without branches. Two votes clash, or one is its own negation,
// or all three are ordinary.
pub fn is_illegal(a: u8, b: u8, c: u8) -> bool
    ensures { result ≡ is_err (check_header_votes (a ∷ b ∷ c ∷ [])) }
{
    ((a != 0) & (clashes(a, b) | clashes(a, c)))
        | ((b != 0) & clashes(b, c))
        | (a == OWN_NEGATION)
        | (b == OWN_NEGATION)
        | (c == OWN_NEGATION)
        | (is_ordinary(a) & is_ordinary(b) & is_ordinary(c))
}

fn check_votes(a: u8, b: u8, c: u8) -> Result<(), Refusal>
    ensures { result ≡ check_header_votes (a ∷ b ∷ c ∷ []) }
{
    if PARAM_VOTES_COUNT < ordinary(a, b, c) {
        return Err(Refusal::TooManyVotes);
    }
    check_vote(a, a, b, c)?;
    check_vote(b, a, b, c)?;
    check_vote(c, a, b, c)
}

// Whether a header's votes are legal: 9, 10 or 11 where they are not.
pub fn check_header_votes(votes: [u8; 3]) -> Result<(), Refusal>
    ensures { result ≡ check_header_votes votes }
{
    check_votes(votes[0], votes[1], votes[2])
}

// Whether one of a header's bytes is the vote.
pub fn votes_for(vote: u8, votes: [u8; 3]) -> bool
    ensures { result ≡ votes_for vote votes }
{
    0 < times(vote, votes[0], votes[1], votes[2])
}
