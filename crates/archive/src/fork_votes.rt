// The fork check of an epoch's headers, one after another. docs/RULES.md, "Replay".
ghost use Rattle.std.specs.Prelude.{◌≡◌, ◌+◌, ◌/◌, ◌≤◌, eqb, ltb, length};
ghost use Rattle.counting.specs.Count.{count};
ghost use Rattle.voting.specs.Header.{soft_fork_vote};
ghost use Rattle.archive.specs.ForkVotes.{check_fork_votes};

use codec::refusal::Refusal;
use voting::settings::VotingConfig;
use voting::table::Table;
use voting::{fork, header};

// The fork check of every header in order, the first at this height: 12, 18 or 19 of the first that is not allowed.
pub(crate) fn check_fork_votes(
    config: VotingConfig,
    table: Table,
    height: u32,
    votes: &[u8],
) -> Result<(), Refusal>
    requires { height + length votes.now / 3 ≤ 4294967295 }
    ensures { result ≡ check_fork_votes config table height votes.now }
{
    let n = votes.len() / 3;
    if fork::votes_open(config, height + n as u32, table) {
        return Ok(());
    }
    if config.settings_large() || any_fork_vote(votes) {
        return first_barred(config, table, height, votes);
    }
    Ok(())
}

// Whether a byte is the vote for the fork.
fn any_fork_vote(votes: &[u8]) -> bool
    ensures { result ≡ ltb 0 (count (eqb soft_fork_vote) votes.now) }
{
    0 < counting::times_in(votes, header::SOFT_FORK_VOTE)
}

fn first_barred(
    config: VotingConfig,
    table: Table,
    height: u32,
    votes: &[u8],
) -> Result<(), Refusal>
    requires { height + length votes.now / 3 ≤ 4294967295 }
    ensures { result ≡ check_fork_votes config table height votes.now }
{
    let mut h = height;
    for v in votes.chunks_exact(3) {
        fork::check_fork_vote(config, h, [v[0], v[1], v[2]], table)?;
        h += 1;
    }
    Ok(())
}
