// The replay of a record. docs/RULES.md, "Replay".
ghost use Rattle.std.specs.Prelude.{◌≡◌, ◌+◌, ◌*◌, ◌/◌, ◌≤◌, length, take, drop, OnErr};
ghost use Rattle.voting.specs.Settings.{voting_length, mainnet};
ghost use Rattle.voting.specs.Tally.{no_tally};
ghost use Rattle.rounds.specs.Epochs.{boundary_votes};
ghost use Rattle.archive.specs.declared.replay.Rejection.TheVariants.{Refused, Mismatch};
ghost use Rattle.archive.specs.ForkVotes.{check_fork_votes};
ghost use Rattle.archive.specs.Replay.{check_height, check_early, on_parts, onward, after_match, replay_of, state_by, Exhausted, LeastOfRecord, rejection_number, rejection_id, may_open, open_of, opened, Closed};
ghost use Rattle.archive.specs.Rounds.{RoundsKept};
ghost use Rattle.archive.specs.Steps.{StepsKept};
ghost use Rattle.archive.specs.Mainnet.{MainnetSteps};

use crate::{fork_votes, record};
use codec::refusal::Refusal;
use extension::{boundary, parameters};
use voting::settings::{MAINNET_VOTING_LENGTH, VotingConfig};
use voting::table::Table;
use voting::tally::Tally;
use voting::{fork, header, tally};

// No epoch reaches this height.
const HEIGHT_LIMIT: u32 = 0x8000_0000;

// Settings, table, the height that is expected next, and the tally of the epoch before.
#[derive(Clone, Copy)]
pub struct Replay {
    pub settings: VotingConfig,
    pub table: Table,
    pub next: u32,
    pub tally: Tally,
}

// Why a record is turned down: by a refusal, or by 15 with the least id that differs.
#[derive(Clone, Copy, Debug, PartialEq, Eq)]
pub enum Rejection {
    Refused(Refusal),
    Mismatch(u8),
}

impl From<Refusal> for Rejection {
    ghost from_gives = { λ refusal rejection. rejection ≡ Refused refusal };

    fn from(refusal: Refusal) -> Rejection {
        Rejection::Refused(refusal)
    }
}

impl From<parameters::Mismatch> for Rejection {
    ghost from_gives = { λ mismatch rejection. rejection ≡ Mismatch mismatch.id };

    fn from(mismatch: parameters::Mismatch) -> Rejection {
        Rejection::Mismatch(mismatch.id)
    }
}

// Opens a replay on mainnet at a height, with a table and an empty tally; or 26.
pub fn open(height: u32, table: Table) -> Result<Replay, Refusal>
    ensures value { result ≡ open_of height table }
    ensures rounds { RoundsKept table result }
    ensures steps { StepsKept table result }
    ensures mainnet_steps { MainnetSteps table result }
{
    if may_open(height) {
        return Ok(start(height, table));
    }
    Err(Refusal::HeightUnexpected)
}

// The state that an opening with a table gives. Refused: one that expects a height that no epoch reaches, and so turns every well-formed record
// down by 26.
pub fn opened(table: Table, answer: Result<Replay, Refusal>) -> Replay
    ensures value { result ≡ opened table answer }
    ensures closed { OnErr answer (Closed result) }
{
    answer.unwrap_or(start(HEIGHT_LIMIT, table))
}

impl Replay {
    // Replays a record: the next state. A record that is turned down leaves the state as it was.
    pub fn replay(self, rec: &[u8]) -> Result<Replay, Rejection>
        ensures value { result ≡ replay_of self rec.now }
        ensures exhausted { Exhausted self rec.now result }
        ensures least { LeastOfRecord self rec.now result }
    {
        match record::read_record(rec, 3 * (self.settings.voting_length as usize)) {
            Ok(p) if p.end == rec.len() => on_parts(
                self,
                p.height,
                &rec[p.body..p.body_end],
                &rec[p.votes..p.end],
            ),
            _ => Err(Rejection::Refused(Refusal::RecordMalformed)),
        }
    }

    // The state after a record: the next one; where the record is turned down, the state as it was.
    pub fn after(self, rec: &[u8]) -> Replay
        ensures { result ≡ state_by self rec.now }
    {
        self.replay(rec).unwrap_or(self)
    }
}

impl Rejection {
    // The refusal's number.
    pub fn number(self) -> u8
        ensures { result ≡ rejection_number self }
    {
        match self {
            Rejection::Refused(refusal) => refusal.number(),
            Rejection::Mismatch(_) => Refusal::EntryDiffers.number(),
        }
    }

    // The id that 15 carries, else 0.
    pub fn id(self) -> u8
        ensures { result ≡ rejection_id self }
    {
        match self {
            Rejection::Refused(_) => 0,
            Rejection::Mismatch(id) => id,
        }
    }
}

// A positive multiple of mainnet's voting length, whose epoch ends at the limit or before.
fn may_open(height: u32) -> bool
    ensures { result ≡ may_open height }
{
    let end = (height as u64) + (MAINNET_VOTING_LENGTH as u64);
    (0 < height) & (height % MAINNET_VOTING_LENGTH == 0) & (end <= HEIGHT_LIMIT as u64)
}

fn start(next: u32, table: Table) -> Replay
    ensures { result ≡ record { settings = mainnet; table = table; next = next; tally = no_tally } }
{
    Replay {
        settings: VotingConfig::mainnet(),
        table,
        next,
        tally: tally::no_tally(),
    }
}

// The tests in order, on a record's parts.
fn on_parts(s: Replay, height: u32, body: &[u8], votes: &[u8]) -> Result<Replay, Rejection>
    requires { length votes.now ≡ 3 * voting_length s.settings }
    ensures { result ≡ on_parts s height body.now votes.now }
{
    check_early(s, height, votes)?;
    let w = walk::walk_body(body);
    w.fields?;
    let b = boundary::boundary_with_update(
        s.settings,
        height,
        s.table,
        s.tally,
        boundary_votes(votes),
        &body[w.start..w.end],
    )?;
    after_match(
        s,
        height,
        votes,
        b.table,
        walk::match_found(b.table, w.found),
    )
}

// The height, all headers, the boundary header's fork check by the old table.
fn check_early(s: Replay, height: u32, votes: &[u8]) -> Result<(), Refusal>
    ensures { result ≡ check_early s height votes.now }
{
    check_height(s, height)?;
    headers::check_headers(votes)?;
    check_boundary(s.settings, s.table, height, votes)
}

fn check_height(s: Replay, height: u32) -> Result<(), Refusal>
    ensures { result ≡ check_height s height }
{
    let end = (height as u64) + (s.settings.voting_length as u64);
    if (height == s.next) & (end <= HEIGHT_LIMIT as u64) {
        return Ok(());
    }
    Err(Refusal::HeightUnexpected)
}

// The fork check of the first header.
fn check_boundary(
    config: VotingConfig,
    table: Table,
    height: u32,
    votes: &[u8],
) -> Result<(), Refusal>
    ensures { result ≡ check_fork_votes config table height (take 3 votes.now) }
{
    if votes.len() < 3 {
        return Ok(());
    }
    fork::check_fork_vote(config, height, [votes[0], votes[1], votes[2]], table)
}

// Whether the first header votes for the fork.
fn boundary_votes(votes: &[u8]) -> bool
    ensures { result ≡ boundary_votes votes.now }
{
    if votes.len() < 3 {
        return false;
    }
    header::votes_for(header::SOFT_FORK_VOTE, [votes[0], votes[1], votes[2]])
}

// The fork checks of the headers after the first.
fn check_others(
    config: VotingConfig,
    table: Table,
    height: u32,
    votes: &[u8],
) -> Result<(), Refusal>
    requires { height + length votes.now / 3 ≤ 4294967295 }
    ensures { result ≡ check_fork_votes config table height (drop 3 votes.now) }
{
    if votes.len() < 3 {
        return Ok(());
    }
    fork_votes::check_fork_votes(config, table, height, &votes[3..])
}

// After the match: the other headers' fork checks by the new table.
fn after_match(
    s: Replay,
    height: u32,
    votes: &[u8],
    t: Table,
    m: Result<(), parameters::Mismatch>,
) -> Result<Replay, Rejection>
    requires { (height + voting_length s.settings ≤ 2147483648) × (length votes.now ≡ 3 * voting_length s.settings) }
    ensures { result ≡ after_match s height votes.now t m }
{
    m?;
    check_others(s.settings, t, height + 1, votes)?;
    Ok(onward(s, height, votes, t))
}

// The state after an accepted epoch.
fn onward(s: Replay, height: u32, votes: &[u8], t: Table) -> Replay
    requires { height + voting_length s.settings ≤ 2147483648 }
    ensures { result ≡ onward s height votes.now t }
{
    let length = s.settings.voting_length;
    let next = height + length;
    Replay {
        table: t,
        next,
        tally: tally::tally_votes_seeded(height, votes, next, length).unwrap_or(tally::no_tally()),
        ..s
    }
}
