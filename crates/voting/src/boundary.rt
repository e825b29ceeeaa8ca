// The boundary on values. docs/RULES.md, "Boundary".
ghost use Rattle.std.specs.Prelude.{◌≡◌, [], pos};
ghost use Rattle.voting.specs.Tally.{entry, entries};
ghost use Rattle.codec.specs.Check.{and_then};
ghost use Rattle.voting.specs.Ordinary.{voted};
ghost use Rattle.voting.specs.Boundary.{with_subblocks, boundary_of, goes_on};
ghost use Rattle.voting.specs.Sweep.{begin_sweep, sweep_entry, sweep_entries, finish_sweep};

use crate::fork::Round;
use crate::header::SOFT_FORK_ID;
use crate::settings::VotingConfig;
use crate::table::{ID_BLOCK_VERSION, ID_SUBBLOCKS_PER_BLOCK, Table};
use crate::tally::{Entry, Tally};
use crate::{fork, ordinary};
use codec::refusal::Refusal;

// In a table of this version entry 9 is set by itself, to this value.
const SUBBLOCKS_VERSION: i32 = 4;

const SUBBLOCKS_AT_FIRST: i32 = 30;

// The table that goes on, and what happens to a round.
#[derive(Clone, Copy)]
pub struct Boundary {
    pub table: Table,
    pub round: Round,
}

// Entry 9 in a table of version 4 that has none, unless the activated update disables rule 409.
pub fn with_subblocks(disabled: bool, t: Table) -> Table
    ensures { result ≡ with_subblocks disabled t }
{
    let version = t.get(ID_BLOCK_VERSION);
    let subblocks = t.get(ID_SUBBLOCKS_PER_BLOCK);
    if (version == Some(SUBBLOCKS_VERSION)) & subblocks.is_none() & !disabled {
        return t.with(ID_SUBBLOCKS_PER_BLOCK, Some(SUBBLOCKS_AT_FIRST));
    }
    t
}

// What is carried through the entries of a tally: whether one for the fork was met and its count, and the table of the ordinary votes so far.
#[derive(Clone, Copy)]
pub struct Sweep {
    pub found: bool,
    pub votes: u32,
    pub voted: Result<Table, Refusal>,
}

// For the layers above, which have the tally as a list: before the first entry.
pub fn begin(table: Table) -> Sweep
    ensures { result ≡ begin_sweep table }
{
    Sweep {
        found: false,
        votes: 0,
        voted: Ok(table),
    }
}

// One entry.
pub fn entry(config: VotingConfig, table: Table, s: Sweep, e: Entry) -> Sweep
    ensures { result ≡ sweep_entry config table s e }
{
    let fork = e.id == SOFT_FORK_ID;
    Sweep {
        found: fork | s.found,
        votes: if fork & !s.found { e.count } else { s.votes },
        voted: voted_on(config, table, s.voted, e),
    }
}

// After the last: the fork part, the ordinary entries that the votes left, entry 9.
pub fn finish(
    config: VotingConfig,
    height: u32,
    table: Table,
    vote: bool,
    disables: bool,
    s: Sweep,
) -> Result<Boundary, Refusal>
    ensures { result ≡ finish_sweep config height table vote disables s }
{
    let part = fork::fork_part(config, height, vote, s.votes, table.fork)?;
    let voted = s.voted?;
    let ordinary = voted.ordinary;
    let new = Table {
        ordinary,
        fork: part.fork,
    };
    Ok(Boundary {
        table: with_subblocks(part.round.rose & disables, new),
        round: part.round,
    })
}

// The ordinary votes with one entry more, by the old table; after a refusal they stay.
fn voted_on(
    config: VotingConfig,
    table: Table,
    so_far: Result<Table, Refusal>,
    e: Entry,
) -> Result<Table, Refusal>
    ensures { result ≡ and_then so_far (voted config table e) }
{
    ordinary::vote(config, table, e, so_far?)
}

// A place of a tally, which may hold no entry.
fn place(config: VotingConfig, table: Table, s: Sweep, e: Entry) -> Sweep
    ensures { result ≡ sweep_entries config table s (entry e []) }
{
    if e.id == 0 {
        return s;
    }
    entry(config, table, s, e)
}

// The table after a boundary, from the old table, the tally of the epoch before, whether the boundary header votes 120, and whether the
// proposed update disables rule 409; or 17, 18, 19, 20, 13, 14.
pub fn boundary_parameters(
    config: VotingConfig,
    height: u32,
    table: Table,
    tally: Tally,
    vote: bool,
    disables: bool,
) -> Result<Boundary, Refusal>
    ensures { result ≡ boundary_of config height table (entries tally) vote disables }
{
    let first = place(config, table, begin(table), tally.first);
    let second = place(config, table, first, tally.second);
    let third = place(config, table, second, tally.third);
    finish(config, height, table, vote, disables, third)
}

// What goes on after a boundary from an old table: what it computed; refused, the old table, and nothing happens to a round.
pub fn goes_on(table: Table, answer: Result<Boundary, Refusal>) -> Boundary
    ensures { result ≡ goes_on table answer }
{
    let round = fork::no_round();
    answer.unwrap_or(Boundary { table, round })
}
