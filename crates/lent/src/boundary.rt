// The boundary over a lent list of entries. docs/RULES.md, "Boundary".
ghost use Rattle.std.specs.Prelude.{◌≡◌};
ghost use Rattle.extension.specs.Boundary.{computed_of};
ghost use Rattle.extension.specs.Order.{InAnyOrder};
ghost use Rattle.voting.specs.Sweep.{begin_sweep, sweep_entries};

use codec::refusal::Refusal;
use extension::boundary::{Computed, SUBBLOCKS_RULE};
use extension::{boundary, update};
use voting::boundary as values;
use voting::boundary::Sweep;
use voting::settings::VotingConfig;
use voting::table::Table;
use voting::tally::Entry;

// What a boundary is asked, beside the tally of the epoch before and the bytes of the proposed update.
#[derive(Clone, Copy)]
pub struct BoundaryAt {
    pub config: VotingConfig,
    pub height: u32,
    pub table: Table,
    pub vote: bool,
}

// The table after a boundary and the activated update, or 22, 7, 8, 17 to 20, 13, 14. If no entry repeats or contradicts another, the
// tally's order decides nothing but which of 13 and 14 is met.
pub fn compute_boundary_parameters(
    tally: &[Entry],
    proposed_update: &[u8],
    at: BoundaryAt,
) -> Result<Computed, Refusal>
    ensures { (result ≡ computed_of at.config at.height at.table tally.now at.vote proposed_update.now)
        × (InAnyOrder at.config at.height at.table tally.now at.vote proposed_update.now result) }
{
    let p = update::parse_proposed(proposed_update, SUBBLOCKS_RULE)?;
    let sweep = swept(at.config, at.table, tally);
    let b = values::finish(at.config, at.height, at.table, at.vote, p.disables, sweep)?;
    Ok(boundary::activates(p.update, b))
}

// The entries, one after another.
fn swept(config: VotingConfig, table: Table, tally: &[Entry]) -> Sweep
    ensures { result ≡ sweep_entries config table (begin_sweep table) tally.now }
{
    let mut sweep = values::begin(table);
    for e in tally {
        sweep = values::entry(config, table, sweep, *e);
    }
    sweep
}
