// The boundary with the bytes of the proposed settings update. docs/RULES.md, "Boundary".
ghost use Rattle.std.specs.Prelude.{◌≡◌};
ghost use Rattle.voting.specs.Tally.{entries};
ghost use Rattle.extension.specs.Boundary.{activates, computed_of, goes_on};
ghost use Rattle.extension.specs.Examples.{Examples};

use crate::update;
use crate::update::Update;
use codec::refusal::Refusal;
use voting::boundary;
use voting::boundary::Boundary;
use voting::fork::Round;
use voting::settings::VotingConfig;
use voting::table::Table;
use voting::tally::Tally;

// The rule under which entry 9 is not set by itself.
pub const SUBBLOCKS_RULE: u16 = 409;

// The new table, what happens to a round, and the activated update.
#[derive(Clone, Copy)]
pub struct Computed {
    pub table: Table,
    pub round: Round,
    pub activated: Update,
}

// The table after a boundary and the activated update, or 22, 7, 8, 17 to 20, 13, 14. examples: the table of docs/RULES.md, "Examples at the
// edges", holds of the definitions that this promise cites.
pub fn boundary_with_update(
    config: VotingConfig,
    height: u32,
    table: Table,
    tally: Tally,
    vote: bool,
    proposed_update: &[u8],
) -> Result<Computed, Refusal>
    ensures value { result ≡ computed_of config height table (entries tally) vote proposed_update.now }
    ensures examples { Examples }
{
    let p = update::parse_proposed(proposed_update, SUBBLOCKS_RULE)?;
    let b = boundary::boundary_parameters(config, height, table, tally, vote, p.disables)?;
    Ok(activates(p.update, b))
}

// For the layers above: the update is activated where the round raises the version.
pub fn activates(u: Update, b: Boundary) -> Computed
    ensures { result ≡ activates u b }
{
    Computed {
        table: b.table,
        round: b.round,
        activated: if b.round.rose { u } else { update::no_update() },
    }
}

// What goes on after a boundary from an old table: what it computed; refused, the old table, nothing happens to a round, and no update is
// activated.
pub fn goes_on(table: Table, answer: Result<Computed, Refusal>) -> Computed
    ensures { result ≡ goes_on table answer }
{
    answer.unwrap_or(Computed {
        table,
        round: Round {
            opened: false,
            closed: false,
            rose: false,
            total: None,
        },
        activated: update::no_update(),
    })
}
