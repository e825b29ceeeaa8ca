// The table of twelve entries. docs/RULES.md, "Table and settings" and "Writers and rest".
ghost use Rattle.std.specs.Prelude.{◌≡◌};
ghost use Rattle.voting.specs.Table.{lookup, update, beginning, default_parameters, check_block_version};

use crate::settings::Network;
use codec::refusal::Refusal;

// Ids beside the ordinary parameters 1 to 8. Id 124 is no entry of the table: it stands in extensions for the settings update.
pub const ID_SUBBLOCKS_PER_BLOCK: u8 = 9;

pub const ID_SOFT_FORK_VOTES_COLLECTED: u8 = 121;

pub const ID_SOFT_FORK_STARTING_HEIGHT: u8 = 122;

pub const ID_BLOCK_VERSION: u8 = 123;

// The value of an entry; none where the entry is absent.
pub type Value = Option<i32>;

// Entries 121 (votes collected), 122 (starting height) and 123 (block version).
#[derive(Clone, Copy)]
pub struct Fork {
    pub votes: Value,
    pub start: Value,
    pub version: Value,
}

// Entries 1 to 9 in order, and the three of the fork.
#[derive(Clone, Copy)]
pub struct Table {
    pub ordinary: [Value; 9],
    pub fork: Fork,
}

impl Table {
    // The entry of an id; an id without one is absent.
    #[tactic(auto, unfolding(crate::specs::Table::lookup))]
    pub fn get(self, id: u8) -> Value
        ensures { result ≡ lookup self id }
    {
        match id {
            ID_SOFT_FORK_VOTES_COLLECTED => self.fork.votes,
            ID_SOFT_FORK_STARTING_HEIGHT => self.fork.start,
            ID_BLOCK_VERSION => self.fork.version,
            1..=ID_SUBBLOCKS_PER_BLOCK => self.ordinary[(id - 1) as usize],
            _ => None,
        }
    }

    // The table with the entry of an id written, or removed by an absent value; an id without one changes nothing.
    #[tactic(auto, unfolding(crate::specs::Table::update))]
    pub fn with(mut self, id: u8, value: Value) -> Table
        ensures { result ≡ update self id value }
    {
        match id {
            ID_SOFT_FORK_VOTES_COLLECTED => self.fork.votes = value,
            ID_SOFT_FORK_STARTING_HEIGHT => self.fork.start = value,
            ID_BLOCK_VERSION => self.fork.version = value,
            1..=ID_SUBBLOCKS_PER_BLOCK => self.ordinary[(id - 1) as usize] = value,
            _ => {}
        }
        self
    }
}

fn beginning(nine: Value, version: i32) -> Table
    ensures { result ≡ beginning nine version }
{
    Table {
        ordinary: [
            Some(1250000),
            Some(360),
            Some(524288),
            Some(1000000),
            Some(100),
            Some(2000),
            Some(100),
            Some(100),
            nine,
        ],
        fork: Fork {
            votes: None,
            start: None,
            version: Some(version),
        },
    }
}

// The table that a network begins with.
pub fn default_parameters(network: Network) -> Table
    ensures { result ≡ default_parameters network }
{
    match network {
        Network::Mainnet => beginning(None, 1),
        Network::Testnet => beginning(Some(30), 4),
    }
}

// Whether a block's version is the table's: 20 or 16 where it is not.
pub fn check_block_version(table: Table, version: u8) -> Result<(), Refusal>
    ensures { result ≡ check_block_version table version }
{
    match table.fork.version {
        None => Err(Refusal::BlockVersionAbsent),
        Some(z) if z == version as i32 => Ok(()),
        Some(_) => Err(Refusal::BlockVersionDiffers),
    }
}
