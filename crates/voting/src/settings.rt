// The settings of a network, and when a count of votes is approved. docs/RULES.md, "Table and settings".
ghost use Rattle.std.specs.Prelude.{◌≡◌};
ghost use Rattle.voting.specs.Settings.{mainnet, testnet, fork_limit, soft_fork_approved, change_approved, settings_large};

// The voting length of mainnet.
pub const MAINNET_VOTING_LENGTH: u32 = 1024;

#[derive(Clone, Copy)]
pub enum Network {
    Mainnet,
    Testnet,
}

// The voting length L, the vote epochs V, the activation epochs A, and the height at which version 1 becomes 2.
#[derive(Clone, Copy)]
pub struct VotingConfig {
    pub voting_length: u32,
    pub soft_fork_epochs: u32,
    pub activation_epochs: u32,
    pub version2_activation_height: u32,
}

impl VotingConfig {
    pub fn mainnet() -> VotingConfig
        ensures { result ≡ mainnet }
    {
        VotingConfig {
            voting_length: MAINNET_VOTING_LENGTH,
            soft_fork_epochs: 32,
            activation_epochs: 32,
            version2_activation_height: 417792,
        }
    }

    pub fn testnet() -> VotingConfig
        ensures { result ≡ testnet }
    {
        VotingConfig {
            voting_length: 128,
            soft_fork_epochs: 32,
            activation_epochs: 32,
            version2_activation_height: 0,
        }
    }

    // L·V·9/10, rounded down, without the product by 9, which does not always fit.
    fn fork_limit(self) -> u64
        ensures { result ≡ fork_limit self }
    {
        let p = (self.voting_length as u64) * (self.soft_fork_epochs as u64);
        if p % 10 == 0 {
            return p - p / 10;
        }
        p - p / 10 - 1
    }

    // A fork total that is high enough. A total that wrapped below 0 never is.
    pub fn soft_fork_approved(self, votes: i32) -> bool
        ensures { result ≡ soft_fork_approved self votes }
    {
        let limit = self.fork_limit();
        if votes < 0 {
            return false;
        }
        limit < votes as u64
    }

    // An ordinary count that is high enough.
    pub fn change_approved(self, votes: u32) -> bool
        ensures { result ≡ change_approved self votes }
    {
        self.voting_length / 2 < votes
    }

    // For the layers above: a length or a number of epochs is too large to be taken.
    pub fn settings_large(self) -> bool
        ensures { result ≡ settings_large self }
    {
        (65535 < self.voting_length)
            | (65535 < self.soft_fork_epochs)
            | (65535 < self.activation_epochs)
    }
}
