// What a network begins with, approvals, and the limits of parameters.
ghost use Rattle.std.specs.Prelude.{◌≡◌};
ghost use Rattle.codec.specs.Output.{writes};
ghost use Rattle.voting.specs.Settings.{soft_fork_approved, change_approved};
ghost use Rattle.voting.specs.Table.{default_parameters};
ghost use Rattle.voting.specs.Ordinary.{parameter_min, parameter_max, parameter_step};
ghost use Rattle.writers.specs.Tables.{table_parameters};
ghost use Rattle.wire.specs.Values.{value_bytes, table_at, table_bytes, settings_at, settings_bytes};
ghost use Rattle.wire.specs.Map.{map_bytes};
ghost use Rattle.exports.specs.Reply.{reply, numbered, sized};
ghost use Rattle.exports.specs.Calls.{network_of, settings_of, flag};

use exports::tables as calls;

// The table that a network begins with, into cells: 0, or 21. 0 is mainnet, any other number testnet.
#[unsafe(no_mangle)]
pub extern "C" fn ergo_default_parameters(network: u8, out: &mut [u8]) -> u8
    ensures { reply result out.new ≡ numbered (writes (table_bytes (default_parameters (network_of network))) out.old) }
{
    calls::ergo_default_parameters(network, out)
}

// The parameters that a table asks a body to carry, into cells: how many bytes were written, or minus 21.
#[unsafe(no_mangle)]
pub extern "C" fn ergo_table_parameters(table: &[u8], out: &mut [u8]) -> usize
    ensures { reply result out.new ≡ sized (writes (map_bytes (table_parameters (table_at table.now 0))) out.old) }
{
    calls::ergo_table_parameters(table, out)
}

// A network's settings, into cells: 0, or 21.
#[unsafe(no_mangle)]
pub extern "C" fn ergo_voting_config(network: u8, out: &mut [u8]) -> u8
    ensures { reply result out.new ≡ numbered (writes (settings_bytes (settings_of (network_of network))) out.old) }
{
    calls::ergo_voting_config(network, out)
}

// Whether a total of votes for the fork is approved: 1 or 0.
#[unsafe(no_mangle)]
pub extern "C" fn ergo_soft_fork_approved(settings: &[u8], votes: i32) -> u8
    ensures { result ≡ flag (soft_fork_approved (settings_at settings.now 0) votes) }
{
    calls::ergo_soft_fork_approved(settings, votes)
}

// Whether a count of votes for an ordinary parameter is approved: 1 or 0.
#[unsafe(no_mangle)]
pub extern "C" fn ergo_change_approved(settings: &[u8], votes: u32) -> u8
    ensures { result ≡ flag (change_approved (settings_at settings.now 0) votes) }
{
    calls::ergo_change_approved(settings, votes)
}

// The least value from which a parameter is lowered, into cells: 0, or 21. Absent where no parameter has the id; its sign is not looked at.
#[unsafe(no_mangle)]
pub extern "C" fn ergo_parameter_min(id: i8, out: &mut [u8]) -> u8
    ensures { reply result out.new ≡ numbered (writes (value_bytes (parameter_min id)) out.old) }
{
    calls::ergo_parameter_min(id, out)
}

// The greatest value from which it is raised.
#[unsafe(no_mangle)]
pub extern "C" fn ergo_parameter_max(id: i8, out: &mut [u8]) -> u8
    ensures { reply result out.new ≡ numbered (writes (value_bytes (parameter_max id)) out.old) }
{
    calls::ergo_parameter_max(id, out)
}

// Its fixed step.
#[unsafe(no_mangle)]
pub extern "C" fn ergo_parameter_step(id: i8, out: &mut [u8]) -> u8
    ensures { reply result out.new ≡ numbered (writes (value_bytes (parameter_step id)) out.old) }
{
    calls::ergo_parameter_step(id, out)
}
