// The boundary, and what is checked against the table that it computes.
ghost use Rattle.std.specs.Prelude.{◌≡◌};
ghost use Rattle.voting.specs.Table.{check_block_version};
ghost use Rattle.extension.specs.Parameters.{check_parameters};
ghost use Rattle.wire.specs.Values.{table_at};
ghost use Rattle.wire.specs.Map.{map_of};
ghost use Rattle.wire.specs.Boundary.{computed_bytes};
ghost use Rattle.exports.specs.Reply.{reply, numbered, Told, number_of};
ghost use Rattle.exports.specs.Calls.{boundary_of, RepliesInAnyOrder, matched_code, into, matched_number, matched_id};

use exports::boundary as calls;
use voting::tally::Entry;

// The table after a boundary and the activated update, into cells: 0, or 22, 7, 8, 17 to 20, 13, 14, 21. An entry of the tally is eight
// bytes: the id, three bytes of padding, the count in the machine's order. A question is settings, a height, a table and a flag. If no entry
// repeats or contradicts another, the tally's order decides nothing but which of 13 and 14 is met.
#[unsafe(no_mangle)]
pub extern "C" fn ergo_compute_boundary_parameters(
    tally: &[Entry],
    proposed_update: &[u8],
    question: &[u8],
    out: &mut [u8],
) -> u8
    ensures { (reply result out.new ≡ numbered (into computed_bytes (boundary_of tally.now proposed_update.now question.now) out.old))
        × (RepliesInAnyOrder tally.now proposed_update.now question.now out.old (reply result out.new)) }
{
    calls::ergo_compute_boundary_parameters(tally, proposed_update, question, out)
}

// Whether a computed table stands, equal, among a body's parameters: 0, or 15 and 256 times the least id that differs.
#[unsafe(no_mangle)]
pub extern "C" fn ergo_check_parameters_v6(table: &[u8], parameters: &[u8]) -> u16
    ensures value { result ≡ matched_code (check_parameters (table_at table.now 0) (map_of parameters.now)) }
    ensures told { Told result (matched_number (check_parameters (table_at table.now 0) (map_of parameters.now))) (matched_id (check_parameters (table_at table.now 0) (map_of parameters.now))) }
{
    calls::ergo_check_parameters_v6(table, parameters)
}

// Whether a block has the table's version: 0, or 16, 20.
#[unsafe(no_mangle)]
pub extern "C" fn ergo_check_block_version(table: &[u8], version: u8) -> u8
    ensures { result ≡ number_of (check_block_version (table_at table.now 0) version) }
{
    calls::ergo_check_block_version(table, version)
}
