// A replay: the opening, and a record.
ghost use Rattle.std.specs.Prelude.{◌≡◌};
ghost use Rattle.archive.specs.Replay.{open_of};
ghost use Rattle.wire.specs.Values.{table_at};
ghost use Rattle.wire.specs.State.{state_at, state_bytes};
ghost use Rattle.exports.specs.Calls.{into};
ghost use Rattle.exports.specs.Reply.{reply, numbered};
ghost use Rattle.exports.specs.Replays.{Replays, Onward};

use exports::replay as calls;

// Opens a replay on mainnet's settings, at a height and with a table, into a state. 0, or 26, or 21.
#[unsafe(no_mangle)]
pub extern "C" fn ergo_open(height: u32, table: &[u8], state: &mut [u8]) -> u8
    ensures state_after { reply result state.new ≡ numbered (into state_bytes (open_of height (table_at table.now 0)) state.old) }
    ensures next_reads { result ≡ 0 → open_of height (table_at table.now 0) ≡ Ok (state_at state.new 0) }
    ensures onward { result ≡ 0 → Onward state.new (state_at state.new 0) }
{
    calls::ergo_open(height, table, state)
}

// Replays a record on a state, which becomes the state after it. 0, or the refusal's number, and for 15 also 256 times the least id that
// differs.
#[unsafe(no_mangle)]
pub extern "C" fn ergo_replay(state: &mut [u8], rec: &[u8]) -> u16
    ensures { Replays state.old rec.now result state.new }
{
    calls::ergo_replay(state, rec)
}
