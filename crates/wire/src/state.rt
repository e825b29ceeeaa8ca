// The state of a replay.
ghost use Rattle.std.specs.Prelude.{◌≡◌, ◌≤◌, length};
ghost use Rattle.codec.specs.Output.{outcome, writes};
ghost use Rattle.wire.specs.Put.{Put, Back, Written};
ghost use Rattle.wire.specs.State.{state_at, state_bytes};

use crate::{numbers, values};
use archive::replay::Replay;
use codec::refusal::Refusal;

pub fn state_of(bytes: &[u8]) -> Replay
    ensures { result ≡ state_at bytes.now 0 }
{
    Replay {
        settings: values::settings_at(bytes, 0),
        table: values::table_at(bytes, 16),
        next: numbers::u32_at(bytes, 76),
        tally: values::tally_at(bytes, 80),
    }
}

pub fn write_state(x: Replay, out: &mut [u8]) -> Result<usize, Refusal>
    ensures out_after { outcome result out.new ≡ writes (state_bytes x) out.old }
    ensures reads_back { Written result → state_at out.new 0 ≡ x }
    ensures size { length (state_bytes x) ≡ 95 }
{
    let mut cells = [0u8; 95];
    put_state(&mut cells, x);
    numbers::write_bytes(&cells, out)
}

fn put_state(out: &mut [u8], x: Replay)
    ensures put { Put 95 0 (state_bytes x) out.old out.new }
    ensures back { Back state_at (state_bytes x) x }
{
    values::put_settings(out, 0, x.settings);
    values::put_table(out, 16, x.table);
    numbers::put_u32(out, 76, x.next);
    values::put_tally(out, 80, x.tally);
}
