// What a boundary is asked beside the tally and the update, and what it computed.
ghost use Rattle.std.specs.Prelude.{◌≡◌, length};
ghost use Rattle.codec.specs.Output.{outcome, writes};
ghost use Rattle.wire.specs.Boundary.{question_of, computed_bytes};

use crate::{numbers, places, values};
use codec::refusal::Refusal;
use extension::boundary::Computed;
use lent::boundary::BoundaryAt;

pub fn question_of(bytes: &[u8]) -> BoundaryAt
    ensures { result ≡ question_of bytes.now }
{
    BoundaryAt {
        config: values::settings_at(bytes, 0),
        height: numbers::u32_at(bytes, 16),
        table: values::table_at(bytes, 20),
        vote: numbers::byte_at(bytes, 80) != 0,
    }
}

pub fn write_computed(c: Computed, out: &mut [u8]) -> Result<usize, Refusal>
    ensures out_after { outcome result out.new ≡ writes (computed_bytes c) out.old }
    ensures size { length (computed_bytes c) ≡ 84 }
{
    let mut cells = [0u8; 84];
    values::put_table(&mut cells, 0, c.table);
    places::put_update(&mut cells, 60, c.activated);
    numbers::write_bytes(&cells, out)
}
