// Where parts of an input stand: sections, updates, and what the readers of a body, an update and a record find.
ghost use Rattle.std.specs.Prelude.{◌≡◌, ◌≤◌, ◌<◌, ◌^◌, length};
ghost use Rattle.codec.specs.Output.{outcome, writes};
ghost use Rattle.wire.specs.Put.{Put, Back, Written};
ghost use Rattle.wire.specs.Places.{section_at, section_bytes, update_at, update_bytes, field_bytes, rule_bytes, status_bytes, record_bytes, Narrow};

use crate::numbers;
use archive::record::RecordPlace;
use codec::refusal::Refusal;
use extension::body::FieldPlace;
use extension::section::Section;
use extension::update::{RulePlace, StatusPlace, Update};

pub fn section_of(bytes: &[u8]) -> Section
    ensures { result ≡ section_at bytes.now 0 }
{
    section_at(bytes, 0)
}

pub fn update_of(bytes: &[u8]) -> Update
    ensures { result ≡ update_at bytes.now 0 }
{
    Update {
        rules: section_at(bytes, 0),
        statuses: section_at(bytes, 12),
    }
}

fn section_at(bytes: &[u8], at: usize) -> Section
    requires { at ≤ 3000 }
    ensures { result ≡ section_at bytes.now at }
{
    Section {
        count: numbers::u32_at(bytes, at),
        begin: numbers::u32_at(bytes, at + 4) as usize,
        end: numbers::u32_at(bytes, at + 8) as usize,
    }
}

pub fn write_section(s: Section, out: &mut [u8]) -> Result<usize, Refusal>
    ensures out_after { outcome result out.new ≡ writes (section_bytes s) out.old }
    ensures reads_back { Written result → Narrow s → section_at out.new 0 ≡ s }
    ensures size { length (section_bytes s) ≡ 12 }
{
    let mut cells = [0u8; 12];
    put_section(&mut cells, 0, s);
    numbers::write_bytes(&cells, out)
}

pub fn write_update(u: Update, out: &mut [u8]) -> Result<usize, Refusal>
    ensures out_after { outcome result out.new ≡ writes (update_bytes u) out.old }
    ensures reads_back { Written result → Narrow u.rules → Narrow u.statuses → update_at out.new 0 ≡ u }
    ensures size { length (update_bytes u) ≡ 24 }
{
    let mut cells = [0u8; 24];
    put_update(&mut cells, 0, u);
    numbers::write_bytes(&cells, out)
}

pub fn write_field(f: FieldPlace, out: &mut [u8]) -> Result<usize, Refusal>
    ensures out_after { outcome result out.new ≡ writes (field_bytes f) out.old }
    ensures size { length (field_bytes f) ≡ 16 }
{
    let mut cells = [0u8; 16];
    numbers::put_four(
        &mut cells,
        0,
        u32::from(f.key0),
        u32::from(f.key1),
        f.start,
        f.end,
    );
    numbers::write_bytes(&cells, out)
}

pub fn write_rule(x: RulePlace, out: &mut [u8]) -> Result<usize, Refusal>
    ensures out_after { outcome result out.new ≡ writes (rule_bytes x) out.old }
    ensures size { length (rule_bytes x) ≡ 8 }
{
    let mut cells = [0u8; 8];
    numbers::put_u32(&mut cells, 0, u32::from(x.id));
    numbers::put_usize(&mut cells, 4, x.next);
    numbers::write_bytes(&cells, out)
}

pub fn write_status(x: StatusPlace, out: &mut [u8]) -> Result<usize, Refusal>
    ensures out_after { outcome result out.new ≡ writes (status_bytes x) out.old }
    ensures size { length (status_bytes x) ≡ 16 }
{
    let mut cells = [0u8; 16];
    let rule = x.rule.0.cast_unsigned();
    numbers::put_four(
        &mut cells,
        0,
        u32::from(rule),
        u32::from(x.code),
        x.start,
        x.end,
    );
    numbers::write_bytes(&cells, out)
}

pub fn write_record(p: RecordPlace, out: &mut [u8]) -> Result<usize, Refusal>
    ensures out_after { outcome result out.new ≡ writes (record_bytes p) out.old }
    ensures size { length (record_bytes p) ≡ 20 }
{
    let mut cells = [0u8; 20];
    let body = (p.body % 0x1_0000_0000) as u32;
    numbers::put_four(&mut cells, 0, p.height, body, p.body_end, p.votes);
    numbers::put_usize(&mut cells, 16, p.end);
    numbers::write_bytes(&cells, out)
}

fn put_section(out: &mut [u8], at: usize, s: Section)
    requires { at ≤ 3000 }
    ensures put { Put 12 at (section_bytes s) out.old out.new }
    ensures back { Narrow s → Back section_at (section_bytes s) s }
{
    numbers::put_u32(out, at, s.count);
    numbers::put_usize(out, at + 4, s.begin);
    numbers::put_usize(out, at + 8, s.end);
}

pub(crate) fn put_update(out: &mut [u8], at: usize, u: Update)
    requires { at ≤ 2000 }
    ensures put { Put 24 at (update_bytes u) out.old out.new }
    ensures back { Narrow u.rules → Narrow u.statuses → Back update_at (update_bytes u) u }
{
    put_section(out, at, u.rules);
    put_section(out, at + 12, u.statuses);
}
