// Values, tables, settings and tallies.
ghost use Rattle.std.specs.Prelude.{◌≡◌, ◌≤◌, length};
ghost use Rattle.codec.specs.Output.{outcome, writes};
ghost use Rattle.wire.specs.Put.{Put, Back, Written};
ghost use Rattle.wire.specs.Values.{marked, value_at, value_bytes, slots_at, slots_bytes, fork_at, fork_bytes, table_at, table_bytes, settings_at, settings_bytes, entry_at, entry_bytes, tally_at, tally_bytes};

use crate::numbers;
use codec::output;
use codec::refusal::Refusal;
use std::array;
use voting::settings::VotingConfig;
use voting::table::{Fork, Table, Value};
use voting::tally::{Entry, Tally};

pub fn value_of(bytes: &[u8]) -> Value
    ensures { result ≡ value_at bytes.now 0 }
{
    value_at(bytes, 0)
}

pub fn table_of(bytes: &[u8]) -> Table
    ensures { result ≡ table_at bytes.now 0 }
{
    table_at(bytes, 0)
}

pub fn settings_of(bytes: &[u8]) -> VotingConfig
    ensures { result ≡ settings_at bytes.now 0 }
{
    settings_at(bytes, 0)
}

pub fn tally_of(bytes: &[u8]) -> Tally
    ensures { result ≡ tally_at bytes.now 0 }
{
    tally_at(bytes, 0)
}

pub fn write_value(v: Value, out: &mut [u8]) -> Result<usize, Refusal>
    ensures out_after { outcome result out.new ≡ writes (value_bytes v) out.old }
    ensures reads_back { Written result → value_at out.new 0 ≡ v }
    ensures size { length (value_bytes v) ≡ 5 }
{
    let mut cells = [0u8; 5];
    put_value(&mut cells, 0, v);
    numbers::write_bytes(&cells, out)
}

pub fn write_table(t: Table, out: &mut [u8]) -> Result<usize, Refusal>
    ensures out_after { outcome result out.new ≡ writes (table_bytes t) out.old }
    ensures reads_back { Written result → table_at out.new 0 ≡ t }
    ensures size { length (table_bytes t) ≡ 60 }
{
    let mut cells = [0u8; 60];
    put_table(&mut cells, 0, t);
    numbers::write_bytes(&cells, out)
}

pub fn write_settings(g: VotingConfig, out: &mut [u8]) -> Result<usize, Refusal>
    ensures out_after { outcome result out.new ≡ writes (settings_bytes g) out.old }
    ensures reads_back { Written result → settings_at out.new 0 ≡ g }
    ensures size { length (settings_bytes g) ≡ 16 }
{
    let mut cells = [0u8; 16];
    put_settings(&mut cells, 0, g);
    numbers::write_bytes(&cells, out)
}

pub fn write_tally(y: Tally, out: &mut [u8]) -> Result<usize, Refusal>
    ensures out_after { outcome result out.new ≡ writes (tally_bytes y) out.old }
    ensures reads_back { Written result → tally_at out.new 0 ≡ y }
    ensures size { length (tally_bytes y) ≡ 15 }
{
    let mut cells = [0u8; 15];
    put_tally(&mut cells, 0, y);
    numbers::write_bytes(&cells, out)
}

fn value_at(bytes: &[u8], at: usize) -> Value
    requires { at ≤ 4000 }
    ensures { result ≡ value_at bytes.now at }
{
    let present = numbers::byte_at(bytes, at);
    let n = numbers::u32_at(bytes, at + 1);
    (present != 0).then_some(n.cast_signed())
}

fn slots_at(bytes: &[u8], at: usize) -> [Value; 9]
    requires { at ≤ 3000 }
    ensures { result ≡ slots_at 9 bytes.now at }
{
    array::from_fn(|i| value_at(bytes, at + 5 * i))
}

fn fork_at(bytes: &[u8], at: usize) -> Fork
    requires { at ≤ 3000 }
    ensures { result ≡ fork_at bytes.now at }
{
    Fork {
        votes: value_at(bytes, at),
        start: value_at(bytes, at + 5),
        version: value_at(bytes, at + 10),
    }
}

pub(crate) fn table_at(bytes: &[u8], at: usize) -> Table
    requires { at ≤ 2000 }
    ensures { result ≡ table_at bytes.now at }
{
    Table {
        ordinary: slots_at(bytes, at),
        fork: fork_at(bytes, at + 45),
    }
}

pub(crate) fn settings_at(bytes: &[u8], at: usize) -> VotingConfig
    requires { at ≤ 2000 }
    ensures { result ≡ settings_at bytes.now at }
{
    VotingConfig {
        voting_length: numbers::u32_at(bytes, at),
        soft_fork_epochs: numbers::u32_at(bytes, at + 4),
        activation_epochs: numbers::u32_at(bytes, at + 8),
        version2_activation_height: numbers::u32_at(bytes, at + 12),
    }
}

fn entry_at(bytes: &[u8], at: usize) -> Entry
    requires { at ≤ 3000 }
    ensures { result ≡ entry_at bytes.now at }
{
    Entry {
        id: numbers::byte_at(bytes, at).cast_signed(),
        count: numbers::u32_at(bytes, at + 1),
    }
}

pub(crate) fn tally_at(bytes: &[u8], at: usize) -> Tally
    requires { at ≤ 2000 }
    ensures { result ≡ tally_at bytes.now at }
{
    Tally {
        first: entry_at(bytes, at),
        second: entry_at(bytes, at + 5),
        third: entry_at(bytes, at + 10),
    }
}

fn put_marked(out: &mut [u8], at: usize, mark: u8, n: u32)
    requires { at ≤ 4000 }
    ensures { Put 5 at (marked mark n) out.old out.new }
{
    output::put(out, at, mark);
    numbers::put_u32(out, at + 1, n);
}

fn put_value(out: &mut [u8], at: usize, v: Value)
    requires { at ≤ 4000 }
    ensures put { Put 5 at (value_bytes v) out.old out.new }
    ensures back { Back value_at (value_bytes v) v }
{
    match v {
        None => put_marked(out, at, 0, 0),
        Some(z) => put_marked(out, at, 1, z.cast_unsigned()),
    }
}

fn put_slots(out: &mut [u8], at: usize, slots: [Value; 9])
    requires { at ≤ 3000 }
    ensures put { Put 45 at (slots_bytes slots) out.old out.new }
    ensures back { Back (slots_at 9) (slots_bytes slots) slots }
{
    for (i, s) in slots.iter().enumerate() {
        put_value(out, at + 5 * i, *s);
    }
}

fn put_fork(out: &mut [u8], at: usize, f: Fork)
    requires { at ≤ 3000 }
    ensures put { Put 15 at (fork_bytes f) out.old out.new }
    ensures back { Back fork_at (fork_bytes f) f }
{
    put_value(out, at, f.votes);
    put_value(out, at + 5, f.start);
    put_value(out, at + 10, f.version);
}

pub(crate) fn put_table(out: &mut [u8], at: usize, t: Table)
    requires { at ≤ 2000 }
    ensures put { Put 60 at (table_bytes t) out.old out.new }
    ensures back { Back table_at (table_bytes t) t }
{
    put_slots(out, at, t.ordinary);
    put_fork(out, at + 45, t.fork);
}

pub(crate) fn put_settings(out: &mut [u8], at: usize, g: VotingConfig)
    requires { at ≤ 2000 }
    ensures put { Put 16 at (settings_bytes g) out.old out.new }
    ensures back { Back settings_at (settings_bytes g) g }
{
    numbers::put_u32(out, at, g.voting_length);
    numbers::put_u32(out, at + 4, g.soft_fork_epochs);
    numbers::put_u32(out, at + 8, g.activation_epochs);
    numbers::put_u32(out, at + 12, g.version2_activation_height);
}

fn put_entry(out: &mut [u8], at: usize, e: Entry)
    requires { at ≤ 3000 }
    ensures put { Put 5 at (entry_bytes e) out.old out.new }
    ensures back { Back entry_at (entry_bytes e) e }
{
    put_marked(out, at, e.id.cast_unsigned(), e.count);
}

pub(crate) fn put_tally(out: &mut [u8], at: usize, y: Tally)
    requires { at ≤ 2000 }
    ensures put { Put 15 at (tally_bytes y) out.old out.new }
    ensures back { Back tally_at (tally_bytes y) y }
{
    put_entry(out, at, y.first);
    put_entry(out, at + 5, y.second);
    put_entry(out, at + 10, y.third);
}
