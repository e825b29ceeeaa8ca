// The parameters of a body.
ghost use Rattle.std.specs.Prelude.{◌≡◌, length};
ghost use Rattle.std.proofs.lemmas.List.Edits.{sets};
ghost use Rattle.codec.specs.Output.{outcome, writes};
ghost use Rattle.wire.specs.Map.{present_bytes, map_bytes, map_of, MapBack};

use codec::refusal::Refusal;
use codec::{big_endian, output};
use extension::parameters;
use extension::parameters::ParameterMap;
use voting::table::Value;

const PRESENT_SIZE: usize = 5;

// Entries one after another; a later equal id wins, and up to four bytes left over are none.
pub fn map_of(bytes: &[u8]) -> ParameterMap
    ensures { result ≡ map_of bytes.now }
{
    let mut m = parameters::no_parameters();
    for entry in bytes.chunks_exact(PRESENT_SIZE) {
        let number = [entry[1], entry[2], entry[3], entry[4]];
        let z = big_endian::i32_from_be_bytes(number);
        m = m.with(entry[0], Some(z));
    }
    m
}

pub fn write_map(m: ParameterMap, out: &mut [u8]) -> Result<usize, Refusal>
    ensures out_after { outcome result out.new ≡ writes (map_bytes m) out.old }
    ensures reads_back { MapBack m }
{
    let n = map_size(m);
    if out.len() < n {
        return Err(Refusal::OutputShort);
    }
    put_map(out, m);
    Ok(n)
}

fn map_size(m: ParameterMap) -> usize
    ensures { result ≡ length (map_bytes m) }
{
    let mut n: usize = 0;
    for id in 0..=u8::MAX {
        let v = m.get(id);
        n += present_size(id, v);
    }
    n
}

fn present_size(id: u8, v: Value) -> usize
    ensures { result ≡ length (present_bytes id v) }
{
    match v {
        None => 0,
        Some(_) => PRESENT_SIZE,
    }
}

fn put_map(out: &mut [u8], m: ParameterMap)
    ensures { out.new ≡ sets out.old 0 (map_bytes m) }
{
    let mut at: usize = 0;
    for id in 0..=u8::MAX {
        let v = m.get(id);
        put_present(out, at, id, v);
        at += present_size(id, v);
    }
}

fn put_present(out: &mut [u8], at: usize, id: u8, v: Value)
    ensures { out.new ≡ sets out.old at (present_bytes id v) }
{
    match v {
        None => {}
        Some(z) => {
            let b = big_endian::i32_to_be_bytes(z);
            output::put_bytes(out, at, &[id, b[0], b[1], b[2], b[3]]);
        }
    }
}
