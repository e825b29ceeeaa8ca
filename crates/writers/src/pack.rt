// Bodies and parameters written. docs/RULES.md, "Writers and rest".
ghost use Rattle.std.specs.Prelude.{◌≡◌, ℕ, ◌≤◌, List, length};
ghost use Rattle.std.proofs.lemmas.List.Edits.{sets};
ghost use Rattle.codec.specs.Check.{passed};
ghost use Rattle.codec.specs.Output.{outcome};
ghost use Rattle.extension.specs.Pack.{wire_fields, check_fields, packed};
ghost use Rattle.writers.specs.Survey.{surveyed, check_survey};
ghost use Rattle.writers.specs.Pack.{pack_extension, PackedBack, entry_bytes, parameter_bytes, pack_parameters, ParametersBack};

use codec::refusal::Refusal;
use codec::{big_endian, output, vlq};
use extension::body;
use extension::parameters::ParameterMap;
use voting::table::Value;

// The most fields that are written.
pub const FIELDS_MOST: usize = 65536;

// A list of fields, walked to its end or to where it is cut: how many fields, whether one has a long value, and 3 or 5 where it is cut.
#[derive(Clone, Copy)]
struct Survey {
    count: usize,
    long: bool,
    whole: Result<(), Refusal>,
}

// Writes a body: the id, the number of fields, and the fields, which are handed over as they stand in a body, key, length and value.
pub fn pack_extension_bytes(
    header_id: [u8; 32],
    fields: &[u8],
    out: &mut [u8],
) -> Result<usize, Refusal>
    ensures out_after { outcome result out.new ≡ pack_extension header_id fields.now out.old }
    ensures back { check_fields (wire_fields fields.now) ≡ passed → length (packed header_id fields.now) ≤ 65536 → PackedBack header_id fields.now }
{
    let w = survey_fields(fields);
    check_survey(w)?;
    let count = w.count as u64;
    let first = body::HEADER_ID_SIZE + vlq::size(count);
    if out.len() < first {
        return Err(Refusal::OutputShort);
    }
    if out.len() - first < fields.len() {
        return Err(Refusal::OutputShort);
    }
    output::put_bytes(out, 0, &header_id);
    vlq::put(out, body::HEADER_ID_SIZE, count);
    output::put_bytes(out, first, fields);
    Ok(first + fields.len())
}

fn survey_fields(fields: &[u8]) -> Survey
    ensures { result ≡ surveyed (wire_fields fields.now) }
{
    let mut count: usize = 0;
    let mut long = false;
    let mut at: usize = 0;
    while at < fields.len() {
        let room = fields.len() - at;
        if room < 3 {
            return Survey {
                count,
                long,
                whole: Err(Refusal::FieldHeaderCut),
            };
        }
        let n = fields[at + 2] as usize;
        if room - 3 < n {
            return Survey {
                count,
                long,
                whole: Err(Refusal::ValueCut),
            };
        }
        count += 1;
        long |= body::VALUE_MOST < n;
        at += 3 + n;
    }
    Survey {
        count,
        long,
        whole: Ok(()),
    }
}

fn check_survey(w: Survey) -> Result<(), Refusal>
    ensures { result ≡ check_survey w }
{
    if FIELDS_MOST < w.count {
        return Err(Refusal::InputLong);
    }
    if w.long {
        return Err(Refusal::WrittenValueLong);
    }
    w.whole
}

// Writes parameters as fields, in the order of signed ids; 124 is dropped.
pub fn pack_parameters_to_kv(params: ParameterMap, out: &mut [u8]) -> Result<usize, Refusal>
    ensures out_after { outcome result out.new ≡ pack_parameters params out.old }
    ensures reads_back { (header : List ℕ) → length header ≡ 32 → ParametersBack params header }
{
    let n = entries_size(params);
    if out.len() < n {
        return Err(Refusal::OutputShort);
    }
    put_entries(out, params);
    Ok(n)
}

fn entries_size(params: ParameterMap) -> usize
    ensures { result ≡ length (parameter_bytes params) }
{
    let mut n: usize = 0;
    for k in 0..=255 {
        let id = std::num::wrapping_add_u8(k, 128);
        n += entry_size(id, params.get(id));
    }
    n
}

fn entry_size(id: u8, value: Value) -> usize
    ensures { result ≡ length (entry_bytes id value) }
{
    match value {
        None => 0,
        Some(_) => {
            if id == body::ID_SOFT_FORK_DISABLING_RULES {
                0
            } else {
                7
            }
        }
    }
}

fn put_entries(out: &mut [u8], params: ParameterMap)
    ensures { out.new ≡ sets out.old 0 (parameter_bytes params) }
{
    let mut at: usize = 0;
    for k in 0..=255 {
        let id = std::num::wrapping_add_u8(k, 128);
        let v = params.get(id);
        put_entry(out, at, id, v);
        at += entry_size(id, v);
    }
}

fn put_entry(out: &mut [u8], at: usize, id: u8, value: Value)
    ensures { out.new ≡ sets out.old at (entry_bytes id value) }
{
    match value {
        None => {}
        Some(x) => {
            if id == body::ID_SOFT_FORK_DISABLING_RULES {
                return;
            }
            let b = big_endian::i32_to_be_bytes(x);
            let field = [0, id, 4, b[0], b[1], b[2], b[3]];
            output::put_bytes(out, at, &field);
        }
    }
}
