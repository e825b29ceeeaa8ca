// Fields written from lists. docs/RULES.md, "Writers and rest".
ghost use Rattle.std.specs.Prelude.{◌≡◌, ◌*◌, ◌≤◌, false, length};
ghost use Rattle.std.proofs.lemmas.List.Edits.{sets};
ghost use Rattle.codec.specs.Check.{passed};
ghost use Rattle.codec.specs.Output.{outcome};
ghost use Rattle.extension.specs.Section.{any};
ghost use Rattle.extension.specs.Encode.{sum};
ghost use Rattle.writers.specs.Fields.{field_list, field_bytes, fields_bytes, long_size, check_lists, pack_fields, FieldsBack};

use crate::{pack, sizes};
use codec::output;
use codec::refusal::Refusal;
use extension::body;

// The most bytes of a value.
const SIZE_MOST: u32 = body::VALUE_MOST as u32;

// Writes fields as they stand in a body, one after another. They are handed over as their keys (two bytes each), the sizes of their values,
// and the bytes of all values one after another.
pub fn pack_fields(
    keys: &[u8],
    sizes: &[u32],
    values: &[u8],
    out: &mut [u8],
) -> Result<usize, Refusal>
    ensures out_after { outcome result out.new ≡ pack_fields keys.now sizes.now values.now out.old }
    ensures reads_back { check_lists keys.now sizes.now values.now ≡ passed → FieldsBack (field_list keys.now sizes.now values.now) }
{
    check_lists(keys, sizes, values)?;
    let n = 3 * sizes.len() + values.len();
    if out.len() < n {
        return Err(Refusal::OutputShort);
    }
    put_fields(out, keys, sizes, values);
    Ok(n)
}

fn check_lists(keys: &[u8], sizes: &[u32], values: &[u8]) -> Result<(), Refusal>
    ensures { result ≡ check_lists keys.now sizes.now values.now }
{
    if pack::FIELDS_MOST < sizes.len() {
        return Err(Refusal::InputLong);
    }
    if sizes::any_above(sizes, SIZE_MOST) {
        return Err(Refusal::WrittenValueLong);
    }
    if keys.len() != 2 * sizes.len() {
        return Err(Refusal::FieldHeaderCut);
    }
    if !sizes::sum_is(sizes, values.len()) {
        return Err(Refusal::ValueCut);
    }
    Ok(())
}

fn put_fields(out: &mut [u8], keys: &[u8], sizes: &[u32], values: &[u8])
    requires { (length sizes.now ≤ 65536) × (any long_size sizes.now ≡ false) × (length keys.now ≡ 2 * length sizes.now) × (sum sizes.now ≡ length values.now) }
    ensures { out.new ≡ sets out.old 0 (fields_bytes (field_list keys.now sizes.now values.now)) }
{
    let mut p: usize = 0;
    for (i, size) in sizes.iter().enumerate() {
        let next = p + *size as usize;
        put_field(
            out,
            3 * i + p,
            keys[2 * i],
            keys[2 * i + 1],
            &values[p..next],
        );
        p = next;
    }
}

fn put_field(out: &mut [u8], at: usize, key0: u8, key1: u8, value: &[u8])
    requires { length value.now ≤ 255 }
    ensures { out.new ≡ sets out.old at (field_bytes (record { key0 = key0; key1 = key1; value = value.now })) }
{
    if out.len() <= at {
        return;
    }
    let head = [key0, key1, value.len() as u8];
    output::put_bytes(out, at, &head);
    output::put_bytes(out, at + 3, value);
}
