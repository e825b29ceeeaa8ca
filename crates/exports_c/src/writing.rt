// Bodies, parameters and updates written. The answer is how many bytes were written, or minus the refusal's number.
ghost use Rattle.std.specs.Prelude.{◌≡◌};
ghost use Rattle.writers.specs.Encode.{encode_update, encode_rules};
ghost use Rattle.writers.specs.Pack.{pack_extension, pack_parameters};
ghost use Rattle.writers.specs.Fields.{pack_fields};
ghost use Rattle.wire.specs.Numbers.{bytes_at};
ghost use Rattle.wire.specs.Map.{map_of};
ghost use Rattle.exports.specs.Reply.{reply, sized};

use exports::writing as calls;

// A body of an id of 32 bytes and of fields as they stand in a body: minus 22, 24, 3, 5, 21.
#[unsafe(no_mangle)]
pub extern "C" fn ergo_pack_extension_bytes(
    header_id: &[u8],
    fields: &[u8],
    out: &mut [u8],
) -> usize
    ensures { reply result out.new ≡ sized (pack_extension (bytes_at 32 header_id.now 0) fields.now out.old) }
{
    calls::ergo_pack_extension_bytes(header_id, fields, out)
}

// Fields as they stand in a body, of keys of two bytes each, sizes, and the bytes of all values one after another: minus 22, 24, 3, 5, 21.
#[unsafe(no_mangle)]
pub extern "C" fn ergo_pack_fields(
    keys: &[u8],
    sizes: &[u32],
    values: &[u8],
    out: &mut [u8],
) -> usize
    ensures { reply result out.new ≡ sized (pack_fields keys.now sizes.now values.now out.old) }
{
    calls::ergo_pack_fields(keys, sizes, values, out)
}

// Parameters as fields: minus 21.
#[unsafe(no_mangle)]
pub extern "C" fn ergo_pack_parameters_to_kv(parameters: &[u8], out: &mut [u8]) -> usize
    ensures { reply result out.new ≡ sized (pack_parameters (map_of parameters.now) out.old) }
{
    calls::ergo_pack_parameters_to_kv(parameters, out)
}

// An update of rules, and of statuses by their rule ids, codes, sizes, and raw bytes one after another: minus 22, 23, 7, 21.
#[unsafe(no_mangle)]
pub extern "C" fn ergo_encode_validation_settings_update(
    rules: &[u16],
    ids: &[i16],
    codes: &[u8],
    sizes: &[u32],
    raw: &[u8],
    out: &mut [u8],
) -> usize
    ensures { reply result out.new ≡ sized (encode_update rules.now ids.now codes.now sizes.now raw.now out.old) }
{
    calls::ergo_encode_validation_settings_update(rules, ids, codes, sizes, raw, out)
}

// An update of rules alone: minus 22, 21.
#[unsafe(no_mangle)]
pub extern "C" fn ergo_encode_disabled_rules(rules: &[u16], out: &mut [u8]) -> usize
    ensures { reply result out.new ≡ sized (encode_rules rules.now out.old) }
{
    calls::ergo_encode_disabled_rules(rules, out)
}
