// Extension bodies.
ghost use Rattle.std.specs.Prelude.{◌≡◌};
ghost use Rattle.codec.specs.Output.{writes};
ghost use Rattle.extension.specs.Body.{extension_of, body_field, proposed_update, check_body};
ghost use Rattle.extension.specs.Parameters.{parameters_of};
ghost use Rattle.wire.specs.Places.{section_bytes, field_bytes};
ghost use Rattle.wire.specs.Map.{map_bytes};
ghost use Rattle.exports.specs.Calls.{into};
ghost use Rattle.exports.specs.Reply.{reply, numbered, sized, number_of};

use crate::answer;
use extension::{body, parameters};
use wire::{map, numbers, places};

// Whether a body is in form: 0, or 22, 1 to 6.
#[unsafe(no_mangle)]
pub extern "C" fn ergo_check_body(bytes: &[u8]) -> u8
    ensures { result ≡ number_of (check_body bytes.now) }
{
    answer::number_of(body::check_body(bytes))
}

// The section of a body's fields, into cells: 0, or 22, 1 to 5, 21. The id is the body's first 32 bytes.
#[unsafe(no_mangle)]
pub extern "C" fn ergo_parse_extension_bytes(bytes: &[u8], out: &mut [u8]) -> u8
    ensures { reply result out.new ≡ numbered (into section_bytes (extension_of bytes.now) out.old) }
{
    match body::parse_extension_bytes(bytes) {
        Ok(s) => answer::number_of(places::write_section(s, out)),
        Err(e) => e.number(),
    }
}

// The field at a position of a body, into cells: 0, or 22, 3, 4, 5, 21. The next one stands where its value ends.
#[unsafe(no_mangle)]
pub extern "C" fn ergo_field_at(bytes: &[u8], at: usize, out: &mut [u8]) -> u8
    ensures { reply result out.new ≡ numbered (into field_bytes (body_field bytes.now at) out.old) }
{
    match body::field_at(bytes, at) {
        Ok(f) => answer::number_of(places::write_field(f, out)),
        Err(e) => e.number(),
    }
}

// A body's parameters, into cells: how many bytes were written, or minus 22, 1 to 6, 21.
#[unsafe(no_mangle)]
pub extern "C" fn ergo_parse_parameters_from_kv(bytes: &[u8], out: &mut [u8]) -> usize
    ensures { reply result out.new ≡ sized (into map_bytes (parameters_of bytes.now) out.old) }
{
    match parameters::parse_parameters_from_kv(bytes) {
        Ok(m) => answer::size_of(map::write_map(m, out)),
        Err(e) => answer::minus(e.number()),
    }
}

// The bytes of the update that a body proposes, into cells: how many, or minus 21. None where there is no update, or the body is refused.
#[unsafe(no_mangle)]
pub extern "C" fn ergo_extract_disabling_rules_from_kv(bytes: &[u8], out: &mut [u8]) -> usize
    ensures { reply result out.new ≡ sized (writes (proposed_update bytes.now) out.old) }
{
    let part = body::extract_disabling_rules_from_kv(bytes);
    answer::size_of(numbers::write_bytes(part, out))
}
