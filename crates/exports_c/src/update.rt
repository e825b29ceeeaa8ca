// Settings updates.
ghost use Rattle.std.specs.Prelude.{◌≡◌};
ghost use Rattle.extension.specs.Mandatory.{mandatory};
ghost use Rattle.extension.specs.Update.{update_of, update_rule, update_status};
ghost use Rattle.wire.specs.Places.{update_bytes, rule_bytes, status_bytes};
ghost use Rattle.exports.specs.Reply.{reply, numbered};
ghost use Rattle.exports.specs.Calls.{flag, into};

use exports::update as calls;

// The sections of an update's rules and statuses, into cells: 0, or 22, 7, 8, 21.
#[unsafe(no_mangle)]
pub extern "C" fn ergo_parse_validation_settings_update(bytes: &[u8], out: &mut [u8]) -> u8
    ensures { reply result out.new ≡ numbered (into update_bytes (update_of bytes.now) out.old) }
{
    calls::ergo_parse_validation_settings_update(bytes, out)
}

// The rule at a position of an update, into cells: 0, or 22, 7, 21.
#[unsafe(no_mangle)]
pub extern "C" fn ergo_rule_at(bytes: &[u8], at: usize, out: &mut [u8]) -> u8
    ensures { reply result out.new ≡ numbered (into rule_bytes (update_rule bytes.now at) out.old) }
{
    calls::ergo_rule_at(bytes, at, out)
}

// The status at a position of an update, into cells: 0, or 22, 7, 21. The next one stands where its raw bytes end.
#[unsafe(no_mangle)]
pub extern "C" fn ergo_status_at(bytes: &[u8], at: usize, out: &mut [u8]) -> u8
    ensures { reply result out.new ≡ numbered (into status_bytes (update_status bytes.now at) out.old) }
{
    calls::ergo_status_at(bytes, at, out)
}

// Whether a rule is mandatory: 1 or 0.
#[unsafe(no_mangle)]
pub extern "C" fn ergo_rule_may_not_be_disabled(id: i32) -> u8
    ensures { result ≡ flag (mandatory id) }
{
    calls::ergo_rule_may_not_be_disabled(id)
}
