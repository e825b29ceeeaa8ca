// Settings updates written. docs/RULES.md, "Settings update" and "Writers and rest".
ghost use Rattle.std.specs.Prelude.{◌≡◌, ◌+◌, ◌≤◌, true, false, [], length, pos, int_lt};
ghost use Rattle.codec.specs.Rule.{offset_of};
ghost use Rattle.codec.specs.Vlq.{vlq_bytes};
ghost use Rattle.std.proofs.lemmas.List.Edits.{sets};
ghost use Rattle.codec.specs.Check.{passed};
ghost use Rattle.codec.specs.Output.{outcome};
ghost use Rattle.extension.specs.Section.{any};
ghost use Rattle.extension.specs.Encode.{rules_bytes, status_bytes, statuses_bytes, status_list, agree, low_rule, check_update};
ghost use Rattle.writers.specs.Encode.{statuses_size, encode_update, encode_rules, EncodedAgain};

use crate::sizes;
use codec::refusal::Refusal;
use codec::rule::RuleId;
use codec::{output, rule, vlq};

// The most rules and the most statuses that are written, and the most bytes of one status.
const ITEMS_MOST: usize = 65536;

const RAW_MOST: u32 = 65535;

// Writes an update: the rules to disable, and the statuses, which are handed over as their rule ids, codes and sizes, and the raw bytes of
// all of them one after another.
pub fn encode_validation_settings_update(
    rules: &[u16],
    ids: &[i16],
    codes: &[u8],
    sizes: &[u32],
    raw: &[u8],
    out: &mut [u8],
) -> Result<usize, Refusal>
    ensures out_after { outcome result out.new ≡ encode_update rules.now ids.now codes.now sizes.now raw.now out.old }
    ensures back { check_update rules.now ids.now codes.now sizes.now raw.now ≡ passed → EncodedAgain rules.now (status_list ids.now codes.now sizes.now raw.now) }
{
    check_update(rules, ids, codes, sizes, raw)?;
    let n = rules.len() as u64;
    let k = ids.len() as u64;
    let first = vlq::size(n);
    let second = first + rules_size(rules);
    let third = second + vlq::size(k);
    let need = third + statuses_size(ids, sizes);
    if out.len() < need {
        return Err(Refusal::OutputShort);
    }
    vlq::put(out, 0, n);
    put_rules(out, first, rules);
    vlq::put(out, second, k);
    put_statuses(out, third, ids, codes, sizes, raw);
    Ok(need)
}

// Writes an update that has rules alone.
pub fn encode_disabled_rules(rules: &[u16], out: &mut [u8]) -> Result<usize, Refusal>
    ensures out_after { outcome result out.new ≡ encode_rules rules.now out.old }
    ensures back { length rules.now ≤ 65536 → EncodedAgain rules.now [] }
{
    if ITEMS_MOST < rules.len() {
        return Err(Refusal::InputLong);
    }
    let n = rules.len() as u64;
    let first = vlq::size(n);
    let second = first + rules_size(rules);
    let need = second + 1;
    if out.len() < need {
        return Err(Refusal::OutputShort);
    }
    vlq::put(out, 0, n);
    put_rules(out, first, rules);
    output::put(out, second, 0);
    Ok(need)
}

// fit: where nothing is refused every id was looked at, and none is above 32,767.
fn check_update(
    rules: &[u16],
    ids: &[i16],
    codes: &[u8],
    sizes: &[u32],
    raw: &[u8],
) -> Result<(), Refusal>
    ensures value { result ≡ check_update rules.now ids.now codes.now sizes.now raw.now }
    ensures fit { result ≡ passed → any (int_lt (pos 32767)) ids.now ≡ false }
{
    if ITEMS_MOST < rules.len() {
        return Err(Refusal::InputLong);
    }
    if ITEMS_MOST < ids.len() {
        return Err(Refusal::InputLong);
    }
    if ITEMS_MOST < codes.len() {
        return Err(Refusal::InputLong);
    }
    if ITEMS_MOST < sizes.len() {
        return Err(Refusal::InputLong);
    }
    if sizes::any_above(sizes, RAW_MOST) {
        return Err(Refusal::InputLong);
    }
    if any_low(ids) {
        return Err(Refusal::StatusRuleLow);
    }
    if codes.len() != ids.len() {
        return Err(Refusal::UpdateUnreadable);
    }
    if sizes.len() != ids.len() {
        return Err(Refusal::UpdateUnreadable);
    }
    if !sizes::sum_is(sizes, raw.len()) {
        return Err(Refusal::UpdateUnreadable);
    }
    Ok(())
}

// fit: an id of 16 bits is not above 32,767.
fn any_low(ids: &[i16]) -> bool
    ensures value { result ≡ any low_rule ids.now }
    ensures fit { result ≡ false → any (int_lt (pos 32767)) ids.now ≡ false }
{
    ids.iter().any(|id| *id < rule::FIRST_RULE_ID)
}

fn rules_size(rules: &[u16]) -> usize
    requires { length rules.now ≤ 65536 }
    ensures { (result ≡ length (rules_bytes rules.now)) × (result ≤ 655360) }
{
    let mut n: usize = 0;
    for rule in rules {
        n += vlq::size(*rule as u64);
    }
    n
}

fn put_rules(out: &mut [u8], at: usize, rules: &[u16])
    ensures { out.new ≡ sets out.old at (rules_bytes rules.now) }
{
    let mut k = at;
    for rule in rules {
        if out.len() <= k {
            return;
        }
        let x = *rule as u64;
        vlq::put(out, k, x);
        k += vlq::size(x);
    }
}

fn statuses_size(ids: &[i16], sizes: &[u32]) -> usize
    requires { length ids.now ≤ 65536 }
    ensures { (result ≡ statuses_size ids.now sizes.now) × (result ≤ 281474978086912) }
{
    let mut n: usize = 0;
    for (id, size) in ids.iter().zip(sizes) {
        n += status_size(RuleId(*id), *size);
    }
    n
}

fn status_size(rule: RuleId, size: u32) -> usize
    ensures { (result ≡ length (vlq_bytes (offset_of rule.0)) + length (vlq_bytes size) + 1 + size) × (result ≤ 4294967317) }
{
    let offset = rule.wire_offset();
    vlq::size(offset.0 as u64) + vlq::size(size as u64) + 1 + size as usize
}

fn put_statuses(out: &mut [u8], at: usize, ids: &[i16], codes: &[u8], sizes: &[u32], raw: &[u8])
    requires { agree ids.now codes.now sizes.now raw.now ≡ true }
    ensures { out.new ≡ sets out.old at (statuses_bytes (status_list ids.now codes.now sizes.now raw.now)) }
{
    let mut k = at;
    let mut p: usize = 0;
    for ((id, code), size) in ids.iter().zip(codes).zip(sizes) {
        if out.len() <= k {
            return;
        }
        let rule = RuleId(*id);
        let next = p + *size as usize;
        put_status(out, k, rule, *code, &raw[p..next]);
        k += status_size(rule, *size);
        p = next;
    }
}

fn put_status(out: &mut [u8], at: usize, rule: RuleId, code: u8, raw: &[u8])
    ensures { out.new ≡ sets out.old at (status_bytes (record { rule = rule.0; code = code; raw = raw.now })) }
{
    if out.len() <= at {
        return;
    }
    let wire = rule.wire_offset();
    let offset = wire.0 as u64;
    let size = raw.len() as u64;
    let second = at + vlq::size(offset);
    let third = second + vlq::size(size);
    vlq::put(out, at, offset);
    vlq::put(out, second, size);
    output::put(out, third, code);
    output::put_bytes(out, third + 1, raw);
}
