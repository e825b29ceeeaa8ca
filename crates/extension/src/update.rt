// A settings update: rules to disable, and statuses of rules. docs/RULES.md, "Settings update".
ghost use Rattle.std.specs.Prelude.{◌≡◌};
ghost use Rattle.std.specs.Option.{ok_or, option_map};
ghost use Rattle.codec.specs.declared.refusal.Refusal.TheVariants.{UpdateUnreadable};
ghost use Rattle.codec.specs.Check.{and_then};
ghost use Rattle.codec.specs.Vlq.{vlq_at};
ghost use Rattle.extension.specs.Rules.{surveyed, rules_of};
ghost use Rattle.extension.specs.Encode.{UpdateAgain};
ghost use Rattle.extension.specs.Update.{rule_at, read_rule, status_at, placed_status, read_status, update_rule, update_status, status_raw, count_in, items_from, no_update, with_rules, update_of, disables, proposed_of};

use crate::body::{Head, INPUT_MOST};
use crate::mandatory;
use crate::section::Section;
use codec::refusal::Refusal;
use codec::rule::{RuleId, WireOffset};
use codec::vlq;

// A rule to disable, and the position after it. On the wire it is its id and no offset.
#[derive(Clone, Copy)]
pub struct RulePlace {
    pub id: u16,
    pub next: usize,
}

// The rule's id and the code; the raw bytes stand from start to end, and the next status at end.
#[derive(Clone, Copy)]
pub struct StatusPlace {
    pub rule: RuleId,
    pub code: u8,
    pub start: usize,
    pub end: usize,
}

// The rules and the statuses of an update, by where they stand in its bytes. An empty update has none.
#[derive(Clone, Copy, Default)]
pub struct Update {
    pub rules: Section,
    pub statuses: Section,
}

// An update, and whether it disables a certain rule.
#[derive(Clone, Copy)]
pub struct Proposed {
    pub update: Update,
    pub disables: bool,
}

// The rules of an update, from one pass over them: their section, whether one is mandatory, and whether a certain one is among them.
#[derive(Clone, Copy)]
struct Rules {
    section: Section,
    mandatory: bool,
    listed: bool,
}

// The rules and the statuses of an update; or 22, 7, 8.
pub fn parse_validation_settings_update(bytes: &[u8]) -> Result<Update, Refusal>
    ensures value { result ≡ update_of bytes.now }
    ensures again { UpdateAgain bytes.now result }
{
    let proposed = parse_proposed(bytes, 0)?;
    Ok(proposed.update)
}

// For the layers above: an update, and whether it disables a rule.
pub fn parse_proposed(bytes: &[u8], rule: u16) -> Result<Proposed, Refusal>
    ensures { result ≡ proposed_of bytes.now rule }
{
    if INPUT_MOST < bytes.len() {
        return Err(Refusal::InputLong);
    }
    if bytes.is_empty() {
        return Ok(Proposed {
            update: no_update(),
            disables: false,
        });
    }
    with_rules(bytes, rule, rules_from(bytes, rule)?)
}

// What a reader meets at a position of an update: a rule to disable.
pub fn rule_at(bytes: &[u8], at: usize) -> Result<RulePlace, Refusal>
    ensures { result ≡ update_rule bytes.now at }
{
    if INPUT_MOST < bytes.len() {
        return Err(Refusal::InputLong);
    }
    read_rule(bytes, at)
}

// What a reader meets at a position of an update: a status.
pub fn status_at(bytes: &[u8], at: usize) -> Result<StatusPlace, Refusal>
    ensures { result ≡ update_status bytes.now at }
{
    if INPUT_MOST < bytes.len() {
        return Err(Refusal::InputLong);
    }
    read_status(bytes, at)
}

// The raw bytes of the status at a position, as the part of the update that holds them; the empty part where there is none.
pub fn status_raw(bytes: &[u8], at: usize) -> &[u8]
    ensures { result.now ≡ status_raw bytes.now at }
{
    match status_at(bytes, at) {
        Ok(x) => &bytes[x.start..x.end],
        Err(_) => &bytes[..0],
    }
}

pub fn no_update() -> Update
    ensures { result ≡ no_update }
{
    Update::default()
}

// The rule at a position.
fn read_rule(bytes: &[u8], at: usize) -> Result<RulePlace, Refusal>
    ensures { result ≡ rule_at bytes.now at }
{
    let m = vlq::read_u16(bytes, at).ok_or(Refusal::UpdateUnreadable)?;
    Ok(RulePlace {
        id: m.value as u16,
        next: m.next,
    })
}

// The status at a position: an offset, and what follows it.
fn read_status(bytes: &[u8], at: usize) -> Result<StatusPlace, Refusal>
    ensures { result ≡ status_at bytes.now at }
{
    let m = vlq::read_u16(bytes, at).ok_or(Refusal::UpdateUnreadable)?;
    let offset = WireOffset(m.value as u16);
    read_sized(bytes, offset.rule_id(), m.next)
}

// After the offset: a size, a code byte, and that many raw bytes.
fn read_sized(bytes: &[u8], rule: RuleId, at: usize) -> Result<StatusPlace, Refusal>
    ensures { result ≡ placed_status bytes.now rule.0 (vlq_at 16 bytes.now at) }
{
    let m = vlq::read_u16(bytes, at).ok_or(Refusal::UpdateUnreadable)?;
    let next = m.next;
    let room = bytes.len() - next;
    let size = m.value as usize;
    if room < size + 1 {
        return Err(Refusal::UpdateUnreadable);
    }
    Ok(StatusPlace {
        rule,
        code: bytes[next],
        start: next + 1,
        end: next + 1 + size,
    })
}

// A count from 2^31 up reads as 0.
fn count_in(n: u64) -> u32
    ensures { result ≡ count_in n }
{
    if n < 0x8000_0000 { n as u32 } else { 0 }
}

// A count of items at a position, and where the first begins.
fn items_at(bytes: &[u8], at: usize) -> Result<Head, Refusal>
    ensures { result ≡ ok_or (option_map (λ m. record { count = count_in m.value; begin = m.next }) (vlq_at 32 bytes.now at)) UpdateUnreadable }
{
    let m = vlq::read_u32(bytes, at).ok_or(Refusal::UpdateUnreadable)?;
    Ok(Head {
        count: count_in(m.value),
        begin: m.next,
    })
}

// The rules: a count at the start, and so many of them.
fn rules_from(bytes: &[u8], rule: u16) -> Result<Rules, Refusal>
    ensures { result ≡ rules_of bytes.now rule (items_from (read_rule bytes.now) (vlq_at 32 bytes.now 0)) }
{
    let flags = mandatory::mandatory_flags();
    let Head { count, begin } = items_at(bytes, 0)?;
    let mut mandatory = false;
    let mut listed = false;
    let mut end = begin;
    for _ in 0..count {
        let x = read_rule(bytes, end)?;
        mandatory |= mandatory::flag_in(flags, x.id as u32);
        listed |= rule == x.id;
        end = x.next;
    }
    Ok(Rules {
        section: Section { count, begin, end },
        mandatory,
        listed,
    })
}

// The statuses' section: a count at a position, and the statuses.
fn statuses_from(bytes: &[u8], at: usize) -> Result<Section, Refusal>
    ensures { result ≡ items_from (read_status bytes.now) (vlq_at 32 bytes.now at) }
{
    let Head { count, begin } = items_at(bytes, at)?;
    let mut end = begin;
    for _ in 0..count {
        end = read_status(bytes, end)?.end;
    }
    Ok(Section { count, begin, end })
}

// After the rules: 8, and then the statuses.
fn with_rules(bytes: &[u8], rule: u16, rules: Rules) -> Result<Proposed, Refusal>
    requires { rules ≡ surveyed bytes.now rule rules.section }
    ensures { result ≡ and_then (with_rules bytes.now rules.section) (λ u. Ok (record { update = u; disables = disables bytes.now u rule })) }
{
    if rules.mandatory {
        return Err(Refusal::MandatoryDisabled);
    }
    let statuses = statuses_from(bytes, rules.section.end)?;
    Ok(Proposed {
        update: Update {
            rules: rules.section,
            statuses,
        },
        disables: rules.listed,
    })
}
