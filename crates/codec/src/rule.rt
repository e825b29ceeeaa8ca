// Rule ids, and the offsets that stand for them on the wire. docs/RULES.md, "Settings update".
ghost use Rattle.std.specs.Prelude.{◌≡◌};
ghost use Rattle.codec.specs.Rule.{rule_of, offset_of};

use crate::signed::{bits_i16, i16_of};

// The rule id of offset 0.
pub const FIRST_RULE_ID: i16 = 1000;

#[derive(Clone, Copy)]
pub struct WireOffset(pub u16);

#[derive(Clone, Copy)]
pub struct RuleId(pub i16);

impl WireOffset {
    // The rule that an offset stands for: the offset plus 1,000, wrapped to signed 16 bits.
    pub fn rule_id(self) -> RuleId
        ensures result_value { result.0 ≡ rule_of self.0 }
        ensures writes_back { offset_of (rule_of self.0) ≡ self.0 }
    {
        RuleId(i16_of(std::num::wrapping_add_u16(self.0, FIRST_RULE_ID as u16)))
    }
}

impl RuleId {
    // The offset that stands for a rule on the wire: the id less 1,000, wrapped to 16 bits.
    pub fn wire_offset(self) -> WireOffset
        ensures result_value { result.0 ≡ offset_of self.0 }
        ensures reads_back { rule_of (offset_of self.0) ≡ self.0 }
    {
        WireOffset(std::num::wrapping_sub_u16(bits_i16(self.0), FIRST_RULE_ID as u16))
    }
}
