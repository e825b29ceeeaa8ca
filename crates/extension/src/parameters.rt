// The parameters of a body, and the match of a computed table against them. docs/RULES.md, "Extension body and match".
ghost use Rattle.std.specs.Prelude.{◌≡◌, not, [], ◌∷◌};
ghost use Rattle.extension.specs.Section.{section_items};
ghost use Rattle.extension.specs.Body.{read_field};
ghost use Rattle.extension.specs.Parameters.{no_parameters, entry_of, store, number_in, taken, parameters_in, parameters_of, agrees, check_parameters, LeastCarried};

use crate::body;
use crate::section::Section;
use codec::big_endian;
use codec::refusal::Refusal;
use voting::table::{Table, Value};

// One entry for each id byte.
#[derive(Clone, Copy)]
pub struct ParameterMap {
    pub entries: [Value; 256],
}

// 15, with the least id whose entry is missing or different.
#[derive(Clone, Copy, Debug, PartialEq, Eq)]
pub struct Mismatch {
    pub id: u8,
}

// The ids of a table's entries, in rising order.
pub const TABLE_IDS: [u8; 12] = [1, 2, 3, 4, 5, 6, 7, 8, 9, 121, 122, 123];

impl ParameterMap {
    pub fn get(self, id: u8) -> Value
        ensures { result ≡ entry_of self id }
    {
        self.entries[id as usize]
    }

    pub fn with(mut self, id: u8, value: Value) -> ParameterMap
        ensures { result ≡ store self id value }
    {
        self.entries[id as usize] = value;
        self
    }
}

// The parameters of a body; or 22, 1 to 6.
pub fn parse_parameters_from_kv(body: &[u8]) -> Result<ParameterMap, Refusal>
    ensures { result ≡ parameters_of body.now }
{
    let fields = body::check_body(body)?;
    Ok(parameters_in(body, fields))
}

pub fn no_parameters() -> ParameterMap
    ensures { result ≡ no_parameters }
{
    ParameterMap {
        entries: [None; 256],
    }
}

fn parameters_in(body: &[u8], fields: Section) -> ParameterMap
    ensures { result ≡ parameters_in (section_items (read_field body.now) fields) no_parameters }
{
    let mut m = no_parameters();
    let mut at = fields.begin;
    for _ in 0..fields.count {
        match body::read_field(body, at) {
            Ok(f) => {
                take_field(&mut m, f.key0, f.key1, &body[f.start..f.end]);
                at = f.end;
            }
            Err(_) => break,
        }
    }
    m
}

// One field: stored if it is a parameter.
fn take_field(m: &mut ParameterMap, key0: u8, key1: u8, v: &[u8])
    ensures { m.new ≡ taken (record { key0 = key0; key1 = key1; value = v.now }) m.old }
{
    let [a, b, c, d] = *v else { return };
    if body::parameter_key(key0, key1) {
        m.entries[key1 as usize] = number_in(a, b, c, d);
    }
}

// Four bytes as an entry, the most significant first.
pub fn number_in(a: u8, b: u8, c: u8, d: u8) -> Value
    ensures { result ≡ number_in (a ∷ b ∷ c ∷ d ∷ []) }
{
    Some(big_endian::i32_from_be_bytes([a, b, c, d]))
}

// 15 where a computed entry is missing or different among the parameters, with the least such id; others are not looked at.
pub fn check_parameters_v6(expected: Table, parsed: ParameterMap) -> Result<(), Mismatch>
    ensures value { result ≡ check_parameters expected parsed }
    ensures least { LeastCarried expected parsed result }
{
    for id in TABLE_IDS {
        if differs(expected.get(id), parsed.get(id)) {
            return Err(Mismatch { id });
        }
    }
    Ok(())
}

// Whether a computed entry is missing or different; an absent one asks nothing.
pub fn differs(computed: Value, found: Value) -> bool
    ensures { result ≡ not (agrees computed found) }
{
    computed.is_some_and(|x| found != Some(x))
}
