// The extension body: a 32-byte id, a count, and fields. docs/RULES.md, "Extension body and match".
ghost use Rattle.std.specs.Prelude.{◌≡◌, ◌≤◌, length, OnOk};
ghost use Rattle.codec.specs.Check.{and_then};
ghost use Rattle.extension.specs.Section.{listing, closed, section_items, any};
ghost use Rattle.extension.specs.Pack.{BodyAgain};
ghost use Rattle.extension.specs.Body.{field_at, read_field, extension_of, head_of, header_id, body_field, field_value, update_key, parameter_key, update_in, proposed_update, wrong_size, wrong_parameter, check_body};

use crate::section::Section;
use codec::refusal::Refusal;
use codec::vlq;

// The most bytes that a body or an update has.
pub const INPUT_MOST: usize = 65536;

pub const HEADER_ID_SIZE: usize = 32;

pub const VALUE_MOST: usize = 64;

// The second byte of the key, after a byte 0, under which an extension holds the proposed settings update.
pub const ID_SOFT_FORK_DISABLING_RULES: u8 = 124;

// The key's bytes; the value stands from start to end, and the next field at end.
#[derive(Clone, Copy)]
pub struct FieldPlace {
    pub key0: u8,
    pub key1: u8,
    pub start: usize,
    pub end: usize,
}

// How many fields a body has, and where the first begins.
#[derive(Clone, Copy)]
pub struct Head {
    pub count: u32,
    pub begin: usize,
}

// How many fields a body has, and where they begin and end; or 22, 1 to 5.
pub fn parse_extension_bytes(body: &[u8]) -> Result<Section, Refusal>
    ensures value { result ≡ extension_of body.now }
    ensures again { BodyAgain body.now result }
{
    let head = read_head(body)?;
    fields_section(body, head.count, head.begin)
}

// For the layers above: what stands before a body's fields; or 22, 1, 2.
pub fn read_head(body: &[u8]) -> Result<Head, Refusal>
    ensures head { result ≡ head_of body.now }
    ensures short { OnOk result (length body.now ≤ 65536) }
    ensures value { and_then result (λ h. closed h.count h.begin (listing (read_field body.now) h.count h.begin)) ≡ extension_of body.now }
{
    if INPUT_MOST < body.len() {
        return Err(Refusal::InputLong);
    }
    if body.len() < HEADER_ID_SIZE {
        return Err(Refusal::BodyShort);
    }
    let m = vlq::read_u32(body, HEADER_ID_SIZE).ok_or(Refusal::CountUnreadable)?;
    Ok(Head {
        count: m.value as u32,
        begin: m.next,
    })
}

// The id of the header that a body belongs to, as the part of the body that holds it; the empty part where the body is refused.
pub fn header_id(body: &[u8]) -> &[u8]
    ensures { result.now ≡ header_id body.now }
{
    match parse_extension_bytes(body) {
        Ok(_) => &body[..HEADER_ID_SIZE],
        Err(_) => &body[..0],
    }
}

// What a reader meets at a position of a body.
pub fn field_at(body: &[u8], at: usize) -> Result<FieldPlace, Refusal>
    ensures { result ≡ body_field body.now at }
{
    if INPUT_MOST < body.len() {
        return Err(Refusal::InputLong);
    }
    read_field(body, at)
}

// The value of the field at a position, as the part of the body that holds it; the empty part where there is none.
pub fn field_value(body: &[u8], at: usize) -> &[u8]
    ensures { result.now ≡ field_value body.now at }
{
    match field_at(body, at) {
        Ok(f) => &body[f.start..f.end],
        Err(_) => &body[..0],
    }
}

// The proposed settings update, as the part of the body that holds it; the empty part where there is none or the body is refused.
pub fn extract_disabling_rules_from_kv(body: &[u8]) -> &[u8]
    ensures { result.now ≡ proposed_update body.now }
{
    match parse_extension_bytes(body) {
        Ok(fields) => find_update(body, fields),
        Err(_) => &body[..0],
    }
}

// As parse_extension_bytes, and then 6 where a parameter's value is not four bytes.
pub fn check_body(body: &[u8]) -> Result<Section, Refusal>
    ensures { result ≡ check_body body.now }
{
    let fields = parse_extension_bytes(body)?;
    if any_wrong_size(body, fields) {
        return Err(Refusal::ParameterSize);
    }
    Ok(fields)
}

// The field at a position.
pub(crate) fn read_field(body: &[u8], at: usize) -> Result<FieldPlace, Refusal>
    ensures { result ≡ field_at body.now at }
{
    if body.len() < at {
        return Err(Refusal::FieldHeaderCut);
    }
    let room = body.len() - at;
    if room < 3 {
        return Err(Refusal::FieldHeaderCut);
    }
    let n = body[at + 2] as usize;
    if VALUE_MOST < n {
        return Err(Refusal::ValueLong);
    }
    if room - 3 < n {
        return Err(Refusal::ValueCut);
    }
    Ok(FieldPlace {
        key0: body[at],
        key1: body[at + 1],
        start: at + 3,
        end: at + 3 + n,
    })
}

// The section of count fields from a position on.
fn fields_section(body: &[u8], count: u32, begin: usize) -> Result<Section, Refusal>
    ensures { result ≡ closed count begin (listing (read_field body.now) count begin) }
{
    let mut end = begin;
    for _ in 0..count {
        end = read_field(body, end)?.end;
    }
    Ok(Section { count, begin, end })
}

// Whether a key holds the proposed settings update.
pub fn update_key(key0: u8, key1: u8) -> bool
    ensures { result ≡ update_key key0 key1 }
{
    (key0 == 0) & (key1 == ID_SOFT_FORK_DISABLING_RULES)
}

pub(crate) fn parameter_key(key0: u8, key1: u8) -> bool
    ensures { result ≡ parameter_key key0 key1 }
{
    (key0 == 0) & (key1 != ID_SOFT_FORK_DISABLING_RULES)
}

// The value of the first update field; the empty part where there is none.
fn find_update(body: &[u8], fields: Section) -> &[u8]
    ensures { result.now ≡ update_in (section_items (read_field body.now) fields) }
{
    let mut at = fields.begin;
    for _ in 0..fields.count {
        match read_field(body, at) {
            Ok(f) => {
                if update_key(f.key0, f.key1) {
                    return &body[f.start..f.end];
                }
                at = f.end;
            }
            Err(_) => break,
        }
    }
    &body[..0]
}

// Whether a field is a parameter whose value is not four bytes.
pub fn wrong_size(key0: u8, key1: u8, size: usize) -> bool
    ensures { result ≡ wrong_size key0 key1 size }
{
    parameter_key(key0, key1) & (size != 4)
}

fn any_wrong_size(body: &[u8], fields: Section) -> bool
    ensures { result ≡ any wrong_parameter (section_items (read_field body.now) fields) }
{
    let mut at = fields.begin;
    for _ in 0..fields.count {
        match read_field(body, at) {
            Ok(f) => {
                if wrong_size(f.key0, f.key1, f.end - f.start) {
                    return true;
                }
                at = f.end;
            }
            Err(_) => break,
        }
    }
    false
}
