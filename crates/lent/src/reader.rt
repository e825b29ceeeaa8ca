// A reader that holds a body and a position. docs/RULES.md, "Extension body and match".
ghost use Rattle.std.specs.Prelude.{◌≡◌, ◌≤◌, length};
ghost use Rattle.lent.specs.Reader.{cursor_of, next_of, value_at, Begins, Reads};

use codec::refusal::Refusal;
use extension::body;
use extension::body::FieldPlace;

// The position of the next field, and how many fields are left.
#[derive(Clone, Copy)]
pub struct Cursor {
    pub at: usize,
    pub left: u32,
}

// Where a field stands, and the cursor after it.
#[derive(Clone, Copy)]
pub struct FieldRead {
    pub place: FieldPlace,
    pub cursor: Cursor,
}

// A body, and a cursor of it or its refusal.
#[derive(Clone, Copy)]
pub struct Reader<'a> {
    pub body: &'a [u8],
    pub cursor: Result<Cursor, Refusal>,
}

// A reader before the first field of any body.
pub fn begin<'a>(body: &'a [u8]) -> Reader<'a>
    ensures { (result.body ≡ body.entry) × (result.cursor ≡ cursor_of body.now) }
{
    Reader {
        body,
        cursor: cursor_of(body),
    }
}

// A reader at another place of its body.
pub fn moved<'a>(r: Reader<'a>, cursor: Result<Cursor, Refusal>) -> Reader<'a>
    ensures { (result.body ≡ r.entry.body) × (result.cursor ≡ cursor) }
{
    Reader { cursor, ..r }
}

// The next field, and the cursor after it; none where none is left; or the refusal of the body.
pub fn next<'a>(r: Reader<'a>) -> Result<Option<FieldRead>, Refusal>
    ensures { result ≡ next_of r.entry.body.now r.entry.cursor }
{
    next_at(r.body, r.cursor)
}

// The next field's value, as the part of the body that holds it; the empty part where there is none.
pub fn value<'a>(r: Reader<'a>) -> &'a [u8]
    ensures { result.now ≡ value_at r.entry.body.now r.entry.cursor }
{
    value_at(r.body, r.cursor)
}

// With plain parameters: a reader is made at a place of a body, and reads.
pub fn read_at(body: &[u8], cursor: Result<Cursor, Refusal>) -> Result<Option<FieldRead>, Refusal>
    ensures { result ≡ next_of body.now cursor }
{
    next(moved(begin(body), cursor))
}

// Where the fields of a body begin, and how many there are; or its refusal.
pub fn cursor_of(body: &[u8]) -> Result<Cursor, Refusal>
    ensures value { result ≡ cursor_of body.now }
    ensures begins { Begins body.now result }
{
    let fields = body::parse_extension_bytes(body)?;
    Ok(Cursor {
        at: fields.begin,
        left: fields.count,
    })
}

// The field at a cursor of a body.
pub fn next_at(body: &[u8], cursor: Result<Cursor, Refusal>) -> Result<Option<FieldRead>, Refusal>
    ensures value { result ≡ next_of body.now cursor }
    ensures reads { length body.now ≤ 65536 → Reads body.now cursor result }
{
    let c = cursor?;
    if c.left == 0 {
        return Ok(None);
    }
    let place = body::field_at(body, c.at)?;
    Ok(Some(FieldRead {
        place,
        cursor: Cursor {
            at: place.end,
            left: c.left - 1,
        },
    }))
}

// The value of the field at a cursor of a body, as the part of the body that holds it.
pub fn value_at(body: &[u8], cursor: Result<Cursor, Refusal>) -> &[u8]
    ensures { result.now ≡ value_at body.now cursor }
{
    match cursor {
        Ok(c) if 0 < c.left => body::field_value(body, c.at),
        _ => &body[..0],
    }
}
