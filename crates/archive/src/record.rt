// The record of an epoch: three tagged fields. docs/RULES.md, "Replay".
ghost use Rattle.std.specs.Prelude.{◌≡◌, [], ◌∷◌, ◌≤◌, length};
ghost use Rattle.codec.specs.BigEndian.{big_endian};
ghost use Rattle.archive.specs.Record.{sized_at, tagged_at, record_at, RecordExact};

use codec::big_endian;

// The most bytes of a body in a record.
pub const BODY_MOST: usize = 32768;

// What a field begins with.
enum Tag {
    Height = 1,
    Body,
    Votes,
}

// Why bytes begin with no record or field: at least how many bytes are missing, or another tag or length than asked for.
#[derive(Clone, Copy, Debug, PartialEq, Eq)]
pub enum Unread {
    Short(usize),
    Malformed,
}

// The height; where the body begins and ends, where the votes begin, and where they and the record end.
#[derive(Clone, Copy)]
pub struct RecordPlace {
    pub height: u32,
    pub body: usize,
    pub body_end: usize,
    pub votes: usize,
    pub end: usize,
}

// The record that bytes begin with, its votes having so many bytes.
pub fn read_record(bytes: &[u8], votes_size: usize) -> Result<RecordPlace, Unread>
    ensures value { result ≡ record_at bytes.now votes_size }
    ensures exact { RecordExact bytes.now votes_size }
{
    let height_end = tagged_at(bytes, 0, Tag::Height as u8, 4, 4)?;
    let body_end = tagged_at(bytes, height_end, Tag::Body as u8, 0, BODY_MOST)?;
    let end = tagged_at(bytes, body_end, Tag::Votes as u8, votes_size, votes_size)?;
    Ok(RecordPlace {
        height: big_endian::joined(bytes[3], bytes[4], bytes[5], bytes[6]),
        body: 10,
        body_end,
        votes: body_end + 3,
        end,
    })
}

// A tagged field at a position, its value having at least and at most so many bytes.
fn tagged_at(bytes: &[u8], at: usize, tag: u8, least: usize, most: usize) -> Result<usize, Unread>
    requires { at ≤ length bytes.now }
    ensures { result ≡ tagged_at bytes.now at tag least most }
{
    let room = bytes.len() - at;
    if room == 0 {
        return Err(Unread::Short(3));
    }
    if bytes[at] != tag {
        return Err(Unread::Malformed);
    }
    if room < 3 {
        return Err(Unread::Short(3 - room));
    }
    sized_at(
        bytes,
        at + 3,
        least,
        most,
        length_of(bytes[at + 1], bytes[at + 2]),
    )
}

fn length_of(a: u8, b: u8) -> usize
    ensures { result ≡ big_endian (a ∷ b ∷ []) }
{
    u16::from_be_bytes([a, b]) as usize
}

// A value of n bytes that begins at a position.
fn sized_at(
    bytes: &[u8],
    start: usize,
    least: usize,
    most: usize,
    n: usize,
) -> Result<usize, Unread>
    requires { start ≤ length bytes.now }
    ensures { result ≡ sized_at bytes.now start least most n }
{
    if (n < least) | (most < n) {
        return Err(Unread::Malformed);
    }
    let room = bytes.len() - start;
    if room < n {
        return Err(Unread::Short(n - room));
    }
    Ok(start + n)
}
