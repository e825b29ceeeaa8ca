// A row: a call, its arguments, and its answer. docs/VECTORS.md has the form.
use crate::text;

// A row has at most so many groups of bytes: its arguments, and its answer's.
const GROUPS_MOST: usize = 6;

const ENTRY_DIFFERS: u8 = 15;

const OUTPUT_SHORT: u8 = 21;

#[derive(Clone, Copy)]
pub(crate) struct Row<'a> {
    pub name: &'a str,
    pub arguments: [Option<&'a [u8]>; GROUPS_MOST],
    // what the call wrote, or its flag; where it is refused, the number, and 256 times the id of 15
    pub answer: Result<&'a [u8], u16>,
}

// The row of a line. Its bytes are put into lent cells.
pub(crate) fn read<'a>(line: &'a str, cells: &'a mut [u8]) -> Option<Row<'a>> {
    let (call, answer) = line.split_once(" = ")?;
    let mut groups = call.split(' ');
    let name = groups.next()?;
    let mut arguments = [None; GROUPS_MOST];
    let mut count = 0;
    let mut free = cells;
    for group in groups {
        if GROUPS_MOST <= count {
            return None;
        }
        let (argument, left) = text::put_group(group, free)?;
        arguments[count] = Some(argument);
        count += 1;
        free = left;
    }
    let (number, bytes) = match answer.split_once(' ') {
        Some(_) if GROUPS_MOST <= count => return None,
        Some((number, group)) => (number, text::put_group(group, free)?.0),
        None => (answer, b"".as_slice()),
    };
    let answer = answer_of(number_of(number)?, bytes)?;
    Some(Row {
        name,
        arguments,
        answer,
    })
}

// Two digits.
fn number_of(s: &str) -> Option<u8> {
    match s.as_bytes() {
        [tens @ b'0'..=b'9', ones @ b'0'..=b'9'] => Some((*tens - b'0') * 10 + (*ones - b'0')),
        _ => None,
    }
}

// A refusal has no bytes beside its number, but for the id of 15. 21 has no rows: how many cells there are is not said in a row.
fn answer_of(number: u8, bytes: &[u8]) -> Option<Result<&[u8], u16>> {
    match (number, bytes) {
        (0, _) => Some(Ok(bytes)),
        (ENTRY_DIFFERS, [id]) => Some(Err(number as u16 + 256 * (*id as u16))),
        (ENTRY_DIFFERS | OUTPUT_SHORT, _) => None,
        (_, []) => Some(Err(number as u16)),
        _ => None,
    }
}

impl<'a> Row<'a> {
    pub(crate) fn replays(&self) -> bool {
        self.name == "replay"
    }

    // A replay's state, its first argument; of other calls none.
    pub(crate) fn state(&self) -> &'a [u8] {
        match self.arguments {
            [Some(state), ..] if self.replays() => state,
            _ => b"",
        }
    }

    // What the row says that the call leaves in the cells' start: its answer; where it is refused nothing, or the state of a replay.
    pub(crate) fn left(&self) -> &'a [u8] {
        self.answer.unwrap_or(self.state())
    }
}
