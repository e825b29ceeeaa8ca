// A row run: its call is asked with several numbers of lent cells. docs/VECTORS.md says with which.
use crate::calls;
use crate::row::Row;
use codec::output;

// The most cells that are lent.
const CELLS_MOST: usize = 0x4_0000;

// What stands in a cell before a call.
const UNTOUCHED: u8 = 0xa5;

const OUTPUT_SHORT: u16 = 21;

// Cells more than are written.
const MORE: usize = 3;

// Whether the row's call answers what the row says.
pub(crate) fn agrees(row: &Row) -> bool {
    let left = row.left();
    let n = left.len();
    if CELLS_MOST - MORE < n {
        return false;
    }
    let code = row.answer.err().unwrap_or(0);
    leaves(row, n, code, left) && leaves(row, n + MORE, code, left) && agrees_short(row, n)
}

// Cells that are one too few, where bytes are written.
fn agrees_short(row: &Row, n: usize) -> bool {
    if row.answer.is_err() || row.replays() || n == 0 {
        return true;
    }
    leaves(row, n - 1, OUTPUT_SHORT, b"")
}

// Whether the call with so many cells answers a code, and leaves these bytes in the cells' start and no other cell changed. A replay has its
// state in the cells.
fn leaves(row: &Row, room: usize, code: u16, left: &[u8]) -> bool {
    let mut cells = [UNTOUCHED; CELLS_MOST];
    output::put_bytes(&mut cells, 0, row.state());
    asked_in(row, &mut cells, room) == Some(code) && holds(&cells, left)
}

fn asked_in(row: &Row, cells: &mut [u8], room: usize) -> Option<u16> {
    calls::asked(row, cells.get_mut(..room)?)
}

fn holds(cells: &[u8], left: &[u8]) -> bool {
    match cells.strip_prefix(left) {
        Some(rest) => rest.iter().all(|cell| *cell == UNTOUCHED),
        None => false,
    }
}
