// A running window over the last headers, and the support of each id in it. docs/RULES.md, "Support".
ghost use Rattle.std.specs.Prelude.{◌≡◌, OnErr, ◌+◌, ◌%◌, ◌<◌, ◌≤◌, ◌&&◌, ◌++◌, length, drop, replicate, if◌then◌else◌, ◌==◌, nat_eq, slice_index};
ghost use Rattle.voting.specs.Header.{check_header_votes};
ghost use Rattle.support.specs.Window.{cell_of, left, check_room, empty, check_new, new_of, added, one_more, one_less, replaced, entered, more_held, place_after, onward, check_put, put_of, made, Closed};
ghost use Rattle.support.specs.Kept.{SupportKept};

use codec::refusal::Refusal;
use voting::header;

// The greatest length.
pub const LENGTH_MOST: u16 = 4096;

// The cells of the supports, one for each byte; those of the headers stand behind them.
pub const SUPPORTS: usize = 256;

// How many headers it spans and how many it holds, and the place of the oldest. Its cells go with it.
#[derive(Clone, Copy)]
pub struct Window {
    pub length: u16,
    pub held: u16,
    pub oldest: u16,
}

// Makes a window of a length in lent cells: 33, 21. Hand it and its cells to each call as the call before left them; cell b is then the
// support of the byte b.
pub fn new(length: u32, cells: &mut [u16]) -> Result<Window, Refusal>
    ensures cells_after { left result cells.new ≡ new_of length cells.old }
    ensures support { SupportKept length (left result cells.new) }
{
    check_new(length, cells.len())?;
    let n = length as u16;
    clear(cells, cell_of(n));
    Ok(empty(n))
}

// The window that was made. Refused: one of length 0, which takes no header.
pub fn made(answer: Result<Window, Refusal>) -> Window
    ensures value { result ≡ made answer }
    ensures closed { OnErr answer (Closed result) }
{
    answer.unwrap_or(empty(0))
}

impl Window {
    // Puts a header: 9, 10, 11, 21. The oldest leaves once the window holds as many as it spans. Refused, the window and its cells stay.
    pub fn put(self, cells: &mut [u16], votes: [u8; 3]) -> Result<Window, Refusal>
        ensures { left result cells.new ≡ put_of self cells.old votes }
    {
        check_put(self, cells.len(), votes)?;
        enter(cells, cell_of(self.oldest), votes);
        Ok(onward(self))
    }
}

fn check_new(length: u32, room: usize) -> Result<(), Refusal>
    ensures { result ≡ check_new length room }
{
    if (1..=u32::from(LENGTH_MOST)).contains(&length) {
        return check_room(empty(length as u16), room);
    }
    Err(Refusal::WindowLengthOutside)
}

fn check_put(w: Window, room: usize, votes: [u8; 3]) -> Result<(), Refusal>
    ensures { result ≡ check_put w room votes }
{
    check_header(votes)?;
    check_room(w, room)
}

// The header check. Most headers have no votes, and most of the others are legal, which a quicker test tells.
fn check_header(votes: [u8; 3]) -> Result<(), Refusal>
    ensures { result ≡ check_header_votes votes }
{
    if no_votes(votes) {
        return Ok(());
    }
    if header::is_illegal(votes[0], votes[1], votes[2]) {
        return header::check_header_votes(votes);
    }
    Ok(())
}

fn no_votes(votes: [u8; 3]) -> bool
    ensures { result ≡ (slice_index votes 0 == 0 && slice_index votes 1 == 0 && slice_index votes 2 == 0) }
{
    all_zero(votes[0] as u16, votes[1] as u16, votes[2] as u16)
}

fn all_zero(a: u16, b: u16, c: u16) -> bool
    ensures { result ≡ (a == 0 && b == 0 && c == 0) }
{
    (a == 0) & (b == 0) & (c == 0)
}

// 21 unless it is a window, and the cells hold it.
fn check_room(w: Window, room: usize) -> Result<(), Refusal>
    ensures { result ≡ check_room w room }
{
    if (w.oldest < w.length) & (w.length <= LENGTH_MOST) & (cell_of(w.length) <= room) {
        return Ok(());
    }
    Err(Refusal::OutputShort)
}

// Where the cells of a place begin; all the cells of a window of so many places.
fn cell_of(place: u16) -> usize
    ensures { result ≡ cell_of place }
{
    SUPPORTS + 3 * usize::from(place)
}

fn empty(length: u16) -> Window
    ensures { result ≡ empty length }
{
    Window {
        length,
        held: 0,
        oldest: 0,
    }
}

// Stores 0 in the first n cells.
fn clear(cells: &mut [u16], n: usize)
    requires { n ≤ length cells.old }
    ensures { cells.new ≡ replicate n 0 ++ drop n cells.old }
{
    cells[..n].fill(0);
}

// The header takes the place whose cells begin there.
fn enter(cells: &mut [u16], at: usize, votes: [u8; 3])
    requires { (256 ≤ at) × (at + 2 < length cells.old) }
    ensures { cells.new ≡ entered cells.old at votes }
{
    if no_votes(votes) & all_zero(cells[at], cells[at + 1], cells[at + 2]) {
        return;
    }
    replace(cells, at, votes[0]);
    replace(cells, at + 1, votes[1]);
    replace(cells, at + 2, votes[2]);
}

// The byte in a cell leaves, another takes its place.
fn replace(cells: &mut [u16], at: usize, id: u8)
    requires { (256 ≤ at) × (at < length cells.old) }
    ensures { cells.new ≡ replaced cells.old at id }
{
    let old = (cells[at] % 256) as u8;
    leave(cells, old);
    cells[at] = u16::from(id);
    join(cells, id);
}

// One less in the support of an id; 0 is no vote. It stores in any case: that is quicker than a test for 0. So `join`.
fn leave(cells: &mut [u16], id: u8)
    requires { 256 ≤ length cells.old }
    ensures { cells.new ≡ added cells.old id one_less }
{
    let i = usize::from(id);
    cells[i] = cells[i].wrapping_sub(u16::from(id != 0));
}

// One more.
fn join(cells: &mut [u16], id: u8)
    requires { 256 ≤ length cells.old }
    ensures { cells.new ≡ added cells.old id one_more }
{
    let i = usize::from(id);
    cells[i] = cells[i].wrapping_add(u16::from(id != 0));
}

fn onward(w: Window) -> Window
    requires { w.oldest < w.length }
    ensures { result ≡ onward w }
{
    Window {
        held: more_held(w.held, w.length),
        oldest: place_after(w.oldest, w.length),
        ..w
    }
}

fn more_held(held: u16, length: u16) -> u16
    ensures { result ≡ more_held held length }
{
    if held < length { held + 1 } else { held }
}

fn place_after(place: u16, length: u16) -> u16
    requires { place < length }
    ensures { result ≡ place_after place length }
{
    let next = place + 1;
    if next == length { 0 } else { next }
}
