// Support at every height: a window as a number, over lent cells.
ghost use Rattle.std.specs.Prelude.{◌≡◌};
ghost use Rattle.support.specs.Window.{new_of, put_of};
ghost use Rattle.wire.specs.Numbers.{votes_at};
ghost use Rattle.exports.specs.Reply.{reply};
ghost use Rattle.exports.specs.Windows.{window_number, window_at, window_answer, window_reply, KeptThrough};

use crate::answer;
use codec::refusal::Refusal;
use support::window;
use support::window::Window;
use wire::numbers;

// A window of a length in lent cells: its number, or minus 33, 21.
#[unsafe(no_mangle)]
pub extern "C" fn ergo_window_new(length: u32, cells: &mut [u16]) -> usize
    ensures cells_after { reply result cells.new ≡ window_reply (new_of «length» cells.old) }
    ensures support { KeptThrough «length» result cells.new }
{
    answer_of(window::new(length, cells))
}

// Puts a header into a window: the number of the window after it, or minus 9, 10, 11, 21.
#[unsafe(no_mangle)]
pub extern "C" fn ergo_window_put(window: u64, cells: &mut [u16], votes: &[u8]) -> usize
    ensures { reply result cells.new ≡ window_reply (put_of (window_at window) cells.old (votes_at votes.now 0)) }
{
    let w = window_at(window);
    let v = numbers::votes_of(votes);
    answer_of(w.put(cells, v))
}

fn answer_of(x: Result<Window, Refusal>) -> usize
    ensures { result ≡ window_answer x }
{
    match x {
        Ok(w) => window_number(w) as usize,
        Err(e) => answer::minus(e.number()),
    }
}

fn window_number(w: Window) -> u64
    ensures { result ≡ window_number w }
{
    (w.length as u64) * 0x1_0000_0000 + (w.held as u64) * 0x1_0000 + w.oldest as u64
}

fn window_at(n: u64) -> Window
    ensures { result ≡ window_at n }
{
    Window {
        length: (n / 0x1_0000_0000 % 0x1_0000) as u16,
        held: (n / 0x1_0000 % 0x1_0000) as u16,
        oldest: (n % 0x1_0000) as u16,
    }
}
