// Support at every height: a window as a number, over lent cells.
ghost use Rattle.std.specs.Prelude.{◌≡◌};
ghost use Rattle.support.specs.Window.{new_of, put_of};
ghost use Rattle.wire.specs.Numbers.{votes_at};
ghost use Rattle.exports.specs.Reply.{reply};
ghost use Rattle.exports.specs.Windows.{window_at, window_reply, KeptThrough};

use exports::windows as calls;

// A window of a length in lent cells: its number, or minus 33, 21.
#[unsafe(no_mangle)]
pub extern "C" fn ergo_window_new(length: u32, cells: &mut [u16]) -> usize
    ensures cells_after { reply result cells.new ≡ window_reply (new_of «length» cells.old) }
    ensures support { KeptThrough «length» result cells.new }
{
    calls::ergo_window_new(length, cells)
}

// Puts a header into a window: the number of the window after it, or minus 9, 10, 11, 21.
#[unsafe(no_mangle)]
pub extern "C" fn ergo_window_put(window: u64, cells: &mut [u16], votes: &[u8]) -> usize
    ensures { reply result cells.new ≡ window_reply (put_of (window_at window) cells.old (votes_at votes.now 0)) }
{
    calls::ergo_window_put(window, cells, votes)
}
