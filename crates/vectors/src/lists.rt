// Numbers and lists of them in an argument, the most significant byte first. A byte past the end counts as 0.
ghost use Rattle.std.specs.Prelude.{◌<◌};

use std::array;
use wire::numbers;

// A list has at most so many items; further ones are not read.
pub(crate) const ITEMS_MOST: usize = 0x1_0001;

fn start<const N: usize>(s: &[u8]) -> [u8; N] {
    array::from_fn(|i| numbers::byte_at(s, i))
}

pub(crate) fn u32_of(s: &[u8]) -> u32 {
    u32::from_be_bytes(start(s))
}

pub(crate) fn i32_of(s: &[u8]) -> i32 {
    u32_of(s).cast_signed()
}

pub(crate) fn u16_of(s: &[u8]) -> u16 {
    u16::from_be_bytes(start(s))
}

pub(crate) fn i16_of(s: &[u8]) -> i16 {
    u16_of(s).cast_signed()
}

// The list of an argument: its items of a size, put into lent places.
pub(crate) fn list_of<'a, T: Copy, F: Fn(&[u8]) -> T>(
    s: &[u8],
    size: usize,
    item_of: F,
    places: &'a mut [T],
) -> &'a [T]
    requires positive { 0 < size }
    requires callable { F.IsAlwaysCallable item_of }
{
    for (place, item) in places.iter_mut().zip(s.chunks_exact(size)) {
        *place = item_of(item);
    }
    let n = (s.len() / size).min(places.len());
    &places[..n]
}
