// The sizes of what is handed over in one list of bytes: for the writers beside.
ghost use Rattle.std.specs.Prelude.{◌≡◌, ◌==◌, nat_lt};
ghost use Rattle.extension.specs.Section.{any};
ghost use Rattle.extension.specs.Encode.{sum};

// Whether a size is above a bound.
pub fn any_above(sizes: &[u32], most: u32) -> bool
    ensures { result ≡ any (nat_lt most) sizes.now }
{
    sizes.iter().any(|size| most < *size)
}

// Whether the sizes together are a number.
pub fn sum_is(sizes: &[u32], n: usize) -> bool
    ensures { result ≡ (sum sizes.now == n) }
{
    let mut left = n;
    for size in sizes {
        let size = *size as usize;
        if left < size {
            return false;
        }
        left -= size;
    }
    left == 0
}
