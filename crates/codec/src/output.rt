// Writing into a lent buffer. docs/RULES.md, "Who can be turned away, and by which number".
ghost use Rattle.std.specs.Prelude.{◌≡◌, slice_set};
ghost use Rattle.std.proofs.lemmas.List.Edits.{sets};

// For the layers above: stores a byte at a position. A store past the end changes nothing.
pub fn put(out: &mut [u8], at: usize, b: u8)
    ensures { out.new ≡ slice_set out.old at b }
{
    if out.len() <= at {
        return;
    }
    out[at] = b;
}

// For the layers above: stores bytes from a position on, as far as the buffer reaches. Byte by byte: `copy_from_slice` makes the library for C
// need `memmove`.
pub fn put_bytes(out: &mut [u8], at: usize, bytes: &[u8])
    ensures { out.new ≡ sets out.old at bytes.now }
{
    let mut k = at;
    for b in bytes {
        if out.len() <= k {
            return;
        }
        out[k] = *b;
        k += 1;
    }
}
