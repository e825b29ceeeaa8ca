// Numbers in decimal, as text in a lent buffer. docs/RULES.md, "Numbers in print".
ghost use Rattle.std.specs.Prelude.{◌≡◌, ◌+◌, ◌≤◌, [], ◌∷◌, length};
ghost use Rattle.std.proofs.lemmas.List.Edits.{sets};
ghost use Rattle.codec.specs.Decimal.{digits, Decimal};
ghost use Rattle.codec.specs.Put.{Put};

use crate::output;

// For the layers above: stores the digits of a number from a position on, as far as the buffer reaches, and answers how many they are.
pub fn put_digits(out: &mut [u8], at: usize, n: u32) -> usize
    ensures value { result ≡ length (digits 10 n) }
    ensures cells { out.new ≡ sets out.old at (digits 10 n) }
    ensures decimal { Decimal n (digits 10 n) }
    ensures most { result ≤ 10 }
{
    let mut text = [0u8; 10];
    let k = put_most(&mut text, 0, n, 10);
    output::put_bytes(out, at, &text[..k]);
    k
}

// At most so many digits; the position after them.
fn put_most(out: &mut [u8], at: usize, n: u32, left: usize) -> usize
    requires { at + left ≤ 1000 }
    ensures { Put (digits left n) left at result out.old out.new }
{
    if left == 0 {
        return at;
    }
    if n < 10 {
        return put(out, at, 48 + n as u8);
    }
    let k = put_most(out, at, n / 10, left - 1);
    put(out, k, 48 + (n % 10) as u8)
}

// One byte, where the buffer reaches.
fn put(out: &mut [u8], at: usize, b: u8) -> usize
    requires { at ≤ 1000 }
    ensures { Put (b ∷ []) 1 at result out.old out.new }
{
    output::put(out, at, b);
    at + 1
}
