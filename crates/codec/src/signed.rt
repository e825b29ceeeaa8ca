// Signed numbers as bits and back, and sums that wrap. docs/RULES.md, "Signed numbers".
ghost use Rattle.std.specs.Prelude.{◌≡◌, ◌+ℤ◌, neg_ℤ};
ghost use Rattle.codec.specs.Signed.{bits_of, signed_of, wrapped};

// The bits of a signed number, at three widths.
pub fn bits_i8(x: i8) -> u8
    ensures { result ≡ bits_of 8 x }
{
    x.cast_unsigned()
}

pub fn bits_i16(x: i16) -> u16
    ensures { result ≡ bits_of 16 x }
{
    x.cast_unsigned()
}

pub fn bits_i32(x: i32) -> u32
    ensures { result ≡ bits_of 32 x }
{
    x.cast_unsigned()
}

// Bits read as a signed number, at three widths.
pub fn i8_of(b: u8) -> i8
    ensures { result ≡ signed_of 8 b }
{
    b.cast_signed()
}

pub fn i16_of(b: u16) -> i16
    ensures { result ≡ signed_of 16 b }
{
    b.cast_signed()
}

pub fn i32_of(b: u32) -> i32
    ensures { result ≡ signed_of 32 b }
{
    b.cast_signed()
}

// The sum, wrapped to 32 bits.
pub fn wrapping_add_i32(a: i32, b: i32) -> i32
    ensures { result ≡ wrapped 32 (a +ℤ b) }
{
    a.wrapping_add(b)
}

// The negation, wrapped to 8 bits: -128 stays.
pub fn wrapping_neg_i8(x: i8) -> i8
    ensures { result ≡ wrapped 8 (neg_ℤ x) }
{
    x.wrapping_neg()
}
