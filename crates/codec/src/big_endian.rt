// Four bytes, the most significant first, as a signed number and back. docs/RULES.md, "Signed numbers".
ghost use Rattle.std.specs.Prelude.{◌≡◌, [], ◌∷◌};
ghost use Rattle.codec.specs.BigEndian.{big_endian, big_endian_bytes};
ghost use Rattle.codec.specs.Signed.{bits_of, signed_of};

pub fn i32_from_be_bytes(bytes: [u8; 4]) -> i32
    ensures value { result ≡ signed_of 32 (big_endian bytes) }
    ensures back { big_endian_bytes 4 (bits_of 32 result) ≡ bytes }
{
    i32::from_be_bytes(bytes)
}

// For the layers above: four bytes as a number.
pub fn joined(a: u8, b: u8, c: u8, d: u8) -> u32
    ensures value { result ≡ big_endian (a ∷ b ∷ c ∷ d ∷ []) }
    ensures back { big_endian_bytes 4 result ≡ a ∷ b ∷ c ∷ d ∷ [] }
{
    u32::from_be_bytes([a, b, c, d])
}

pub fn i32_to_be_bytes(x: i32) -> [u8; 4]
    ensures value { result ≡ big_endian_bytes 4 (bits_of 32 x) }
    ensures back { signed_of 32 (big_endian result) ≡ x }
{
    x.to_be_bytes()
}
