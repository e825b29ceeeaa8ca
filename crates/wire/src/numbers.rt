// Numbers of four bytes, the most significant first, and plain bytes.
ghost use Rattle.std.specs.Prelude.{◌≡◌, ◌≤◌, get_or};
ghost use Rattle.codec.specs.Output.{outcome, writes};
ghost use Rattle.wire.specs.Numbers.{bytes_at, number_at, number_bytes, four_bytes, votes_at};
ghost use Rattle.wire.specs.Put.{Put, Back};

use codec::output;
use codec::refusal::Refusal;
use std::array;

pub fn byte_at(bytes: &[u8], at: usize) -> u8
    ensures { result ≡ get_or bytes.now at 0 }
{
    bytes.get(at).copied().unwrap_or(0)
}

pub(crate) fn u32_at(bytes: &[u8], at: usize) -> u32
    requires { at ≤ 5000 }
    ensures { result ≡ number_at bytes.now at }
{
    u32::from_be_bytes(bytes_at(bytes, at))
}

// The three vote bytes of a header.
pub fn votes_of(bytes: &[u8]) -> [u8; 3]
    ensures { result ≡ votes_at bytes.now 0 }
{
    bytes_at(bytes, 0)
}

// The id of the header that a body belongs to.
pub fn header_id_of(bytes: &[u8]) -> [u8; 32]
    ensures { result ≡ bytes_at 32 bytes.now 0 }
{
    bytes_at(bytes, 0)
}

// So many bytes from a position on.
fn bytes_at<const N: usize>(bytes: &[u8], at: usize) -> [u8; N]
    requires { at ≤ 5000 }
    ensures { result ≡ bytes_at N bytes.now at }
{
    array::from_fn(|i| byte_at(bytes, at + i))
}

pub(crate) fn put_u32(out: &mut [u8], at: usize, n: u32)
    ensures put { Put 4 at (number_bytes n) out.old out.new }
    ensures back { Back number_at (number_bytes n) n }
{
    output::put_bytes(out, at, &n.to_be_bytes());
}

// A position or a count: its 32 low bits.
pub(crate) fn put_usize(out: &mut [u8], at: usize, n: usize)
    ensures { Put 4 at (number_bytes n) out.old out.new }
{
    let low = (n % 0x1_0000_0000) as u32;
    put_u32(out, at, low);
}

pub(crate) fn put_four(out: &mut [u8], at: usize, a: u32, b: u32, c: usize, d: usize)
    requires { at ≤ 4000 }
    ensures { Put 16 at (four_bytes a b c d) out.old out.new }
{
    put_u32(out, at, a);
    put_u32(out, at + 4, b);
    put_usize(out, at + 8, c);
    put_usize(out, at + 12, d);
}

// Bytes as they are.
pub fn write_bytes(bytes: &[u8], out: &mut [u8]) -> Result<usize, Refusal>
    ensures { outcome result out.new ≡ writes bytes.now out.old }
{
    if out.len() < bytes.len() {
        return Err(Refusal::OutputShort);
    }
    output::put_bytes(out, 0, bytes);
    Ok(bytes.len())
}
