// The lines that the replay prints. docs/RULES.md, "Replay".
ghost use Rattle.std.specs.Prelude.{◌≡◌, ◌≤◌, [], ◌∷◌};
ghost use Rattle.codec.specs.Output.{outcome, writes};
ghost use Rattle.codec.specs.Put.{Put};
ghost use Rattle.codec.specs.Decimal.{digits};
ghost use Rattle.stream.specs.Lines.{decimal, column, head_line, epoch_line, end_line, line_most};

use codec::refusal::Refusal;
use codec::{decimal, output};
use voting::table::{Fork, Value};

// Writes the first line.
pub fn write_head(out: &mut [u8]) -> Result<usize, Refusal>
    ensures { outcome result out.new ≡ writes head_line out.old }
{
    hand_out(out, b"height version start votes\n")
}

// Writes the line of an accepted epoch.
pub fn write_epoch(height: u32, fork: Fork, out: &mut [u8]) -> Result<usize, Refusal>
    ensures { outcome result out.new ≡ writes (epoch_line height fork) out.old }
{
    let mut text = [0u8; 64];
    let n = put_epoch(&mut text, height, fork);
    hand_out(out, &text[..n])
}

// Writes the last line.
pub fn write_end(accepted: u32, refusal: u8, out: &mut [u8]) -> Result<usize, Refusal>
    ensures { outcome result out.new ≡ writes (end_line accepted refusal) out.old }
{
    let mut text = [0u8; 64];
    let n = put_end(&mut text, accepted, refusal);
    hand_out(out, &text[..n])
}

// A text, handed out whole or refused.
fn hand_out(out: &mut [u8], text: &[u8]) -> Result<usize, Refusal>
    ensures { outcome result out.new ≡ writes text.now out.old }
{
    if out.len() < text.len() {
        return Err(Refusal::OutputShort);
    }
    output::put_bytes(out, 0, text);
    Ok(text.len())
}

fn put_epoch(out: &mut [u8], height: u32, fork: Fork) -> usize
    ensures { Put (epoch_line height fork) line_most 0 result out.old out.new }
{
    let a = put_digits(out, 0, height);
    let b = put(out, a, b' ');
    let c = put_column(out, b, fork.version);
    let d = put(out, c, b' ');
    let e = put_column(out, d, fork.start);
    let f = put(out, e, b' ');
    let g = put_column(out, f, fork.votes);
    put(out, g, b'\n')
}

fn put_end(out: &mut [u8], accepted: u32, refusal: u8) -> usize
    ensures { Put (end_line accepted refusal) 26 0 result out.old out.new }
{
    output::put_bytes(out, 0, b"end ");
    let a = put_digits(out, 4, accepted);
    let b = put(out, a, b' ');
    let c = put_digits(out, b, u32::from(refusal));
    put(out, c, b'\n')
}

fn put_column(out: &mut [u8], at: usize, value: Value) -> usize
    requires { at ≤ 900 }
    ensures { Put (column value) 11 at result out.old out.new }
{
    match value {
        None => put(out, at, b'-'),
        Some(x) => put_decimal(out, at, x),
    }
}

fn put_decimal(out: &mut [u8], at: usize, x: i32) -> usize
    requires { at ≤ 900 }
    ensures { Put (decimal x) 11 at result out.old out.new }
{
    let start = if x < 0 { put(out, at, b'-') } else { at };
    put_digits(out, start, x.unsigned_abs())
}

fn put_digits(out: &mut [u8], at: usize, n: u32) -> usize
    requires { at ≤ 990 }
    ensures { Put (digits 10 n) 10 at result out.old out.new }
{
    at + decimal::put_digits(out, at, n)
}

// One byte, where the buffer reaches.
fn put(out: &mut [u8], at: usize, b: u8) -> usize
    requires { at ≤ 1000 }
    ensures { Put (b ∷ []) 1 at result out.old out.new }
{
    output::put(out, at, b);
    at + 1
}
