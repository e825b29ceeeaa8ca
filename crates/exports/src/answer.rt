// A writer's answer, a refusal with the id of 15, and a flag, in one number.
ghost use Rattle.std.specs.Prelude.{◌≡◌};
ghost use Rattle.exports.specs.Reply.{minus, number_of, size_of, place_of, with_id, Told};
ghost use Rattle.exports.specs.Calls.{flag};

use codec::refusal::Refusal;

pub(crate) fn number_of<T: Copy>(x: Result<T, Refusal>) -> u8
    ensures { result ≡ number_of x }
{
    match x {
        Ok(_) => 0,
        Err(e) => e.number(),
    }
}

pub(crate) fn size_of(w: Result<usize, Refusal>) -> usize
    ensures { result ≡ size_of w }
{
    match w {
        Ok(n) => n,
        Err(e) => minus(e.number()),
    }
}

pub(crate) fn place_of(w: Result<usize, Refusal>) -> usize
    ensures { result ≡ place_of w }
{
    match w {
        Ok(_) => 0,
        Err(e) => minus(e.number()),
    }
}

pub(crate) fn minus(e: u8) -> usize
    ensures { result ≡ minus e }
{
    if e == 0 {
        return 0;
    }
    0xffff_ffff_ffff_ffff - (e as usize) + 1
}

pub(crate) fn flag_of(b: bool) -> u8
    ensures { result ≡ flag b }
{
    if b { 1 } else { 0 }
}

pub(crate) fn with_id(number: u8, id: u8) -> u16
    ensures value { result ≡ with_id number id }
    ensures told { Told result number id }
{
    (number as u16) + 256 * (id as u16)
}
