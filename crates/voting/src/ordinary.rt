// The ordinary votes at a boundary, and the step of each parameter. docs/RULES.md, "Boundary".
ghost use Rattle.std.specs.Prelude.{◌≡◌, ℕ, ◌-◌, ◌≤◌, pos, Some, None, if◌then◌else◌, slice_index_or};
ghost use Rattle.std.specs.Result.{result_unwrap_or};
ghost use Rattle.voting.specs.Ordinary.{least_of, greatest_of, fixed_step_of, parameter, hundredth, step_size, raised, lowered, known, counts, voted, parameter_min, parameter_max, parameter_step};

use crate::header::SOFT_FORK_ID;
use crate::settings::VotingConfig;
use crate::table::{Table, Value};
use crate::tally::Entry;
use codec::refusal::Refusal;
use std::marker::Model;

// The least and the greatest value and the fixed step of the parameters 1 to 9; a step 0 is computed from the value.
const LEAST: [i32; 9] = [0, 0, 16384, 16384, 0, 0, 0, 0, 2];

const GREATEST: [i32; 9] = [
    2500000, 10000, 1073741823, 1073741823, 1073741823, 1073741823, 1073741823, 1073741823, 2048,
];

const STEPS: [i32; 9] = [25000, 10, 0, 0, 0, 0, 0, 0, 1];

// The larger of 1 and a hundredth.
fn hundredth(z: i32) -> i32
    ensures { result ≡ hundredth z }
{
    (z / 100).max(1)
}

fn step_size(fixed: i32, z: i32) -> i32
    ensures { result ≡ step_size fixed z }
{
    if 0 < fixed {
        return fixed;
    }
    hundredth(z)
}

// The number of a parameter, 1 to 9.
#[derive(Clone, Copy)]
struct Parameter(u8);

impl Model for Parameter {
    ghost Value = { ℕ };

    ghost view = { λ m. m.0 };

    ghost invariant = { λ m. (1 ≤ m.0) × (m.0 ≤ 9) };

    ghost inverse = { λ n. record { 0 = n } };
}

impl Parameter {
    // The id without its sign; none where that is no parameter.
    fn of(id: i8) -> Option<Parameter>
        ensures { result ≡ (if known (parameter id) then Some (parameter id) else None) }
    {
        let m = id.unsigned_abs();
        if (1 <= m) & (m <= 9) {
            return Some(Parameter(m));
        }
        None
    }

    fn entry(self, list: &[i32; 9]) -> i32
        ensures { result ≡ slice_index_or list.now (self - 1) (pos 0) }
    {
        list[(self.0 - 1) as usize]
    }

    fn least(self) -> i32
        ensures { result ≡ least_of self }
    {
        self.entry(&LEAST)
    }

    fn greatest(self) -> i32
        ensures { result ≡ greatest_of self }
    {
        self.entry(&GREATEST)
    }

    fn fixed_step(self) -> i32
        ensures { result ≡ fixed_step_of self }
    {
        self.entry(&STEPS)
    }

    fn raised(self, z: i32) -> i32
        ensures { result ≡ raised self z }
    {
        if z < self.greatest() {
            return z + step_size(self.fixed_step(), z);
        }
        z
    }

    fn lowered(self, z: i32) -> i32
        ensures { result ≡ lowered self z }
    {
        if self.least() < z {
            return z - step_size(self.fixed_step(), z);
        }
        z
    }

    fn moved(self, up: bool, z: i32) -> i32
        ensures { result ≡ (if up then raised self z else lowered self z) }
    {
        if up { self.raised(z) } else { self.lowered(z) }
    }
}

fn counted(config: VotingConfig, e: Entry) -> bool
    ensures { result ≡ counts config e }
{
    let approved = config.change_approved(e.count);
    (e.id < SOFT_FORK_ID) & approved
}

// One entry of a tally: `from` is the table after the fork part, `new` the table so far. 13, 14, or the table.
pub fn vote(config: VotingConfig, from: Table, e: Entry, new: Table) -> Result<Table, Refusal>
    ensures { result ≡ voted config from e new }
{
    if !counted(config, e) {
        return Ok(new);
    }
    let m = Parameter::of(e.id).ok_or(Refusal::UnknownParameter)?;
    let z = from.get(m.0).ok_or(Refusal::AbsentParameter)?;
    Ok(new.with(m.0, Some(m.moved(0 < e.id, z))))
}

// What goes on after an entry: the table; refused, the table as it came.
pub fn goes_on(new: Table, answer: Result<Table, Refusal>) -> Table
    ensures { result ≡ result_unwrap_or answer new }
{
    answer.unwrap_or(new)
}

// The least value of a vote's parameter; absent where there is no such parameter.
pub fn parameter_min(id: i8) -> Value
    ensures { result ≡ parameter_min id }
{
    Parameter::of(id).map(|m| m.least())
}

// The greatest value.
pub fn parameter_max(id: i8) -> Value
    ensures { result ≡ parameter_max id }
{
    Parameter::of(id).map(|m| m.greatest())
}

// The fixed step; absent also where the step is computed.
pub fn parameter_step(id: i8) -> Value
    ensures { result ≡ parameter_step id }
{
    Parameter::of(id).map(|m| m.fixed_step()).filter(|n| 0 < *n)
}
