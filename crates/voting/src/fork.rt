// Soft-fork rounds: the fork check of a header, and the fork part of a boundary. docs/RULES.md, "Fork check" and "Boundary".
ghost use Rattle.std.specs.Prelude.{◌≡◌, ◌*◌, ◌<◌, pos, ℤ, Ok, Err, ◌+ℤ◌, if◌then◌else◌};
ghost use Rattle.codec.specs.declared.refusal.Refusal.TheVariants.{SettingLarge};
ghost use Rattle.voting.specs.Settings.{voting_length, settings_large};
ghost use Rattle.voting.specs.ForkCheck.{barred, check_round, check_fork_vote, round_open, votes_open};
ghost use Rattle.voting.specs.ForkPart.{no_round, phase_at, fork_total, reads_total, closes_late, closes_early, restarts, rises, version_by, without, begun, collected, one_more, risen, five_steps, round_steps, two_for_one, forced, finished, running, opening, fork_part};

use crate::header;
use crate::settings::VotingConfig;
use crate::table::{Fork, Table, Value};
use codec::refusal::Refusal;
use codec::signed;
use std::marker::Model;

// Where a height stands in an open round: at its late or its early closing height, where its votes are collected, where the version rises.
#[derive(Clone, Copy)]
pub struct Phase {
    pub late: bool,
    pub early: bool,
    pub voting: bool,
    pub rising: bool,
}

// What happens to a round at a boundary: whether one opens there, whether the open one closes, whether it raises the version, and
// the total of its votes where that is stored.
#[derive(Clone, Copy)]
pub struct Round {
    pub opened: bool,
    pub closed: bool,
    pub rose: bool,
    pub total: Value,
}

// The fork entries that go on, and what happens to a round.
#[derive(Clone, Copy)]
pub struct ForkPart {
    pub fork: Fork,
    pub round: Round,
}

// 2^31 and the boundary k epochs after a round's start: never negative.
fn epochs_after(start: i32, length: u32, k: u32) -> u64
    ensures { pos result ≡ (start +ℤ pos (length * k)) +ℤ pos 2147483648 }
{
    let s = std::num::wrapping_add_u32(signed::bits_i32(start), 2147483648);
    (s as u64) + (length as u64) * (k as u64)
}

// Settings that are not large: the sums of their epochs fit.
#[derive(Clone, Copy)]
struct Moderate(VotingConfig);

impl Model for Moderate {
    ghost use Rattle.std.specs.Prelude.{◌≤◌};
    ghost use Rattle.voting.specs.declared.settings.VotingConfig.{VotingConfig};

    ghost Value = { VotingConfig };

    ghost view = { λ m. m.0 };

    ghost invariant = { λ m. (m.0.soft_fork_epochs ≤ 65535) × (m.0.activation_epochs ≤ 65535) };

    ghost inverse = { λ g. record { 0 = g } };
}

impl Moderate {
    fn of(config: VotingConfig) -> Result<Moderate, Refusal>
        ensures { result ≡ (if settings_large config then Err SettingLarge else Ok config) }
    {
        if config.settings_large() {
            return Err(Refusal::SettingLarge);
        }
        Ok(Moderate(config))
    }

    fn is_barred(self, height: u32, start: i32, votes: i32) -> bool
        ensures { result ≡ barred self height start votes }
    {
        let l = self.0.voting_length;
        let v = self.0.soft_fork_epochs;
        let a = self.0.activation_epochs;
        let h = height as u64 + 2147483648;
        let from = epochs_after(start, l, v);
        let early = epochs_after(start, l, v + 1);
        let late = epochs_after(start, l, v + a + 1);
        let approved = self.0.soft_fork_approved(votes);
        ((from <= h) & (h < early) & !approved) | ((from <= h) & (h < late) & approved)
    }

    fn check_round(self, height: u32, start: Value, votes: Value) -> Result<(), Refusal>
        ensures { result ≡ check_round self height start votes }
    {
        let Some(s) = start else {
            return Ok(());
        };
        let n = votes.ok_or(Refusal::VotesCollectedAbsent)?;
        if self.is_barred(height, s, n) {
            return Err(Refusal::ForkVoteBarred);
        }
        Ok(())
    }

    fn phase_at(self, height: u32, start: i32) -> Phase
        ensures { result ≡ phase_at self height start }
    {
        let l = self.0.voting_length;
        let v = self.0.soft_fork_epochs;
        let a = self.0.activation_epochs;
        let h = height as u64 + 2147483648;
        Phase {
            late: h == epochs_after(start, l, v + a + 1),
            early: h == epochs_after(start, l, v + 1),
            voting: h <= epochs_after(start, l, v),
            rising: h == epochs_after(start, l, v + a),
        }
    }
}

// Whether a header at a height may vote as it does; or 12, 18, 19.
pub fn check_fork_vote(
    config: VotingConfig,
    height: u32,
    votes: [u8; 3],
    table: Table,
) -> Result<(), Refusal>
    ensures { result ≡ check_fork_vote config height votes table }
{
    let settings = Moderate::of(config)?;
    if header::votes_for(header::SOFT_FORK_VOTE, votes) {
        return settings.check_round(height, table.fork.start, table.fork.votes);
    }
    Ok(())
}

fn round_open(config: VotingConfig, end: u32, start: Value, votes: Value) -> bool
    ensures { result ≡ round_open config end start votes }
{
    match start {
        None => true,
        Some(s) => match votes {
            None => false,
            Some(_) => {
                let from = epochs_after(s, config.voting_length, config.soft_fork_epochs);
                end as u64 + 2147483648 <= from
            }
        },
    }
}

// For the layers above: whether every header below a height is allowed, since no round is open or its votes are still collected there.
pub fn votes_open(config: VotingConfig, end: u32, table: Table) -> bool
    ensures { result ≡ votes_open config end table }
{
    !config.settings_large() & round_open(config, end, table.fork.start, table.fork.votes)
}

// Nothing happens to a round.
pub(crate) fn no_round() -> Round
    ensures { result ≡ no_round }
{
    Round {
        opened: false,
        closed: false,
        rose: false,
        total: None,
    }
}

fn fork_total(votes: u32, collected: i32) -> i32
    ensures { result ≡ fork_total votes collected }
{
    signed::wrapping_add_i32(signed::i32_of(votes), collected)
}

fn reads_total(p: Phase) -> bool
    ensures { result ≡ reads_total p }
{
    p.late | p.early | p.voting | p.rising
}

fn closes_late(p: Phase, approved: bool) -> bool
    ensures { result ≡ closes_late p approved }
{
    p.late & approved
}

fn closes_early(p: Phase, approved: bool) -> bool
    ensures { result ≡ closes_early p approved }
{
    p.early & !approved
}

fn restarts(p: Phase, vote: bool, approved: bool) -> bool
    ensures { result ≡ restarts p vote approved }
{
    vote & (p.late | (p.early & !approved))
}

fn rises(p: Phase, approved: bool) -> bool
    ensures { result ≡ rises p approved }
{
    p.rising & approved
}

// Steps 1 and 2: entries 121 and 122 are removed.
fn without(closes: bool, f: Fork) -> Fork
    ensures { result ≡ without closes f }
{
    if closes {
        return Fork {
            votes: None,
            start: None,
            ..f
        };
    }
    f
}

// Step 3: entry 122 becomes the height, 121 becomes 0.
fn begun(opens: bool, height: u32, f: Fork) -> Fork
    ensures { result ≡ begun opens height f }
{
    if opens {
        return Fork {
            votes: Some(0),
            start: Some(signed::i32_of(height)),
            ..f
        };
    }
    f
}

// Step 4: entry 121 becomes the total.
fn collected(voting: bool, total: i32, f: Fork) -> Fork
    ensures { result ≡ collected voting total f }
{
    if voting {
        return Fork {
            votes: Some(total),
            ..f
        };
    }
    f
}

fn one_more(z: i32) -> i32
    ensures { result ≡ one_more z }
{
    signed::wrapping_add_i32(z, 1)
}

// Entry 123 changed where it has to be, by `next`, which is `n` in the contract.
fn version_by<F: FnOnce(i32) -> i32>(changes: bool, next: F, f: Fork) -> Result<Fork, Refusal>
    requires { F.IsAlwaysCallable next }
    ensures { (n : ℤ → ℤ) → ((z y : ℤ) → F.post next z y → y ≡ n z) → result ≡ version_by changes n f f.version }
{
    if !changes {
        return Ok(f);
    }
    let z = f.version.ok_or(Refusal::BlockVersionAbsent)?;
    Ok(Fork {
        version: Some(next(z)),
        ..f
    })
}

// Step 5: entry 123 rises.
fn risen(rise: bool, f: Fork) -> Result<Fork, Refusal>
    ensures { result ≡ risen rise f }
{
    version_by(rise, one_more, f)
}

// The five steps in order.
fn five_steps(
    p: Phase,
    vote: bool,
    approved: bool,
    total: i32,
    height: u32,
    old: Fork,
) -> Result<Fork, Refusal>
    ensures { result ≡ five_steps p vote approved total height old }
{
    let first = without(closes_late(p, approved), old);
    let second = without(closes_early(p, approved), first);
    let third = begun(restarts(p, vote, approved), height, second);
    let fourth = collected(p.voting, total, third);
    risen(rises(p, approved), fourth)
}

fn stored(voting: bool, total: i32) -> Value
    ensures { result ≡ (if voting then Some total else None) }
{
    if voting {
        return Some(total);
    }
    None
}

// What happens to the round in them.
fn round_steps(p: Phase, vote: bool, approved: bool, total: i32) -> Round
    ensures { result ≡ round_steps p vote approved total }
{
    let opened = restarts(p, vote, approved);
    Round {
        opened,
        closed: closes_late(p, approved) | closes_early(p, approved) | opened,
        rose: rises(p, approved),
        total: stored(p.voting, total),
    }
}

fn two_for_one(z: i32) -> i32
    ensures { result ≡ two_for_one z }
{
    if z == 1 {
        return 2;
    }
    z
}

// The forced version.
fn forced(at: bool, f: Fork) -> Result<Fork, Refusal>
    ensures { result ≡ forced at f }
{
    version_by(at, two_for_one, f)
}

// The steps' entries, and then the forced version.
fn finished(
    config: VotingConfig,
    height: u32,
    round: Round,
    f: Result<Fork, Refusal>,
) -> Result<ForkPart, Refusal>
    ensures { result ≡ finished config height round f }
{
    let fork = forced(height == config.version2_activation_height, f?)?;
    Ok(ForkPart { fork, round })
}

// A round that is open, with its entry 121.
fn running(
    config: VotingConfig,
    height: u32,
    vote: bool,
    votes: u32,
    old: Fork,
    p: Phase,
    collected: Value,
) -> Result<ForkPart, Refusal>
    ensures { result ≡ running config height vote votes old p collected }
{
    match collected {
        None => {
            if reads_total(p) {
                return Err(Refusal::VotesCollectedAbsent);
            }
            finished(config, height, no_round(), Ok(old))
        }
        Some(n) => {
            let total = fork_total(votes, n);
            let approved = config.soft_fork_approved(total);
            let round = round_steps(p, vote, approved, total);
            let f = five_steps(p, vote, approved, total, height, old);
            finished(config, height, round, f)
        }
    }
}

// Without one: a vote at a multiple of the length opens it.
fn opening(config: VotingConfig, height: u32, vote: bool, old: Fork) -> Result<ForkPart, Refusal>
    requires { 0 < voting_length config }
    ensures { result ≡ opening config height vote old }
{
    let opened = vote & (height % config.voting_length == 0);
    let round = Round {
        opened,
        closed: false,
        rose: false,
        total: None,
    };
    finished(config, height, round, Ok(begun(opened, height, old)))
}

// The fork part of a boundary, from the fork entries of the old table, whether the boundary header votes 120, and the votes that the epoch
// before brings; or 17, 18, 19, 20.
pub(crate) fn fork_part(
    config: VotingConfig,
    height: u32,
    vote: bool,
    votes: u32,
    old: Fork,
) -> Result<ForkPart, Refusal>
    ensures { result ≡ fork_part config height vote votes old }
{
    if config.voting_length == 0 {
        return Err(Refusal::VotingLengthZero);
    }
    let settings = Moderate::of(config)?;
    match old.start {
        None => opening(config, height, vote, old),
        Some(s) => running(
            config,
            height,
            vote,
            votes,
            old,
            settings.phase_at(height, s),
            old.votes,
        ),
    }
}
