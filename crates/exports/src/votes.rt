// Votes of headers.
ghost use Rattle.std.specs.Prelude.{◌≡◌};
ghost use Rattle.codec.specs.Output.{writes};
ghost use Rattle.voting.specs.Header.{check_header_votes};
ghost use Rattle.voting.specs.Tally.{tally_votes_seeded};
ghost use Rattle.voting.specs.ForkCheck.{check_fork_vote};
ghost use Rattle.headers.specs.Headers.{check_headers};
ghost use Rattle.wire.specs.Numbers.{votes_at};
ghost use Rattle.wire.specs.Values.{table_at, settings_at, tally_bytes};
ghost use Rattle.exports.specs.Reply.{reply, numbered, sized, number_of};
ghost use Rattle.exports.specs.Calls.{next_after, next_bytes, WalksAll, into};

use crate::answer;
use legal::next;
use voting::{fork, header, tally};
use wire::{numbers, values};

// Whether the three votes of a header are legal: 0, or 9, 10, 11.
#[unsafe(no_mangle)]
pub extern "C" fn ergo_check_header_votes(votes: &[u8]) -> u8
    ensures { result ≡ number_of (check_header_votes (votes_at votes.now 0)) }
{
    answer::number_of(header::check_header_votes(numbers::votes_of(votes)))
}

// The same of the headers of an epoch, three bytes each, in order: the first refusal.
#[unsafe(no_mangle)]
pub extern "C" fn ergo_check_headers(votes: &[u8]) -> u8
    ensures { result ≡ number_of (check_headers votes.now) }
{
    answer::number_of(headers::check_headers(votes))
}

// The first legal header above three vote bytes, into cells: 3, or 0 where there is none; or minus 21.
#[unsafe(no_mangle)]
pub extern "C" fn ergo_next_legal_votes(votes: &[u8], out: &mut [u8]) -> usize
    ensures out_after { reply result out.new ≡ sized (writes (next_bytes (next_after votes.now)) out.old) }
    ensures lists { WalksAll }
{
    let v = numbers::votes_of(votes);
    match next::next_legal_votes(v[0], v[1], v[2]) {
        Some(x) => answer::size_of(numbers::write_bytes(&[x.0, x.1, x.2], out)),
        None => 0,
    }
}

// The tally of an epoch's headers, three bytes each, into cells: 0, or 22, 21.
#[unsafe(no_mangle)]
pub extern "C" fn ergo_tally_votes_seeded(
    first_height: u32,
    votes: &[u8],
    boundary_height: u32,
    voting_length: u32,
    out: &mut [u8],
) -> u8
    ensures { reply result out.new ≡ numbered (into tally_bytes (tally_votes_seeded first_height votes.now boundary_height voting_length) out.old) }
{
    match tally::tally_votes_seeded(first_height, votes, boundary_height, voting_length) {
        Ok(y) => answer::number_of(values::write_tally(y, out)),
        Err(e) => e.number(),
    }
}

// Whether a header may vote for the fork at a height: 0, or 12, 18, 19.
#[unsafe(no_mangle)]
pub extern "C" fn ergo_check_fork_vote(
    settings: &[u8],
    height: u32,
    votes: &[u8],
    table: &[u8],
) -> u8
    ensures { result ≡ number_of (check_fork_vote (settings_at settings.now 0) height (votes_at votes.now 0) (table_at table.now 0)) }
{
    let config = values::settings_of(settings);
    let three = numbers::votes_of(votes);
    let t = values::table_of(table);
    answer::number_of(fork::check_fork_vote(config, height, three, t))
}
