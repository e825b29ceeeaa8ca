// What a replay asks of a body, from one pass over its fields; and the match of a computed table with what was found.
// docs/RULES.md, "Extension body and match".
#![tactic(auto)]

ghost use Rattle.std.specs.Prelude.{◌≡◌, ◌≤◌, length};
ghost use Rattle.extension.specs.Section.{listing, closed};
ghost use Rattle.extension.specs.Body.{read_field, extension_of};
ghost use Rattle.extension.specs.Parameters.{no_parameters, matched};
ghost use Rattle.walk.specs.Walk.{table_in, WalkedIs, match_found};
ghost use Rattle.walk.specs.Fields.{place_of, slot_in, table_from, fork_unlike};

use codec::refusal::Refusal;
use extension::parameters::Mismatch;
use extension::section::Section;
use extension::{body, parameters};
use voting::table::{Fork, Table, Value};

// The section of the fields, or the body's refusal; where the bytes of the proposed update begin and end; and what the body's parameters have of
// a table's twelve entries. A refused body has no parameters; where only a size is wrong, the update is the one of the fields.
#[derive(Clone, Copy)]
pub struct Walked {
    pub fields: Result<Section, Refusal>,
    pub start: usize,
    pub end: usize,
    pub found: Table,
}

// One pass over the fields of a body.
pub fn walk_body(body: &[u8]) -> Walked
    ensures { WalkedIs body.now result }
{
    match body::read_head(body) {
        Ok(head) => walk_fields(body, head.count, head.begin),
        Err(e) => refused(e),
    }
}

// The fields of a body, that is so many from a position on. A slot for each of the twelve entries, and one for every other field, so that
// each field is stored without a test; the first update field is kept; a wrong size is told after all fields are read.
fn walk_fields(body: &[u8], count: u32, begin: usize) -> Walked
    requires { (length body.now ≤ 65536) × (closed count begin (listing (read_field body.now) count begin) ≡ extension_of body.now) }
    ensures { WalkedIs body.now result }
{
    let mut found = [None; 13];
    let mut wrong = false;
    let mut seen = false;
    let mut start: usize = 0;
    let mut end: usize = 0;
    let mut at = begin;
    for _ in 0..count {
        match body::field_at(body, at) {
            Ok(f) => {
                at = f.end;
                wrong = wrong | body::wrong_size(f.key0, f.key1, f.end - f.start);
                found[place_of(f.key0, f.key1)] = slot_in(&body[f.start..f.end]);
                if !seen & body::update_key(f.key0, f.key1) {
                    seen = true;
                    start = f.start;
                    end = f.end;
                }
            }
            Err(e) => return refused(e),
        }
    }
    if wrong {
        return Walked {
            fields: Err(Refusal::ParameterSize),
            start,
            end,
            found: no_entries(),
        };
    }
    Walked {
        fields: Ok(Section {
            count,
            begin,
            end: at,
        }),
        start,
        end,
        found: table_of(found),
    }
}

// A refused body: no fields.
fn refused(e: Refusal) -> Walked
    ensures { result ≡ record { fields = Err e; start = 0; end = 0; found = table_in no_parameters } }
{
    Walked {
        fields: Err(e),
        start: 0,
        end: 0,
        found: no_entries(),
    }
}

fn no_entries() -> Table
    ensures { result ≡ table_in no_parameters }
{
    Table {
        ordinary: [None; 9],
        fork: Fork {
            votes: None,
            start: None,
            version: None,
        },
    }
}

// The place of a field's entry among the twelve; 12 for any other field.
fn place_of(key0: u8, key1: u8) -> usize
    ensures { (result ≡ place_of key0 key1) × (result ≤ 12) }
{
    if key0 != 0 {
        return 12;
    }
    if key1 < 1 {
        return 12;
    }
    if key1 <= 9 {
        return (key1 - 1) as usize;
    }
    if key1 < 121 {
        return 12;
    }
    if 123 < key1 {
        return 12;
    }
    (key1 - 112) as usize
}

// A value of four bytes as an entry, any other as none.
fn slot_in(v: &[u8]) -> Value
    ensures { result ≡ slot_in v.now }
{
    if v.len() != 4 {
        return None;
    }
    parameters::number_in(v[0], v[1], v[2], v[3])
}

fn table_of(s: [Value; 13]) -> Table
    ensures { result ≡ table_from s }
{
    Table {
        ordinary: [s[0], s[1], s[2], s[3], s[4], s[5], s[6], s[7], s[8]],
        fork: Fork {
            votes: s[9],
            start: s[10],
            version: s[11],
        },
    }
}

// 15 where a computed entry is missing or different among those found, with the least such id.
pub fn match_found(expected: Table, found: Table) -> Result<(), Mismatch>
    ensures { result ≡ match_found expected found }
{
    for k in 0..9u8 {
        if parameters::differs(expected.ordinary[k as usize], found.ordinary[k as usize]) {
            return Err(Mismatch { id: k + 1 });
        }
    }
    match_forks(expected.fork, found.fork)
}

fn match_forks(expected: Fork, found: Fork) -> Result<(), Mismatch>
    ensures { result ≡ matched (fork_unlike expected found) }
{
    if parameters::differs(expected.votes, found.votes) {
        return Err(Mismatch { id: 121 });
    }
    if parameters::differs(expected.start, found.start) {
        return Err(Mismatch { id: 122 });
    }
    if parameters::differs(expected.version, found.version) {
        return Err(Mismatch { id: 123 });
    }
    Ok(())
}
