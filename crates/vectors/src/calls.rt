// The calls that rows ask, by name: the functions that C, Rust and Python call. An answer is the refusal's number and 256 times its id, or 0;
// none where no call has the name and as many arguments.
use crate::lists;
use crate::row::Row;
use codec::refusal::Refusal;
use exports::{body, boundary, replay, tables, update, votes, writing};
use extension::boundary as on_values;
use extension::boundary::Computed;
use wire::{boundary as wire_boundary, numbers, values};

const OUTPUT_SHORT: u16 = 21;

// A call that answers a flag.
fn flag(f: u8, out: &mut [u8]) -> u16 {
    match out.first_mut() {
        Some(cell) => {
            *cell = f;
            0
        }
        None => OUTPUT_SHORT,
    }
}

// A call that answers a size, or minus a number. The size must be that of the row's answer.
fn sized(r: usize, n: usize) -> Option<u16> {
    if r == n {
        return Some(0);
    }
    match r.wrapping_neg() {
        number @ 1..=255 => Some(number as u16),
        _ => None,
    }
}

fn byte_of(s: &[u8]) -> u8 {
    numbers::byte_at(s, 0)
}

fn id_of(s: &[u8]) -> i8 {
    byte_of(s).cast_signed()
}

// A row of six arguments is asked with the first five. A match for each number of arguments: the check of one match on the name and the
// arguments was not done after six minutes.
pub(crate) fn asked(row: &Row, out: &mut [u8]) -> Option<u16> {
    let n = row.answer.unwrap_or(b"").len();
    match row.arguments {
        [Some(a), None, ..] => with_one(row.name, a, n, out),
        [Some(a), Some(b), None, ..] => with_two(row.name, a, b, n, out),
        [Some(a), Some(b), Some(c), None, ..] => with_three(row.name, a, b, c, n, out),
        [Some(a), Some(b), Some(c), Some(d), None, ..] => with_four(row.name, a, b, c, d, out),
        [Some(a), Some(b), Some(c), Some(d), Some(e), _] => {
            with_five(row.name, a, b, c, d, e, n, out)
        }
        _ => None,
    }
}

fn with_one(name: &str, a: &[u8], n: usize, out: &mut [u8]) -> Option<u16> {
    Some(match name {
        "check_header_votes" => votes::ergo_check_header_votes(a).into(),
        "check_headers" => votes::ergo_check_headers(a).into(),
        "check_body" => body::ergo_check_body(a).into(),
        "parse_extension_bytes" => body::ergo_parse_extension_bytes(a, out).into(),
        "parse_validation_settings_update" => {
            update::ergo_parse_validation_settings_update(a, out).into()
        }
        "parse_parameters_from_kv" => sized(body::ergo_parse_parameters_from_kv(a, out), n)?,
        "extract_disabling_rules_from_kv" => {
            sized(body::ergo_extract_disabling_rules_from_kv(a, out), n)?
        }
        "pack_parameters_to_kv" => sized(writing::ergo_pack_parameters_to_kv(a, out), n)?,
        "encode_disabled_rules" => sized(encode_disabled_rules(a, out), n)?,
        "table_parameters" => sized(tables::ergo_table_parameters(a, out), n)?,
        "default_parameters" => tables::ergo_default_parameters(byte_of(a), out).into(),
        "voting_config" => tables::ergo_voting_config(byte_of(a), out).into(),
        "parameter_min" => tables::ergo_parameter_min(id_of(a), out).into(),
        "parameter_max" => tables::ergo_parameter_max(id_of(a), out).into(),
        "parameter_step" => tables::ergo_parameter_step(id_of(a), out).into(),
        "rule_may_not_be_disabled" => {
            flag(update::ergo_rule_may_not_be_disabled(lists::i32_of(a)), out)
        }
        _ => return None,
    })
}

fn encode_disabled_rules(a: &[u8], out: &mut [u8]) -> usize {
    let mut rules = [0; lists::ITEMS_MOST];
    let rules = lists::list_of(a, 2, lists::u16_of, &mut rules);
    writing::ergo_encode_disabled_rules(rules, out)
}

fn with_two(name: &str, a: &[u8], b: &[u8], n: usize, out: &mut [u8]) -> Option<u16> {
    Some(match name {
        "check_parameters_v6" => boundary::ergo_check_parameters_v6(a, b),
        "check_block_version" => boundary::ergo_check_block_version(a, byte_of(b)).into(),
        "soft_fork_approved" => flag(tables::ergo_soft_fork_approved(a, lists::i32_of(b)), out),
        "change_approved" => flag(tables::ergo_change_approved(a, lists::u32_of(b)), out),
        "pack_extension_bytes" => sized(writing::ergo_pack_extension_bytes(a, b, out), n)?,
        "field_at" => body::ergo_field_at(a, lists::u32_of(b) as usize, out).into(),
        "rule_at" => update::ergo_rule_at(a, lists::u32_of(b) as usize, out).into(),
        "status_at" => update::ergo_status_at(a, lists::u32_of(b) as usize, out).into(),
        "open" => replay::ergo_open(lists::u32_of(a), b, out).into(),
        "replay" => replay::ergo_replay(out, b),
        _ => return None,
    })
}

fn with_three(name: &str, a: &[u8], b: &[u8], c: &[u8], n: usize, out: &mut [u8]) -> Option<u16> {
    match name {
        "compute_boundary_parameters" => Some(compute_boundary_parameters(a, b, c, out)),
        "pack_fields" => sized(pack_fields(a, b, c, out), n),
        _ => None,
    }
}

fn pack_fields(keys: &[u8], b: &[u8], values: &[u8], out: &mut [u8]) -> usize {
    let mut sizes = [0; lists::ITEMS_MOST];
    let sizes = lists::list_of(b, 4, lists::u32_of, &mut sizes);
    writing::ergo_pack_fields(keys, sizes, values, out)
}

// The boundary on values stands for `ergo_compute_boundary_parameters`: a list of structs can't be made here without a walk by hand. Its
// promise is the same definition.
fn compute_boundary_parameters(
    tally: &[u8],
    proposed: &[u8],
    question: &[u8],
    out: &mut [u8],
) -> u16 {
    let q = wire_boundary::question_of(question);
    let config = q.config;
    let table = q.table;
    let x = on_values::boundary_with_update(
        config,
        q.height,
        table,
        values::tally_of(tally),
        q.vote,
        proposed,
    );
    computed(x, out)
}

fn computed(x: Result<Computed, Refusal>, out: &mut [u8]) -> u16 {
    match x.and_then(|c| wire_boundary::write_computed(c, out)) {
        Ok(_) => 0,
        Err(e) => e.number() as u16,
    }
}

fn with_four(name: &str, a: &[u8], b: &[u8], c: &[u8], d: &[u8], out: &mut [u8]) -> Option<u16> {
    Some(match name {
        "check_fork_vote" => votes::ergo_check_fork_vote(a, lists::u32_of(b), c, d).into(),
        "tally_votes_seeded" => votes::ergo_tally_votes_seeded(
            lists::u32_of(a),
            b,
            lists::u32_of(c),
            lists::u32_of(d),
            out,
        ).into(),
        _ => return None,
    })
}

fn with_five(
    name: &str,
    a: &[u8],
    b: &[u8],
    codes: &[u8],
    d: &[u8],
    raw: &[u8],
    n: usize,
    out: &mut [u8],
) -> Option<u16> {
    if name != "encode_validation_settings_update" {
        return None;
    }
    let mut rules = [0; lists::ITEMS_MOST];
    let mut ids = [0; lists::ITEMS_MOST];
    let mut sizes = [0; lists::ITEMS_MOST];
    let written = writing::ergo_encode_validation_settings_update(
        lists::list_of(a, 2, lists::u16_of, &mut rules),
        lists::list_of(b, 2, lists::i16_of, &mut ids),
        codes,
        lists::list_of(d, 4, lists::u32_of, &mut sizes),
        raw,
        out,
    );
    sized(written, n)
}
