// Does a record fit? Everything its full width (refusal 3), and the anchors' indexes their stored one (refusal 6).
ghost use Rattle.std.specs.Prelude.{◌≡◌, [], ◌+◌, ◌-◌, ◌^◌, ◌<◌, ◌≤◌, ltb, get_or, replicate};
ghost use Rattle.laws.specs.Digits.{join};
ghost use Rattle.laws.specs.Tables.{below, pick, table};
ghost use Rattle.record_rules.specs.Records.{fits, says};
ghost use Rattle.bc7_modes.specs.Modes.{IsRow, OfMode};
ghost use Rattle.record.specs.Fitting.{FullWith, PairAt, SetAt, split_fits, stored_fit, tops_zero, value_bits};

use bc7_format::Split;
use bc7_modes::ModeRow;
use bc7_places::fits::{above, indexes_fit, pair_fits};
use bc7_places::splits::{Anchors, index_mode_of, partition_of, rotation_of};
use bits::stream::word;
use record_rules::Record;

// Does a value fit a width?
fn value_fits(value: u8, width: u32) -> bool
    requires { width < 64 }
    ensures { result ≡ ltb value (2 ^ width) }
{
    above(value, width) == 0
}

fn split_fits(split: Split, row: ModeRow) -> bool
    requires { OfMode row }
    ensures { result ≡ split_fits split row }
{
    if !value_fits(partition_of(split), row.partition) {
        return false;
    }
    if !value_fits(rotation_of(split), row.rotation) {
        return false;
    }
    value_fits(index_mode_of(split), row.index_mode)
}

// Two endpoints of a record, from a place on, as one word.
fn pair(e: [u8; 24], at: usize) -> u64
    requires { at + 8 ≤ 24 }
    ensures { result ≡ join (replicate 8 8) (table 8 (λ i. get_or e (at + i) 0)) }
{
    word(
        e[at],
        e[at + 1],
        e[at + 2],
        e[at + 3],
        e[at + 4],
        e[at + 5],
        e[at + 6],
        e[at + 7],
    )
}

// A mode has its endpoints in pairs: a pair that it hasn't got fits no width.
fn endpoints_fit_at(e: [u8; 24], row: ModeRow, at: usize) -> bool
    requires { PairAt row at }
    ensures { result ≡ below 8 (λ i. ltb (get_or e (at + i) 0) (2 ^ value_bits row (at + i))) }
{
    if 4 * row.endpoints <= at {
        return pair_fits(pair(e, at), 0, 0);
    }
    pair_fits(pair(e, at), row.colour, row.alpha)
}

fn endpoints_fit(e: [u8; 24], row: ModeRow) -> bool
    requires { OfMode row }
    ensures { result ≡ below 24 (λ i. ltb (get_or e i 0) (2 ^ value_bits row i)) }
{
    if !endpoints_fit_at(e, row, 0) {
        return false;
    }
    if !endpoints_fit_at(e, row, 8) {
        return false;
    }
    endpoints_fit_at(e, row, 16)
}

// A p bit that the mode hasn't got is 0.
fn p_fits(p: [u8; 6], row: ModeRow) -> bool
    ensures { result ≡ below 6 (λ k. ltb (get_or p k 0) (2 ^ pick (ltb k row.p) 1 0)) }
{
    for (k, &bit) in p.iter().enumerate() {
        if !value_fits(bit, u32::from(k < row.p)) {
            return false;
        }
    }
    true
}

// Refusal 3: does everything fit its full width?
pub fn record_fits(record: Record, row: ModeRow) -> bool
    requires { IsRow «record».mode row }
    ensures { result ≡ fits «record».mode [] (says «record») }
{
    let split = record.split;
    if !split_fits(split, row) {
        return false;
    }
    let endpoints = record.endpoints;
    if !endpoints_fit(endpoints, row) {
        return false;
    }
    let p = record.p;
    if !p_fits(p, row) {
        return false;
    }
    let first = record.first;
    if !indexes_fit(first, row.first) {
        return false;
    }
    let second = record.second;
    indexes_fit(second, row.second)
}

// Do the anchors' indexes of a set do without their top bits?
fn tops_zero(indexes: [u8; 16], anchors: Anchors, width: u32) -> bool
    requires { SetAt anchors width }
    ensures { result ≡ tops_zero indexes anchors (width - 1) }
{
    let a = anchors.a;
    if !value_fits(indexes[a], width - 1) {
        return false;
    }
    let b = anchors.b;
    if !value_fits(indexes[b], width - 1) {
        return false;
    }
    let c = anchors.c;
    value_fits(indexes[c], width - 1)
}

// Refusal 6, where everything fits its full width: do the anchors' indexes fit as they are stored? A mode whose kind is a vector
// and a scalar has two sets.
pub fn anchors_fit(record: Record, row: ModeRow, anchors: Anchors) -> bool
    requires { FullWith «record» row anchors }
    ensures { result ≡ stored_fit «record» }
{
    let first = record.first;
    if !tops_zero(first, anchors, row.first) {
        return false;
    }
    if row.kind != 3 {
        return true;
    }
    let second = record.second;
    tops_zero(second, anchors, row.second)
}
