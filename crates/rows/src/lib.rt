// The twelve rows of a settings command or reply, as parts of its burst.
#![tactic(auto)]

ghost use Rattle.std.specs.Prelude.{◌≡◌, ◌≤◌, IfSome};
ghost use Rattle.mlan.specs.Frame.{piece};
ghost use Rattle.mlan.specs.Rows.{is_whole, row_found, greatest_type, greatest_setting, row_fault, found_fault, rows_fault, row_of, row_at, rows_in};
ghost use Rattle.rows.specs.Parts.{row_told};

use kinds::Kind;
use mlan::frame::Part;
use std::array;
use terms::Row;

fn whole(rows: Part<'_>) -> bool
    ensures { result ≡ is_whole (piece rows.entry) }
{
    rows.bytes.len() == 36 && rows.at <= 64
}

// The three bytes of one row, 1 to 12, handed on as a part that starts inside the burst.
pub fn row_part<'a>(rows: Part<'a>, row: usize) -> Option<Part<'a>>
    ensures part { row_told result ≡ row_found (piece rows.entry) row }
    ensures inside { IfSome result (λ p. p.at ≤ 97) }
{
    if whole(rows) && row >= 1 && row <= 12 {
        let start = 3 * (row - 1);
        Some(Part {
            at: rows.at + start,
            bytes: &rows.bytes[start..start + 3],
        })
    } else {
        None
    }
}

// It and the greatest setting stay apart: two lines each, of two types.
fn greatest_type<K: Kind>(row: usize) -> u8
    ensures { result ≡ greatest_type K.Kind.facts row }
{
    if K::holds(row) { K::MATERIALS } else { 0 }
}

fn greatest_setting<K: Kind>(row: usize) -> u16
    ensures { result ≡ greatest_setting K.Kind.facts row }
{
    if K::holds(row) { 999 } else { 0 }
}

// The first byte of the first field of a row that is not the kind's.
fn part_fault<K: Kind>(row: usize, part: Part<'_>) -> Option<usize>
    requires { part.at ≤ 97 }
    ensures { result ≡ row_fault K.Kind.facts row (piece part.entry) }
{
    let [material, high, low] = part.bytes else {
        return Some(part.at);
    };
    if *material > greatest_type::<K>(row) {
        return Some(part.at);
    }
    if u16::from_be_bytes([*high, *low]) > greatest_setting::<K>(row) {
        return Some(part.at + 1);
    }
    None
}

fn row_fault<K: Kind>(rows: Part<'_>, row: usize) -> Option<usize>
    ensures { result ≡ found_fault K.Kind.facts row (piece rows.entry) (row_found (piece rows.entry) row) }
{
    match row_part(rows, row) {
        Some(part) => part_fault::<K>(row, part),
        None => Some(rows.at),
    }
}

// The same of all twelve rows, from first to last.
pub fn rows_fault<K: Kind>(rows: Part<'_>) -> Option<usize>
    ensures { result ≡ rows_fault K.Kind.facts (piece rows.entry) }
{
    (1..13).find_map(|row| row_fault::<K>(rows, row))
}

// The row that three bytes say; zero where there are none.
fn row_of(part: Option<Part<'_>>) -> Row
    ensures { result ≡ row_of (row_told part.entry) }
{
    let Some(
        Part {
            bytes: [material, high, low],
            ..
        },
    ) = part
    else {
        return Row::default();
    };
    Row {
        material: *material,
        setting: u16::from_be_bytes([*high, *low]),
    }
}

fn row_at(rows: Part<'_>, row: usize) -> Row
    ensures { result ≡ row_at (piece rows.entry) row }
{
    row_of(row_part(rows, row))
}

// All twelve rows.
pub fn rows_in(rows: Part<'_>) -> [Row; 12]
    ensures { result ≡ rows_in (piece rows.entry) }
{
    array::from_fn(|i| row_at(rows, i + 1))
}
