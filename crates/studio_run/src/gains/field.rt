//! The whole numbers that the fields of a line spell.
ghost use Rattle.std.specs.Prelude.{◌≡◌, ◌==◌, ◌≤◌, ◌⊎◌, length, IfOk, IfErr, Ok, Err, count_by};
ghost use Rattle.studio_run.specs.Fields.{fields_after};
ghost use Rattle.studio_run.specs.GainsNumbers.{integer_of, numbers_of};
ghost use Rattle.studio_run.specs.declared.gains.fault.GainsFaultKind.TheVariants as kind;

use crate::gains::fault::GainsFaultKind;
use crate::text_field::{decimal_number, split_field};
use std::alloc::Global;

/// The greatest number that is read: the greatest `i64`.
const MAX_NUMBER: u64 = 9_223_372_036_854_775_807;

/// Returns the whole numbers that the fields after a word spell, if they are `count`.
pub(crate) fn numbers_in(
    alloc: Global,
    fields: Option<&[u8]>,
    count: usize,
) -> Result<Vec<i64>, GainsFaultKind>
    ensures ok { IfOk result (λ numbers. numbers_of count (fields_after fields.entry) ≡ Ok numbers.items) }
    ensures count { IfOk result (λ numbers. length numbers.items ≡ count) }
    ensures fault { IfErr result
        (λ e. (e ≡ kind.Memory) ⊎ (numbers_of count (fields_after fields.entry) ≡ Err e)) }
{
    // The number of fields is tested first, then each field: the order of `GainsFaultKind`.
    if count_fields(fields) != count {
        return Err(GainsFaultKind::Fields);
    }
    let mut numbers = Vec::new(alloc);
    let mut left = fields;
    while let Some(text) = left {
        let (field, more) = split_field(text);
        let Some(number) = integer_in(field) else {
            return Err(GainsFaultKind::Number);
        };
        numbers.push(number).map_err(|_| GainsFaultKind::Memory)?;
        left = more;
    }
    Ok(numbers)
}

/// Returns the number of fields after a word.
fn count_fields(fields: Option<&[u8]>) -> usize
    ensures { result ≡ length (fields_after fields.entry) }
{
    match fields {
        Some(text) => count_spaces(text) + 1,
        None => 0,
    }
}

/// Returns the number of spaces in a text.
fn count_spaces(text: &[u8]) -> usize
    ensures count { result ≡ count_by (λ octet. octet == 32) text.now }
    ensures few { result ≤ length text.now }
{
    text.iter().filter(|octet| **octet == b' ').count()
}

/// Returns the whole number that a field spells.
fn integer_in(field: &[u8]) -> Option<i64>
    ensures { integer_of field.now ≡ result }
{
    if field.is_empty() || field[0] != b'-' {
        return match decimal_number(field, MAX_NUMBER) {
            Some(size) => Some(size as i64),
            None => None,
        };
    }
    match decimal_number(&field[1..], MAX_NUMBER) {
        Some(size) if size != 0 => Some(-(size as i64)),
        _ => None,
    }
}
