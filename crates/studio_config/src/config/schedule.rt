//! The tables of the output's gains and of their changes.
ghost use Rattle.std.specs.Prelude.{◌≡◌, ◌≤◌, ◌⊎◌, true, None, Some, OnOk, IfOk, IfErr, map, length, option_map};
ghost use Rattle.std.specs.List.{list_all};
ghost use Rattle.toml.specs.View.{view, table_view};
ghost use Rattle.gain_mix.specs.Gain.{ins_of};
ghost use Rattle.gain_mix.specs.Schedule.{schedule_fault_of};
ghost use Rattle.studio_config.specs.Values.{members_in, is_table, gains_at, tables_at};
ghost use Rattle.studio_config.specs.Rows.{at_key};
ghost use Rattle.studio_config.specs.OutputTable.{
  each_fault,
  change_fault,
  matrix_fault,
  change_of,
  schedule_of,
  schedule_fault,
};
ghost use Rattle.studio_config.specs.Config.{no_memory};
ghost use Rattle.studio_config.specs.declared.config.keys.Key.TheVariants as key;
ghost use Rattle.studio_config.specs.declared.config.fault.ConfigTable.TheVariants as at;
ghost use Rattle.studio_config.specs.declared.config.fault.SpecErrorKind.TheVariants as kind;

use crate::config::fault::{ConfigTable, SpecError, SpecErrorKind};
use crate::config::gain_rows::{check_gains, rows_at};
use crate::config::integers::{natural_at, whole};
use crate::config::keys::Key;
use crate::config::matrix::read_matrix;
use crate::config::tables::table_of;
use crate::config::unknown_keys::check_known;
use gain_mix::{Matrix, MatrixFault, Schedule};
use rtp_stream::MAX_TIME;
use std::alloc::{AllocError, Global};
use toml::{Table, Value};

/// The keys of a change's table.
const KEYS: [Key; 2] = [Key::At, Key::Gains];

/// Tests the tables of changes, one after the other.
pub(crate) fn check_changes(changes: &[Value]) -> Result<(), SpecError>
    requires tables { list_all (λ t. is_table (view t)) changes.now ≡ true }
    ensures ok { OnOk result (each_fault change_fault 0 (map (λ t. members_in (view t)) changes.now) ≡ None) }
    ensures fault { IfErr result
        (λ e. each_fault change_fault 0 (map (λ t. members_in (view t)) changes.now) ≡ Some e) }
{
    for (number, change) in changes.iter().enumerate() {
        check_change(table_of(change), number)?;
    }
    Ok(())
}

/// Tests a change's table.
fn check_change(table: &Table, number: usize) -> Result<(), SpecError>
    ensures ok { OnOk result (change_fault number (table_view table.now) ≡ None) }
    ensures fault { IfErr result (λ e. change_fault number (table_view table.now) ≡ Some e) }
{
    let place = ConfigTable::Change(number);
    whole(table, place, Key::At, 0, MAX_TIME as u64)?;
    check_gains(table, place, Key::Gains)?;
    check_known(table, place, &KEYS)
}

/// Reads the matrix of a table's gains.
pub(crate) fn read_gains(
    alloc: Global,
    table: &Table,
    place: ConfigTable,
    outs: usize,
    ins: usize,
) -> Result<Matrix, SpecError>
    requires some_outs { 1 ≤ outs }
    requires few_outs { outs ≤ 8 }
    requires some_ins { 1 ≤ ins }
    requires few_ins { ins ≤ 1024 }
    ensures ok { OnOk result (matrix_fault outs ins place (table_view table.now) ≡ None) }
    ensures matrix { IfOk result (λ m. m ≡ gains_at (table_view table.now) key.Gains) }
    ensures outs { IfOk result (λ m. length m ≡ outs) }
    ensures ins { IfOk result (λ m. ins_of m ≡ ins) }
    ensures fault { IfErr result (λ e. (e ≡ no_memory)
        ⊎ (matrix_fault outs ins place (table_view table.now) ≡ Some e)) }
{
    match read_matrix(alloc, outs, ins, rows_at(table, Key::Gains)) {
        Ok(matrix) => Ok(matrix),
        // An allocation failure is no fault of the gains, so it is not put at their key.
        Err(MatrixFault::Memory) => Err(SpecError::from(AllocError)),
        Err(fault) => Err(SpecError {
            place,
            key: Some(Key::Gains),
            kind: SpecErrorKind::Gains(fault),
        }),
    }
}

/// Reads a change: its time in sampling instants, and the gains from then on.
fn read_change(
    alloc: Global,
    table: &Table,
    place: ConfigTable,
    outs: usize,
    ins: usize,
) -> Result<(i64, Matrix), SpecError>
    requires some_outs { 1 ≤ outs }
    requires few_outs { outs ≤ 8 }
    requires some_ins { 1 ≤ ins }
    requires few_ins { ins ≤ 1024 }
    ensures ok { OnOk result (matrix_fault outs ins place (table_view table.now) ≡ None) }
    ensures change { IfOk result (λ c. c ≡ change_of (table_view table.now)) }
    ensures fault { IfErr result (λ e. (e ≡ no_memory)
        ⊎ (matrix_fault outs ins place (table_view table.now) ≡ Some e)) }
{
    let matrix = read_gains(alloc, table, place, outs, ins)?;
    // `check_change` has tested the time, so there is no second error for it here.
    Ok((natural_at(table, Key::At) as i64, matrix))
}

/// Reads the changes, whose tables `check_changes` has tested.
pub(crate) fn read_changes(
    alloc: Global,
    changes: &[Value],
    outs: usize,
    ins: usize,
) -> Result<Vec<(i64, Matrix)>, SpecError>
    requires tables { list_all (λ t. is_table (view t)) changes.now ≡ true }
    requires some_outs { 1 ≤ outs }
    requires few_outs { outs ≤ 8 }
    requires some_ins { 1 ≤ ins }
    requires few_ins { ins ≤ 1024 }
    ensures ok { OnOk result (each_fault (λ n. matrix_fault outs ins (at.Change n)) 0
        (map (λ t. members_in (view t)) changes.now) ≡ None) }
    ensures changes { IfOk result (λ later. later.items ≡ map change_of (map (λ t. members_in (view t)) changes.now)) }
    ensures fault { IfErr result (λ e. (e ≡ no_memory) ⊎ (each_fault (λ n. matrix_fault outs ins (at.Change n)) 0
        (map (λ t. members_in (view t)) changes.now) ≡ Some e)) }
{
    let mut later = Vec::new(alloc);
    for (number, change) in changes.iter().enumerate() {
        let change = read_change(
            alloc,
            table_of(change),
            ConfigTable::Change(number),
            outs,
            ins,
        )?;
        later.push(change)?;
    }
    Ok(later)
}

/// Reads the gains of the output's table and their changes, whose tables `check_changes` has tested.
pub(crate) fn read_schedule(
    alloc: Global,
    table: &Table,
    changes: &[Value],
    outs: usize,
    ins: usize,
) -> Result<Schedule, SpecError>
    requires tables { list_all (λ t. is_table (view t)) changes.now ≡ true }
    requires same { map (λ t. members_in (view t)) changes.now ≡ tables_at (table_view table.now) key.Change }
    requires some_outs { 1 ≤ outs }
    requires few_outs { outs ≤ 8 }
    requires some_ins { 1 ≤ ins }
    requires few_ins { ins ≤ 1024 }
    ensures ok { OnOk result (schedule_fault outs ins (table_view table.now) ≡ None) }
    ensures schedule { IfOk result (λ s. s ≡ schedule_of (table_view table.now)) }
    ensures outs { IfOk result (λ s. length s.first ≡ outs) }
    ensures ins { IfOk result (λ s. ins_of s.first ≡ ins) }
    ensures fault { IfErr result (λ e. (e ≡ no_memory) ⊎ (schedule_fault outs ins (table_view table.now) ≡ Some e)) }
{
    let first = read_gains(alloc, table, ConfigTable::Output, outs, ins)?;
    let later = read_changes(alloc, changes, outs, ins)?;
    make_schedule(first, later)
}

/// Returns the schedule of these gains and changes.
fn make_schedule(first: Matrix, later: Vec<(i64, Matrix)>) -> Result<Schedule, SpecError>
    ensures ok { OnOk result (at_key at.Output key.Change
        (option_map kind.Schedule (schedule_fault_of first later.items)) ≡ None) }
    ensures schedule { IfOk result (λ s. s ≡ record { first = first; later = later.items }) }
    ensures fault { IfErr result
        (λ e. at_key at.Output key.Change (option_map kind.Schedule (schedule_fault_of first later.items)) ≡ Some e) }
{
    match Schedule::new(first, later) {
        Ok(schedule) => Ok(schedule),
        Err(fault) => Err(SpecError {
            place: ConfigTable::Output,
            key: Some(Key::Change),
            kind: SpecErrorKind::Schedule(fault),
        }),
    }
}
