//! Laws of changes of gains. Nothing is computed here: the clauses are the laws.
ghost use Rattle.std.specs.Prelude.{◌≡◌, ◌≢◌, ◌⊎◌, ◌<◌, ◌<ℤ◌, ◌≤ℤ◌, ℕ, ℤ, pos, List, [], length, slice_index_or, Ok};
ghost use Rattle.gain_mix.specs.Changes.{Changes, matrix_at};
ghost use Rattle.studio_run.specs.Gains.{with_gain};
ghost use Rattle.studio_run.specs.GainsLines.{changed};

/// States that the gains of a change are in force from its time on, whatever was planned, and that no gain before its
/// time changes.
pub fn a_change_is_in_force_from_its_time_on()
    ensures from { (state next : Changes × ℤ) (change : ℤ × List (List ℤ)) (t : ℤ) → changed state change ≡ Ok next
        → change.0 ≤ℤ t → matrix_at next.0 t ≡ change.1 }
    ensures before { (state next : Changes × ℤ) (change : ℤ × List (List ℤ)) (t : ℤ) → changed state change ≡ Ok next
        → t <ℤ change.0 → matrix_at next.0 t ≡ matrix_at state.0 t }
{}

/// States that a change of one gain changes the gain from its input to its output, and no other.
pub fn one_gain_changes_alone()
    ensures gain { (rows : List (List ℤ)) (output input : ℕ) (gain : ℤ) → output < length rows
        → input < length (slice_index_or rows output [])
        → slice_index_or (slice_index_or (with_gain rows output input gain) output []) input (pos 0) ≡ gain }
    ensures others { (rows : List (List ℤ)) (output input : ℕ) (gain : ℤ) (row place : ℕ)
        → (row ≢ output) ⊎ (place ≢ input)
        → slice_index_or (slice_index_or (with_gain rows output input gain) row []) place (pos 0)
        ≡ slice_index_or (slice_index_or rows row []) place (pos 0) }
{}
