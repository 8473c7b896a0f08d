//! Laws of values, covers and accepted marks.
ghost use Rattle.std.specs.Prelude.{◌≡◌, ℕ, ℤ, pos, ◌+ℤ◌, List, [], ◌∷◌, ◌++◌, true};
ghost use Rattle.rtp_stream.specs.MarkFacts.{MarkView};
ghost use Rattle.rtp_stream.specs.MarkList.{is_mark_list, has_end};
ghost use Rattle.rtp_stream.specs.declared.mark.PacketFormat.{PacketFormat};
ghost use Rattle.lane_align.specs.Value.{value_at};
ghost use Rattle.lane_align.specs.Presence.{is_present};
ghost use Rattle.lane_align.specs.Cover.{cover_of, covers};
ghost use Rattle.lane_align.specs.AcceptedMarks.{accepted_marks, accepted_with};

/// States that neither a value nor the presence before the cover changes when accepted marks are added. A time that is
/// covered stays covered, and no mark is added after an end.
pub fn values_before_the_cover_stay()
    ensures values { (format : PacketFormat) (came more : List MarkView) (t : ℤ) (k : ℕ)
        → covers (cover_of format (accepted_marks format came)) (t +ℤ pos 1) ≡ true
        → value_at format (accepted_marks format (came ++ more)) t k
        ≡ value_at format (accepted_marks format came) t k }
    ensures list_values { (format : PacketFormat) (marks more : List MarkView) (t : ℤ) (k : ℕ)
        → is_mark_list format (marks ++ more) ≡ true → covers (cover_of format marks) (t +ℤ pos 1) ≡ true
        → value_at format (marks ++ more) t k ≡ value_at format marks t k }
    ensures presence { (format : PacketFormat) (marks more : List MarkView) (t : ℤ)
        → is_mark_list format (marks ++ more) ≡ true → covers (cover_of format marks) (t +ℤ pos 1) ≡ true
        → is_present format (marks ++ more) t ≡ is_present format marks t }
    ensures cover { (format : PacketFormat) (marks more : List MarkView) (t : ℤ)
        → is_mark_list format (marks ++ more) ≡ true → covers (cover_of format marks) t ≡ true
        → covers (cover_of format (marks ++ more)) t ≡ true }
    ensures ended { (format : PacketFormat) (marks more : List MarkView)
        → is_mark_list format (marks ++ more) ≡ true → has_end marks ≡ true → more ≡ [] }
{}

/// States that accepted marks are a mark list, and that all marks of a mark list are accepted. One more mark is
/// accepted if the accepted marks stay a mark list with it.
pub fn accepted_marks_are_a_mark_list()
    ensures listed { (format : PacketFormat) (came : List MarkView)
        → is_mark_list format (accepted_marks format came) ≡ true }
    ensures all { (format : PacketFormat) (marks : List MarkView) → is_mark_list format marks ≡ true
        → accepted_marks format marks ≡ marks }
    ensures next { (format : PacketFormat) (came : List MarkView) (mark : MarkView)
        → accepted_marks format (came ++ mark ∷ []) ≡ accepted_with format (accepted_marks format came) mark }
{}
