//! Laws of sample lines.
ghost use Rattle.std.specs.Prelude.{◌≡◌, ◌⊎◌, ℕ, List};
ghost use Rattle.spb_edge.specs.declared.reader.Line.{Line};
ghost use Rattle.metrics_builtin.specs.declared.Space.{Space};
ghost use Rattle.sample_lines.specs.SampleLines.{AreSampleLines, AreAllSamples, IsFirstBad};

/// Lines are all samples or have a first bad one, and not both; their objects are the only ones, and so is the number of
/// the first bad line. So no script has two answers. The call does nothing.
pub fn one_answer()
    ensures either { (space : Space) (lines : List Line) → AreAllSamples space lines ⊎ ((number : ℕ) × IsFirstBad space lines number) }
    ensures not_both { (space : Space) (lines : List Line) (number : ℕ) → AreAllSamples space lines → IsFirstBad space lines number → ⊥ }
    ensures objects { (space : Space) (lines : List Line) (first second : List (List ℕ)) → AreSampleLines space lines first
        → AreSampleLines space lines second → first ≡ second }
    ensures number { (space : Space) (lines : List Line) (first second : ℕ) → IsFirstBad space lines first → IsFirstBad space lines second
        → first ≡ second }
{}
