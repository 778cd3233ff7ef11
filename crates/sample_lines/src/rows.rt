//! Worked scripts, which the definitions compute.
ghost use Rattle.std.specs.Prelude.{◌≡◌, [], ◌∷◌, ◌++◌, codes, replicate};
ghost use Rattle.metrics_builtin.specs.Vectors.{object_of_components};
ghost use Rattle.spb_defs.specs.Scripts.{with_lf};
ghost use Rattle.sample_lines.specs.SampleLines.{AreSampleLines, IsFirstBad, first_kept};
ghost use Rattle.sample_lines.specs.Worked.{plane, lines_in};

/// Scripts over points with two components from 0 to 255: their samples, and their first bad line. The call does
/// nothing.
pub fn worked_lines()
    // No LF ends the last line.
    ensures samples { AreSampleLines plane (lines_in (with_lf (codes "sample 0,0") ++ codes "sample 255,1"))
        (object_of_components (0 ∷ 0 ∷ []) ∷ object_of_components (255 ∷ 1 ∷ []) ∷ []) }
    ensures empty { AreSampleLines plane (lines_in []) [] }
    ensures outside { IsFirstBad plane (lines_in (with_lf (codes "sample 0,0") ++ with_lf (codes "sample 256,0"))) 2 }
    ensures command { IsFirstBad plane (lines_in (with_lf (codes "add 0 1 0,0") ++ with_lf (codes "sample 256,0"))) 1 }
    ensures empty_line { IsFirstBad plane (lines_in (with_lf [] ++ with_lf (codes "sample 0,0"))) 1 }
    // 16385 bytes are too many.
    ensures long { IsFirstBad plane (lines_in (with_lf (codes "sample 0,0") ++ replicate 16385 97)) 2 }
    ensures kept { first_kept (replicate 4097 (0 ∷ [])) ≡ replicate 4096 (0 ∷ []) }
{}
