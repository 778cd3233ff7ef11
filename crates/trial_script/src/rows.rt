//! Trials that the definitions compute.
ghost use Rattle.std.specs.Prelude.{◌≡◌, ℕ, [], ◌∷◌, ◌++◌, map, length, Some, codes};
ghost use Rattle.std.specs.List.{slice_get};
ghost use Rattle.spb_edge.specs.declared.reader.Line.{Line};
ghost use Rattle.spb_defs.specs.ObjectText.{text_of};
ghost use Rattle.trial_script.specs.Draws.{draw};
ghost use Rattle.trial_script.specs.Script.{trial_space, trial_samples, trial_lines};
ghost use Rattle.trial_script.specs.Totals.{summary_text, trial_text};
ghost use Rattle.trial_script.specs.Worked.{counted};

/// What seeds draw, the lines of small trials, and the line that a trial writes. The call does nothing.
pub fn worked_trials()
    ensures first_draw { draw 0 0 ≡ 23 }
    ensures last_sample { slice_get (map (text_of trial_space) (trial_samples 0)) 15 ≡ Some (codes "686,61,595,768") }
    ensures count { length (trial_lines 0 1) ≡ 34 }
    ensures first_line { slice_get (trial_lines 0 2) 0 ≡ Some (Line.Text (codes "add 0 0 398,167,218,695")) }
    ensures second_line { slice_get (trial_lines 0 2) 1 ≡ Some (Line.Text (codes "add 1 0 903,411,409,527")) }
    ensures range_line { slice_get (trial_lines 0 2) 2 ≡ Some (Line.Text (codes "range 1 400 183,655,942,593")) }
    ensures near_line { slice_get (trial_lines 0 2) 33 ≡ Some (Line.Text (codes "near 0 5 973,719,298,834")) }
    ensures join_line { slice_get (trial_lines 0 2) 34 ≡ Some (Line.Text (codes "join 0 1 60")) }
    ensures summary { summary_text counted
        ≡ codes "trial changes 1 range 2 evals 3 sure 4 near 5 evals 6 join 8 evals 9 sure 18446744073709551616" ++ 10 ∷ [] }
    // Collection 1 is empty: each range computes its distances to the four pivots alone, and each question for the
    // nearest one more.
    ensures one { trial_text 0 1 ≡ codes "trial changes 1 range 0 evals 64 sure 0 near 16 evals 80 join 0 evals 0 sure 0" ++ 10 ∷ [] }
    // Four objects in each collection: the ranges measure six of them, and one is in a range by the pivots alone.
    ensures eight { trial_text 519 8 ≡ codes "trial changes 8 range 1 evals 70 sure 1 near 64 evals 128 join 0 evals 0 sure 0" ++ 10 ∷ [] }
{}
