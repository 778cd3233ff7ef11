//! Scripts and what they are answered, which the definitions compute. The calls do nothing.

ghost use Rattle.std.specs.Prelude.{◌≡◌, ℕ, [], ◌∷◌, ◌++◌, Some, None, replicate, codes};
ghost use Rattle.spb_defs.specs.Play.{play};
ghost use Rattle.metrics_builtin.specs.declared.Space.TheVariants.{L1, LInf, Hamming, Sets};
ghost use Rattle.spb_defs.specs.declared.Asked.TheVariants.{Mem, Make, Run, Check, Trial};
ghost use Rattle.spb_defs.specs.Words.{asked_of, file_use_of};
ghost use Rattle.spb_defs.specs.declared.FileUse.{FileUse};
ghost use Rattle.spb_defs.specs.declared.CurveKind.TheVariants.{Z, Hilbert};
ghost use Rattle.spb_defs.specs.State.{empty_in_memory};
ghost use Rattle.spb_defs.specs.Scripts.{IsAnswered, AreAnswered, AreAnsweredWith, ClosesSampling, three_samples, thrice_ok, with_lf, plane, plane_in_file};

/// Scripts over points with two components from 0 to 255, without pivots.
pub fn worked_rows()
    ensures added { AreAnswered
        (codes "add 0 1 0,0" ∷ codes "range 0 0 0,0" ∷ [])
        (codes "ok" ∷ codes "range 1 evals 1 sure 0: 1" ∷ []) }
    ensures exists { AreAnswered
        (codes "add 0 1 0,0" ∷ codes "add 0 1 5,5" ∷ codes "get 0 1" ∷ codes "range 0 5 3,4" ∷ [])
        (codes "ok" ∷ codes "exists" ∷ codes "object 0,0" ∷ codes "range 0 evals 1 sure 0:" ∷ []) }
    ensures within { AreAnswered
        (codes "add 1 7 0,1" ∷ codes "add 1 3 9,9" ∷ codes "add 2 1 0,0" ∷ codes "add 1 4294967295 1,0" ∷ codes "range 1 1 0,0" ∷ codes "count 1" ∷ [])
        (codes "ok" ∷ codes "ok" ∷ codes "ok" ∷ codes "ok" ∷ codes "range 2 evals 3 sure 0: 7 4294967295" ∷ codes "count 3" ∷ []) }
    ensures refused { AreAnswered
        (codes "" ∷ codes "add 0 6 256,0" ∷ codes "add 4 6 1,1" ∷ codes "add 0 06 1,1" ∷ codes "add 0 1" ∷ codes "range 0 -1 3,0"
        ∷ codes "near 0 0 3,0" ∷ codes "near 0 65537 3,0" ∷ codes "fetch 0 1" ∷ codes "add 9 06 x" ∷ [])
        (codes "bad command" ∷ codes "bad object" ∷ codes "bad collection" ∷ codes "bad id" ∷ codes "bad command" ∷ codes "bad number"
        ∷ codes "bad number" ∷ codes "bad number" ∷ codes "bad command" ∷ codes "bad collection" ∷ []) }
    ensures dropped { AreAnswered
        (codes "add 0 2 3,4" ∷ codes "drop 0 77" ∷ codes "get 0 2" ∷ codes "count 0" ∷ codes "get 3 2" ∷ codes "drop 0 2" ∷ codes "count 0" ∷ [])
        (codes "ok" ∷ codes "absent" ∷ codes "object 3,4" ∷ codes "count 1" ∷ codes "absent" ∷ codes "ok" ∷ codes "count 0" ∷ []) }
    // Without pivots all distances are computed, but for those after a last rank at distance 0.
    ensures nearest { AreAnswered
        (codes "add 0 1 0,0" ∷ codes "add 0 2 3,4" ∷ codes "add 0 3 10,0" ∷ codes "add 0 4 3,0" ∷ codes "near 0 2 3,1" ∷ codes "near 0 1 3,4" ∷ codes
        "near 0 9 3,0" ∷ codes "near 1 1 0,0" ∷ [])
        (codes "ok" ∷ codes "ok" ∷ codes "ok" ∷ codes "ok" ∷ codes "near 2 evals 4: 4@1 2@3" ∷ codes "near 1 evals 2: 2@0" ∷ codes
        "near 4 evals 4: 4@0 1@3 2@4 3@7" ∷ codes "near 0 evals 0:" ∷ []) }
    ensures joined { AreAnswered
        (codes "add 0 1 0,0" ∷ codes "add 0 2 3,4" ∷ codes "add 1 1 1,1" ∷ codes "add 1 9 3,5" ∷ codes "join 0 1 3" ∷ codes "join 1 0 3" ∷ codes "join 0 1 8" ∷
        codes "join 0 0 7" ∷ codes "join 0 2 x" ∷ [])
        (codes "ok" ∷ codes "ok" ∷ codes "ok" ∷ codes "ok" ∷ codes "join 2 evals 4 sure 0: 1-1 2-9" ∷ codes "join 2 evals 4 sure 0: 1-1 9-2" ∷ codes
        "join 4 evals 4 sure 0: 1-1 1-9 2-1 2-9" ∷ codes "join 1 evals 1 sure 0: 1-2" ∷ codes "bad number" ∷ []) }
    // 16385 bytes are too many, and 16384 are read.
    ensures long { play plane (with_lf (replicate 16385 97) ++ replicate 16384 97) ≡ with_lf (codes "long") ++ with_lf (codes "bad command") }
    // No LF ends the last line.
    ensures unended { play plane (codes "range 0 0 0,0") ≡ with_lf (codes "range 0 evals 0 sure 0:") }
{}

/// Scripts that begin with samples: which lines close them, and which don't.
pub fn worked_samples()
    ensures sampled { AreAnswered
        (codes "sample 0,0" ∷ codes "bad" ∷ codes "sample 1,1" ∷ codes "count 0" ∷ codes "sample 1,1" ∷ codes "sample 256,0" ∷ [])
        (codes "ok" ∷ codes "bad command" ∷ codes "ok" ∷ codes "count 0" ∷ codes "late" ∷ codes "bad object" ∷ []) }
    ensures add { ClosesSampling (codes "add 0 1 0,0") (codes "ok") }
    ensures absent { ClosesSampling (codes "drop 0 1") (codes "absent") }
    ensures get { ClosesSampling (codes "get 0 1") (codes "absent") }
    ensures count { ClosesSampling (codes "count 0") (codes "count 0") }
    ensures range { ClosesSampling (codes "range 0 1 0,0") (codes "range 0 evals 0 sure 0:") }
    ensures near { ClosesSampling (codes "near 0 1 0,0") (codes "near 0 evals 0:") }
    ensures join { ClosesSampling (codes "join 0 1 1") (codes "join 0 evals 0 sure 0:") }
{}

/// Scripts with pivots: how many distances they save, and which samples are chosen.
pub fn worked_pivots()
    // Two pivots, 0,0 and 255,0, save the distances that they decide.
    ensures spared { AreAnsweredWith 2
        (three_samples ++ codes "add 0 1 0,0" ∷ codes "add 0 2 3,4" ∷ codes "add 0 3 10,0" ∷ codes "add 0 4 100,100" ∷ codes "add 0 5 255,0"
        ∷ codes "range 0 8 3,0" ∷ codes "range 1 8 3,0" ∷ codes "range 0 4294967295 3,0" ∷ codes "near 0 2 3,0" ∷ codes "near 0 9 3,0"
        ∷ codes "sample 1,1" ∷ codes "sample 256,0" ∷ [])
        (thrice_ok ++ codes "ok" ∷ codes "ok" ∷ codes "ok" ∷ codes "ok" ∷ codes "ok"
        ∷ codes "range 3 evals 4 sure 1: 1 2 3" ∷ codes "range 0 evals 2 sure 0:" ∷ codes "range 5 evals 2 sure 5: 1 2 3 4 5"
        ∷ codes "near 2 evals 4: 1@3 2@4" ∷ codes "near 5 evals 7: 1@3 2@4 3@7 4@197 5@252"
        ∷ codes "late" ∷ codes "bad object" ∷ []) }
    ensures paired { AreAnsweredWith 2
        (three_samples ++ codes "add 0 1 0,0" ∷ codes "add 0 2 3,4" ∷ codes "add 1 1 1,1" ∷ codes "add 1 9 3,5" ∷ codes "join 0 1 3" ∷ [])
        (thrice_ok ++ codes "ok" ∷ codes "ok" ∷ codes "ok" ∷ codes "ok" ∷ codes "join 2 evals 1 sure 1: 1-1 2-9" ∷ []) }
    ensures twins { AreAnsweredWith 2
        (three_samples ++ codes "add 0 1 7,7" ∷ codes "add 0 2 7,7" ∷ codes "join 0 0 0" ∷ codes "add 1 8 1,0" ∷ codes "add 1 7 0,1" ∷ codes "near 1 1 0,0" ∷
        [])
        (thrice_ok ++ codes "ok" ∷ codes "ok" ∷ codes "join 1 evals 1 sure 0: 1-2" ∷ codes "ok" ∷ codes "ok" ∷ codes "near 1 evals 3: 7@1" ∷ []) }
    // An object whose bound is the distance of the last rank is measured if its id is less.
    ensures tied { AreAnsweredWith 1
        (codes "sample 0,0" ∷ codes "add 0 9 0,2" ∷ codes "add 0 3 6,0" ∷ codes "near 0 1 2,0" ∷ [])
        (codes "ok" ∷ codes "ok" ∷ codes "ok" ∷ codes "near 1 evals 3: 3@4" ∷ []) }
    // More pivots are wanted than there are samples, which are all equal.
    ensures few { AreAnsweredWith 8
        (codes "sample 5,5" ∷ codes "sample 5,5" ∷ codes "range 0 1 5,6" ∷ [])
        (codes "ok" ∷ codes "ok" ∷ codes "range 0 evals 2 sure 0:" ∷ []) }
    // From 0,0 the distances are 100, 50 and 40, so 100,0 is second. Then 50,0 has the sum 50 + 50 = 100 and the
    // least distance 50, and 0,40 has the sum 40 + 140 = 180 and the least distance 40: the sum chooses 0,40. The
    // vectors of 50,0 and 0,40 are (50,50,90) and (40,140,0), so only the second is sure at radius 0.
    ensures third { AreAnsweredWith 3
        (codes "sample 0,0" ∷ codes "sample 100,0" ∷ codes "sample 50,0" ∷ codes "sample 0,40" ∷ codes "add 0 1 50,0" ∷ codes "add 0 2 0,40"
        ∷ codes "range 0 0 50,0" ∷ codes "range 0 0 0,40" ∷ [])
        (codes "ok" ∷ codes "ok" ∷ codes "ok" ∷ codes "ok" ∷ codes "ok" ∷ codes "ok"
        ∷ codes "range 1 evals 4 sure 0: 1" ∷ codes "range 1 evals 3 sure 1: 2" ∷ []) }
    // 10,0 and 0,10 are as far from 0,0, and the first of them is chosen: the vectors are (10,0) and (10,20).
    ensures earliest { AreAnsweredWith 2
        (codes "sample 0,0" ∷ codes "sample 10,0" ∷ codes "sample 0,10" ∷ codes "add 0 1 10,0" ∷ codes "add 0 2 0,10"
        ∷ codes "range 0 0 10,0" ∷ codes "range 0 0 0,10" ∷ [])
        (thrice_ok ++ codes "ok" ∷ codes "ok" ∷ codes "range 1 evals 2 sure 1: 1" ∷ codes "range 1 evals 3 sure 0: 2" ∷ []) }
{}

/// Scripts over stores in a file: their room, their curve, and that their samples are closed from the start.
pub fn worked_files()
    ensures full { IsAnswered (plane_in_file Z 3)
        (codes "add 0 1 0,0" ∷ codes "add 1 2 3,4" ∷ codes "add 0 3 10,0" ∷ codes "add 0 4 1,1" ∷ codes "add 1 2 9,9" ∷ codes "drop 0 1" ∷ codes "add 0 4 1,1"
        ∷ codes "get 1 2" ∷ codes "get 0 1" ∷ [])
        (codes "ok" ∷ codes "ok" ∷ codes "ok" ∷ codes "full" ∷ codes "exists" ∷ codes "ok" ∷ codes "ok" ∷ codes "object 3,4" ∷ codes "absent" ∷ []) }
    ensures late { IsAnswered (plane_in_file Z 3)
        (codes "sample 1,1" ∷ codes "sample 256,0" ∷ [])
        (codes "late" ∷ codes "bad object" ∷ []) }
    ensures z { IsAnswered (plane_in_file Z 100)
        (codes "add 0 1 0,0" ∷ codes "add 0 2 3,4" ∷ codes "add 1 1 1,1" ∷ codes "add 1 9 3,5" ∷ codes "join 0 1 3" ∷ [])
        (codes "ok" ∷ codes "ok" ∷ codes "ok" ∷ codes "ok" ∷ codes "join 2 evals 1 sure 1: 1-1 2-9" ∷ []) }
    ensures hilbert { IsAnswered (plane_in_file Hilbert 100)
        (codes "add 0 1 0,0" ∷ codes "add 0 2 3,4" ∷ codes "add 0 3 10,0" ∷ codes "add 0 4 100,100" ∷ codes "add 0 5 255,0"
        ∷ codes "join 0 1 3" ∷ codes "join 0 0 3" ∷ codes "join 0 1 x" ∷ codes "range 0 8 3,0" ∷ [])
        (codes "ok" ∷ codes "ok" ∷ codes "ok" ∷ codes "ok" ∷ codes "ok"
        ∷ codes "curve" ∷ codes "curve" ∷ codes "bad number" ∷ codes "range 3 evals 4 sure 1: 1 2 3" ∷ []) }
{}

/// Scripts over the other kinds of spaces: vectors by their greatest difference, strings and sets.
pub fn worked_kinds()
    ensures linf { IsAnswered (empty_in_memory (LInf 2 255) 0)
        (codes "add 0 1 3,4" ∷ codes "range 0 4 0,0" ∷ codes "range 0 3 0,0" ∷ [])
        (codes "ok" ∷ codes "range 1 evals 1 sure 0: 1" ∷ codes "range 0 evals 1 sure 0:" ∷ []) }
    ensures hamming { IsAnswered (empty_in_memory (Hamming 3) 0)
        (codes "add 0 1 616263" ∷ codes "range 0 1 616264" ∷ codes "range 0 0 616264" ∷ codes "add 0 2 61626A" ∷ codes "get 0 1" ∷ [])
        (codes "ok" ∷ codes "range 1 evals 1 sure 0: 1" ∷ codes "range 0 evals 1 sure 0:" ∷ codes "bad object" ∷ codes "object 616263" ∷ []) }
    ensures sets { IsAnswered (empty_in_memory (Sets 100 5) 0)
        (codes "add 0 1 1,2,3" ∷ codes "add 0 2 2,3,4" ∷ codes "near 0 1 2,3" ∷ codes "add 0 3 -" ∷ codes "get 0 3" ∷ codes "add 0 4 5,5" ∷ [])
        (codes "ok" ∷ codes "ok" ∷ codes "near 1 evals 2: 1@1" ∷ codes "ok" ∷ codes "object -" ∷ codes "bad object" ∷ []) }
{}

/// Words of the program, and what they ask for: the definitions compute it. The call does nothing.
pub fn worked_words()
    ensures mem { asked_of (codes "mem" ∷ codes "l1" ∷ codes "2" ∷ codes "255" ∷ []) ≡ Some (Mem (record { space = L1 2 255; pivots = 0 })) }
    ensures pivots { asked_of (codes "mem" ∷ codes "hamming" ∷ codes "3" ∷ codes "8" ∷ []) ≡ Some (Mem (record { space = Hamming 3; pivots = 8 })) }
    ensures nine { asked_of (codes "mem" ∷ codes "hamming" ∷ codes "3" ∷ codes "9" ∷ []) ≡ None }
    ensures wide { asked_of (codes "mem" ∷ codes "l1" ∷ codes "31" ∷ codes "255" ∷ []) ≡ None }
    ensures make { asked_of (codes "make" ∷ codes "a.spb" ∷ codes "z" ∷ codes "2" ∷ codes "65536" ∷ codes "l1" ∷ codes "2" ∷ codes "255" ∷ [])
        ≡ Some (Make Z 2 65536 (L1 2 255)) }
    ensures hilbert { asked_of (codes "make" ∷ codes "h" ∷ codes "hilbert" ∷ codes "8" ∷ codes "1" ∷ codes "sets" ∷ codes "100" ∷ codes "5" ∷ [])
        ≡ Some (Make Hilbert 8 1 (Sets 100 5)) }
    ensures no_pivots { asked_of (codes "make" ∷ codes "a.spb" ∷ codes "z" ∷ codes "0" ∷ codes "100" ∷ codes "l1" ∷ codes "2" ∷ codes "255" ∷ []) ≡ None }
    ensures no_room { asked_of (codes "make" ∷ codes "a.spb" ∷ codes "z" ∷ codes "2" ∷ codes "0" ∷ codes "l1" ∷ codes "2" ∷ codes "255" ∷ []) ≡ None }
    ensures too_large { asked_of (codes "make" ∷ codes "a.spb" ∷ codes "z" ∷ codes "2" ∷ codes "65537" ∷ codes "l1" ∷ codes "2" ∷ codes "255" ∷ []) ≡ None }
    ensures one_more { asked_of (codes "make" ∷ codes "a.spb" ∷ codes "z" ∷ codes "2" ∷ codes "100" ∷ codes "l1" ∷ codes "2" ∷ codes "255" ∷ codes "2" ∷ [])
        ≡ None }
    ensures run { asked_of (codes "run" ∷ codes "a.spb" ∷ []) ≡ Some Run }
    ensures check { asked_of (codes "check" ∷ codes "a.spb" ∷ []) ≡ Some Check }
    ensures dash { asked_of (codes "run" ∷ codes "-a" ∷ []) ≡ None }
    ensures nameless { asked_of (codes "run" ∷ [] ∷ []) ≡ None }
    ensures fileless { asked_of (codes "run" ∷ []) ≡ None }
    ensures trial { asked_of (codes "trial" ∷ codes "t" ∷ codes "18446744073709551615" ∷ codes "65536" ∷ []) ≡ Some (Trial 18446744073709551615 65536) }
    ensures seed { asked_of (codes "trial" ∷ codes "t" ∷ codes "18446744073709551616" ∷ codes "1" ∷ []) ≡ None }
    ensures none { asked_of (codes "trial" ∷ codes "t" ∷ codes "0" ∷ codes "0" ∷ []) ≡ None }
    ensures help { asked_of (codes "--help" ∷ []) ≡ None }
    ensures wordless { asked_of [] ≡ None }
{}

/// Words of the program, and the files on which they work: the definitions compute it. The call does nothing.
pub fn worked_file_uses()
    ensures mem { file_use_of (codes "mem" ∷ codes "l1" ∷ codes "2" ∷ codes "255" ∷ []) ≡ FileUse.None }
    ensures make { file_use_of (codes "make" ∷ codes "a.spb" ∷ codes "z" ∷ codes "2" ∷ codes "100" ∷ codes "l1" ∷ codes "2" ∷ codes "255" ∷ [])
        ≡ FileUse.New (codes "a.spb") }
    ensures run { file_use_of (codes "run" ∷ codes "a.spb" ∷ []) ≡ FileUse.Old (codes "a.spb") }
    ensures check { file_use_of (codes "check" ∷ codes "a.spb" ∷ []) ≡ FileUse.Old (codes "a.spb") }
    ensures trial { file_use_of (codes "trial" ∷ codes "t" ∷ codes "7" ∷ codes "300" ∷ []) ≡ FileUse.New (codes "t") }
    ensures dash { file_use_of (codes "run" ∷ codes "-a" ∷ []) ≡ FileUse.None }
    ensures no_room { file_use_of (codes "make" ∷ codes "a.spb" ∷ codes "z" ∷ codes "2" ∷ codes "0" ∷ codes "l1" ∷ codes "2" ∷ codes "255" ∷ [])
        ≡ FileUse.None }
    ensures nameless { file_use_of (codes "run" ∷ []) ≡ FileUse.None }
    ensures wordless { file_use_of [] ≡ FileUse.None }
{}
