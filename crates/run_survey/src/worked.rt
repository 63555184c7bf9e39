// Worked rows: what the definitions say of small lists and of a small network.
ghost use Rattle.std.specs.Prelude.{◌≡◌, ◌∷◌, ◌++◌, [], ℕ, None, Some, codes, map};
ghost use Rattle.polis_base.specs.Lines.{line};
ghost use Rattle.journals.specs.Runs.{two_by_priority_trace};
ghost use Rattle.journals.specs.Samples.{two};
ghost use Rattle.run_shuffle.specs.declared.order.Order.{Order};
ghost use Rattle.run_survey.specs.declared.told.Survey.{Survey};
ghost use Rattle.run_survey.specs.Kinds.{kind_of, kinds_within, new_texts, others_beyond};
ghost use Rattle.run_survey.specs.Runs.{IsSurveyOf};
ghost use Rattle.run_survey.specs.Spreads.{spread_of};
ghost use Rattle.run_survey.specs.Watching.{found_runs, unfinished_runs};
ghost use Rattle.run_watch.specs.declared.answer.Watched.{Watched};
ghost use Rattle.run_survey.specs.SurveyLines.{first_items, monitor_line, named_line, survey_lines};
ghost use Rattle.run_watch.specs.Samples.{order};
ghost use Rattle.run_survey.specs.Two.{TellsTen, a_first, kind, late, spread, three_said};

/// Of the runs of the seeds from 7 on, with the outputs `a`, `b`, `a`, `c`: which are new, and what
/// is told where two kinds are told apart, and where three are.
pub fn worked_kinds()
    ensures new_ones { new_texts (codes "a" ∷ codes "b" ∷ codes "a" ∷ codes "c" ∷ [])
        ≡ codes "a" ∷ codes "b" ∷ codes "c" ∷ [] }
    ensures kinds { let texts = codes "a" ∷ codes "b" ∷ codes "a" ∷ codes "c" ∷ [] in
        map (kind_of 7 texts) (kinds_within 2 texts)
        ≡ kind (codes "a") 2 7 ∷ kind (codes "b") 1 8 ∷ [] }
    ensures others { others_beyond 2 7 (codes "a" ∷ codes "b" ∷ codes "a" ∷ codes "c" ∷ [])
        ≡ Some (record { count = 1; seed = 10 }) }
    ensures none { others_beyond 3 7 (codes "a" ∷ codes "b" ∷ codes "a" ∷ codes "c" ∷ [])
        ≡ None }
    ensures several { others_beyond 1 0 (codes "a" ∷ codes "b" ∷ codes "a" ∷ codes "c" ∷ [])
        ≡ Some (record { count = 2; seed = 1 }) }
{}

/// Of a number that four runs have, the first of which has the seed 5.
pub fn worked_spreads()
    ensures first_of_two { spread_of 5 (1 ∷ 3 ∷ 0 ∷ 3 ∷ []) ≡ spread 0 3 6 3 }
    ensures never { spread_of 5 (0 ∷ 0 ∷ 0 ∷ 0 ∷ []) ≡ spread 0 0 5 0 }
    ensures not_the_last { spread_of 5 (1 ∷ 3 ∷ 0 ∷ 3 ∷ []) ≡ spread 0 3 8 3 → ⊥ }
{}

/// Lines of outputs and of numbers.
pub fn worked_lines()
    ensures none { first_items [] ≡ codes " -" }
    ensures two { first_items a_first ≡ codes " ya yb" }
    ensures nine { first_items (a_first ++ a_first ++ a_first ++ a_first ++ line (codes "x=3"))
        ≡ codes " ya yb ya yb ya yb ya yb .." }
    ensures lost { named_line (codes "lost") (codes "timer") (codes "tick") (spread 0 7 69 27)
        ≡ line (codes "lost timer tick least 0 most 7 seed 69 runs 27") }
    ensures nothing_lost { named_line (codes "lost") (codes "timer") (codes "tick")
        (spread 0 0 0 0) ≡ [] }
{}

/// Of three runs, the first of which has the seed 5, where a monitor is cut off in the first and
/// complains of the others.
pub fn worked_watched()
    ensures found { found_runs 5 three_said ≡ Some (late 2 6 3) }
    ensures not_the_last { found_runs 5 three_said ≡ Some (late 2 7 1) → ⊥ }
    ensures unfinished { unfinished_runs 5 three_said ≡ Some (record { count = 1; seed = 5 }) }
    ensures none { found_runs 5 (None ∷ Some Watched.Held ∷ []) ≡ None }
    ensures found_line { monitor_line (Some order) (found_runs 5 three_said)
        (unfinished_runs 5 three_said) ≡ line (codes "found 2 seed 6 : late") }
    ensures unfinished_line { monitor_line (Some order) None (unfinished_runs 5 three_said)
        ≡ line (codes "unfinished 1 seed 5") }
    ensures held_line { monitor_line (Some order) None None ≡ line (codes "held") }
    ensures no_monitor { monitor_line None None None ≡ [] }
{}

/// The survey of ten runs of two machines that read one event: most have the first machine first,
/// and the seed 2 is the first that hasn't.
pub fn worked_two()
    ensures survey { (s : Survey) → TellsTen s
        → IsSurveyOf (two 2 1) None two_by_priority_trace Order.Mixed 60000 0 10 s }
    ensures text { (s : Survey) → TellsTen s → survey_lines (two 2 1) None s
        ≡ line (codes "runs 10 complete 10")
        ++ line (codes "kinds 2")
        ++ line (codes "kind 8 seed 0 outputs 2 : ya yb")
        ++ line (codes "kind 2 seed 2 outputs 2 : yb ya") }
{
    run_shuffle::laws();
}
