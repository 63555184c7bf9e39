// Worked rows: what the definitions say of small machines and journals.
ghost use Rattle.std.specs.Prelude.{◌≡◌, ◌∷◌, ◌++◌, [], true, false, codes};
ghost use Rattle.polis_base.specs.Lines.{line};
ghost use Rattle.transition_table.specs.samples.Join.{join, join_machine};
ghost use Rattle.journals.specs.Runs.{join_overwritten_run};
ghost use Rattle.journals.specs.Seen.{is_seen};
ghost use Rattle.table_use.specs.Use.{alone, can_fire, IsJammed, IsUnused, without};
ghost use Rattle.table_use.specs.Coverage.{coverages};
ghost use Rattle.table_use.specs.CoverageLines.{coverage_text};
ghost use Rattle.table_use.specs.DomainUse.{unused_domain_line, unused_domains};
ghost use Rattle.table_use.specs.Lint.{lint_of};
ghost use Rattle.table_use.specs.LintLines.{lint_text};
ghost use Rattle.table_use.specs.Odd.{odd, odd_machine, odd_run};
ghost use Rattle.table_use.specs.Samples.{join_used, join_lint, odd_used, odd_lint};

/// Of single snapshots.
pub fn worked_use()
    ensures without { without (0 ∷ 1 ∷ 1 ∷ 0 ∷ []) 2 ≡ 0 ∷ 1 ∷ 0 ∷ 0 ∷ [] }
    ensures alone { alone odd_machine (1 ∷ 1 ∷ 0 ∷ 1 ∷ []) 0 ≡ 1 ∷ 0 ∷ 0 ∷ 1 ∷ [] }
    ensures unseen { is_seen odd_machine (0 ∷ 0 ∷ 0 ∷ 1 ∷ []) ≡ false }
    ensures unused { IsUnused odd_machine 2 (0 ∷ 1 ∷ 1 ∷ 0 ∷ []) }
    ensures needed { ¬ IsUnused odd_machine 1 (0 ∷ 1 ∷ 1 ∷ 0 ∷ []) }
    ensures no_input { ¬ IsUnused odd_machine 3 (0 ∷ 1 ∷ 1 ∷ 1 ∷ []) }
    ensures jammed { IsJammed odd_machine (1 ∷ 1 ∷ 0 ∷ 1 ∷ []) }
    ensures waits { ¬ IsJammed join_machine (1 ∷ 0 ∷ []) }
    ensures joins { can_fire join_machine (1 ∷ 1 ∷ []) ≡ true }
{}

/// Of journals.
pub fn worked_coverage()
    ensures join { coverages join join_overwritten_run ≡ join_used ∷ [] }
    ensures odd { coverages odd odd_run ≡ odd_used ∷ [] }
{}

/// Of tables.
pub fn worked_lint()
    ensures join { lint_of join_machine ≡ join_lint }
    ensures odd { lint_of odd_machine ≡ odd_lint }
    ensures domains { unused_domains odd ≡ 1 ∷ [] }
    ensures join_domains { unused_domains join ≡ [] }
{}

/// The lines of these.
pub fn worked_lines()
    ensures join_used { coverage_text join (join_used ∷ [])
        ≡ line (codes "machine m fired 1 idle 0 jammed 0 first -")
        ++ line (codes "row m 0 taken 1")
        ++ line (codes "input m a read 1 unused 0 first -")
        ++ line (codes "input m b read 1 unused 0 first -") }
    ensures odd_used { coverage_text odd (odd_used ∷ [])
        ≡ line (codes "machine m fired 1 idle 1 jammed 1 first 5")
        ++ line (codes "row m 1 taken 1")
        ++ line (codes "never m 3 : 0 2 3")
        ++ line (codes "input m a read 0 unused 0 first -")
        ++ line (codes "input m b read 1 unused 0 first -")
        ++ line (codes "input m c read 1 unused 1 first 2") }
    ensures join_lint { lint_text join join_machine join_lint
        ≡ line (codes "machine m seen 3 fire 1 jam 0") }
    ensures odd_lint { lint_text odd odd_machine odd_lint
        ≡ line (codes "machine m seen 14 fire 8 jam 4")
        ++ line (codes "jam m first a b ; k=off")
        ++ line (codes "row m 3 never")
        ++ line (codes "row m 2 repeats 0")
        ++ line (codes "input m c ignored")
        ++ line (codes "state m k ignored")
        ++ line (codes "output m y never")
        ++ line (codes "unused m c 4 first b c ; k=off") }
    ensures spare { unused_domain_line (codes "spare") ≡ line (codes "domain spare unused") }
{}
