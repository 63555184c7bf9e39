// Worked rows: what the definitions say of small journals.
ghost use Rattle.std.specs.Prelude.{◌≡◌, ◌∷◌, [], ◌++◌, codes};
ghost use Rattle.polis_base.specs.Lines.{line};
ghost use Rattle.journals.specs.Samples.{join, lamp, lamp_run, loop};
ghost use Rattle.journals.specs.Runs.{join_overwritten_run, loop_three_run};
ghost use Rattle.event_accounts.specs.AccountLines.{accounts_text};
ghost use Rattle.event_accounts.specs.Accounts.{accounts_of};
ghost use Rattle.event_accounts.specs.Samples.{read_once, overwritten_once, left_once, untouched, read_twice, join_idle_run};

/// What became of the deliveries of small journals: one overwrites another, a reaction that doesn't
/// fire leaves what it saw, all are read, and none come.
pub fn worked_accounts()
    ensures overwritten { accounts_of join join_overwritten_run
        ≡ overwritten_once 1 ∷ read_once ∷ [] }
    ensures overwritten_lines { accounts_text join (accounts_of join join_overwritten_run)
        ≡ line (codes "buffer m a delivered 2 read 1 lost 1 left 0 first 1")
        ++ line (codes "buffer m b delivered 1 read 1 lost 0 left 0 first -") }
    ensures idle { accounts_of join join_idle_run ≡ left_once ∷ untouched ∷ [] }
    ensures idle_lines { accounts_text join (accounts_of join join_idle_run)
        ≡ line (codes "buffer m a delivered 1 read 0 lost 0 left 1 first -")
        ++ line (codes "buffer m b delivered 0 read 0 lost 0 left 0 first -") }
    ensures lamp { accounts_of lamp lamp_run ≡ read_once ∷ [] }
    ensures loops { accounts_of loop loop_three_run ≡ read_once ∷ read_twice ∷ [] }
    ensures none { accounts_of join [] ≡ untouched ∷ untouched ∷ [] }
{}
