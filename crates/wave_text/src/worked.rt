// Worked rows: what the definitions say of small journals.
ghost use Rattle.std.specs.Prelude.{◌≡◌, [], ◌++◌, codes};
ghost use Rattle.polis_base.specs.Lines.{line};
ghost use Rattle.journals.specs.Samples.{join, lamp, lamp_run, value};
ghost use Rattle.journals.specs.Runs.{join_overwritten_run, join_settled_run, value_overwritten_run};
ghost use Rattle.transition_table.specs.samples.Echo.{echo};
ghost use Rattle.event_accounts.specs.Samples.{join_idle_run};
ghost use Rattle.wave_text.specs.Samples.{echo_head, echo_run, lamp_head};
ghost use Rattle.wave_text.specs.Signals.{changes_at};
ghost use Rattle.wave_text.specs.Waves.{moment_text, wave_text};

/// The waves of small journals: the lamp's, with and without entries, and one with values, whole;
/// and moments of others, with a loss, with nothing that changes, and with a value.
pub fn worked_waves()
    ensures lamp { wave_text lamp lamp_run ≡ lamp_head ++ line (codes "#1") ++ line (codes "10")
        ++ line (codes "#2") ++ line (codes "00") ++ line (codes "son 1") ++ line (codes "13") }
    ensures lamp_still { wave_text lamp [] ≡ lamp_head }
    ensures echo { wave_text echo echo_run ≡ echo_head
        ++ line (codes "#1") ++ line (codes "s5 0")
        ++ line (codes "#2") ++ line (codes "s- 0") ++ line (codes "s1 1") ++ line (codes "13")
        ++ line (codes "s5 4") }
    ensures lost_alone { moment_text join join_overwritten_run 1
        ≡ line (codes "#2") ++ line (codes "12") }
    ensures idle_changes_nothing { changes_at join join_settled_run 1 ≡ [] }
    ensures last_idle { moment_text join join_idle_run 1 ≡ line (codes "#2") }
    ensures value { moment_text value value_overwritten_run 1
        ≡ line (codes "#2") ++ line (codes "s5 0") ++ line (codes "11") }
{}
