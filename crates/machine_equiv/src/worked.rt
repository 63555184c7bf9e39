// Worked rows: what the definitions say of small machines and networks.
ghost use Rattle.std.specs.Prelude.{[], ◌∷◌, Some, None};
ghost use Rattle.journals.specs.Runs.{two_by_priority_trace, two_by_priority_run, two_by_number_run};
ghost use Rattle.journals.specs.Samples.{two};
ghost use Rattle.transition_table.specs.samples.Join.{join, join_machine};
ghost use Rattle.transition_table.specs.samples.Twice.{agreeing_machine};
ghost use Rattle.transition_table.specs.samples.Value.{value, value_machine};
ghost use Rattle.transition_table.specs.Transitions.{reading};
ghost use Rattle.machine_equiv.specs.declared.machines.Compared.TheVariants.{Same, Shape, Differ};
ghost use Rattle.machine_equiv.specs.Comparing.{IsComparison, IsNetComparison};
ghost use Rattle.machine_equiv.specs.Samples.{passing_machine, six, six_machine};
ghost use Rattle.machine_equiv.specs.Shapes.{SameShape};
ghost use Rattle.machine_equiv.specs.Worked.{AreScheduledApart};

/// What the comparisons of small machines and networks answer. A network is compared with itself,
/// and with one whose machine fires at the value 6 in place of 5, a machine with one that has a row
/// more, which gives what another row gives, and two networks that differ in priorities alone.
pub fn worked_rows()
    ensures itself { IsNetComparison value value None }
    ensures idle_row { IsComparison agreeing_machine passing_machine Same }
    ensures at_five { IsComparison value_machine six_machine (Differ (reading (6 ∷ []))) }
    ensures first { IsNetComparison value six
        (Some (record { machine = 0; snapshot = reading (6 ∷ []) })) }
    ensures other_form { IsComparison value_machine join_machine Shape }
    ensures other_shape { ¬ SameShape value join }
    ensures priorities { AreScheduledApart (two 2 1) (two 1 1) two_by_priority_trace
        two_by_priority_run two_by_number_run }
{}

/// What they don't answer: that tables are the same which differ, a snapshot behind the least one,
/// and one on which they say the same.
pub fn refused_rows()
    ensures same { ¬ IsComparison value_machine six_machine Same }
    ensures later { ¬ IsComparison value_machine six_machine (Differ (reading (7 ∷ []))) }
    ensures earlier { ¬ IsComparison value_machine six_machine (Differ (reading (5 ∷ []))) }
    ensures nowhere { ¬ IsNetComparison value six None }
{}
