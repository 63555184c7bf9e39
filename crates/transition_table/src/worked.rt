// Worked rows: what the definitions say of small machines.
ghost use Rattle.std.specs.Prelude.{[], ◌∷◌};
ghost use Rattle.transition_table.specs.Orders.{Char, Support};
ghost use Rattle.transition_table.specs.samples.Clash.{clash_machine};
ghost use Rattle.transition_table.specs.samples.Echo.{echo_machine};
ghost use Rattle.transition_table.specs.samples.Lamp.{lamp_machine};
ghost use Rattle.transition_table.specs.samples.Loop.{loop_machine};
ghost use Rattle.transition_table.specs.samples.Twice.{agreeing_machine, differing_machine};
ghost use Rattle.transition_table.specs.samples.Value.{value_machine};
ghost use Rattle.transition_table.specs.Transitions.{reading, Conflict, IsDeterministic};
ghost use Rattle.transition_table.specs.Worked.{Fires, Idles};

/// The definitions give what the tables of small machines say.
pub fn worked_rows()
    ensures lamp_pressed { Fires lamp_machine (1 ∷ 0 ∷ []) 0 (2 ∷ []) (1 ∷ []) }
    ensures lamp_on { Idles lamp_machine (1 ∷ 1 ∷ []) }
    ensures lamp_unpressed { Idles lamp_machine (0 ∷ 0 ∷ []) }
    ensures lamp_sure { IsDeterministic lamp_machine }
    ensures loop_first { Fires loop_machine (1 ∷ 0 ∷ 0 ∷ []) 0 (2 ∷ []) (1 ∷ []) }
    ensures loop_second { Fires loop_machine (0 ∷ 1 ∷ 1 ∷ []) 1 (3 ∷ []) (1 ∷ []) }
    ensures loop_third { Fires loop_machine (0 ∷ 1 ∷ 2 ∷ []) 2 (4 ∷ []) (0 ∷ []) }
    ensures loop_end { Idles loop_machine (1 ∷ 1 ∷ 3 ∷ []) }
    ensures value_five { Fires value_machine (6 ∷ []) 0 [] (1 ∷ []) }
    ensures value_four { Idles value_machine (5 ∷ []) }
    ensures echo_six { Fires echo_machine (6 ∷ 6 ∷ []) 0 (2 ∷ []) (6 ∷ []) }
    ensures echo_absent { Idles echo_machine (0 ∷ 6 ∷ []) }
    ensures echo_char { Char echo_machine (6 ∷ 6 ∷ 1 ∷ 2 ∷ 6 ∷ []) }
    ensures echo_counts { Support echo_machine 1 1 }
    ensures echo_passes_on { ¬ Support echo_machine 2 1 }
    ensures agreeing { IsDeterministic agreeing_machine }
    ensures differing { Conflict differing_machine 0 1 (reading (2 ∷ [])) }
    ensures clash { Conflict clash_machine 0 2 (reading (1 ∷ 1 ∷ [])) }
{}
