// The worked rows: what the definitions say of small networks.
ghost use Rattle.std.specs.Prelude.{true, false, [], ◌∷◌, Some, None};
ghost use Rattle.transition_table.specs.declared.decl.Party.TheVariants.{Env, Machine as Sender};
ghost use Rattle.transition_table.specs.samples.Pong.{pong};
ghost use Rattle.transition_table.specs.Transitions.{reading};
ghost use Rattle.transition_table.specs.Worked.{firing};
ghost use Rattle.journals.specs.Legality.{Legal};
ghost use Rattle.journals.specs.Runs.{join_overwritten_trace, join_overwritten_run, join_settled_trace, join_settled_run, value_overwritten_trace, value_overwritten_run, two_by_priority_trace, two_by_priority_run, two_by_number_trace, two_by_number_run, two_settled_trace, two_settled_run, loop_three_trace, loop_three_run, lamp_idle_trace, lamp_idle_run, lamp_pressed, pong_trace, pong_run, pong_started, late_trace, late_run, idling};
ghost use Rattle.journals.specs.Samples.{lamp, press, lamp_run, join, value, two, loop};
ghost use Rattle.journals.specs.Stamps.{Rising};
ghost use Rattle.journals.specs.Worked.{IsRun, IsNotNext, IsAsleep, HasOtherSnapshot, HasOtherOutcome, HasLeast};

/// The definitions give the journals of the worked rows.
pub fn worked_rows()
    ensures lamp_once { IsRun lamp press lamp_run ((1, 1) ∷ []) 0 }
    ensures lamp_empty { IsRun lamp [] [] [] 0 }
    ensures join_overwritten { IsRun join join_overwritten_trace join_overwritten_run
        ((2, 1) ∷ []) 1 }
    ensures join_settled { IsRun join join_settled_trace join_settled_run ((2, 1) ∷ []) 0 }
    ensures value_overwritten { IsRun value value_overwritten_trace value_overwritten_run
        ((1, 1) ∷ []) 1 }
    ensures two_by_priority { IsRun (two 2 1) two_by_priority_trace two_by_priority_run
        ((2, 1) ∷ (1, 1) ∷ []) 0 }
    ensures two_by_number { IsRun (two 1 1) two_by_number_trace two_by_number_run
        ((1, 1) ∷ (2, 1) ∷ []) 0 }
    ensures two_settled { IsRun (two 1 1) two_settled_trace two_settled_run
        ((1, 1) ∷ (2, 1) ∷ []) 0 }
    ensures loop_three { IsRun loop loop_three_trace loop_three_run [] 0 }
    ensures lamp_idle { IsRun lamp lamp_idle_trace lamp_idle_run ((1, 1) ∷ []) 0 }
    ensures pong_goes_on { Legal pong pong_trace pong_run }
    ensures late_landing { Legal pong late_trace late_run }
{}

/// The definitions refuse these entries, each for its cause.
pub fn refused_rows()
    ensures doubled { IsNotNext lamp press lamp_run Env 0 0 1 None }
    ensures event_of_another { IsNotNext pong pong_trace pong_started (Sender 1) 1 1 1 None }
    ensures other_value { IsNotNext value value_overwritten_trace [] Env 0 0 6 (Some (0, 4)) }
    ensures before_delivery { IsAsleep lamp press [] 0 (reading (0 ∷ 0 ∷ []))
        (idling (0 ∷ []) (0 ∷ [])) }
    ensures second_reaction { IsAsleep lamp press lamp_run 0 (reading (0 ∷ 1 ∷ []))
        (idling (0 ∷ []) (0 ∷ [])) }
    ensures stale_snapshot { HasOtherSnapshot lamp press lamp_pressed 0 (reading (0 ∷ 0 ∷ []))
        (idling (0 ∷ []) (0 ∷ [])) (reading (1 ∷ 0 ∷ [])) }
    ensures idle_outcome { HasOtherOutcome lamp press lamp_pressed 0 (reading (1 ∷ 0 ∷ []))
        (idling (0 ∷ []) (0 ∷ [])) (firing (2 ∷ []) (1 ∷ [])) }
    ensures dropped_emission { HasOtherOutcome lamp press lamp_pressed 0 (reading (1 ∷ 0 ∷ []))
        (firing (2 ∷ []) (0 ∷ [])) (firing (2 ∷ []) (1 ∷ [])) }
{}

/// The definitions give these stamps, and refuse others.
pub fn stamp_rows()
    ensures lamp_once { HasLeast lamp lamp_run (1 ∷ 2 ∷ []) }
    ensures pong_goes_on { HasLeast pong pong_run (1 ∷ 2 ∷ 3 ∷ 4 ∷ 5 ∷ 6 ∷ 7 ∷ 8 ∷ 9 ∷ 10 ∷ []) }
    ensures late_landing { HasLeast pong late_run (1 ∷ 2 ∷ 3 ∷ 4 ∷ 3 ∷ 5 ∷ 6 ∷ []) }
    ensures two_by_number { HasLeast (two 1 1) two_by_number_run (1 ∷ 1 ∷ 2 ∷ 2 ∷ []) }
    ensures join_overwritten { HasLeast join join_overwritten_run (1 ∷ 2 ∷ 3 ∷ 4 ∷ []) }
    ensures loop_three { HasLeast loop loop_three_run (1 ∷ 2 ∷ 3 ∷ 4 ∷ 5 ∷ 6 ∷ []) }
    ensures higher { Rising (two 1 1) two_by_number_run (1 ∷ 1 ∷ 2 ∷ 9 ∷ []) }
    ensures too_low { Rising (two 1 1) two_by_number_run (1 ∷ 1 ∷ 2 ∷ 1 ∷ []) → ⊥ }
    ensures as_its_firing { Rising pong late_run (1 ∷ 2 ∷ 3 ∷ 4 ∷ 2 ∷ 5 ∷ 6 ∷ []) → ⊥ }
    ensures too_few { Rising (two 1 1) two_by_number_run (1 ∷ 1 ∷ 2 ∷ []) → ⊥ }
    ensures too_great { Rising lamp lamp_run (1 ∷ 1099511627777 ∷ []) → ⊥ }
    ensures from_zero { Rising lamp lamp_run (0 ∷ 1 ∷ []) → ⊥ }
{}
