// What the definitions say of small networks.
ghost use Rattle.std.specs.Prelude.{[], ◌∷◌};
ghost use Rattle.journals.specs.Samples.{two};
ghost use Rattle.journals.specs.Runs.{two_by_number_trace};
ghost use Rattle.worker_core.specs.Samples.{pong, pong_trace, pong_steps, pong_merged, two_steps, two_merged};
ghost use Rattle.worker_core.specs.Rows.{IsCoreRun};

/// The definitions give the merged logs of the worked rows.
pub fn core_rows()
    ensures two { IsCoreRun (two 1 1) two_by_number_trace two_steps 1 (1 ∷ 2 ∷ []) two_merged }
    ensures pong { IsCoreRun pong pong_trace pong_steps 1 (3 ∷ []) pong_merged }
{}
