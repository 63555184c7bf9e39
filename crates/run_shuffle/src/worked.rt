// What the definitions say of small networks.
ghost use Rattle.std.specs.Prelude.{◌≡◌, [], ◌∷◌, length, map};
ghost use Rattle.polis_base.specs.Lists.{upto};
ghost use Rattle.transition_table.specs.samples.Belt.{belt};
ghost use Rattle.transition_table.specs.samples.Pong.{pong};
ghost use Rattle.journals.specs.Outputs.{lost, outputs};
ghost use Rattle.journals.specs.Runs.{pong_run, pong_trace, two_by_priority_trace};
ghost use Rattle.journals.specs.Samples.{lamp, lamp_run, press, two};
ghost use Rattle.run_shuffle.specs.declared.order.Order.{Order};
ghost use Rattle.run_shuffle.specs.declared.order.RunOrder.{RunOrder};
ghost use Rattle.polis_base.specs.Draws.{draw};
ghost use Rattle.run_shuffle.specs.Shuffles.{IsShuffled, pace, run_order, stirred};
ghost use Rattle.run_shuffle.specs.Belt.{belt_alarmed, belt_cut_short, belt_drowned, belt_settled, belt_trace};
ghost use Rattle.run_shuffle.specs.Worked.{b_before_a, both_before, a_before_b};

/// The first draws of the seeds from 0 to 7, reckoned by hand.
pub fn worked_seeds()
    ensures first { draw 0 2147483648 ≡ 167951807 }
    ensures stirred { stirred 0 ≡ 16563447760326826801 }
    ensures paces { map pace (upto 8) ≡ 4 ∷ 8 ∷ 1 ∷ 16 ∷ 16 ∷ 16 ∷ 16 ∷ 16 ∷ [] }
    ensures orders { map (run_order Order.Mixed) (upto 8)
        ≡ RunOrder.Settled ∷ RunOrder.Scheduled ∷ RunOrder.Free ∷ RunOrder.Free
        ∷ RunOrder.Scheduled ∷ RunOrder.Settled ∷ RunOrder.Free ∷ RunOrder.Scheduled ∷ [] }
{}

/// The definitions give the journals of the worked rows.
pub fn worked_shuffles()
    ensures lamp { IsShuffled lamp press 0 Order.Mixed 60000 lamp_run }
    ensures two_free { IsShuffled (two 2 1) two_by_priority_trace 0 Order.Free 60000 b_before_a }
    ensures two_flooded { IsShuffled (two 2 1) two_by_priority_trace 2 Order.Free 60000
        both_before }
    ensures two_mixed { IsShuffled (two 2 1) two_by_priority_trace 0 Order.Mixed 60000 a_before_b }
    ensures pong_free { IsShuffled pong pong_trace 0 Order.Free 10 pong_run }
    ensures pong_settled { IsShuffled pong pong_trace 0 Order.Settled 10 pong_run }
    ensures pong_scheduled { IsShuffled pong pong_trace 0 Order.Scheduled 10 pong_run }
    ensures pong_mixed { IsShuffled pong pong_trace 0 Order.Mixed 10 pong_run }
{}

/// The definitions give the worked journals of the seat belt controller; of each the number of
/// entries, the outputs and how many deliveries are lost.
pub fn worked_belt()
    ensures drowned { IsShuffled belt belt_trace 0 Order.Free 60000 belt_drowned }
    ensures drowned_many { length belt_drowned ≡ 22 }
    ensures drowned_gives { outputs belt belt_drowned ≡ [] }
    ensures drowned_loses { lost belt belt_drowned ≡ 4 }
    ensures alarmed { IsShuffled belt belt_trace 5 Order.Free 60000 belt_alarmed }
    ensures alarmed_many { length belt_alarmed ≡ 30 }
    ensures alarmed_gives { outputs belt belt_alarmed ≡ (7, 1) ∷ (8, 1) ∷ [] }
    ensures alarmed_loses { lost belt belt_alarmed ≡ 0 }
    ensures cut_short { IsShuffled belt belt_trace 2 Order.Mixed 60000 belt_cut_short }
    ensures cut_short_many { length belt_cut_short ≡ 24 }
    ensures cut_short_gives { outputs belt belt_cut_short ≡ (7, 1) ∷ [] }
    ensures cut_short_loses { lost belt belt_cut_short ≡ 4 }
    ensures settled { IsShuffled belt belt_trace 0 Order.Settled 60000 belt_settled }
    ensures settled_many { length belt_settled ≡ 30 }
    ensures settled_gives { outputs belt belt_settled ≡ (7, 1) ∷ (8, 1) ∷ [] }
    ensures settled_loses { lost belt belt_settled ≡ 0 }
{}
