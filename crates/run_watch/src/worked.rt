// Worked rows: what monitors of a small network say of its journals.
ghost use Rattle.std.specs.Prelude.{◌≡◌, [], ◌∷◌, codes};
ghost use Rattle.polis_base.specs.Lines.{line};
ghost use Rattle.journals.specs.Runs.{two_by_number_run, two_by_priority_run};
ghost use Rattle.journals.specs.Samples.{lamp, two};
ghost use Rattle.journals.specs.declared.entry.TraceItem.TheVariants.{Event, Settle};
ghost use Rattle.run_watch.specs.Monitors.{IsMonitor, heard, watch_trace};
ghost use Rattle.run_watch.specs.Samples.{late_at, loud, loud_at, order, restless, told};
ghost use Rattle.run_watch.specs.WatchLines.{watched_line};
ghost use Rattle.run_watch.specs.Watches.{IsAnswer, IsAnswerTo};
ghost use Rattle.run_watch.specs.declared.answer.Watched.{Watched};

/// Which networks are monitors: three are. A network to which its environment sends something isn't
/// one of itself, nor is one whose environment sends what is no event of the watched network.
pub fn worked_monitors()
    ensures order { IsMonitor (two 2 1) order }
    ensures loud { IsMonitor (two 1 1) loud }
    ensures restless { IsMonitor (two 1 1) restless }
    ensures itself { ¬ IsMonitor (two 2 1) (two 2 1) }
    ensures other { ¬ IsMonitor (two 2 1) lamp }
{}

/// What two of them hear: one both outputs, and one the second alone; and the trace of that.
pub fn worked_hearing()
    ensures both { heard (two 2 1) order two_by_priority_run ≡ told 2 1 ∷ told 3 0 ∷ [] }
    ensures one { heard (two 1 1) loud two_by_number_run ≡ told 3 0 ∷ [] }
    ensures trace { watch_trace (two 1 1) loud two_by_number_run ≡ Event 0 1 ∷ Settle ∷ [] }
{}

/// What they say: one complains at the second output, and holds where the outputs come the other
/// way round; one isn't told of the first output, and complains at the second; and one goes on
/// beyond six entries.
pub fn worked_answers()
    ensures late { IsAnswer (two 2 1) order two_by_priority_run (late_at 3) }
    ensures kept { IsAnswer (two 1 1) order two_by_number_run Watched.Held }
    ensures told { IsAnswer (two 1 1) loud two_by_number_run (loud_at 3) }
    ensures cut { IsAnswerTo restless (heard (two 1 1) restless two_by_number_run) 6
        Watched.Unfinished }
{}

/// What the one that complains at the second output doesn't say: that all holds, that it wasn't
/// told of all, or that the first output is wrong.
pub fn refused_answers()
    ensures held { ¬ IsAnswer (two 1 1) loud two_by_number_run Watched.Held }
    ensures unfinished { ¬ IsAnswer (two 1 1) loud two_by_number_run Watched.Unfinished }
    ensures before { ¬ IsAnswer (two 1 1) loud two_by_number_run (loud_at 2) }
{}

/// The lines of these answers.
pub fn worked_lines()
    ensures found { watched_line order (late_at 3) ≡ line (codes "found 3 : late") }
    ensures held { watched_line order Watched.Held ≡ line (codes "held") }
    ensures unfinished { watched_line order Watched.Unfinished ≡ line (codes "unfinished") }
{}
