// Worked rows: what the definitions say of small journals.
ghost use Rattle.std.specs.Prelude.{◌≡◌, ◌++◌, codes};
ghost use Rattle.polis_base.specs.Lines.{line};
ghost use Rattle.transition_table.specs.samples.Pong.{pong};
ghost use Rattle.journals.specs.Samples.{lamp, lamp_run, loop, value};
ghost use Rattle.journals.specs.Runs.{loop_three_run, pong_run};
ghost use Rattle.table_use.specs.Odd.{odd, odd_run};
ghost use Rattle.journal_chart.specs.Chart.{chart_text};
ghost use Rattle.journal_chart.specs.Samples.{value_lost_run};

/// The charts of small journals: a delivery and a firing, from the second entry on, no entry, a
/// loss, and a loss of what isn't shown.
pub fn worked_charts()
    ensures lamp { chart_text lamp lamp_run 0 60000
        ≡ line (codes "             env        lamp_ctl")
        ++ line (codes "     0        |--- press -->|")
        ++ line (codes "     1        |          [s=on]  emits light") }
    ensures lamp_later { chart_text lamp lamp_run 1 60000
        ≡ line (codes "             env        lamp_ctl")
        ++ line (codes "     1        |          [s=on]  emits light") }
    ensures lamp_none { chart_text lamp lamp_run 1 1 ≡ line (codes "          env") }
    ensures loss { chart_text value value_lost_run 0 60000
        ≡ line (codes "          env       m")
        ++ line (codes "     0     |- v=5 ->|")
        ++ line (codes "     1     |- v=3 ->|  lost 0")
        ++ line (codes "     2     |      idle  sees v=3") }
    ensures loss_before { chart_text value value_lost_run 1 2
        ≡ line (codes "          env       m")
        ++ line (codes "     1     |- v=3 ->|  lost 0") }
    ensures left { chart_text pong pong_run 0 5
        ≡ line (codes "          env       a        b")
        ++ line (codes "     0     |- go -->|        |")
        ++ line (codes "     1     |       []        |  emits p")
        ++ line (codes "     2     |        |-- p -->|")
        ++ line (codes "     3     |        |       []  emits q")
        ++ line (codes "     4     |        |<-- q --|") }
    ensures itself { chart_text loop loop_three_run 0 60000
        ≡ line (codes "          env       m")
        ++ line (codes "     0     |- go -->|")
        ++ line (codes "     1     |      [c=1]  emits x")
        ++ line (codes "     2     |       (x)")
        ++ line (codes "     3     |      [c=2]  emits x")
        ++ line (codes "     4     |       (x)")
        ++ line (codes "     5     |      [c=3]") }
    ensures jammed { chart_text odd odd_run 0 60000
        ≡ line (codes "          env       m")
        ++ line (codes "     0     |-- c -->|")
        ++ line (codes "     1     |-- b -->|")
        ++ line (codes "     2     |     [k=on]  unused c")
        ++ line (codes "     3     |-- a -->|")
        ++ line (codes "     4     |-- b -->|")
        ++ line (codes "     5     |     jammed  sees a b") }
{}
