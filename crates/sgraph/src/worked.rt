// Worked rows: what the definitions say of small graphs.
ghost use Rattle.sgraph.specs.Worked.{Lamp, Join, Refused};

/// The definitions give what the graphs of small machines are by hand.
pub fn worked_graphs()
    ensures lamp { Lamp }
    ensures join { Join }
    ensures refused { Refused }
{}
