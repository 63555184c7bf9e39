// The worked texts: what the definition says of small trace texts.
ghost use Rattle.std.specs.Prelude.{◌≡◌, [], ◌∷◌, ◌++◌, Ok, Err, codes};
ghost use Rattle.polis_base.specs.Lines.{line};
ghost use Rattle.journals.specs.Samples.{lamp, value};
ghost use Rattle.journals.specs.declared.entry.TraceItem.{TraceItem};
ghost use Rattle.trace_text.specs.Traces.{trace_of};
ghost use Rattle.trace_text.specs.Samples.{mixed};
ghost use Rattle.trace_text.specs.declared.fault.TraceFault.{TraceFault};
ghost use Rattle.trace_text.specs.declared.fault.TraceKind.{TraceKind};

/// The definition reads the worked texts: a lamp has the pure event `press` from the environment
/// and `light` to it, and in the other network `v` from the environment has the values 0 to 7.
pub fn worked_texts()
    ensures empty { trace_of lamp [] ≡ Ok [] }
    ensures blanks { trace_of lamp mixed
        ≡ Ok (TraceItem.Event 0 1 ∷ TraceItem.Settle ∷ TraceItem.Event 0 1 ∷ []) }
    ensures unknown { trace_of lamp (line (codes "press") ++ line (codes "foo"))
        ≡ Err (TraceFault.Line 2 TraceKind.Event) }
    ensures to_env { trace_of lamp (line (codes "light"))
        ≡ Err (TraceFault.Line 1 TraceKind.Event) }
    ensures forbidden { trace_of lamp (line (codes "press 1"))
        ≡ Err (TraceFault.Line 1 TraceKind.Value) }
    ensures settle_shape { trace_of lamp (line (codes "settle press"))
        ≡ Err (TraceFault.Line 1 TraceKind.Shape) }
    ensures shape_first { trace_of lamp (line (codes "foo 1 2"))
        ≡ Err (TraceFault.Line 1 TraceKind.Shape) }
    ensures first_line { trace_of lamp (line (codes "# press") ++ line (codes "press 1")
        ++ line (codes "settle press")) ≡ Err (TraceFault.Line 2 TraceKind.Value) }
    ensures values { trace_of value (line (codes "v 3") ++ line (codes "v 5"))
        ≡ Ok (TraceItem.Event 0 4 ∷ TraceItem.Event 0 6 ∷ []) }
    ensures no_value { trace_of value (line (codes "v 8"))
        ≡ Err (TraceFault.Line 1 TraceKind.Value) }
    ensures leading_zero { trace_of value (line (codes "v 03"))
        ≡ Err (TraceFault.Line 1 TraceKind.Value) }
    ensures missing { trace_of value (line (codes "v")) ≡ Err (TraceFault.Line 1 TraceKind.Value) }
{}
