// What the definitions say of seed 7.
ghost use Rattle.std.specs.Prelude.{◌≡◌, [], ◌∷◌};
ghost use Rattle.polis_base.specs.Draws.{after, draw};
ghost use Rattle.journals.specs.declared.entry.TraceItem.TheVariants.{Settle};
ghost use Rattle.net_gen.specs.Items.{items_at, tick_item};
ghost use Rattle.net_gen.specs.Networks.{count, tick_row, value_row, tick_rows, value_rows};

/// The first draws of seed 7, reckoned by hand: the number of machines, what the first machine has,
/// and the first tick.
pub fn worked_draws()
    ensures count { count 7 ≡ 27 }
    ensures priority { draw (after 7 1) 4 ≡ 3 }
    ensures tick_rows { tick_rows 0 1 (after 7 2)
        ≡ tick_row 0 1 0 1 1 ∷ tick_row 0 1 1 1 3 ∷ tick_row 0 1 2 0 4 ∷ tick_row 0 1 3 3 6
        ∷ tick_row 0 1 4 3 3 ∷ tick_row 0 1 5 0 0 ∷ tick_row 0 1 6 5 2 ∷ tick_row 0 1 7 5 3 ∷ [] }
    ensures value_rows { value_rows 0 1 (after 7 18)
        ≡ value_row 0 1 1 4 ∷ value_row 0 1 2 7 ∷ value_row 0 1 3 0 ∷ value_row 0 1 4 1
        ∷ value_row 0 1 5 6 ∷ value_row 0 1 6 2 ∷ value_row 0 1 7 5 ∷ [] }
    ensures last { draw (after 7 25) 8 ≡ 0 }
    ensures tick { draw (after 7 676) 27 ≡ 20 }
{}

/// The first ticks of seed 7, reckoned by hand: the first one, and the tenth with what follows it.
pub fn worked_items()
    ensures first { items_at 27 (after 7 676) 0 ≡ tick_item 20 ∷ [] }
    ensures tenth { items_at 27 (after 7 676) 9 ≡ tick_item 25 ∷ Settle ∷ [] }
{}
