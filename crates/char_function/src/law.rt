// Laws of sizes.
ghost use Rattle.char_function.specs.Laws.{CharDecides, HasSize, OneSize};

/// What ties the computed characteristic function and the computed size, of which the contracts of
/// private functions speak, to the relation and to the sizes of which the public ones speak: the
/// function decides the relation, the computed number is a size, and an order has one size.
pub fn laws()
    ensures char_decides { CharDecides }
    ensures has_size { HasSize }
    ensures one_size { OneSize }
{
    transition_table::laws_of_computing();
}
