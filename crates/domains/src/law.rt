// Laws of the definitions.
ghost use Rattle.domains.specs.AllCodes.{CountsAll, StandsAtRank, StandsOnce, ListsFit, ListsAll};
ghost use Rattle.domains.specs.Domains.{WordsDiffer, SameSpan};
ghost use Rattle.domains.specs.Least.{OrdersAgree};
ghost use Rattle.domains.specs.Orders.{HavePlaces, OnePlace};
ghost use Rattle.domains.specs.Tables.{RanksBelow, RanksDiffer, RanksReach};

/// What follows from the definitions.
pub fn laws()
    ensures words { WordsDiffer }
    ensures same_span { SameSpan }
    ensures ranks_below { RanksBelow }
    ensures ranks_differ { RanksDiffer }
    ensures ranks_reach { RanksReach }
{}

/// What follows from the definition of all lists of codes: with `next_codes`, which goes from a
/// rank to the next, that these lists in this order are those that it steps through.
pub fn laws_of_all_codes()
    ensures counts_all { CountsAll }
    ensures stands_at_rank { StandsAtRank }
    ensures stands_once { StandsOnce }
    ensures lists_fit { ListsFit }
    ensures lists_all { ListsAll }
{}

/// What follows from the definition of an order.
pub fn laws_of_orders()
    ensures have_places { HavePlaces }
    ensures one_place { OnePlace }
{}

/// That lists which fit stand in the order of their numbers, so that the least by its number is the
/// least by its codes.
pub fn laws_of_least()
    ensures { OrdersAgree }
{}
