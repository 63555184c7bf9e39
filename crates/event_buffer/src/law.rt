// That the calls of a cell are the core's steps.
ghost use Rattle.event_buffer.specs.Steps.{FreezingIsReact, GivenIsInHand, LandingIsLand, FreeingIsFree, FeedingIsFeed};

/// What `freeze`, `land` and `free` make of a cell's log is what the core's steps make of that
/// machine's log.
pub fn cell_laws()
    ensures freezes { FreezingIsReact }
    ensures gives { GivenIsInHand }
    ensures lands { LandingIsLand }
    ensures frees { FreeingIsFree }
    ensures feeds { FeedingIsFeed }
{}
