// The order that a command line gives.
ghost use Rattle.std.specs.Prelude.{◌≡◌, ◌≢◌, IfSome, IfNone, unwrap_or};
ghost use Rattle.polis_words.specs.declared.requests.order.GivenOrder.{GivenOrder};
ghost use Rattle.polis_words.specs.declared.requests.order.GivenOrder.TheVariants.{Mixed};
ghost use Rattle.polis_words.specs.RunOptions.{order_word};

/// Which moves a drawn run is offered.
#[derive(Clone, Copy)]
pub enum GivenOrder {
    /// Those of one of the other three, which is drawn with the run.
    Mixed,
    /// All moves.
    Free,
    /// The environment waits at each `settle` item until the network has no move.
    Settled,
    /// The environment waits likewise, and the network follows its scheduler.
    Scheduled,
}

/// The order that a word names.
pub fn read_order(word: &str) -> Option<GivenOrder>
    ensures some { IfSome result (λ order. word.now ≡ order_word order) }
    ensures none { IfNone result ((order : GivenOrder) → word.now ≢ order_word order) }
{
    match word {
        "mixed" => Some(GivenOrder::Mixed),
        "free" => Some(GivenOrder::Free),
        "settled" => Some(GivenOrder::Settled),
        "scheduled" => Some(GivenOrder::Scheduled),
        _ => None,
    }
}

/// The order, or that it is drawn too where there is none.
pub fn or_mixed(order: Option<GivenOrder>) -> GivenOrder
    ensures { result ≡ unwrap_or order Mixed }
{
    match order {
        Some(order) => order,
        None => GivenOrder::Mixed,
    }
}
