// Laws of the definitions.
ghost use Rattle.net_gen.specs.Demos.{SeedsHaveMachines};
ghost use Rattle.net_gen.specs.Dwindling.{DwindlingEnds, DwindlingCompletes};
ghost use Rattle.net_gen.specs.Ended.{SeedsAreDeterministic, SeedsComplete, SeedsDwindle, SeedsEnd};
ghost use Rattle.net_gen.specs.Events.{SeedsHaveEvents};
ghost use Rattle.net_gen.specs.Items.{TextsHaveTrace, ItemsAreTrace, TicksArriveOnce};
ghost use Rattle.net_gen.specs.Kept.{SeedsKeepRules};
ghost use Rattle.net_gen.specs.Texts.{RulesIgnorePlaces, NetworksIgnorePlaces, TextsKeepRules, TextsHaveNetwork};
ghost use Rattle.net_gen.specs.Whole.{SeedsAreWhole, SeedsHaveNetwork};

/// Where each delivery leads to less than itself, a legal journal is short, and a schedule
/// complete.
pub fn dwindling_laws()
    ensures ends { DwindlingEnds }
    ensures completes { DwindlingCompletes }
{
    journals::laws();
    journals::moving_laws();
    journals::sending_laws();
}

/// The declarations of each seed break none of the rules of network texts.
pub fn rules_are_kept()
    ensures { SeedsKeepRules }
{}

/// Places in a text matter neither to the rules nor to the network, so the network text of each
/// seed breaks no rule and is one of the seed's network.
pub fn text_laws()
    ensures rules { RulesIgnorePlaces }
    ensures networks { NetworksIgnorePlaces }
    ensures keeps { TextsKeepRules }
    ensures network { TextsHaveNetwork }
{}

/// The events of each seed's network, and the trace that its trace text is.
pub fn trace_laws()
    ensures events { SeedsHaveEvents }
    ensures items { TextsHaveTrace }
    ensures trace { ItemsAreTrace }
    ensures arrive { TicksArriveOnce }
{}

/// The machines of each seed's network.
pub fn machine_laws()
    ensures machines { SeedsHaveMachines }
    ensures deterministic { SeedsAreDeterministic }
{}

/// In each seed's network each delivery leads to less than itself, so its runs come to an end.
pub fn run_laws()
    ensures dwindle { SeedsDwindle }
    ensures end { SeedsEnd }
    ensures complete { SeedsComplete }
{
    dwindling_laws();
}

/// The declarations of each seed give a network, and its texts are what a complete run takes.
pub fn whole_laws()
    ensures some { SeedsHaveNetwork }
    ensures whole { SeedsAreWhole }
{
    net_rules::network_laws();
    text_laws();
    trace_laws();
    machine_laws();
    run_laws();
}
