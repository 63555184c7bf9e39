// Networks that the definitions give for small declarations and texts, and laws over definitions.
ghost use Rattle.net_reader.specs.Samples.{lamp, echo_text};
ghost use Rattle.net_rules.specs.NetOf.{IsNetOf, NetOf};
ghost use Rattle.transition_table.specs.samples.Belt.{belt as belt_network};
ghost use Rattle.transition_table.specs.samples.Echo.{echo as echo_network};
ghost use Rattle.transition_table.specs.samples.Lamp.{lamp as lamp_network};
ghost use Rattle.net_rules.specs.Given.{belt_text, mix_text, mix_network};
ghost use Rattle.net_rules.specs.Unique.{OneNetwork, SomeNetwork};
ghost use Rattle.net_rules.specs.Sentence.{SentencesHaveValues};

/// The networks that the definitions give for small declarations and texts.
pub fn worked_network()
    ensures lamp { IsNetOf lamp lamp_network }
    ensures belt { NetOf belt_text belt_network }
    ensures mix { NetOf mix_text mix_network }
    ensures echo { NetOf echo_text echo_network }
{}

/// Laws over definitions.
pub fn laws()
    ensures one { OneNetwork }
    ensures values { SentencesHaveValues }
{}

/// Declarations that break no rule give a network.
pub fn network_laws()
    ensures some { SomeNetwork }
{}
