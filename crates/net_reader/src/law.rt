// What is left of a network text that is cut off.
ghost use Rattle.net_reader.specs.Sentences.{SentencesHaveFirstMachines, CutsHaveFirstMachines, CutsNeedAllTokens, OneMachineNeedsAllTokens};

/// A text that is cut off is no network text, or it declares the first machines of what the whole
/// text declares. Where it declares all of them no token was cut off, as where there is one
/// machine.
pub fn cut_laws()
    ensures sentences { SentencesHaveFirstMachines }
    ensures cuts { CutsHaveFirstMachines }
    ensures all_tokens { CutsNeedAllTokens }
    ensures one_machine { OneMachineNeedsAllTokens }
{}
