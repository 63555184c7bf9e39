// Worked texts: what the definitions say of them.
ghost use Rattle.std.specs.Prelude.{ℕ, ◌≤◌, codes, take};
ghost use Rattle.net_reader.specs.Sentences.{HasNet, BreaksAt, LacksLast};
ghost use Rattle.net_reader.specs.declared.raw.RawNet.{RawNet};
ghost use Rattle.net_reader.specs.Samples.{lamp_text, lamp, echo_text, echo, with_action, one_action, set_to_input};

/// What small texts declare, where the forms of version 2 are a fault in a text of another version,
/// and a text that lacks the last token of a sentence. No beginning of the lamp's text that lacks
/// its last brace is a network text.
pub fn worked_texts()
    ensures lamp { HasNet lamp_text lamp }
    ensures echo { HasNet echo_text echo }
    ensures input { HasNet (with_action (codes "2") (codes "s := value g"))
        (one_action 2 set_to_input) }
    ensures input_in_1 { BreaksAt (with_action (codes "1") (codes "s := value g")) 83 }
    ensures input_in_3 { BreaksAt (with_action (codes "3") (codes "s := value g")) 83 }
    ensures given_in_3 { BreaksAt (with_action (codes "3") (codes "emit e = value g")) 87 }
    ensures sum_in_1 { BreaksAt (with_action (codes "1") (codes "s := s + 1")) 85 }
    ensures lacks_last { LacksLast (take 214 lamp_text) }
    ensures lamp_cut { (k : ℕ) (cut : RawNet) → HasNet (take k lamp_text) cut → 215 ≤ k }
    ensures sum_emitted { BreaksAt (with_action (codes "2") (codes "emit e = s + 1")) 89 }
{}
