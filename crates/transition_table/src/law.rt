// Laws of the definitions.
ghost use Rattle.transition_table.specs.Laws.{OutcomeByRows, OnlyByRows, ResultsFit, CharByTest, SupportByTest, SameOnSupport, SameRow, SameMachine, SameNetwork, TransitionLaws};

/// What follows from the definitions.
pub fn laws()
    ensures { TransitionLaws }
{}

/// That what is computed from the rows is what the relations say.
pub fn laws_of_computing()
    ensures outcome_by_rows { OutcomeByRows }
    ensures only_by_rows { OnlyByRows }
    ensures results_fit { ResultsFit }
    ensures char_by_test { CharByTest }
    ensures support_by_test { SupportByTest }
    ensures same_on_support { SameOnSupport }
{
    domains::laws_of_all_codes();
}

/// That values with the same data are the same, whatever the proofs of their facts.
pub fn laws_of_data()
    ensures same_row { SameRow }
    ensures same_machine { SameMachine }
    ensures same_network { SameNetwork }
{}
