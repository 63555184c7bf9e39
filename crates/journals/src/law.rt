// Laws of the definitions.
ghost use Rattle.journals.specs.AllLaws.{JournalLaws, MovingLaws, SendingLaws, StampingLaws};
ghost use Rattle.journals.specs.Seen.{ReactionsSee};

/// What follows from the definitions.
pub fn laws()
    ensures { JournalLaws }
{
    transition_table::laws();
    transition_table::laws_of_computing();
}

/// What one entry more makes of snapshots, wakings, cursors and what is owed.
pub fn moving_laws()
    ensures { MovingLaws }
{}

/// What is sent, given, owed and delivered, and that each machine reads its own entries alone.
pub fn sending_laws()
    ensures { SendingLaws }
{}

/// What is true of least stamps, of Rising ones, and of origins.
pub fn stamp_laws()
    ensures { StampingLaws }
{}

/// Each reaction of a legal journal has an input that is present.
pub fn seeing_law()
    ensures { ReactionsSee }
{}
