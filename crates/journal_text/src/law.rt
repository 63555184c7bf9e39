// Laws of the texts.
ghost use Rattle.journal_text.specs.Laws.{TextLaws};

/// What is printed reads back, and what reads was printed. So a text has one journal, one list of
/// stamps and one last word. No prefix of a printed text but the whole reads, and each has its
/// fault.
pub fn laws()
    ensures { TextLaws }
{
    domains::laws();
}
