// Laws of parts.
ghost use Rattle.machine_compiler.specs.Laws.{PartLaws};

/// A deterministic machine has one right part, and a network of such machines one list of them.
/// Right parts of one network with the same listing are the same parts, whatever its machines, and
/// the counts of their instructions fit in each journal of fewer than 2^32 entries.
pub fn laws()
    ensures { PartLaws }
{}
