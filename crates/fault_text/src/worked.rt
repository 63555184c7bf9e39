// What the definitions say of small texts.
ghost use Rattle.fault_text.specs.Worked.{Blocks, TokensBefore};

/// The definitions give these blocks, byte by byte.
pub fn worked_blocks()
    ensures { Blocks }
{}

/// The definitions give these tokens before a place.
pub fn worked_tokens_before()
    ensures { TokensBefore }
{}
