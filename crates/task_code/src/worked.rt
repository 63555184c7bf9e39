// Worked code: what the definitions say of the lamp.
ghost use Rattle.task_code.specs.Worked.{Lamp};

/// The definitions give the lamp's code, what it does in how many steps, and its listing byte by
/// byte.
pub fn worked_codes()
    ensures lamp { Lamp }
{}
