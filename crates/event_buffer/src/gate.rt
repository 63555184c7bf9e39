// What a run calls as machines react, so that a test can hold its workers up.

/// The workers' gate, which is called as a machine reacts. Neither call promises anything.
pub trait Gate {
    /// Is called while no lock is held, before the code of the machine runs.
    fn enter(&self, machine: u32);

    /// Is called while the lock of the machine's cell is held, as its reaction is frozen.
    fn hold(&self, machine: u32);
}

/// Does nothing in either call.
pub struct OpenGate;

impl Gate for OpenGate {
    fn enter(&self, _: u32) {}

    fn hold(&self, _: u32) {}
}
