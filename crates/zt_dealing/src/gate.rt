// What workers pass before and after each line.

/// Is told of each line that a worker carries out. A gate may hold a worker up, so tests use one to
/// see that workers run at the same time.
pub trait Gate {
    /// The worker is about to carry out the line of this number.
    fn before(&self, line: u64);

    /// The worker has carried it out.
    fn after(&self, line: u64);
}

/// Holds nobody up.
#[derive(Clone, Copy, Drop)]
pub struct NoGate;

impl Gate for NoGate {
    fn before(&self, _line: u64) {}

    fn after(&self, _line: u64) {}
}
