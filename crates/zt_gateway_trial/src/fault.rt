// Why a script isn't carried out to its end.

/// How often a step is made before it counts as one that runs out of memory.
pub const TRIES: u32 = 64;

/// Why the script isn't carried out to its end.
#[derive(Clone, Copy)]
pub enum Fault {
    /// Gateways that are equal differ in this.
    Differs(&'static str),
    /// The script is too long.
    TooLong,
    /// The source failed.
    Read,
    /// The sink failed.
    Write,
    /// A step ran out of memory so often as it was made.
    Memory,
    /// A line is none of the grammar, or not of one gateway alone.
    BadLine,
}

impl Fault {
    /// The status of the program.
    pub fn status(self) -> u8 {
        match self {
            Fault::Differs(_) => 1,
            Fault::TooLong => 2,
            Fault::Read => 3,
            Fault::Write => 4,
            Fault::Memory => 5,
            Fault::BadLine => 6,
        }
    }
}
