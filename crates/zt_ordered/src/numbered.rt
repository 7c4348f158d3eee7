// Rows under numbers.

/// A row that stands under a number: a pair, or what takes less room than one.
pub trait Numbered {
    ghost use Rattle.std.specs.Prelude.{◌≡◌, ℕ, List, map};

    /// What stands under the number.
    type Row;

    /// The number, and what stands under it.
    ghost pair: { Self → ℕ × Self.Row };

    /// The pairs of rows, as contracts over them see these.
    ghost pairs: { List Self → List (ℕ × Self.Row) };

    /// The number.
    fn number(&self) -> u32
        ensures { result ≡ (pair self.now).0 };

    /// Each row has its pair.
    ghost pairs_are: { (rows : List Self) → pairs rows ≡ map pair rows };
}

impl<X> Numbered for (u32, X) {
    ghost use Rattle.zt_ordered.specs.Pairs.{pairs-same};

    type Row = X;

    ghost pair = { λ row. row };

    ghost pairs = { λ rows. rows };

    ghost pairs_are = { pairs-same };

    fn number(&self) -> u32 {
        self.0
    }
}
