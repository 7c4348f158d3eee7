ghost use Rattle.zt_keys.specs.Expression.{bytes_of, reading};
ghost use Rattle.zt_keys.specs.Key.{OneSpelling};

/// A key expression is read from its text alone, byte for byte. The trait asks this of no type of
/// keys.
#[tactic(auto, using(crate::specs::Laws::one_spelling))]
pub fn key_expressions_have_one_spelling()
    ensures { OneSpelling reading bytes_of }
{}
