// Rows of calls.

/// A call that takes memory.
#[derive(Clone, Copy)]
pub enum Call<'a> {
    /// Inserts a simple resource: its text, its count and the interests that it answers.
    Simple(&'a str, u64, &'a [u32]),
    /// Inserts an aggregated resource.
    Aggregated(&'a str, &'a [u32]),
    /// Removes a simple resource.
    Remove(&'a str),
}

/// A call that takes no memory: over texts, or over the keys that were read from them.
#[derive(Clone, Copy)]
pub enum Plain<T> {
    /// Takes an interest from each simple resource.
    EndSimple(u32),
    /// Takes an interest from an aggregated resource.
    EndAggregated(T, u32),
    /// Asks whether there is a simple resource.
    Contains(T),
    /// Drops all resources.
    Clear,
}

/// A call on local resources.
#[derive(Clone, Copy)]
pub enum Step<'a> {
    /// One that takes memory.
    Call(Call<'a>),
    /// One that takes none.
    Plain(Plain<&'a str>),
}

/// Simple resources alone.
pub const SIMPLE: [Step<'static>; 16] = [
    Step::Call(Call::Simple("test/simple/1", 0, &[1])),
    Step::Call(Call::Simple("test/simple/2", 0, &[2])),
    Step::Call(Call::Simple("test/simple/2", 0, &[2])),
    Step::Call(Call::Simple("test/simple/2", 1, &[2])),
    Step::Call(Call::Simple("test/simple/*", 1, &[1, 2])),
    Step::Plain(Plain::Contains("test/simple/1")),
    Step::Plain(Plain::Contains("test/simple/2")),
    Step::Plain(Plain::Contains("test/simple/*")),
    Step::Call(Call::Remove("test/simple/2")),
    Step::Plain(Plain::Contains("test/simple/1")),
    Step::Plain(Plain::Contains("test/simple/2")),
    Step::Plain(Plain::EndSimple(1)),
    Step::Plain(Plain::Contains("test/simple/1")),
    Step::Plain(Plain::Contains("test/simple/*")),
    Step::Plain(Plain::EndSimple(2)),
    Step::Plain(Plain::Contains("test/simple/*")),
];

/// Simple resources, of which an aggregated one has some.
pub const AGGREGATED: [Step<'static>; 18] = [
    Step::Call(Call::Simple("test/aggregate/1", 1, &[1])),
    Step::Call(Call::Simple("test/wrong/2", 1, &[10])),
    Step::Call(Call::Aggregated("test/aggregate/*", &[2])),
    Step::Call(Call::Simple("test/aggregate/*", 1, &[])),
    Step::Call(Call::Simple("test/aggregate/2", 1, &[3])),
    Step::Call(Call::Simple("test/aggregate/**", 1, &[])),
    Step::Call(Call::Remove("test/aggregate/*")),
    Step::Plain(Plain::EndSimple(1)),
    Step::Plain(Plain::Contains("test/aggregate/1")),
    Step::Plain(Plain::Contains("test/aggregate/**")),
    Step::Plain(Plain::EndAggregated("test/aggregate/*", 1)),
    Step::Plain(Plain::EndAggregated("test/aggregate/*", 2)),
    Step::Plain(Plain::Contains("test/aggregate/1")),
    Step::Plain(Plain::Contains("test/aggregate/2")),
    Step::Plain(Plain::Contains("test/aggregate/**")),
    Step::Plain(Plain::Clear),
    Step::Plain(Plain::Contains("test/aggregate/2")),
    Step::Plain(Plain::Contains("test/wrong/2")),
];

/// Several aggregated resources, of which two have the same simple one and one has none. Those that
/// are there at the end are dropped together.
pub const SEVERAL: [Step<'static>; 18] = [
    Step::Call(Call::Simple("test/aggregate/1", 1, &[1])),
    Step::Call(Call::Aggregated("test/aggregate/*", &[2])),
    Step::Call(Call::Simple("test/aggregate/*", 1, &[])),
    Step::Call(Call::Simple("test/aggregate/**", 1, &[])),
    Step::Call(Call::Aggregated("test/aggregate/**", &[4, 5])),
    Step::Call(Call::Aggregated("test/none", &[6])),
    Step::Call(Call::Remove("test/aggregate/*")),
    Step::Plain(Plain::EndSimple(1)),
    Step::Plain(Plain::EndAggregated("test/aggregate/**", 4)),
    Step::Plain(Plain::Contains("test/aggregate/**")),
    Step::Plain(Plain::EndAggregated("test/aggregate/**", 5)),
    Step::Plain(Plain::Contains("test/aggregate/**")),
    Step::Plain(Plain::Contains("test/aggregate/1")),
    Step::Plain(Plain::EndAggregated("test/aggregate/*", 2)),
    Step::Plain(Plain::Contains("test/aggregate/1")),
    Step::Plain(Plain::Clear),
    Step::Plain(Plain::EndAggregated("test/none", 6)),
    Step::Call(Call::Simple("test/none", 7, &[])),
];
