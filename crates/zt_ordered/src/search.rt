// Searches among rows in order.
ghost use Rattle.std.specs.Prelude.{◌≡◌, ◌<◌, false, length, true, Err, IsTrue, Ok};
ghost use Rattle.std.specs.List.Sorted.{IsSearchInRange};
ghost use Rattle.std.specs.Ordering.{nat_cmp};
ghost use Rattle.std.specs.FinMap.Entries.{is_sorted};
ghost use Rattle.zt_ordered.specs.Rows.{place};

use crate::numbered::Numbered;

/// Where the row under `key` stands among rows in order, or, as an `Err`, where it would go. A
/// search by halves.
pub fn place_of<P: Ord, X>(rows: &[(P, X)], key: &P) -> Result<usize, usize>
    requires { IsTrue (is_sorted P.cmp rows.now) }
    ensures place { result ≡ place P.cmp key.now rows.now }
    ensures in_range { IsSearchInRange result (length rows.now) }
{
    rows.binary_search_by(|row| row.0.cmp(key))
}

// Whether all rows stand under numbers below this one.
fn are_below<R: Numbered>(rows: &[R], number: u32) -> bool
    requires { IsTrue (is_sorted nat_cmp (R.pairs rows.now)) }
    ensures behind { result ≡ true → place nat_cmp number (R.pairs rows.now)
        ≡ Err (length rows.now) }
    ensures some { result ≡ false → 0 < length rows.now }
{
    match rows.last() {
        None => true,
        Some(last) => last.number() < number,
    }
}

// Whether the row under the number stands at the place.
fn stands_at<R: Numbered>(rows: &[R], number: u32, at: usize) -> bool
    requires { IsTrue (is_sorted nat_cmp (R.pairs rows.now)) }
    ensures found { result ≡ true → place nat_cmp number (R.pairs rows.now) ≡ Ok at }
    ensures within { result ≡ true → at < length rows.now }
{
    match rows.get(at) {
        None => false,
        Some(row) => row.number() == number,
    }
}

// How far apart the numbers of the rows lie on the average, rounded down, and at least 1.
fn distance<R: Numbered>(rows: &[R]) -> usize
    requires { 0 < length rows.now }
    ensures { 0 < result }
{
    let span = rows[rows.len() - 1]
        .number()
        .saturating_sub(rows[0].number()) as usize;
    let gaps = (rows.len() - 1).max(1);
    (span / gaps).max(1)
}

// Where the row under a number stands, or where it would go. A search by halves.
fn search_halves<R: Numbered>(rows: &[R], number: u32) -> Result<usize, usize>
    requires { IsTrue (is_sorted nat_cmp (R.pairs rows.now)) }
    ensures place { result ≡ place nat_cmp number (R.pairs rows.now) }
    ensures in_range { IsSearchInRange result (length rows.now) }
{
    rows.binary_search_by(|row| row.number().cmp(&number))
}

// Where the row under a number stands, or where it would go: first tried where it stands if numbers
// lie evenly apart by more than 1, then searched for by halves.
fn search<R: Numbered>(rows: &[R], number: u32) -> Result<usize, usize>
    requires ordered { IsTrue (is_sorted nat_cmp (R.pairs rows.now)) }
    requires some { 0 < length rows.now }
    ensures place { result ≡ place nat_cmp number (R.pairs rows.now) }
    ensures in_range { IsSearchInRange result (length rows.now) }
{
    let apart = distance(rows);
    if apart > 1 {
        let at = number.saturating_sub(rows[0].number()) as usize / apart;
        if stands_at(rows, number, at) {
            return Ok(at);
        }
    }
    search_halves(rows, number)
}

/// Where the row under a number stands among rows in order, or, as an `Err`, where it would go.
/// Numbers mostly come in order and follow one another, or lie evenly apart. So it is tried first
/// behind all rows, then as far behind the first row as the number is above that row's, then where
/// it stands if numbers lie evenly apart; then it is searched for by halves.
pub fn place_of_number<R: Numbered>(rows: &[R], number: u32) -> Result<usize, usize>
    requires { IsTrue (is_sorted nat_cmp (R.pairs rows.now)) }
    ensures place { result ≡ place nat_cmp number (R.pairs rows.now) }
    ensures in_range { IsSearchInRange result (length rows.now) }
{
    if are_below(rows, number) {
        return Err(rows.len());
    }
    let at = number.saturating_sub(rows[0].number()) as usize;
    if stands_at(rows, number, at) {
        return Ok(at);
    }
    search(rows, number)
}
