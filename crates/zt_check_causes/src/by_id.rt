// Rows by their ids.
ghost use Rattle.std.specs.Prelude.{◌≡◌};
ghost use Rattle.std.specs.Option.{option_copied};
ghost use Rattle.zt_model.specs.Lists.{at_id, has_id};

/// Whether a row has the id.
pub(crate) fn has_id<T>(rows: &[(u32, T)], id: u32) -> bool
    ensures { result ≡ has_id id rows.now }
{
    rows.iter().any(|row| id == row.0)
}

/// The row of the id.
pub(crate) fn at_id<T>(rows: &[(u32, T)], id: u32) -> Option<&T>
    ensures { option_copied result ≡ at_id id rows.now }
{
    for row in rows {
        if id == row.0 {
            return Some(&row.1);
        }
    }
    None
}
