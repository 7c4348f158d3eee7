// Infos that are counts.
ghost use Rattle.std.specs.Prelude.{◌≡◌};
ghost use Rattle.zt_locals_trial.specs.Counting.{counted, counted_laws};

use zt_locals::{LocalResourceInfoTrait, LocalResourceTrait};

/// How many there are of a resource.
#[derive(Clone, Copy, PartialEq, Eq)]
pub struct Count {
    pub number: u64,
}

/// Counts add up, to the greatest one at most.
impl<Res: LocalResourceTrait> LocalResourceInfoTrait<Res> for Count {
    ghost aggregating = { counted };

    fn aggregate(
        self_val: Option<Count>,
        self_res: &Res,
        other_val: &Count,
        other_res: &Res,
    ) -> Count
        ensures { result ≡ counted self_val self_res.now other_val.now other_res.now }
    {
        match self_val {
            None => *other_val,
            Some(had) => Count {
                number: had.number.saturating_add(other_val.number),
            },
        }
    }

    ghost laws = { counted_laws };
}
