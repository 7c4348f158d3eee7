// What each step on the table tells.
ghost use Rattle.std.specs.Prelude.{[], ◌++◌, take, drop};
ghost use Rattle.zt_shared_value.specs.Plays.{Took, Published, Released, Looked, Drew, Counted};

use crate::part::{Part, View};
use crate::recorder::Recorder;
use atomic_table::{Join, Play, Split};

// The lock is tried, and the value taken with it.
pub(crate) struct Take;

impl<J: Recorder> Play<J, View<J>> for Take {
    ghost then = { Took J.journal J.author J.state };
}

// The entry that was made is counted.
pub(crate) struct Publish;

impl<J: Recorder> Play<J, View<J>> for Publish {
    ghost then = { Published J.journal J.author J.state };
}

// The lock is given back, and the value with it.
pub(crate) struct Release;

impl<J: Recorder> Play<J, View<J>> for Release {
    ghost then = { Released };
}

// The length of the journal is read.
pub(crate) struct Look;

impl<J: Recorder> Play<J, View<J>> for Look {
    ghost then = { Looked J.journal J.author J.state };
}

// A number is drawn.
pub(crate) struct Draw;

impl<J: Recorder> Play<J, View<J>> for Draw {
    ghost then = { Drew };
}

// The count of numbers is read.
pub(crate) struct Count;

impl<J: Recorder> Play<J, View<J>> for Count {
    ghost then = { Counted };
}

// The pass that was made takes its part.
pub(crate) struct Halves;

impl<J> Split<View<J>> for Halves {
    ghost left = { λ view. take 1 view };

    ghost right = { λ view. drop 1 view };
}

// The parts of the other, and then those of the pass that is kept.
pub(crate) struct Together;

impl<J> Join<View<J>> for Together {
    ghost both = { λ view other. other ++ view };

    ghost spent = { [] };
}
