//! What each kind of step tells.
ghost use Rattle.rex_words.specs.Steps.{looked, tried, fetched, acquired, taken_by_try, published, released, dealt_left, dealt_right, gathered, spent};

use crate::view::View;
use atomic_table::{Join, Play, Split};

/// The load of the word of a lock that a lane is to acquire.
pub(crate) struct Look;

impl Play<(), View> for Look {
    ghost then = { looked };
}

/// The load of the word of a lock that a lane tries.
pub(crate) struct Try;

impl Play<(), View> for Try {
    ghost then = { tried };
}

/// The load of a variable's word.
pub(crate) struct Fetch;

impl Play<(), View> for Fetch {
    ghost then = { fetched };
}

/// The compare-and-exchange by which a lane acquires a lock.
pub(crate) struct Acquire;

impl Play<(), View> for Acquire {
    ghost then = { acquired };
}

/// The compare-and-exchange by which a lane's try takes a lock.
pub(crate) struct TakeByTry;

impl Play<(), View> for TakeByTry {
    ghost then = { taken_by_try };
}

/// The store of a variable's word.
pub(crate) struct Publish;

impl Play<(), View> for Publish {
    ghost then = { published };
}

/// The store of a lock's word.
pub(crate) struct Release;

impl Play<(), View> for Release {
    ghost then = { released };
}

/// A lane gets its seat.
pub(crate) struct Deal;

impl Split<View> for Deal {
    ghost left = { dealt_left };

    ghost right = { dealt_right };
}

/// The host takes in a lane's seat.
pub(crate) struct Gather;

impl Join<View> for Gather {
    ghost both = { gathered };

    ghost spent = { spent };
}
