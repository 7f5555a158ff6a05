//! The table of the shared words, its rule, and the steps on it.
use crate::laid::Laid;
use crate::view::View;
use atomic_table::{Play, Seat, Split, Table, TableRule};
use std::alloc::Global;

/// The rule of the table. It is told the plan when the table is made.
pub struct Words;

impl TableRule<(), View, Laid> for Words {
    ghost use Rattle.live_text.specs.Laid.{laid_shape};
    ghost use Rattle.live_text.specs.Rule.{Live};
    ghost use Rattle.live_text.specs.Steps.{first_view};

    ghost holds = { λ key s. Live (laid_shape key) s };

    ghost first = { λ key. first_view (laid_shape key) };
}

/// The shared words.
pub type Shared = Table<(), View, Laid, Words, Global>;

/// A seat at them.
pub type Place = Seat<(), View>;

/// The store of a byte.
pub struct Writes;

impl Play<(), View> for Writes {
    ghost use Rattle.live_text.specs.Plays.{Wrote};

    ghost then = { Wrote };
}

/// The store of a request.
pub struct Requests;

impl Play<(), View> for Requests {
    ghost use Rattle.live_text.specs.Plays.{Requested};

    ghost then = { Requested };
}

/// The load of an acknowledgement.
pub struct LoadsAck;

impl Play<(), View> for LoadsAck {
    ghost use Rattle.live_text.specs.Plays.{LoadedAck};

    ghost then = { LoadedAck };
}

/// The load of a byte.
pub struct Fetches;

impl Play<(), View> for Fetches {
    ghost use Rattle.live_text.specs.Plays.{Fetched};

    ghost then = { Fetched };
}

/// The load of the generation.
pub struct Looks;

impl Play<(), View> for Looks {
    ghost use Rattle.live_text.specs.Plays.{Looked};

    ghost then = { Looked };
}

/// The store of an acknowledgement.
pub struct Acknowledges;

impl Play<(), View> for Acknowledges {
    ghost use Rattle.live_text.specs.Plays.{Acked};

    ghost then = { Acked };
}

/// The store with which a processor leaves.
pub struct Leaves;

impl Play<(), View> for Leaves {
    ghost use Rattle.live_text.specs.Plays.{Gone};

    ghost then = { Gone };
}

/// The split of the next processor's seat from the patch seat.
pub struct Seats;

impl Split<View> for Seats {
    ghost use Rattle.live_text.specs.Steps.{seated, newcomer};

    ghost left = { seated };

    ghost right = { newcomer };
}
