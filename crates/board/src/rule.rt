// What holds of a board's words and of the views of all its seats, and what each kind of step tells its seat.

use crate::seat::SeatView;
use atomic_table::{Join, Play, Split, TableRule};

pub(crate) struct BoardRule;

impl TableRule<u8, SeatView, u64> for BoardRule {
    ghost use Rattle.board.specs.Rule.{RuleHolds};
    ghost use Rattle.board.specs.Steps.{first_view};

    ghost holds = { λ _ state. RuleHolds state };

    ghost first = { first_view };
}

pub(crate) struct Claim;

impl Play<u8, SeatView> for Claim {
    ghost use Rattle.board.specs.Plays.{Claims};

    ghost then = { λ _. Claims };
}

pub(crate) struct Lower;

impl Play<u8, SeatView> for Lower {
    ghost use Rattle.board.specs.Plays.{Lowers};

    ghost then = { λ step. Lowers step.first };
}

pub(crate) struct Raise;

impl Play<u8, SeatView> for Raise {
    ghost use Rattle.board.specs.Plays.{Raises};

    ghost then = { λ step. Raises step.first };
}

pub(crate) struct LookAtBound;

impl Play<u8, SeatView> for LookAtBound {
    ghost use Rattle.board.specs.Plays.{SeesBound};

    ghost then = { λ _. SeesBound };
}

pub(crate) struct LookAtValue;

impl Play<u8, SeatView> for LookAtValue {
    ghost use Rattle.board.specs.Plays.{SeesValue};

    ghost then = { λ _. SeesValue };
}

pub(crate) struct SplitOff;

impl Split<SeatView> for SplitOff {
    ghost use Rattle.board.specs.Steps.{after_split, split_off};

    ghost left = { after_split };

    ghost right = { split_off };
}

pub(crate) struct JoinIn;

impl Join<SeatView> for JoinIn {
    ghost use Rattle.board.specs.Steps.{joined, spent};

    ghost both = { joined };

    ghost spent = { spent };
}
