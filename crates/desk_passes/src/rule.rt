// What holds of a shared desk's words, of its slot and of what all know, and what each kind of step tells.

ghost use Rattle.std.specs.Prelude.{ℕ};

use crate::seen::PassView;
use atomic_table::{Join, Play, Split, TableRule};
use desk_book::Book;
use std::marker::{Brand, PhantomData};

pub(crate) struct DeskRule;

impl TableRule<Option<Book>, PassView, u8> for DeskRule {
    ghost use Rattle.desk_passes.specs.Rule.{RuleHolds};
    ghost use Rattle.desk_passes.specs.Steps.{first_view};

    ghost holds = { RuleHolds };

    ghost first = { first_view };
}

pub(crate) struct Look;

impl Play<Option<Book>, PassView> for Look {
    ghost use Rattle.desk_passes.specs.Plays.{Looks};

    ghost then = { λ _. Looks };
}

/// A look by the root, which is told of callers too.
pub(crate) struct LookAsRoot;

impl Play<Option<Book>, PassView> for LookAsRoot {
    ghost use Rattle.desk_passes.specs.Plays.{RootLooks};

    ghost then = { λ _. RootLooks };
}

pub(crate) struct TryTurn;

impl Play<Option<Book>, PassView> for TryTurn {
    ghost use Rattle.desk_passes.specs.Plays.{TriesTurn};

    ghost then = { λ _. TriesTurn };
}

pub(crate) struct Count;

impl Play<Option<Book>, PassView> for Count {
    ghost use Rattle.desk_passes.specs.Plays.{Counts};

    ghost then = { λ _. Counts };
}

pub(crate) struct GiveTurn;

impl Play<Option<Book>, PassView> for GiveTurn {
    ghost use Rattle.desk_passes.specs.Plays.{GivesTurn};

    ghost then = { λ _. GivesTurn };
}

/// Whose pass is made. The call that makes it picks the caller, as the split of a view gets nothing else.
pub(crate) trait Naming {
    ghost caller: { ℕ };
}

impl Naming for Brand {
    ghost caller = { 0 };
}

/// A caller's pass is made by the root.
pub(crate) struct MakePass<C: Naming> {
    of: PhantomData<C>,
}

impl<C: Naming> Split<PassView> for MakePass<C> {
    ghost use Rattle.desk_passes.specs.Steps.{with_pass_out, new_pass};

    ghost left = { with_pass_out C.caller };

    ghost right = { new_pass C.caller };
}

pub(crate) struct MakeNote;

impl Split<PassView> for MakeNote {
    ghost use Rattle.desk_passes.specs.Steps.{copied};

    ghost left = { λ v. v };

    ghost right = { copied };
}

pub(crate) struct TakeNote;

impl Join<PassView> for TakeNote {
    ghost use Rattle.desk_passes.specs.Steps.{informed, spent};

    ghost both = { informed };

    ghost spent = { spent };
}

pub(crate) struct TakePass;

impl Join<PassView> for TakePass {
    ghost use Rattle.desk_passes.specs.Steps.{with_pass_back, spent};

    ghost both = { with_pass_back };

    ghost spent = { spent };
}
