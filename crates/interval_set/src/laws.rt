// What holds of all sets of seconds; these functions do nothing.

ghost use Rattle.interval_set.specs.Laws.{OneList, UnionCommutes, MeetCommutes, PartIsRestored};
ghost use Rattle.interval_set.specs.Laws.{SetIsNoLonger, UnionIsNoLonger, MeetIsShorter, DifferenceIsNoLonger};

/// A set of seconds has one list.
pub fn one_list()
    ensures { OneList }
{}

/// `a.union(b)` is `b.union(a)`.
pub fn union_commutes()
    ensures { UnionCommutes }
{}

/// `a.meet(b)` is `b.meet(a)`.
pub fn meet_commutes()
    ensures { MeetCommutes }
{}

/// `whole.minus(part).union(part)` is `whole`, where each second of `part` is one of `whole`.
pub fn part_is_restored()
    ensures { PartIsRestored }
{}

/// How many spans a set has: no more than a list of its seconds, than both sets that it is the union or the difference of,
/// or, where two sets have it in common, than both less one.
pub fn answers_are_short()
    ensures list { SetIsNoLonger }
    ensures union { UnionIsNoLonger }
    ensures meet { MeetIsShorter }
    ensures difference { DifferenceIsNoLonger }
{}
