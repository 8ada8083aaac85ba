// A set of seconds as its list of spans.

ghost use Rattle.std.specs.Prelude.{◌≡◌, ◌↔◌, List, [], length, IfOk, OnOk, MatchOption, IsTrue};
ghost use Rattle.interval_set.specs.Spans.{has, IsSortedApart, IsSetOf, IsUnion, IsMeet, IsDifference, HasAll, HasNone, IsFirstIn};
ghost use Rattle.interval_set.specs.Steps.{IsBegunBy, IsEndedBy, BeginBy, CanAdd, Rise, Adds};

use crate::span::{common, gap_before};
use plan_base::{ListOf, Sec, Span};
use std::alloc::{AllocError, Global};
use std::marker::Model;

/// A set of seconds. Contracts see its list of spans, sorted with gaps between them, of which each set has one.
pub struct Spans {
    items: Vec<Span>,
}

impl Drop for Spans {
    fn drop(self) {
        let Self { items: _ } = self;
    }
}

impl Model for Spans {
    ghost use Rattle.std.specs.Prelude.{List};
    ghost use Rattle.plan_base.specs.declared.span.Span.{Span};
    ghost use Rattle.interval_set.specs.Spans.{IsSortedApart};

    ghost Value = { List Span };

    ghost view = { λ a. a.items.items };

    ghost invariant = { λ a. IsSortedApart a.items.items };
}

impl Clone for Spans {
    ghost is_clone = { λ x y. y ≡ x };

    fn clone(&self) -> Result<Spans, AllocError> {
        Ok(Spans {
            items: self.items.clone()?,
        })
    }
}

impl Spans {
    /// No seconds. It takes no memory.
    pub fn empty(alloc: Global) -> Self
        ensures { result ≡ [] }
    {
        Spans {
            items: Vec::new(alloc),
        }
    }

    /// The seconds of the spans, which may be in any order, overlap, touch or be empty. Fails only for want of memory.
    pub fn from_list(alloc: Global, list: &[Span]) -> Result<Self, AllocError>
        ensures { IfOk result (IsSetOf (has list.now)) }
    {
        let mut sorted = Vec::from_slice(alloc, list)?;
        sorted.sort_unstable_by_key(|span| span.from.0);
        Spans::empty(alloc).with_later(sorted.as_slice())
    }

    /// The list of the spans, sorted with gaps between them.
    pub fn list(&self) -> &[Span]
        ensures all { result.now ≡ self.now }
        ensures sorted { IsSortedApart result.now }
    {
        self.items.as_slice()
    }

    /// The list of the spans, sorted with gaps between them, as a list of its own.
    pub fn into_list(self) -> ListOf<Span>
        ensures { result ≡ self }
    {
        let Spans { items } = self;
        ListOf::from_vec(items)
    }

    /// How many spans the list has.
    pub fn len(&self) -> usize
        ensures { result ≡ length self.now }
    {
        self.items.len()
    }

    /// Whether there is no second.
    pub fn is_empty(&self) -> bool
        ensures { IsTrue result ↔ (self.now ≡ []) }
    {
        self.items.is_empty()
    }

    /// The seconds of either set. Fails only for want of memory.
    pub fn union(&self, alloc: Global, other: &Spans) -> Result<Self, AllocError>
        ensures { IfOk result (IsUnion self.now other.now) }
    {
        let (mine, theirs) = (self.list(), other.list());
        let (mut i, mut j) = (0, 0);
        let mut union = Spans::empty(alloc);
        while i < mine.len() && j < theirs.len() {
            if mine[i].from <= theirs[j].from {
                union.add(mine[i])?;
                i += 1;
            } else {
                union.add(theirs[j])?;
                j += 1;
            }
        }
        if i < mine.len() {
            union.with_later(&mine[i..])
        } else {
            union.with_later(&theirs[j..])
        }
    }

    /// The seconds that both sets have. Fails only for want of memory.
    pub fn meet(&self, alloc: Global, other: &Spans) -> Result<Self, AllocError>
        ensures { IfOk result (IsMeet self.now other.now) }
    {
        let (mine, theirs) = (self.list(), other.list());
        let (mut i, mut j) = (0, 0);
        let mut meet = Spans::empty(alloc);
        while i < mine.len() && j < theirs.len() {
            meet.add(common(mine[i], theirs[j]))?;
            // The span that ends first has nothing in common with later ones.
            if mine[i].to <= theirs[j].to {
                i += 1;
            } else {
                j += 1;
            }
        }
        Ok(meet)
    }

    /// The seconds of this set that the other doesn't have. Fails only for want of memory.
    pub fn minus(&self, alloc: Global, other: &Spans) -> Result<Self, AllocError>
        ensures { IfOk result (IsDifference self.now other.now) }
    {
        let (mine, theirs) = (self.list(), other.list());
        let (mut i, mut j) = (0, 0);
        // What stays are the seconds that a span has in common with a gap of the other set.
        let mut gap_from = Sec(0);
        let mut difference = Spans::empty(alloc);
        while i < mine.len() {
            let gap = gap_before(gap_from, theirs, j, mine[i].to);
            difference.add(common(mine[i], gap))?;
            if mine[i].to <= gap.to {
                i += 1;
            } else {
                gap_from = theirs[j].to;
                j += 1;
            }
        }
        Ok(difference)
    }

    /// Whether every second of the span is in the set; true of a span that has none.
    pub fn covers(&self, span: Span) -> bool
        ensures { IsTrue result ↔ HasAll self.now span }
    {
        if span.to <= span.from {
            return true;
        }
        let begun = self.count_begun(span.from);
        begun > 0 && span.to <= self.items[begun - 1].to
    }

    /// The least second of the span that is in the set; none where none is.
    pub fn first_in(&self, span: Span) -> Option<Sec>
        ensures { MatchOption result (HasNone self.now span) (λ x. IsFirstIn self.now span x.0) }
    {
        let ended = self.count_ended(span.from);
        if ended >= self.items.len() {
            return None;
        }
        let first = self.items[ended].from.max(span.from);
        if first < span.to { Some(first) } else { None }
    }

    // How many spans begin at a second or before it.
    fn count_begun(&self, by: Sec) -> usize
        ensures { IsBegunBy self.now by.0 result }
    {
        self.items.partition_point(|span| span.from <= by)
    }

    // How many spans have no second from this one on.
    fn count_ended(&self, by: Sec) -> usize
        ensures { IsEndedBy self.now by.0 result }
    {
        self.items.partition_point(|span| span.to <= by)
    }

    // Adds the seconds of a span that begins no earlier than the others: it is joined to the last where they touch.
    fn add(&mut self, span: Span) -> Result<(), AllocError>
        requires { BeginBy self.old span.from.0 }
        ensures { OnOk result (Adds self.old span self.new) }
    {
        let count = self.items.len();
        if count > 0 && span.from <= self.items[count - 1].to {
            let last = &mut self.items[count - 1];
            last.to = last.to.max(span.to);
            return Ok(());
        }
        if span.from >= span.to {
            return Ok(());
        }
        self.items.push(span)?;
        Ok(())
    }

    // Adds the seconds of spans that begin in order, each no earlier than those that are here.
    fn with_later(mut self, spans: &[Span]) -> Result<Self, AllocError>
        requires later { CanAdd self spans.now }
        requires order { Rise spans.now }
        ensures { IfOk result (IsUnion self spans.now) }
    {
        self.items.reserve(spans.len())?;
        for span in spans {
            self.add(*span)?;
        }
        Ok(self)
    }
}
