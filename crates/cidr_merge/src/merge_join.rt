//! The result of an operation on two sides, as one ascending list of parts.
ghost use Rattle.std.specs.Prelude.{◌≡◌, ◌∷◌, [], MatchOption};
ghost use Rattle.cidr_merge.specs.Answers.{merged_by};
ghost use Rattle.cidr_merge.specs.Private.Sweeps.{with_head, left_of_second};

use crate::command_line::Operation;
use crate::side_parts::Parts;

/// A side of an operation.
#[derive(Clone, Copy, Debug, PartialEq, Eq)]
pub(crate) enum Side {
    First,
    Second,
}

/// The parts of two sides that are still to come.
#[derive(Drop)]
pub(crate) struct MergeJoin<P: Parts> {
    first: Option<P::Part>,
    firsts: P,
    second: Option<P::Part>,
    seconds: P,
}

impl<P: Parts> MergeJoin<P> {
    /// Merges the parts of the first side and, only for `differ`, those of the second.
    pub(crate) fn of(operation: Operation, mut firsts: P, mut seconds: P) -> MergeJoin<P>
        ensures first { with_head P.seen result.first (P.left result.firsts) ≡ P.left firsts }
        ensures second { with_head P.seen result.second
            (P.left result.seconds) ≡ left_of_second operation (P.left seconds) }
    {
        let first = firsts.next_part();
        let second = first_of_second(operation, &mut seconds);
        MergeJoin {
            first,
            firsts,
            second,
            seconds,
        }
    }

    /// Removes and returns the part that begins first, with its side.
    pub(crate) fn next(&mut self) -> Option<(Side, P::Part)>
        ensures { let left = merged_by P.begin
            (with_head P.seen self.old.first (P.left self.old.firsts))
            (with_head P.seen self.old.second (P.left self.old.seconds)) in
            MatchOption result (left ≡ []) (λ r. left ≡ record { side = r.0; part = P.seen r.1 }
            ∷ merged_by P.begin (with_head P.seen self.new.first (P.left self.new.firsts))
            (with_head P.seen self.new.second (P.left self.new.seconds))) }
    {
        let Some(first) = self.first else {
            let second = self.second?;
            return Some(self.next_of_second(second));
        };
        let Some(second) = self.second else {
            return Some(self.next_of_first(first));
        };
        if P::begins_before(first, second) {
            Some(self.next_of_first(first))
        } else {
            Some(self.next_of_second(second))
        }
    }

    // Returns this part, the next one of the first side, and moves on to the one after it.
    fn next_of_first(&mut self, part: P::Part) -> (Side, P::Part)
        ensures side { result.0 ≡ Side.First }
        ensures part { result.1 ≡ part }
        ensures first { with_head P.seen self.new.first
            (P.left self.new.firsts) ≡ P.left self.old.firsts }
        ensures second { with_head P.seen self.new.second (P.left self.new.seconds)
            ≡ with_head P.seen self.old.second (P.left self.old.seconds) }
    {
        self.first = self.firsts.next_part();
        (Side::First, part)
    }

    // Returns this part, the next one of the second side, and moves on to the one after it.
    fn next_of_second(&mut self, part: P::Part) -> (Side, P::Part)
        ensures side { result.0 ≡ Side.Second }
        ensures part { result.1 ≡ part }
        ensures first { with_head P.seen self.new.first (P.left self.new.firsts)
            ≡ with_head P.seen self.old.first (P.left self.old.firsts) }
        ensures second { with_head P.seen self.new.second
            (P.left self.new.seconds) ≡ P.left self.old.seconds }
    {
        self.second = self.seconds.next_part();
        (Side::Second, part)
    }
}

// Returns the first part of the second side that the operation prints.
fn first_of_second<P: Parts>(operation: Operation, seconds: &mut P) -> Option<P::Part>
    ensures { with_head P.seen result (P.left seconds.new) ≡ left_of_second operation
        (P.left seconds.old) }
{
    match operation {
        Operation::Union => None,
        Operation::Common => None,
        Operation::Minus => None,
        Operation::Differ => seconds.next_part(),
    }
}
