//! The samples of a month, read one elementary aggregate at a time.
ghost use Rattle.std.specs.Prelude.{◌≡◌};

use crate::group_fault::GroupFault;
use cpi_codes::{Code, Month};
use cpi_index::{ChainedLevel, GroupRow};

/// A source of a month's samples and of the levels of earlier tables. Both reads change nothing; each answers a
/// `GroupFault` only if the count of failures rose during the call. Their answers are exact if the source is clean as
/// the call ends, and sound.
pub trait Groups {
    ghost use Rattle.cpi_codes.specs.Month.{year_of};
    ghost use Rattle.cpi_release.specs.Releases.{level_at_month};
    ghost use Rattle.cpi_release.specs.Releasing.{AreInOrder};
    ghost use Rattle.cpi_release.specs.State.{State, Reads};
    ghost use Rattle.cpi_release.specs.GroupCalls.{Sources, group_of, IsAfterFrozen};

    /// What is held: what a read leaves as it was.
    ghost Held: { Type 0 };

    /// What this holder holds, how often a call has failed, whether what is said of it holds, and what a crash leaves.
    ghost holds: { Self → State Held };

    /// What is read of it: plans, releases and quotes.
    ghost sources: { Held → Sources };

    /// Whether it is sound: releases in their order, and quotes that fit them.
    ghost is_sound: { Held → Type 0 };

    /// The rows of an aggregate's sample in a month whose month before was frozen, by series: each with its quote's
    /// mark, its base, and its carried price of the month before. So the month follows the last frozen one, or is that
    /// one again. `year` is the month's.
    fn rows(&mut self, year: u16, month: Month, code: Code) -> Result<Vec<GroupRow>, GroupFault>
        ensures { let h = (holds self.old).held in Reads (holds self.old) (holds self.new) result (λ rows.
            is_sound h → year ≡ year_of month → IsAfterFrozen (sources h) month →
            rows.items ≡ group_of (sources h) month code) };

    /// The chained level of a code in the table of a month, if it has a row there.
    fn chained(&mut self, month: Month, code: Code) -> Result<Option<ChainedLevel>, GroupFault>
        ensures { let h = (holds self.old).held in Reads (holds self.old) (holds self.new) result (λ level.
            is_sound h → level ≡ level_at_month (sources h).releases month code) };

    // what is sound has releases in their order
    ghost has_sound: { (h : Held) → is_sound h → AreInOrder (sources h).releases };
}
