//! The laws of the office: the main theorem, what follows from it for runs of the program, and the tables of the index.
//!
//! Each law is a function without a body, and its clauses are the theorems. Non-interference is [`main_theorem`] under
//! any rules, [`runs_tell_alike`] over the program, and [`replies_are_alike`] between two offices.
ghost use Rattle.cpi_store.specs.Office.{empty_office};
ghost use Rattle.cpi_store.specs.Sound.{IsSound};
ghost use Rattle.cpi_store.specs.Theorem.{TablesAreTheBox};
ghost use Rattle.cpi_release.specs.Theorem.{BasesAreTheBox};
ghost use Rattle.cpi_office.specs.Laws.{StaysSound, ChangesAreEnough};
ghost use Rattle.cpi_office.specs.Causes.{CausesAreAll};
ghost use Rattle.cpi_office.specs.Isolation as isolation;
ghost use Rattle.cpi_office.specs.IsolationOfMessages.{ResponsesAreAlike};
ghost use Rattle.cpi_office.specs.IsolationOfRequests.{OthersDoNotMatter};
ghost use Rattle.cpi_office.specs.OneChange.{OfficesChangeOneRow};
ghost use Rattle.cpi_office.specs.Theorem.{TheProgramIsTheOffice, ACrashLeavesIt, OwnRulesAreFit};
ghost use Rattle.cpi_office.specs.Releases.{ReleasesStay};
ghost use Rattle.cpi_office.specs.ComputedTables.{TablesAreTold};
ghost use Rattle.cpi_office.specs.FreezePreconditions.{JudgedMeetsPreconditions};
ghost use Rattle.cpi_store.specs.Stored.{FrozenAreStored};
ghost use Rattle.cpi_store.specs.History.{ReleasesAreComputed, ReleasesAreSound, SourcesAreFit};
ghost use Rattle.cpi_office.specs.NonInterferenceOfRuns.{RunsTellAlike};
ghost use Rattle.cpi_office.specs.NonInterferenceBetweenOffices.{RepliesAreAlike};

use cpi_store::Book;

/// An empty office is sound.
pub fn empty_is_sound()
    ensures { IsSound empty_office }
{}

/// The main theorem, in the order of docs/develop/THEOREM.md. Statements 1 and 6 are of runs over a book. Statement 2
/// holds under any fit rules, whatever the desk decides and whatever an answer makes of a view. Statement 3 does so of
/// answers, and of messages if collectors are judged by their views (`JudgesByView`), whatever their parser and printer
/// do; what it says of 90 is of the office's own replies. Statement 4 holds under fit rules that keep collectors apart
/// (`KeepsApart`). The rules of the office are all of these.
///
/// It doesn't say that a collector can't notice another: an answer may take longer, a request may be answered
/// [`crate::Refusal::Unavailable`] because another took the memory, and freezes and hand-overs pass prices on.
pub fn main_theorem<B: Book>()
    ensures program_is_office { TheProgramIsTheOffice B.state }
    ensures isolation { isolation.ViewsAreRebuilt }
    ensures replies_are_from_views { isolation.RepliesAreFromViews }
    ensures offices_answer_alike { isolation.AnswersAreAlike }
    ensures responses_are_alike { ResponsesAreAlike }
    ensures causes_are_all { CausesAreAll }
    ensures others_do_not_matter { OthersDoNotMatter }
    ensures own_rules_are_fit { OwnRulesAreFit }
    ensures tables_are_the_index { TablesAreTheBox }
    ensures bases_are_the_index { BasesAreTheBox }
    ensures releases_are_computed { ReleasesAreComputed }
    ensures frozen_are_stored { FrozenAreStored }
    ensures releases_stay { ReleasesStay }
    ensures tables_are_told { TablesAreTold }
    ensures one_change { OfficesChangeOneRow }
    ensures crash { ACrashLeavesIt B.state }
{}

/// Of the office under its own rules: it stays sound, and a caller's view is the view before, with the rows that changed
/// something and that the caller sees.
pub fn changes_are_enough()
    ensures sound { StaysSound }
    ensures changes { ChangesAreEnough }
{}

/// Each table of a sound office is the index of the quotes and weights that were frozen with it and before it. The
/// answer to a request for a table is the printed form of the one that the definitions of the index give.
///
/// A freeze takes the stored quotes of its month, each with its mark, and no others. If all frozen quotes are released
/// anew, month by month, the releases are those of the office. No request changes a release.
pub fn tables_are_computed()
    ensures computed { ReleasesAreComputed }
    ensures answers { TablesAreTold }
    ensures history { ReleasesAreSound }
    ensures stored { FrozenAreStored }
    ensures releases { ReleasesStay }
    ensures fit { SourcesAreFit }
    ensures preconditions { JudgedMeetsPreconditions }
{}

/// Non-interference of the program: the replies of `Office::run` to a collector don't depend on the requests of other
/// collectors, if neither a freeze nor a hand-over is among the requests.
///
/// Take two runs, over books of any two kinds that hold the same sound lists, with two lists of requests without a
/// freeze and without a hand-over that differ only in other collectors' requests. If neither run answers a request by
/// [`Refusal::Unavailable`], and both stores are clean at the end, the replies to the collector are the same in both,
/// one by one.
///
/// The law says nothing of time, nor of runs in which memory or a store fails a request.
pub fn runs_tell_alike<B: Book, C: Book>()
    ensures { RunsTellAlike B.state C.state }
{}

/// Non-interference between two offices: if both have the same projection to a caller, both answer that caller alike.
///
/// Take two runs, over books of any two kinds, from sound offices. Freezes, hand-overs and embargoed tables are
/// included. If a caller's view at a moment was the same at the start of both, and the caller has seen the same
/// accepted rows since, then a request of that caller at that moment gets the same reply from both, unless one of the
/// replies is [`Refusal::Unavailable`]. The caller isn't the desk, which sees all.
pub fn replies_are_alike<B: Book, C: Book>()
    ensures { RepliesAreAlike B.state C.state }
{}

/// Over two offices of which a caller, but not the desk, sees the same, a request is told the same,
/// [`crate::Refusal::Unavailable`] included, if both calls gave an answer or neither did. The premises are what
/// `answered` says of `Office::answer`.
pub fn causes_are_all()
    ensures { CausesAreAll }
{}
