//! The office over a book.
ghost use Rattle.std.specs.Prelude.{◌≡◌, ◌<◌, IsFalse, IfOk, IfErr, true};
ghost use Rattle.cpi_office.specs.Runs.{reply_to, after_one};
ghost use Rattle.cpi_office.specs.Calls.{ServesWhere, is_failure_of, reply_of};
ghost use Rattle.cpi_office.specs.OneChange.{ChangesOneRow};
ghost use Rattle.cpi_office.specs.ComputedTables.{TellsTable};
ghost use Rattle.cpi_store.specs.Sound.{IsSound};
ghost use Rattle.cpi_office.specs.Authorization.{TurnsAway};

use crate::caller::Caller;
use crate::callers::{serve_collector, serve_desk, serve_public};
use crate::cause::{Cause, reply_of};
use crate::reply::Reply;
use crate::request::Request;
use cpi_codes::Moment;
use cpi_store::Book;
use std::alloc::Global;

/// An office over a book: it answers requests, and keeps nothing itself.
#[derive(Drop)]
pub struct Office<B: Book> {
    book: B,
    alloc: Global,
}

impl<B: Book> Office<B> {
    /// The office whose lists are those of the book. `alloc` gives the memory that answers take.
    pub fn new(alloc: Global, book: B) -> Office<B>
        ensures { result.book ≡ book }
    {
        Office { book, alloc }
    }

    /// Gives the book back, with all that it holds.
    pub fn into_book(self) -> B
        ensures { result ≡ self.book }
    {
        let Office { book, .. } = self;
        book
    }

    // The allocator that answers take memory from.
    pub(crate) fn allocator(&self) -> Global {
        self.alloc
    }

    /// Answers a request at a moment, in seconds since 1970 UTC.
    ///
    /// From a sound office the reply and the change are those of the definitions, or the reply is
    /// [`Refusal::Unavailable`] and nothing is changed. The public and the desk never get that reply in place of
    /// [`Refusal::NotForCaller`], and a collector gets it in place of that one or of [`Refusal::UnknownKey`] only if a
    /// look-up of the book failed during the call.
    ///
    /// A request changes at most one row, of a hand-over two, which it asked for, and each caller's view at each moment
    /// is then the view before, with what the caller sees of that. If a caller who isn't turned away asks for a table,
    /// the reply, unless it is [`Refusal::Unavailable`], is the printed form of the one that the definitions of the
    /// index give over the frozen quotes and weights, in the revision that is named or the latest that is published, or
    /// [`Refusal::NoTable`] if they give none.
    ///
    /// Over a book that keeps its rows, a crash at the end of the call leaves the office as it could be left before, or
    /// the office after the request; once the reply isn't [`Refusal::Unavailable`], the office after it.
    pub fn handle(&mut self, now: Moment, caller: Caller, request: Request) -> Reply
        ensures serves { let o = (B.state self.old.book).held in
            ServesWhere (B.state self.old.book) (B.state self.new.book) (IsSound o) result
            (reply_to now caller request o) (after_one now caller request o) }
        ensures turns { TurnsAway B.state B.finds_always self.old.book self.new.book caller result
            (reply_to now caller request (B.state self.old.book).held) }
        ensures sound { (B.state self.new.book).is_clean →
            IsSound (B.state self.old.book).held → IsSound (B.state self.new.book).held }
        ensures one_row { let before = (B.state self.old.book).held in
            (B.state self.new.book).is_clean → IsSound before →
            ChangesOneRow caller request before (B.state self.new.book).held }
        ensures tables { let before = (B.state self.old.book).held in
            (B.state self.new.book).is_clean → IsSound before → IsFalse (is_failure_of result) →
            TellsTable (record { now = now; caller = caller; request = request }) before result }
    {
        reply_of(self.answer(now, caller, request))
    }

    /// Answers a request as [`Office::handle`] does, but gives the cause in place of [`Refusal::Unavailable`]: a call
    /// of the book failed, or memory was refused. From a sound office an answer is the reply of the definitions, and
    /// so never that refusal.
    ///
    /// # Errors
    ///
    /// The cause. If it is the book, the count of its failures rose.
    pub fn answer(&mut self, now: Moment, caller: Caller, request: Request) -> Result<Reply, Cause>
        ensures serves { let o = (B.state self.old.book).held in
            ServesWhere (B.state self.old.book) (B.state self.new.book) (IsSound o) (reply_of result)
            (reply_to now caller request o) (after_one now caller request o) }
        ensures turns { TurnsAway B.state B.finds_always self.old.book self.new.book caller (reply_of result)
            (reply_to now caller request (B.state self.old.book).held) }
        ensures answered { let o = (B.state self.old.book).held in (B.state self.new.book).is_clean → IsSound o →
            IfOk result (λ reply. reply ≡ reply_to now caller request o) }
        ensures cause { IfErr result (λ c. c.is_store ≡ true →
            (B.state self.old.book).failures < (B.state self.new.book).failures) }
    {
        match caller {
            Caller::Public => serve_public(self.alloc, &mut self.book, now, request),
            Caller::Collector(key) => serve_collector(
                self.alloc,
                &mut self.book,
                now,
                key,
                request,
            ),
            Caller::Desk => serve_desk(self.alloc, &mut self.book, now, request),
        }
    }
}
