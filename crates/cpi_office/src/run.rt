//! A list of requests, answered in order.
ghost use Rattle.std.specs.Prelude.{◌≡◌, ◌++◌, List, IfOk, OnErr, length};
ghost use Rattle.cpi_office.specs.OneChange.{ChangesRows};
ghost use Rattle.cpi_office.specs.Served.{RunOverBook, all_served};
ghost use Rattle.cpi_store.specs.Sound.{IsSound};
ghost use Rattle.cpi_store.specs.History.{HasComputedTables};
ghost use Rattle.cpi_office.specs.NonInterferenceOfRuns.{IsNonInterfering};
ghost use Rattle.cpi_office.specs.Releases.{KeepsReleases};
ghost use Rattle.cpi_office.specs.RebuiltProjections.{AreFromViews};
ghost use Rattle.cpi_office.specs.ComputedTables.{TellTables};
ghost use Rattle.cpi_office.specs.declared.request.Ask.{Ask as TheAsk};
ghost use Rattle.cpi_office.specs.declared.reply.Reply.{Reply as TheReply};

use crate::office::Office;
use crate::reply::Reply;
use crate::request::Ask;
use cpi_store::Book;
use std::alloc::AllocError;

impl<B: Book> Office<B> {
    /// Answers requests in order, each reply in the place of its request. Requests that are answered
    /// [`Refusal::Unavailable`] change nothing, and the others are answered as if these had not been sent.
    ///
    /// From a sound office, for any requests of any callers: each request changes at most one row, of a hand-over two,
    /// which it asked for; each caller's view at each moment is the view before, with what the caller sees of those
    /// rows; and each reply to a collector or to the public is the answer from that view as it was then. Each release
    /// of the office afterwards has the table that the definitions of the index give over the quotes and weights frozen
    /// with it and before it, and no earlier release has changed. Each reply to a request for a table is the printed
    /// form of the one that these definitions give over the quotes frozen by then.
    ///
    /// Non-interference: if neither a freeze nor a hand-over is among the requests, each collector gets the replies
    /// that a run without the requests of all other collectors would give. A freeze publishes a table that is computed
    /// from the quotes of all collectors; a hand-over gives the last price of the series to the collector who takes it
    /// over.
    ///
    /// # Errors
    ///
    /// If there is no memory for the list of replies, the requests up to some place of the list have been carried out
    /// and stay so.
    pub fn run(&mut self, asks: Vec<Ask>) -> Result<Vec<Reply>, AllocError>
        ensures each { IfOk result (λ rs. length rs.items ≡ length asks.items) }
        ensures ok { IfOk result (λ rs.
            RunOverBook (B.state self.old.book) (B.state self.new.book) asks.items rs.items) }
        ensures non_interference { let before = (B.state self.old.book).held in
            IfOk result (λ rs. (B.state self.new.book).is_clean →
            IsSound before → IsNonInterfering before asks.items rs.items) }
        ensures rows { let before = (B.state self.old.book).held in
            IfOk result (λ rs. (B.state self.new.book).is_clean → IsSound before →
            ChangesRows (all_served asks.items rs.items) before (B.state self.new.book).held) }
        ensures answers { let before = (B.state self.old.book).held in
            IfOk result (λ rs. (B.state self.new.book).is_clean →
            IsSound before → AreFromViews before asks.items rs.items) }
        ensures tables { let before = (B.state self.old.book).held in
            IfOk result (λ rs. (B.state self.new.book).is_clean →
            IsSound before → TellTables before asks.items rs.items) }
        ensures sound { (B.state self.new.book).is_clean →
            IsSound (B.state self.old.book).held → IsSound (B.state self.new.book).held }
        ensures computed { (B.state self.new.book).is_clean → IsSound (B.state self.old.book).held →
            HasComputedTables (B.state self.new.book).held }
        ensures stay { (B.state self.new.book).is_clean → IsSound (B.state self.old.book).held →
            KeepsReleases (B.state self.old.book).held (B.state self.new.book).held }
        ensures err { OnErr result ((front : List TheAsk) × (rest : List TheAsk) × (rs : List TheReply)
            × (asks.items ≡ front ++ rest) × RunOverBook (B.state self.old.book) (B.state self.new.book) front rs) }
    {
        let mut told = Vec::new(self.allocator());
        let mut rest = asks.into_iter();
        while let Some(ask) = rest.next() {
            let reply = self.handle(ask.now, ask.caller, ask.request);
            told.push(reply)?;
        }
        Ok(told)
    }
}
