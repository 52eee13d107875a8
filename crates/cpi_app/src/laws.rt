//! Theorems about connections that were served.
ghost use Rattle.cpi_app.specs.ServedRuns.{LastIsAnswered, ServingsAreAlike, VisitsAreARun};

use crate::listener::Listener;
use cpi_http::{messages_are_a_run, one_message, responses_are_alike};
use cpi_store::Book;

/// Whatever was served over a book, by any listener, is a run of the requests in the messages that peers sent, each at
/// its connection's moment, in the order of the connections. So what holds of a run holds of it: a sound office stays
/// sound, and its tables are the index.
///
/// The last connection, if it was answered without a 90, was written the answer to its message after these. That is so
/// of each connection, since those before it are a run, too.
pub fn served_is_a_run<L: Listener, B: Book>()
    ensures run { VisitsAreARun L.meets B.state }
    ensures last { LastIsAnswered L.meets B.state }
{
    messages_are_a_run::<B>();
}

/// The response to a connection of a collector, or of the public, is the same, byte for byte, in two servings with one
/// desk, over books of any two kinds, if both show that caller the same, as `responses_are_alike` of `cpi_http` says.
pub fn servings_are_alike<B: Book, C: Book>()
    ensures { ServingsAreAlike B.state C.state }
{
    one_message();
    responses_are_alike::<B, C>();
}
