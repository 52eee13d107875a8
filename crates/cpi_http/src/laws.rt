//! Theorems about the definitions.
ghost use Rattle.cpi_http.specs.Laws.{AreMessagesOfARun, OneMessage, ResponsesAreAlike, TableResponsesAreComputed};
ghost use Rattle.cpi_http.specs.Laws.{MessagesChangeRows, MessagesReportTables, ResponsesArePrinted};

use cpi_store::Book;

/// A stream begins with at most one message: the bytes that a call takes, and what they ask, depend only on the stream.
pub fn one_message()
    ensures { OneMessage }
{}

/// Messages that were carried out in turn are a run of the requests in them. The run leaves out the messages that were
/// refused before a request was made, and the answers to these.
pub fn messages_are_a_run<B: Book>()
    ensures { AreMessagesOfARun B.state }
{}

/// Messages that were carried out in turn changed only rows that their requests asked for, at most one each, of a
/// hand-over two. Each caller's view at each moment is the view before, with what the caller sees of those rows.
///
/// The office is sound, and the store is clean once the messages are carried out. A request that is answered
/// [`cpi_office::Refusal::Unavailable`] changes nothing.
pub fn messages_change_rows<B: Book>()
    ensures { MessagesChangeRows B.state }
{}

/// The response to a message, whoever sends it, is what the replies of the office to its requests print: those of
/// [`cpi_office::main_theorem`].
///
/// The office is sound, the store is clean once the message is answered, and no reply says that the office is
/// unavailable.
pub fn responses_are_printed<B: Book>()
    ensures { ResponsesArePrinted B.state }
{}

/// The response to a message of a collector, or of the public, is the same, byte for byte, in two runs under one zone
/// and one desk key, over books of any two kinds, if both show that caller the same at the message's moment: at the
/// start, including the tables published by then, and of all changes accepted since, including freezes. Nothing else
/// that others send matters: a table that isn't published yet shows nothing.
///
/// Both offices are sound at the start, both stores are clean once the message is answered, and none of its replies
/// says that the office is unavailable. The theorem says nothing about time.
pub fn responses_are_alike<B: Book, C: Book>()
    ensures { ResponsesAreAlike B.state C.state }
{}

/// A table that is sent is the one that the definitions of the index give over the quotes and weights that were frozen,
/// printed in the form and the revision that are asked for, or in the latest revision that is published.
///
/// This holds for each message that asks a sound office for a table and doesn't come with an unknown key. If the store
/// is clean once the message is answered, and the reply doesn't say that the office is unavailable, then its response
/// is 200 with the printed table as its body, or that of the refusal if there is no such table. The same holds for each
/// reply to such a row of an import.
pub fn tables_are_sent<B: Book>()
    ensures responses { TableResponsesAreComputed B.state }
    ensures replies { MessagesReportTables B.state }
{}
