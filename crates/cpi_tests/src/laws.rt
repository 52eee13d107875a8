//! Generic laws, at the types that the office has.
use cpi_app::{Backlog, served_is_a_run, servings_are_alike};
use cpi_codes::CollectorId;
use cpi_http::{
    messages_are_a_run, one_message, responses_are_alike, responses_are_printed, tables_are_sent,
};
use cpi_index::CarriedPrice;
use cpi_office::{
    changes_are_enough, empty_is_sound, main_theorem, replies_are_alike, runs_tell_alike,
    tables_are_computed,
};
use cpi_plan::{CalendarRow, Item};
use cpi_release::Release;
use cpi_rows::{gathered_put, gathered_rows, put_same, puts_other, puts_own};
use cpi_sql::SqlBook;
use cpi_store::{Book, FailBook, VecBook};
use cpi_wire::{
    lines_are_alike, lines_are_printed, records_are_a_run, replays_answer_alike,
    tables_are_reported,
};
use sqlite::{FileFrom, FileStore, Unknown};

// The laws over bytes: the lines that a replay prints, and the responses that are sent.
fn the_laws_over_bytes<B: Book, C: Book>() {
    lines_are_printed::<B>();
    lines_are_alike::<B, C>();
    replays_answer_alike::<B, C>();
    tables_are_reported::<B>();
    responses_are_printed::<B>();
    responses_are_alike::<B, C>();
    tables_are_sent::<B>();
}

#[test]
fn the_laws_over_bytes_hold_of_books_in_files_and_in_memory() {
    the_laws_over_bytes::<SqlBook<FileStore<FileFrom<Unknown>>>, VecBook>();
    the_laws_over_bytes::<FailBook<VecBook>, VecBook>();
}

#[test]
fn the_laws_hold_of_books_and_rows() {
    runs_tell_alike::<VecBook, FailBook<VecBook>>();
    replies_are_alike::<VecBook, FailBook<VecBook>>();
    records_are_a_run::<FailBook<VecBook>>();
    puts_own::<Item>();
    puts_other::<CalendarRow>();
    put_same::<Release>();
    gathered_rows::<CarriedPrice, CollectorId>();
    gathered_put::<CarriedPrice, CollectorId>();
}

#[test]
fn the_laws_hold_of_tables_and_messages() {
    tables_are_computed();
    one_message();
    messages_are_a_run::<FailBook<VecBook>>();
    served_is_a_run::<Backlog, FailBook<VecBook>>();
    servings_are_alike::<FailBook<VecBook>, VecBook>();
}

#[test]
fn the_laws_hold_of_offices() {
    empty_is_sound();
    changes_are_enough();
    main_theorem::<FailBook<VecBook>>();
}
