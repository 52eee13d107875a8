//! The program's jobs: the arguments of the command line that ask for them, the run of each, and the line that the
//! program prints if it can't finish one.
#![tactic(auto)]

mod backlog;
mod buffer_note;
mod command;
mod connection;
mod desk;
mod examples;
mod fault;
mod help;
mod job;
mod laws;
mod limits;
mod listener;
mod machine;
mod network;
mod offer_note;
mod offered;
mod options;
mod peer;
mod port;
mod replay;
mod serve;
mod service;
mod shake;
mod table;
mod timed;
mod version;

pub use backlog::{Backlog, Queued};
pub use buffer_note::BufferNote;
pub use command::job_of_words;
pub use connection::{OfficeAtDesk, serve_front};
pub use desk::{Desk, desk_of, read_key};
pub use examples::worked_commands;
pub use fault::{RunFault, fault_line};
pub use job::{DeskKey, Job};
pub use laws::{served_is_a_run, servings_are_alike};
pub use limits::MOST_CONNECTIONS;
pub use listener::{Address, Listener, NoClock};
pub use network::{Network, Peer};
pub use offer_note::OfferNote;
pub use offered::Offered;
pub use port::{LocalPort, OpenPort};
pub use replay::{replay_in_memory, replay_over_book};
pub use serve::{serve_book, serve_each};
pub use service::Service;
pub use shake::{Shake, shake_of};
pub use table::{AskedTable, asked_table, print_table, write_table};
pub use timed::Timed;
pub use version::VERSION;
