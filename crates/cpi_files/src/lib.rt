//! The office of a database file, and the jobs of the program in it.
#![tactic(auto)]

mod cabinet;
mod file;
mod files;
mod folder;
mod host;
mod job;
mod laws;
mod over;
mod program;
mod replay;
mod serve;
mod table;
mod taken;
mod world;

pub use cabinet::Cabinet;
pub use file::{FileAt, is_missing};
pub use files::job_in_files;
pub use folder::{Folder, Found};
pub use job::BookJob;
pub use laws::{closed_is_opened, serving_is_one_run};
pub use over::job_over;
pub use program::run;
pub use replay::replay_in_cabinet;
pub use serve::run_serve;
pub use table::table_in_cabinet;
pub use taken::job_in_cabinet;
pub use world::{Ends, World};
