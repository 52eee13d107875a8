//! The program `cpi`: a run in the world of the machine.
#![tactic(auto)]

use cpi_app::OfferNote;
use cpi_files::run;
use std::process::ExitCode;

fn main(rt: HostRuntime) -> ExitCode {
    ExitCode::from(run(rt.alloc(), &rt, &mut OfferNote::new()))
}
