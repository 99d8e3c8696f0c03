//! `aide`: compares two databases of files, or checks a configuration.
#![tactic(auto)]

use aide_report_session::start;
use std::process::ExitCode;

fn main(rt: HostRuntime) -> ExitCode {
    ExitCode::from(start(&rt))
}
