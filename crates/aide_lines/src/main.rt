//! `aide_lines`: compares two databases of files as `aide` does, and writes the changes as lines of JSON.
#![tactic(auto)]

use aide_line_session::start_lines;
use std::process::ExitCode;

fn main(rt: HostRuntime) -> ExitCode {
    ExitCode::from(start_lines(&rt))
}
