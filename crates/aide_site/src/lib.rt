//! What the sessions of both programs share: sites, the lines on standard error, the settings of a job.
#![tactic(auto)]

mod config_check;
mod config_file;
mod devices;
mod file_reel;
mod file_site;
mod job_config;
mod limits;
mod lines;
mod machine;
mod memory_site;
mod paged_sink;
mod pointed;
mod pointing;
mod put;
mod run_fault;
mod site;
mod status;
mod telling;
mod whose;

pub use config_check::check_job;
pub use devices::Devices;
pub use file_reel::FileReel;
pub use file_site::FileSite;
pub use job_config::{JobConfig, NoSettings, job_settings, put_no_settings};
pub use limits::LIMITS;
pub use lines::{
    put_lines_usage_line, put_memory_line, put_outcome_lines, put_usage_line, put_write_line,
};
pub use machine::{Ended, take_words};
pub use memory_site::MemorySite;
pub use paged_sink::PagedSink;
pub use pointing::prepare;
pub use put::pass_on;
pub use run_fault::put_run_fault;
pub use site::{Site, SiteWithDesk};
pub use status::Status;
pub use telling::{Telling, Unwritten};
pub use whose::Whose;
