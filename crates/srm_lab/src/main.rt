//! Runs a scenario of SRM loss recovery and writes its report.
#![tactic(auto)]

use srm_program::program::program;
use srm_program::request::request_of;
use srm_report::outlet::WriteOutlet;
use srm_scenario::feed::ReadFeed;
use std::io::IsTerminal;
use std::process::ExitCode;

fn main(rt: HostRuntime) -> ExitCode {
    let at_terminal = rt.stderr().is_terminal();
    let request = request_of(&rt, rt.alloc(), std::env::args(&rt), at_terminal);
    let mut feed = ReadFeed::new(rt.stdin());
    let mut outlet = WriteOutlet::new(rt.stdout());
    let mut errors = WriteOutlet::new(rt.stderr());
    ExitCode::from(program(
        &rt,
        rt.alloc(),
        request,
        &mut feed,
        &mut outlet,
        &mut errors,
    ))
}
