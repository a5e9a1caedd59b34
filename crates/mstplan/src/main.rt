//! Plans Ethernet networks with rapid and multiple spanning trees: runs a script from a file or from
//! standard input, compares captured messages with its plan, tells why a port has its role, how
//! the networks of two scripts differ, and what each single failure does, summarizes a network,
//! draws it, answers questions of it, tells whether it does what a policy promises, which edits make
//! the network of one script that of another, and what each step of a change does.
#![tactic(auto)]

mod closed;
mod endings;
mod invites;
mod piped;
mod program;
mod said;
mod serving;
mod words;

use closed::StandIns;
use mst_command::given_words;
use mst_io::ToWrite;
use program::run_program;
use std::io::{self, IsTerminal};
use std::process::ExitCode;

fn main(rt: HostRuntime) -> ExitCode {
    let _stand_ins = StandIns::new(&rt);
    let mut stderr = rt.stderr();
    let ended = run_program(
        &rt,
        &rt,
        given_words(&rt),
        rt.stdin().is_terminal(),
        io::writer(&rt),
        &mut ToWrite::new(&mut stderr),
    );
    ExitCode::from(ended.status)
}
