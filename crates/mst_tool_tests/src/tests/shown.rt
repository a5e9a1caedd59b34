//! How errors are displayed.

use mst_ids::BadText;
use mst_io::RunFault;
use mst_lang::Fault;
use mst_tables::Refusal;
use std::alloc::Global;
use std::fmt::Display;

fn is_shown<T: Display>(alloc: Global, error: &T, text: &str) -> bool {
    match format!(in alloc; "{error}") {
        Ok(shown) => shown.as_str() == text,
        Err(_) => false,
    }
}

#[test]
fn errors_are_displayed(rt: HostRuntime) {
    let alloc = rt.alloc();
    assert!(rt;
        is_shown(alloc, &BadText, "the text stands for no value")
            && is_shown(alloc, &Fault::E03, "bad VID or tree")
            && is_shown(alloc, &Refusal::E13, "LAN has plugs")
            && is_shown(alloc, &RunFault::Read, "read fault")
            && is_shown(alloc, &RunFault::Write, "write fault")
            && is_shown(alloc, &RunFault::Memory, "out of memory")
    );
}
