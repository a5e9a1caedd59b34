//! Each call that takes readers and a writer of any kind, once.

use super::counts;
use mst_altering::steps;
use mst_ask::{Form, Question, ask, check, run, verify};
use mst_between::{diff, edits};

/// Two bridges on a LAN. Its query is answered by a run alone, and its last line is refused.
const SCRIPT: &[u8] = b"\
    addbridge A 02:00:00:00:00:01\n\
    addbridge B 02:00:00:00:00:02\n\
    addlan X\n\
    addport A 1\n\
    addport B 1\n\
    plug A 1 X\n\
    plug B 1 X\n\
    showplan\n\
    addlan X\n";

const OTHER: &[u8] = b"addbridge A 02:00:00:00:00:01\nno\n";

const CAPTURES: &[u8] = b"# none\n00\n";

const POLICY: &[u8] = b"root 0 B\nalways reach 1 *\n";

const CHANGE: &[u8] = b"lan X down\n\nlan X up\nno\n";

#[test]
fn calls_are_served(rt: HostRuntime) {
    let alloc = rt.alloc();
    let form = Form::Text;
    let mut out = Vec::new(alloc);
    for (ran, refused, differing) in [
        (run(alloc, SCRIPT, &mut out), 1, 0),
        (check(alloc, form, SCRIPT, CAPTURES, &mut out), 2, 0),
        (ask(alloc, &Question::Summary, SCRIPT, &mut out), 1, 0),
        (diff(alloc, SCRIPT, OTHER, &mut out), 2, 1),
        (edits(alloc, form, SCRIPT, OTHER, &mut out), 2, 1),
        (verify(alloc, form, SCRIPT, POLICY, &mut out), 1, 1),
        (
            steps(alloc, form, true, SCRIPT, CHANGE, POLICY, &mut out),
            2,
            1,
        ),
    ] {
        assert!(rt;
            ran == Ok(counts(refused, differing)),
            "{refused} {differing}"
        );
    }
}
