//! Calls of a planner that are made again where memory was refused for them.
//!
//! With ample memory this test says little. `rt try --test --fail-alloc N` refuses the Nth allocation that a test makes,
//! and `checks/refuse_memory.py` each in turn: then it has to pass, whatever N is.

use super::lines::planner_of;

/// Two regions with MSTIs and an RSTP bridge, a class of links, VLANs that some ports are no members of, a bridge that goes off
/// and comes back, a region that is split, and records that go.
const SCRIPT: &str = "\
showplan
mark
addbridge A 02:00:00:00:00:01
addbridge B 02:00:00:00:00:02
addbridge C 02:00:00:00:00:03
addbridge D 02:00:00:00:00:04
kind D rstp
addlan X
addlan Y
addlan Z
addport A 1
addport B 1
plug A 1 X
plug B 1 X
addport A 2
addport C 1
addport D 1
plug A 2 Y
plug C 1 Y
plug D 1 Y
addport B 2
addport C 2
plug B 2 Z
plug C 2 Z
setmstconfid A 1 area
setmstconfid B 1 area
setmstconfid C 1 next
setvid2mstid A 1 10
setvid2mstid B 1 10
setvid2mstid C 2 10
settreeprio B 1 0
settreeportcost A 1 1 7
showtree 1
showvlan 10
addlan W
addport A 3
addport B 3
plug A 3 W
plug B 3 W
setkey A 1 7
setkey A 3 7
setkey B 1 7
setkey B 3 7
showlag
lan X down
setportvlans C 1 20
showvlan 10
mark
bridge A off
changes
bridge A on
setmstconfid B 1 split
showregions
showmstconfid B
setportrestrrole C 1 yes
setmaxage A 6
shownotes
unplug D 1
delport D 1
delbridge D
changes
save
";

// One allocation is refused in all, so that the call which met that is made again with memory at hand.
#[test]
fn calls_that_are_refused_memory(rt: HostRuntime) {
    assert!(rt; planner_of(rt.alloc(), &[SCRIPT]).is_some());
}
