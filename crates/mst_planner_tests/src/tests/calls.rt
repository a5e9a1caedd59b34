//! Calls that a tool may make and the program doesn't, each once: edits that are settled at once and the text of a query, a forest from
//! nothing, the numbers of active ports, one BPDU compared, rows that are counted.

use super::lines::planner_of;
use mst_bpdu::read_line;
use mst_compare::compare;
use mst_ids::{Tree, Vid};
use mst_kinds::{Kind, TreeLine};
use mst_lag::view;
use mst_lang::Query;
use mst_net::{Contents, Network};
use mst_report::forest_of;
use mst_roles::{active, regions_of};
use mst_rows::{Counts, Value, put};
use std::alloc::{AllocError, Global};
use std::test::Fail;

/// RSTP bridges A, B and C, and their ports in the LANs X, Y and Z between each two of them.
const TRIANGLE: &str = "\
addbridge A 02:00:00:00:00:01
addbridge B 02:00:00:00:00:02
addbridge C 02:00:00:00:00:03
kind A rstp
kind B rstp
kind C rstp
addlan X
addport A 1
addport B 1
plug A 1 X
plug B 1 X
addlan Y
addport A 2
addport C 1
plug A 2 Y
plug C 1 Y
addlan Z
addport B 2
addport C 2
plug B 2 Z
plug C 2 Z
";

/// What changes where the root goes off.
const CHANGES: &[u8] = b"\
    bridge 0 A 8000.02:00:00:00:00:01 0 8000.02:00:00:00:00:01 0 8000.02:00:00:00:00:01 0000 0000 -> -\n\
    bridge 0 B 8000.02:00:00:00:00:01 20000 8000.02:00:00:00:00:02 0 8000.02:00:00:00:00:01 8001 8001 -> \
    8000.02:00:00:00:00:02 0 8000.02:00:00:00:00:02 0 8000.02:00:00:00:00:02 0000 0000\n\
    bridge 0 C 8000.02:00:00:00:00:01 20000 8000.02:00:00:00:00:03 0 8000.02:00:00:00:00:01 8002 8001 -> \
    8000.02:00:00:00:00:02 20000 8000.02:00:00:00:00:03 0 8000.02:00:00:00:00:02 8002 8002\n\
    port 0 A 1 Designated -> Disabled\n\
    port 0 A 2 Designated -> Disabled\n\
    port 0 B 1 Root -> Designated\n\
    port 0 C 1 Root -> Designated\n\
    port 0 C 2 Alternate -> Root\n";

// Two bridges have other vectors then, and one has none: at least two settlings, and at most twice three.
#[test]
fn an_edit_is_applied(rt: HostRuntime) -> Result<(), Fail> {
    let parts = [TRIANGLE, "mark\nbridge A off\n"];
    let mut planner = planner_of(rt.alloc(), &parts).ok_or("refused")?;
    let settlings = planner.settlings(Tree::cist());
    let changes = planner.answer(&Query::Changes).ok().ok_or("no answer")?;
    assert!(rt;
        2 <= settlings && settlings <= 6 && changes.as_slice() == CHANGES,
        "{settlings}"
    );
    Ok(())
}

/// How often bridges are settled for the CIST of a network from nothing.
fn settlings_from_nothing(alloc: Global, network: &Network) -> Result<u64, AllocError> {
    network.known();
    let view = view(alloc, network)?;
    let regions = regions_of(alloc, network)?;
    let forest = forest_of(alloc, &view, &regions)?;
    Ok(forest.settlings(Tree::cist()))
}

// Each of three bridges is settled once.
#[test]
fn a_forest_from_nothing(rt: HostRuntime) -> Result<(), Fail> {
    let planner = planner_of(rt.alloc(), &[TRIANGLE]).ok_or("refused")?;
    let settlings = settlings_from_nothing(rt.alloc(), planner.network())?;
    assert_eq!(rt; settlings, 3);
    Ok(())
}

/// An RST BPDU of port 2 of bridge A, the root: Designated, learning and forwarding.
const OF_THE_ROOT: &[u8] =
    b"0000 02 02 3c 8000020000000001 00000000 8000020000000001 8002 0000 1400 0200 0f00 00";

// It is what the plan has for that port, and of the six ports of the triangle five are active.
#[test]
fn a_plan_is_asked(rt: HostRuntime) -> Result<(), Fail> {
    let alloc = rt.alloc();
    let vid = Vid::new(1).ok_or("VID")?;
    let bpdu = read_line(OF_THE_ROOT).ok().ok_or("not read")?;
    let mut planner = planner_of(alloc, &[TRIANGLE]).ok_or("refused")?;
    planner.settle()?;
    let plan = planner.settled();
    let found = compare(alloc, &plan, &bpdu).ok().ok_or("not compared")?;
    let ports = active(alloc, &planner.settled(), vid)?;
    assert_eq!(rt; (found.len(), ports.len()), (0, 5));
    Ok(())
}

#[test]
fn rows_are_counted(rt: HostRuntime) -> Result<(), Fail> {
    let mut counts = Counts { rows: 0 };
    put::<Counts>(
        Kind::Tree(TreeLine::Heading),
        &[Value::Number(1)],
        &mut counts,
    )?;
    assert_eq!(rt; counts.rows, 1);
    Ok(())
}
