//! Planners that lines of scripts make.

use mst_lang::{Line, parse_line};
use mst_net::Refusal;
use mst_report::Planner;
use std::alloc::Global;

/// Makes a line's call, once. What answers a query is let go.
fn call(planner: &mut Planner, line: &str) -> Result<(), Refusal> {
    match parse_line(line.as_bytes()) {
        Ok(Line::Edit(edit)) => planner.apply(&edit),
        Ok(Line::Query(query)) => match planner.answer(&query) {
            Ok(text) => {
                drop(text);
                Ok(())
            }
            Err(refusal) => Err(refusal),
        },
        Ok(Line::Mark) => {
            if planner.is_settled() {
                planner.mark()
            } else {
                Ok(())
            }
        }
        Err(_) | Ok(Line::Blank) => Ok(()),
    }
}

/// Makes a line's call, and makes it again where memory was refused: whether nothing else refuses it.
fn is_made(planner: &mut Planner, line: &str) -> bool {
    match call(planner, line) {
        Err(Refusal::E99) => call(planner, line).is_ok(),
        made => made.is_ok(),
    }
}

/// A planner of which the lines of these parts were asked, if none was refused.
pub(super) fn planner_of(alloc: Global, parts: &[&str]) -> Option<Planner> {
    let mut planner = Planner::new(alloc);
    for part in parts {
        for line in part.lines() {
            if !is_made(&mut planner, line) {
                return None;
            }
        }
    }
    Some(planner)
}
