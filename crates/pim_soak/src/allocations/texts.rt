//! The calls on texts.

use super::{Failure, expect, expect_right};
use pim_judge::{Fault, Judged, Verdict, judge_bytes, parse, parse_script};
use std::alloc::Global;

const TEXT: &[u8] = b"pim 1
task 1 20
task 2 40
task 3 90
mutex 1 protect 50
mutex 2 inherit
1 lock 1
2 lock 2
2 lock 1
3 lock 2
1 unlock 1
";

const REPORT: &str = "\
1 granted
  task 1 at 50 ceiling 1
2 granted
3 queued
4 queued
  task 2 at 90 waiter 3 mutex 2
5 handed 2
  task 1 at 20 base
accepted 5
";

/// Fails unless what the call returned is right, unless an allocation failed, which must be the fault.
fn expect_served(is_right: Result<bool, Fault>) -> Result<(), Failure> {
    if let Err(fault) = is_right {
        expect(fault == Fault::Memory)?;
    }
    expect_right(is_right.ok())
}

pub(crate) fn parsed(alloc: Global) -> Result<(), Failure> {
    let is_right = parse(alloc, TEXT).map(|text| text.lines.len() == 5);
    expect_served(is_right)
}

pub(crate) fn parsed_script(alloc: Global) -> Result<(), Failure> {
    let is_right = parse_script(alloc, TEXT).map(|script| script.lines.len() == 5);
    expect_served(is_right)
}

fn is_reported(judged: &Judged) -> bool {
    let is_report = judged.report.as_slice() == REPORT.as_bytes();
    is_report && judged.verdict == Verdict::Accepted(5)
}

pub(crate) fn judged(alloc: Global) -> Result<(), Failure> {
    let is_right = judge_bytes(alloc, TEXT).map(|judged| is_reported(&judged));
    expect_served(is_right)
}
