//! The cases of a file.

use crate::case::{Case, cut};
use crate::runs::agrees;
use anyhow::{Context, Result};
use std::alloc::Global;
use std::fs;

/// How many cases were carried out, and how many of them differed.
#[derive(Clone, Copy)]
pub struct Count {
    pub cases: u64,
    pub differ: u64,
}

/// Carries out the cases of a file.
pub fn carry_out(rt: &HostRuntime, name: &str, count: &mut Count) -> Result<()> {
    let text = fs::read_to_string(rt, name)?;
    let cases = cases_of(rt.alloc(), text.as_str())?;
    let [common, cases @ ..] = cases.as_slice() else {
        return Ok(());
    };
    for case in cases {
        count.cases = count.cases.saturating_add(1);
        if !agrees(rt, case, common)? {
            count.differ = count.differ.saturating_add(1);
        }
    }
    Ok(())
}

// What stands before the first case, and then each case.
fn cases_of(alloc: Global, text: &str) -> Result<Vec<Case>> {
    let mut cases = Vec::new(alloc);
    let mut case = Case::new(alloc, "")?;
    for (at, line) in text.split('\n').enumerate() {
        let (head, rest) = cut(line);
        if line.is_empty() || line.starts_with('#') {
            continue;
        }
        if head == "case" {
            cases.push(case)?;
            case = Case::new(alloc, rest)?;
        } else {
            let line_number = at.saturating_add(1);
            case.take(alloc, line)
                .context(format_args!("line {line_number}"))?;
        }
    }
    cases.push(case)?;
    Ok(cases)
}
