//! What an example prints if an allocation fails.

use crate::tests::ROWS;
use failing_alloc::{FailingAlloc, STEP};
use std::alloc::Global;
use std::process::Abort;
use std::test::Fail;
use worked_examples::run_rows;

const ROW_STEPS: usize = 2_048;

/// Whether all lines of a row are printed with status 0, or they end for lack of memory after one
/// of them, with `out of memory` and status 3.
fn is_whole_or_cut(printed: &[u8], lines: &[u8], status: u8) -> bool {
    let Some(before) = printed.strip_suffix(b"out of memory\n") else {
        return status == 0 && printed == lines;
    };
    status == 3 && lines.starts_with(before) && (before.is_empty() || before.ends_with(b"\n"))
}

/// Runs a row with each budget of memory.
fn runs_at_each_budget(
    rt: &impl Abort,
    alloc: Global,
    memory: &mut FailingAlloc,
    word: &str,
    lines: &str,
) -> Result<(), Fail> {
    let words = [word.to_string(alloc)?];
    let mut out: Vec<u8> = Vec::with_capacity(alloc, 4_096)?;
    let mut refused = 0usize;
    for step in 0..ROW_STEPS {
        out.clear();
        memory.limit(alloc, step.saturating_mul(STEP))?;
        let status = run_rows(alloc, &words, &mut out);
        memory.lift();
        assert!(rt;
            is_whole_or_cut(out.as_slice(), lines.as_bytes(), status),
            "row {word}, step {step}: {status}"
        );
        refused = refused.saturating_add(usize::from(status == 3));
    }
    assert!(rt;
        refused > 0 && refused < ROW_STEPS,
        "row {word}: {refused} refused"
    );
    Ok(())
}

#[test]
fn rows_end_with_out_of_memory_or_whole(rt: HostRuntime) -> Result<(), Fail> {
    let alloc = rt.alloc();
    let mut memory = FailingAlloc::new(alloc)?;
    for (word, lines) in &ROWS {
        // The others don't allocate.
        if !matches!(*word, "2" | "17" | "21" | "22") {
            runs_at_each_budget(&rt, alloc, &mut memory, word, lines)?;
        }
    }
    Ok(())
}
