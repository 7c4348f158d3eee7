// Breaks as they are found.
use std::alloc::Global;
use zt_breaks::{Break, Finding};
use zt_keys::{Key, Memory};

/// The most breaks that are told of a transcript.
pub const MOST_BREAKS: usize = 100;

// Whether the finding was told of an earlier line, or of this one.
fn is_told<K: Key>(breaks: &[Break<K>], finding: &Finding<K>) -> bool {
    for told in breaks {
        if told.finding == *finding {
            return true;
        }
    }
    false
}

/// Whether no more breaks are told.
pub(crate) fn is_full<K: Key>(breaks: &[Break<K>]) -> bool {
    MOST_BREAKS <= breaks.len()
}

/// Tells what was found at a line, if there is room. What stays wrong is told once.
pub(crate) fn tell<K: Key>(
    breaks: &mut Vec<Break<K>>,
    line: u64,
    finding: Finding<K>,
) -> Result<(), Memory> {
    if is_full(breaks.as_slice()) || is_told(breaks.as_slice(), &finding) {
        return Ok(());
    }
    let clause = finding.clause();
    breaks.push(Break {
        line,
        clause,
        finding,
    })?;
    Ok(())
}

/// Tells all that was found at a line.
pub(crate) fn tell_all<K: Key>(
    breaks: &mut Vec<Break<K>>,
    line: u64,
    findings: Vec<Finding<K>>,
) -> Result<(), Memory> {
    for finding in findings {
        tell(breaks, line, finding)?;
    }
    Ok(())
}
