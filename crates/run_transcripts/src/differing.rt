//! Where a transcript differs from what was expected.

use std::alloc::{AllocError, Global};

/// A line that names the first line at which two transcripts differ, with both; nothing where they
/// are the same.
pub fn difference(
    alloc: Global,
    name: &str,
    expected: &str,
    found: &str,
) -> Result<String, AllocError> {
    let mut found_lines = found.split('\n');
    for (before, line) in expected.split('\n').enumerate() {
        let other = found_lines.next().unwrap_or("");
        if line != other {
            let number = before.saturating_add(1);
            return format!(in alloc;
                "case {name}: in line {number} of the transcript \"{line}\" was expected, \
                 and \"{other}\" found\n"
            );
        }
    }
    Ok(String::new(alloc))
}
