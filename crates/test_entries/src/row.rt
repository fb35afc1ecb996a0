//! A row: its name, its roots, and what they have to answer.

/// A row, which is its name, its roots and its sections.
#[derive(Clone, Copy)]
pub(crate) struct Row(pub(crate) &'static str);

/// The first line of some lines, and the others without the last line feed.
pub(crate) fn cut(lines: &'static str) -> (&'static str, &'static str) {
    match lines.split_once('\n') {
        Some((first, others)) => (first, others.trim_end()),
        None => (lines, ""),
    }
}

impl Row {
    /// The name.
    pub(crate) fn name(self) -> &'static str {
        cut(self.0).0
    }

    /// The lines with the roots.
    pub(crate) fn roots(self) -> &'static str {
        cut(self.0.split_once("\n-- ").unwrap_or((self.0, "")).0).1
    }

    /// The lines of a section, and none if the row does not have it.
    pub(crate) fn section(self, heading: &str) -> &'static str {
        for section in self.0.split("\n-- ").skip(1) {
            let (first, lines) = cut(section);
            if first == heading {
                return lines;
            }
        }
        ""
    }
}
