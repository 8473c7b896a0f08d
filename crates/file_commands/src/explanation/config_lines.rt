//! The lines of a configuration on which its tables and keys are.
//!
//! A TOML table keeps no places. So the lines are read once more, for headers such as `[[stream]]` and for keys that
//! come first on a line. A key that is written in another way has no line.
use studio_config::ConfigTable;

/// The place in a configuration while its lines are read.
#[derive(Clone, Copy)]
struct Section {
    /// The table whose keys come here; `None` for a table that configurations don't have.
    place: Option<ConfigTable>,
    /// The number of streams' headers so far.
    streams: usize,
    /// The number of headers of changes so far.
    changes: usize,
}

impl Section {
    /// Returns the section before the first header.
    fn top() -> Section {
        Section {
            place: Some(ConfigTable::Top),
            streams: 0,
            changes: 0,
        }
    }

    /// Returns the section behind a header.
    fn after(self, header: &str) -> Section {
        match header {
            "[[stream]]" => Section {
                place: Some(ConfigTable::Stream(self.streams)),
                streams: self.streams.saturating_add(1),
                changes: self.changes,
            },
            "[output]" => Section {
                place: Some(ConfigTable::Output),
                ..self
            },
            "[[output.change]]" => Section {
                place: Some(ConfigTable::Change(self.changes)),
                streams: self.streams,
                changes: self.changes.saturating_add(1),
            },
            _ => Section {
                place: None,
                ..self
            },
        }
    }
}

/// Returns the number of the line, from 1, on which a key of the table at a place is. If it is on none, returns the
/// line of the table's header.
pub(crate) fn key_line(text: &str, place: ConfigTable, key: &str) -> Option<usize> {
    let mut section = Section::top();
    let mut number = 0usize;
    for line in text.lines() {
        number = number.saturating_add(1);
        let line = line.trim();
        if is_header(line) {
            section = section.after(header_of(line));
        } else if section.place == Some(place) && is_line_of(line, key) {
            return Some(number);
        }
    }
    table_line(text, place)
}

/// Returns the number of the line, from 1, on which the header of the table at a place is.
pub(crate) fn table_line(text: &str, place: ConfigTable) -> Option<usize> {
    let mut section = Section::top();
    let mut number = 0usize;
    for line in text.lines() {
        number = number.saturating_add(1);
        let line = line.trim();
        if is_header(line) {
            section = section.after(header_of(line));
            if section.place == Some(place) {
                return Some(number);
            }
        }
    }
    None
}

/// Returns true if a line is the header of a table. A row of an array that is written over several lines is none.
fn is_header(line: &str) -> bool {
    let name = line.trim_start_matches('[');
    match name.chars().next() {
        Some(first) => name.len() < line.len() && first.is_ascii_alphabetic(),
        None => false,
    }
}

/// Returns a header's line without its comment.
fn header_of(line: &str) -> &str {
    match line.split_once('#') {
        Some((header, _)) => header.trim(),
        None => line,
    }
}

/// Returns true if a line sets a key.
fn is_line_of(line: &str, key: &str) -> bool {
    match line.strip_prefix(key) {
        Some(rest) => rest.trim_start().starts_with('='),
        None => false,
    }
}
