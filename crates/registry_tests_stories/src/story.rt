//! The stories of a file.

use crate::failure::{Stop, failed_with};
use std::alloc::Global;

/// The line that says that the registry of a story is in a file.
pub const IN_FILE: &str = "in a file";

/// A story: its title, and its lines with their numbers.
#[derive(Drop)]
pub struct Story<'a> {
    pub title: &'a str,
    pub lines: Vec<Line<'a>>,
}

/// A line of a file.
#[derive(Clone, Copy)]
pub struct Line<'a> {
    pub number: u64,
    pub text: &'a str,
}

impl Story<'_> {
    /// Whether its registry is in a file, and not in memory.
    pub fn is_in_file(&self) -> bool {
        self.lines.iter().any(|line| line.text == IN_FILE)
    }

    /// Whether it has a connection over HTTP.
    pub fn has_connection(&self) -> bool {
        self.lines.iter().any(|line| line.text.starts_with('>'))
    }
}

/// Whether a line only explains or separates other lines.
pub fn is_unknown(line: &str) -> bool {
    line.is_empty() || line.starts_with('#')
}

/// The stories of a text. Before the first one there are only comments.
pub fn stories_of(alloc: Global, text: &str) -> Result<Vec<Story<'_>>, Stop> {
    let mut stories: Vec<Story<'_>> = Vec::new(alloc);
    let mut number = 0u64;
    for text in text.lines() {
        number = number.saturating_add(1);
        if let Some(title) = text.strip_prefix("== ") {
            let lines = Vec::new(alloc);
            stories
                .push(Story { title, lines })
                .map_err(|_| Stop::Memory)?;
        } else if let Some(story) = stories.last_mut() {
            story
                .lines
                .push(Line { number, text })
                .map_err(|_| Stop::Memory)?;
        } else if !is_unknown(text) {
            return Err(failed_with(alloc, "a line comes before the first story"));
        }
    }
    Ok(stories)
}
