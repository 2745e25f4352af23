//! A report, in its parts.

use crate::block::Blocks;
use crate::line::{ItemLines, RowLines};
use crate::middle::Lines;

/// Which command reports.
#[derive(Clone, Copy, Debug, PartialEq, Eq)]
pub enum Title {
    Serial,
    Steps,
    Sim,
    Live,
}

/// A report. A part that its form does not have is empty.
#[derive(Debug, Drop)]
pub struct Report {
    pub title: Title,
    pub middle: Lines,
    pub items: ItemLines,
    pub tables: RowLines,
    pub blocks: Blocks,
}
