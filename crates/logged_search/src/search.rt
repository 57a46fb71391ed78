//! The search with its log.

use conflict_analysis::Analysis;
use search_log::Log;
use search_steps::State;

/// The state of a search, its log, and what it needs for learning.
#[derive(Debug, Drop)]
pub struct LoggedSearch {
    pub state: State,
    pub log: Log,
    pub analysis: Analysis,
    /// How many words the pool has.
    pub words: u32,
    /// How many of its handles are free.
    pub spare: u32,
}
