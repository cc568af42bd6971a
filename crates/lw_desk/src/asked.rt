//! An ask in a history, for contracts alone.
use crate::Ask;
use std::snapshot::Snapshot;

/// Who asked, and what. The ask is there for contracts alone.
#[derive(Drop)]
pub(crate) struct Asked {
    pub(crate) actor: u32,
    pub(crate) ask: Snapshot<Ask>,
}
