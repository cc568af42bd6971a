//! What the workers of a pool share.

use lw_cache::Cache;
use lw_names::OutNames;

/// The cache, and the names of its outputs.
#[derive(Drop)]
pub(crate) struct Parts {
    pub(crate) cache: Cache,
    pub(crate) names: OutNames,
}
