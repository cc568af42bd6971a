//! Learnings worked by hand: what comes of them, and the batches that are settled, in their order.
mod cases;
mod chunks;
mod tables;
mod trees;
mod watching;

use lw_rounds::{
    model_is_canonical, model_is_least, too_large_for_all, too_large_is_least, too_many_is_none,
};

#[test]
fn the_laws() {
    model_is_canonical();
    model_is_least();
    too_many_is_none();
    too_large_is_least();
    too_large_for_all();
}
