//! Suites with fewer words than the W-method has: those of the Wp-method and of the H-method, in chunks.
#![tactic(auto)]

mod cursor;
mod greedy_sets;
mod h_suite;
mod h_table;
mod identification_sets;
mod laws;
mod marks;
mod parts;
mod separation;
mod walk;
mod wp_suite;

pub use h_suite::HSuite;
pub use identification_sets::identification;
pub use laws::{
    greedy_suite_exists, greedy_suite_is_h_suite, greedy_suite_is_of_words, greedy_suite_is_unique,
    identification_identifies, identification_is_unique, wp_suite_exists, wp_suite_is_counted,
    wp_suite_is_h_suite, wp_suite_is_of_words, wp_suite_is_unique, wp_suite_tells,
};
pub use wp_suite::WpSuite;
