//! The arguments of each command, as its command line has them.
pub(crate) mod accept;
pub(crate) mod ask;
pub(crate) mod check;
pub(crate) mod compare;
pub(crate) mod help;
pub(crate) mod learn;
pub(crate) mod recheck;
pub(crate) mod serve;
pub(crate) mod trial;
