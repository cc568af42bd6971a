//! New tables, tables that are closed over machines, and the laws.
mod closing;

use crate::tests::are;
use lw_table::{
    ObservationTable, access_is_crowd, access_leads, cells_stay, closed_has_machine,
    machine_gives_cells, new_is_read, one_machine,
};

/// Whether a table has these access words and suffixes, and was never refined.
fn has(table: &ObservationTable, access: &[&[u16]], suffixes: &[&[u16]]) -> bool {
    are(table.access(), access) && are(table.suffixes(), suffixes) && table.refinements() == 0
}

static ONE_STATE: [&[u16]; 1] = [&[]];

static TWO_LETTERS: [&[u16]; 2] = [&[0], &[1]];

#[test]
fn a_new_table_of_two_letters(rt: HostRuntime) {
    let table = ObservationTable::new(rt.alloc(), 2, 3, 5).expect(&rt, "memory");
    assert!(rt; has(&table, &ONE_STATE, &TWO_LETTERS));
}

#[test]
fn the_laws() {
    new_is_read();
    cells_stay();
    closed_has_machine();
    one_machine();
    access_leads();
    machine_gives_cells();
    access_is_crowd();
}
