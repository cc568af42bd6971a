//! Pools of tables with one letter and two outputs, for the tests.
ghost use Rattle.std.specs.Prelude.{◌≡◌, ◌≤◌, [], None, Some, length};
ghost use Rattle.lw_words.specs.Cause.{CountedFault};
ghost use Rattle.lw_words.specs.declared.stop.SulStop.TheVariants.{Failed};
ghost use Rattle.lw_pool.specs.Opening.{AllMayJoin, member_of};

use crate::tests::names;
use lw_cache::Cache;
use lw_mealy::Mealy;
use lw_names::{OutName, OutNames};
use lw_pool::Pool;
use lw_sul::{Session, Sul, TableSul};
use lw_words::{Names, SulStop};
use std::alloc::Global;
use std::process::Abort;

/// A table that refuses its call with this number, counted from 0.
#[derive(Drop)]
pub struct Refusing {
    table: TableSul,
    refused: Option<u32>,
    calls: u32,
    started: bool,
    stop: Option<SulStop>,
    cut: bool,
    faults: u64,
}

impl Refusing {
    /// The system before its first call.
    fn new(table: TableSul, refused: Option<u32>) -> Refusing
        ensures table { result.table ≡ table }
        ensures live { result.stop ≡ None }
    {
        Refusing {
            table,
            refused,
            calls: 0,
            started: false,
            stop: None,
            cut: false,
            faults: 0,
        }
    }

    /// Counts a call, and tells whether it is the one that is refused.
    fn is_refused(&mut self) -> bool
        ensures table { self.new.table ≡ self.old.table }
        ensures stop { self.new.stop ≡ self.old.stop }
        ensures faults { self.new.faults ≡ self.old.faults }
        ensures started { self.new.started ≡ self.old.started }
    {
        let refused = self.refused == Some(self.calls);
        self.calls = self.calls.saturating_add(1);
        refused
    }

    /// Refuses a call: of a step, the run is cut off.
    fn refuse(&mut self, cut: bool) -> SulStop
        ensures stop { (result ≡ Failed) × (self.new.stop ≡ Some Failed) }
        ensures cut { self.new.cut ≡ cut }
        ensures table { self.new.table ≡ self.old.table }
        ensures fault { CountedFault self.old.faults self.new.faults }
        ensures counts { self.old.faults ≤ self.new.faults }
    {
        self.faults = self.faults.saturating_add(1);
        self.stop = Some(SulStop::Failed);
        self.cut = cut;
        SulStop::Failed
    }
}

impl Sul for Refusing {
    ghost use Rattle.std.specs.Prelude.{length, Some, None};

    ghost state = { λ s. record {
      inputs = s.table.machine.inputs;
      outputs = s.table.machine.outputs;
      origin = record { machine = Some s.table.machine.rows; link = None; letters = None };
      place = s.table.state;
      started = s.started;
      faults = s.faults;
      stop = s.stop;
      cut = s.cut;
      runs = None;
      names = s.table.names;
      most = length s.table.names;
    } };

    fn inputs(&self) -> u16 {
        self.table.inputs()
    }

    fn outputs(&self) -> u16 {
        self.table.outputs()
    }

    fn named(&self) -> u16 {
        self.table.named()
    }

    fn most(&self) -> u16 {
        self.table.most()
    }

    fn name(&self, y: u16) -> OutName {
        self.table.name(y)
    }

    fn reset(&mut self) -> Result<(), SulStop> {
        if self.is_refused() {
            return Err(self.refuse(false));
        }
        let Ok(()) = self.table.reset() else {
            return Err(self.refuse(false));
        };
        self.started = true;
        self.stop = None;
        Ok(())
    }

    fn step(&mut self, x: u16) -> Result<u16, SulStop> {
        if self.is_refused() {
            return Err(self.refuse(true));
        }
        let Ok(y) = self.table.step(x) else {
            return Err(self.refuse(true));
        };
        self.stop = None;
        Ok(y)
    }
}

/// The machine of these rows.
pub fn machine(rt: &impl Abort, alloc: Global, cells: &[(u16, u16)]) -> Mealy
    ensures { (result.inputs ≡ 1) × (result.outputs ≡ 2) }
{
    let mut rows = Vec::new(alloc);
    for cell in cells {
        let row = Vec::from_slice(alloc, &[*cell]).expect(rt, "memory");
        rows.push(row).expect(rt, "memory");
    }
    Mealy::new(alloc, 1, 2, rows).expect(rt, "a machine")
}

/// These names.
pub fn names_of(rt: &impl Abort, alloc: Global, list: &[&str]) -> Names
    ensures { length result ≡ length list.now }
{
    let names = names(rt, alloc, list);
    assert!(rt; usize::from(names.len()) == list.len());
    names
}

/// The system of a machine of these rows, that refuses this call.
fn system(
    rt: &impl Abort,
    alloc: Global,
    names: &Names,
    cells: &[(u16, u16)],
    refused: Option<u32>,
) -> Refusing
    requires { length names.now ≡ 2 }
    ensures names { result.table.names ≡ names.now }
    ensures live { result.stop ≡ None }
    ensures numbers { (result.table.machine.inputs ≡ 1) × (result.table.machine.outputs ≡ 2) }
{
    let names = names.copy().expect(rt, "memory");
    Refusing::new(TableSul::new(machine(rt, alloc, cells), names), refused)
}

/// So many sessions of such systems.
fn hired(
    rt: &impl Abort,
    alloc: Global,
    names: &Names,
    shared: &OutNames,
    cells: &[(u16, u16)],
    sessions: usize,
    refused: Option<u32>,
) -> Vec<Session<Refusing>>
    requires names { length names.now ≡ 2 }
    requires shared { shared.now ≡ record { names = names.now; brought = None } }
    ensures { AllMayJoin (member_of ⟦<Refusing as Sul>⟧.state) shared.now 1 2 result.items }
{
    let mut hired = Vec::new(alloc);
    for _ in 0..sessions {
        let instance = u32::try_from(hired.len()).expect(rt, "few sessions");
        let system = system(rt, alloc, names, cells, refused);
        let session = Session::new(alloc, instance, system);
        hired.push(session).expect(rt, "memory");
    }
    hired
}

/// A pool of so many sessions, each of a machine of these rows that refuses this call.
pub fn pool_of<R: Abort + Copy + Drop>(
    rt: R,
    alloc: Global,
    cells: &[(u16, u16)],
    sessions: usize,
    refused: Option<u32>,
) -> Pool<Refusing, R>
    ensures numbers { (result.inputs ≡ 1) × (result.outputs ≡ 2) }
    ensures begun { (result.kept ≡ []) × (result.stop ≡ None) }
{
    let names = names_of(&rt, alloc, &["0", "1"]);
    let shared = OutNames::declared(alloc, &names).expect(&rt, "memory");
    let sessions = hired(&rt, alloc, &names, &shared, cells, sessions, refused);
    assert!(rt; !sessions.is_empty() && sessions.len() <= 16);
    match Pool::new(rt, alloc, 1, 2, sessions, shared, Cache::new(alloc)) {
        Ok(pool) => pool,
        Err(_) => rt.panic("there is no memory"),
    }
}
