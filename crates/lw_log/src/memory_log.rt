//! A log file in memory.
ghost use Rattle.std.specs.Prelude.{◌≡◌, ◌≤◌, [], false, None, Some, map, option_map};
ghost use Rattle.lw_outside.specs.Memory.{one_more};
ghost use Rattle.lw_log.specs.Memory.{fails_next, plan_after};

use lw_outside::{Failed, LogFile};
use std::alloc::Global;
use std::marker::Model;

/// A log file in memory, which fails at one call by a plan.
/// Contracts see its name, its lines, how many calls come before the one that is to fail, and how often one failed.
#[derive(Drop)]
pub struct MemoryLog {
    alloc: Global,
    name: Option<String>,
    lines: Vec<Vec<u8>>,
    plan: Option<usize>,
    faults: u64,
}

impl Model for MemoryLog {
    ghost use Rattle.std.specs.Prelude.{map, option_map, string_bytes};
    ghost use Rattle.lw_log.specs.Memory.{MemoryLogState};

    ghost Value = { MemoryLogState };

    ghost view = { λ l. record { name = option_map (λ s. string_bytes s) l.name; lines = map (λ line. line.items) l.lines.items; plan = l.plan; faults = l.faults } };
}

impl MemoryLog {
    /// Fails at no call but where memory runs out.
    pub fn new(alloc: Global) -> MemoryLog
        ensures { result ≡ record { name = None; lines = []; plan = None; faults = 0 } }
    {
        MemoryLog {
            alloc,
            name: None,
            lines: Vec::new(alloc),
            plan: None,
            faults: 0,
        }
    }

    /// Fails at the call with this number, counted from 0.
    pub fn failing_at(alloc: Global, number: usize) -> MemoryLog
        ensures { result ≡ record { name = None; lines = []; plan = Some number; faults = 0 } }
    {
        MemoryLog {
            alloc,
            name: None,
            lines: Vec::new(alloc),
            plan: Some(number),
            faults: 0,
        }
    }

    /// The name by which it was made last, if it was.
    pub fn name(&self) -> Option<&str>
        ensures { option_map (λ name. name.now) result ≡ self.now.name }
    {
        match &self.name {
            Some(name) => Some(name.as_str()),
            None => None,
        }
    }

    /// What was put since, call by call.
    pub fn lines(&self) -> &[Vec<u8>]
        ensures { map (λ line. line.items) result.now ≡ self.now.lines }
    {
        self.lines.as_slice()
    }

    /// Whether this call is to fail.
    fn fails(&mut self) -> bool
        ensures value { result ≡ fails_next self.old.plan }
        ensures plan { self.new.plan ≡ plan_after self.old.plan }
        ensures same { (self.new.name ≡ self.old.name) × (self.new.lines ≡ self.old.lines) ×
            (self.new.faults ≡ self.old.faults) }
    {
        let Some(calls) = self.plan else {
            return false;
        };
        if calls == 0 {
            self.plan = None;
            return true;
        }
        self.plan = Some(calls - 1);
        false
    }

    /// Counts a call that failed.
    fn fail(&mut self) -> Failed
        ensures counted { self.new.faults ≡ one_more self.old.faults }
        ensures counts { self.old.faults ≤ self.new.faults }
        ensures same { (self.new.name ≡ self.old.name) × (self.new.lines ≡ self.old.lines) ×
            (self.new.plan ≡ self.old.plan) }
    {
        self.faults = self.faults.saturating_add(1);
        Failed
    }
}

impl LogFile for MemoryLog {
    ghost use Rattle.std.specs.Prelude.{◌≡◌, ◌++◌, ◌∷◌, [], false, Some, OnOk, OnErr};
    ghost use Rattle.lw_outside.specs.Logs.{LogFileOpen, LogFilePut};
    ghost use Rattle.lw_outside.specs.Memory.{one_more};
    ghost use Rattle.lw_log.specs.Memory.{told_log};

    ghost state = { told_log };

    fn open(&mut self, name: &str) -> Result<(), Failed>
        ensures every { LogFileOpen name.now (told_log self.old) (told_log self.new) result }
        ensures ok { OnOk result ((self.new.name ≡ Some name.now) × (self.new.lines ≡ [])) }
        ensures err { OnErr result ((self.new.name ≡ self.old.name) ×
            (self.new.lines ≡ self.old.lines)) }
        ensures counted { OnErr result (self.new.faults ≡ one_more self.old.faults) }
        ensures unplanned { OnOk result (fails_next self.old.plan ≡ false) }
        ensures plan { self.new.plan ≡ plan_after self.old.plan }
    {
        if self.fails() {
            return Err(self.fail());
        }
        let Ok(name) = String::from_str(self.alloc, name) else {
            return Err(self.fail());
        };
        self.name = Some(name);
        self.lines.clear();
        Ok(())
    }

    fn put(&mut self, line: &[u8]) -> Result<(), Failed>
        ensures every { LogFilePut line.now (told_log self.old) (told_log self.new) result }
        ensures ok { OnOk result (self.new.lines ≡ self.old.lines ++ line.now ∷ []) }
        ensures err { OnErr result (self.new.lines ≡ self.old.lines) }
        ensures counted { OnErr result (self.new.faults ≡ one_more self.old.faults) }
        ensures unplanned { OnOk result (fails_next self.old.plan ≡ false) }
        ensures plan { self.new.plan ≡ plan_after self.old.plan }
        ensures name { self.new.name ≡ self.old.name }
    {
        if self.fails() {
            return Err(self.fail());
        }
        let Ok(line) = Vec::from_slice(self.alloc, line) else {
            return Err(self.fail());
        };
        if self.lines.push(line).is_err() {
            return Err(self.fail());
        }
        Ok(())
    }
}
