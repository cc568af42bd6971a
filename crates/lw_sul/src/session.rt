//! Sessions: a system that is asked words, and the journal of its finished runs.
ghost use Rattle.std.specs.Prelude.{◌≡◌, ◌⊎◌, ◌+◌, ◌-◌, ◌<◌, ◌≤◌, List, [], ◌∷◌, ◌++◌, length, drop, min, Some, None, option_map, IfOk, OnOk, IfErr, OnErr, vec_capacity, vec_len, Err};
ghost use Rattle.std.specs.List.{All};
ghost use Rattle.lw_words.specs.Word.{IsWord, named};
ghost use Rattle.lw_words.specs.declared.stop.SulStop.{SulStop as Stop};
ghost use Rattle.lw_sul.specs.SessionState.{SessionState, run_of, NoRuns, CutOff, IsJournal};
ghost use Rattle.lw_words.specs.Cause.{CountedFault};
ghost use Rattle.lw_sul.specs.System.{IsSameSul};
ghost use Rattle.lw_sul.specs.Told.{Answers};
ghost use Rattle.lw_names.specs.Names.{AreNamed, IsGrown, with_names};

use crate::Sul;
use http_server::Log;
use lw_names::{Named, OutName};
use lw_words::{NoMemory, RunStop, SulStop, Word};
use std::alloc::Global;
use std::marker::Model;

/// A system that is asked words, and the journal of its finished runs, which at run time is their number alone.
/// Contracts see the session's number, the system and the journal.
#[derive(Drop)]
pub struct Session<S: Sul> {
    instance: u32,
    sul: S,
    stopped: Option<SulStop>,
    journal: Log<Word, Word>,
    runs: u64,
    alloc: Global,
}

impl<S: Sul> Model for Session<S> {
    ghost use Rattle.std.specs.Prelude.{◌≡◌, length};
    ghost use Rattle.lw_names.specs.Names.{AreNamed};
    ghost use Rattle.lw_sul.specs.SessionState.{SessionState, IsJournal, runs_of_pairs};

    ghost Value = { SessionState S };

    ghost view = { λ s. record { instance = s.instance; sul = s.sul; journal = runs_of_pairs s.journal.items } };

    ghost invariant = { λ s. (s.stopped ≡ (S.state s.sul).stop)
        × IsJournal (S.state s.sul).runs (runs_of_pairs s.journal.items) s.stopped (S.state s.sul).cut
        × (s.runs ≡ length (runs_of_pairs s.journal.items))
        × AreNamed (S.state s.sul).most (S.state s.sul).names };
}

/// What a run answered: the outputs in the system's numbers, and the names that came up first in it.
#[derive(Drop)]
pub struct NamedAnswer {
    pub outs: Word,
    pub names: Named,
}

/// The memory of a run: room for its outputs, and for as many names as can come up in it.
#[derive(Drop)]
struct Buffers {
    outs: Vec<u16>,
    names: Vec<OutName>,
}

fn make_room<S: Sul>(alloc: Global, w: &Word, sul: &S) -> Result<Buffers, NoMemory>
    ensures outs { IfOk result (λ b. (b.outs.items ≡ []) ×
        (length w.now ≤ vec_capacity b.outs)) }
    ensures names { IfOk result (λ b. (b.names.items ≡ []) ×
        (min (length w.now) ((S.state sul.now).most - length (S.state sul.now).names) ≤
        vec_capacity b.names)) }
{
    let known = sul.named();
    let free = usize::from(sul.most() - known);
    Ok(Buffers {
        outs: Vec::with_capacity(alloc, w.len())?,
        names: Vec::with_capacity(alloc, w.len().min(free))?,
    })
}

/// Puts the name of an output last where it came up in the last step, before which this many outputs had names.
#[tactic(auto, using(lw_names::proofs::NameLemmas::note_steps))]
fn note<S: Sul>(sul: &S, known: u16, y: u16, names: &mut Vec<OutName>)
    requires one { (length (S.state sul.now).names ≡ known) ⊎
        ((length (S.state sul.now).names ≡ known + 1) × (y ≡ known)) }
    requires room { known < (S.state sul.now).most → vec_len names.old < vec_capacity names.old }
    ensures names { names.new.items ≡ names.old.items ++ drop known (S.state sul.now).names }
    ensures room { vec_capacity names.new ≡ vec_capacity names.old }
    ensures lawful { AreNamed (S.state sul.now).most (S.state sul.now).names }
{
    if sul.named() == known {
        return;
    }
    names.push_reserved(sul.name(y));
}

/// Resets the system and sends it the letters of a word. The outputs go into `outs`, and the names that come up first
/// in the run into `names`. Takes no memory.
#[tactic(auto, using(crate::proofs::RunLemmas::run_steps, lw_mealy::proofs::WordLemmas::letter))]
fn perform<S: Sul>(
    sul: &mut S,
    w: &Word,
    outs: &mut Vec<u16>,
    names: &mut Vec<OutName>,
) -> Result<(), SulStop>
    requires live { (S.state sul.old).stop ≡ None }
    requires letters { IsWord (S.state sul.old).inputs w.now }
    requires empty { (outs.old.items ≡ []) × (names.old.items ≡ []) }
    requires room { length w.now ≤ vec_capacity outs.old }
    requires names_room { min (length w.now)
        ((S.state sul.old).most - length (S.state sul.old).names) ≤ vec_capacity names.old }
    ensures length { OnOk result (length outs.new.items ≡ length w.now) }
    ensures outputs { OnOk result (All (λ y. y < (S.state sul.old).outputs) outs.new.items) }
    ensures answers { OnOk result (Answers (S.state sul.old).origin.machine w.now
        outs.new.items) }
    ensures runs { OnOk result ((S.state sul.new).runs ≡
        option_map (λ rs. rs ++ run_of w.now outs.new.items ∷ []) (S.state sul.old).runs) }
    ensures names { OnOk result ((S.state sul.new).names ≡ (S.state sul.old).names ++
        names.new.items) }
    ensures brought { OnOk result ((S.state sul.new).names ≡ with_names (S.state sul.old).names
        (named (S.state sul.new).names outs.new.items)) }
    ensures numbers { OnOk result (All (λ y. y < length (S.state sul.new).names) outs.new.items) }
    ensures grown { IsGrown (S.state sul.old).names (S.state sul.new).names }
    ensures live { OnOk result ((S.state sul.new).stop ≡ None) }
    ensures err { IfErr result (λ e. (S.state sul.new).stop ≡ Some e) }
    ensures cut { OnErr result (CutOff w.now (S.state sul.old).runs (S.state sul.new).runs
        (S.state sul.new).cut) }
    ensures failed { result ≡ Err Stop.Failed → CountedFault (S.state sul.old).faults
        (S.state sul.new).faults }
    ensures counts { (S.state sul.old).faults ≤ (S.state sul.new).faults }
    ensures same { IsSameSul (S.state sul.old) (S.state sul.new) }
{
    sul.reset()?;
    for x in w.as_slice() {
        let known = sul.named();
        let y = sul.step(*x)?;
        note(sul, known, y, names);
        outs.push_reserved(y);
    }
    Ok(())
}

impl<S: Sul> Session<S> {
    /// A session with an empty journal. Takes no memory.
    pub fn new(alloc: Global, instance: u32, sul: S) -> Session<S>
        requires live { (S.state sul).stop ≡ None }
        requires fresh { NoRuns (S.state sul).runs }
        ensures { result ≡ record { instance = instance; sul = sul; journal = [] } }
    {
        let _named = sul.named();
        Session {
            instance,
            sul,
            stopped: None,
            journal: Log::new(),
            runs: 0,
            alloc,
        }
    }

    /// Asks a word from a reset on: takes all its memory, then resets, then steps.
    /// After a stop every later call answers the same stop and touches nothing. Where the number of runs can't be
    /// counted any further, it answers that there is no memory.
    pub fn ask(&mut self, w: &Word) -> Result<Word, RunStop>
        requires letters { IsWord (S.state self.old.sul).inputs w.now }

        // An answer is the run that the journal gains, and the machine's where that is observed.
        ensures length { IfOk result (λ o. length o ≡ length w.now) }
        ensures outputs { IfOk result (All (λ y. y < (S.state self.old.sul).outputs)) }
        ensures gains { IfOk result (λ o. self.new.journal ≡ self.old.journal ++
            run_of w.now o ∷ []) }
        ensures runs { IfOk result (λ o. (S.state self.new.sul).runs ≡
            option_map (λ rs. rs ++ run_of w.now o ∷ []) (S.state self.old.sul).runs) }
        ensures answers { IfOk result (Answers (S.state self.old.sul).origin.machine w.now) }
        ensures live { OnOk result ((S.state self.new.sul).stop ≡ None) }

        // A stop is the system's, of this call or of the one that stopped it.
        ensures stopped { IfErr result (λ e. (stop : Stop) → e ≡ RunStop.Sul stop →
            (S.state self.new.sul).stop ≡ Some stop) }
        ensures kept { OnErr result (self.new.journal ≡ self.old.journal) }
        ensures again { (stop : Stop) → (S.state self.old.sul).stop ≡ Some stop →
            (result ≡ Err (RunStop.Sul stop)) × (self.new ≡ self.old) }
        ensures memory { result ≡ Err RunStop.NoMemory → self.new ≡ self.old }
        ensures failed { result ≡ Err (RunStop.Sul Stop.Failed) → (S.state self.old.sul).stop ≡
            None → CountedFault (S.state self.old.sul).faults (S.state self.new.sul).faults }

        // Observed runs are the journal, and an unfinished run exactly where this call or an earlier one was stopped in
        // a step.
        ensures told { IsJournal (S.state self.new.sul).runs self.new.journal
            (S.state self.new.sul).stop (S.state self.new.sul).cut }

        ensures unfinished { (stop : Stop) → result ≡ Err (RunStop.Sul stop) →
            (S.state self.old.sul).stop ≡ None → CutOff w.now (S.state self.old.sul).runs
            (S.state self.new.sul).runs (S.state self.new.sul).cut }

        ensures counts { (S.state self.old.sul).faults ≤ (S.state self.new.sul).faults }
        ensures instance { self.new.instance ≡ self.old.instance }
        ensures same { IsSameSul (S.state self.old.sul) (S.state self.new.sul) }
    {
        match self.ask_named(w) {
            Ok(NamedAnswer { outs, names: _ }) => Ok(outs),
            Err(stop) => Err(stop),
        }
    }

    /// What `ask` does, and the names that came up first in the run. Its memory has room for those too.
    pub fn ask_named(&mut self, w: &Word) -> Result<NamedAnswer, RunStop>
        requires letters { IsWord (S.state self.old.sul).inputs w.now }

        // An answer is the run that the journal gains, and the machine's where that is observed.
        ensures length { IfOk result (λ a. length a.outs ≡ length w.now) }
        ensures outputs { IfOk result (λ a. All (λ y. y < (S.state self.old.sul).outputs)
            a.outs) }
        ensures gains { IfOk result (λ a. self.new.journal ≡ self.old.journal ++
            run_of w.now a.outs ∷ []) }
        ensures runs { IfOk result (λ a. (S.state self.new.sul).runs ≡
            option_map (λ rs. rs ++ run_of w.now a.outs ∷ []) (S.state self.old.sul).runs) }
        ensures answers { IfOk result (λ a. Answers (S.state self.old.sul).origin.machine w.now
            a.outs) }
        ensures live { OnOk result ((S.state self.new.sul).stop ≡ None) }

        // A stop is the system's, of this call or of the one that stopped it.
        ensures stopped { IfErr result (λ e. (stop : Stop) → e ≡ RunStop.Sul stop →
            (S.state self.new.sul).stop ≡ Some stop) }
        ensures kept { OnErr result (self.new.journal ≡ self.old.journal) }
        ensures again { (stop : Stop) → (S.state self.old.sul).stop ≡ Some stop →
            (result ≡ Err (RunStop.Sul stop)) × (self.new ≡ self.old) }
        ensures memory { result ≡ Err RunStop.NoMemory → self.new ≡ self.old }
        ensures failed { result ≡ Err (RunStop.Sul Stop.Failed) → (S.state self.old.sul).stop ≡
            None → CountedFault (S.state self.old.sul).faults (S.state self.new.sul).faults }

        // Observed runs are the journal, and an unfinished run exactly where a call was stopped in a step.
        ensures told { IsJournal (S.state self.new.sul).runs self.new.journal
            (S.state self.new.sul).stop (S.state self.new.sul).cut }

        ensures unfinished { (stop : Stop) → result ≡ Err (RunStop.Sul stop) →
            (S.state self.old.sul).stop ≡ None → CutOff w.now (S.state self.old.sul).runs
            (S.state self.new.sul).runs (S.state self.new.sul).cut }

        ensures counts { (S.state self.old.sul).faults ≤ (S.state self.new.sul).faults }
        ensures instance { self.new.instance ≡ self.old.instance }
        ensures same { IsSameSul (S.state self.old.sul) (S.state self.new.sul) }

        // The names of an answer are those that the system's list gained, in the order in which they came up.
        ensures names { IfOk result (λ a. (S.state self.new.sul).names ≡
            (S.state self.old.sul).names ++ a.names) }
        ensures brought { IfOk result (λ a. (S.state self.new.sul).names ≡
            with_names (S.state self.old.sul).names (named (S.state self.new.sul).names a.outs)) }
        ensures numbers { IfOk result (λ a. All (λ y. y < length (S.state self.new.sul).names)
            a.outs) }
        ensures lawful { AreNamed (S.state self.new.sul).most (S.state self.new.sul).names }
        ensures grown { IsGrown (S.state self.old.sul).names (S.state self.new.sul).names }
    {
        if let Some(stop) = &self.stopped {
            return Err(RunStop::Sul(stop.copy()));
        }
        if self.runs == u64::MAX {
            return Err(RunStop::NoMemory);
        }
        let Buffers {
            mut outs,
            mut names,
        } = make_room(self.alloc, w, &self.sul)?;
        let done = perform(&mut self.sul, w, &mut outs, &mut names);
        let _named = self.sul.named();
        if let Err(stop) = done {
            self.stopped = Some(stop.copy());
            return Err(RunStop::Sul(stop));
        }
        let outs = Word::from_letters(self.alloc, outs);
        let (alloc, instance, run) = (self.alloc, self.instance, self.runs);
        self.sul.keep(alloc, instance, run, w, &outs);
        self.journal = self.journal.and(w, &outs);
        self.runs += 1;
        let names = Named::from_names(names);
        Ok(NamedAnswer { outs, names })
    }

    pub fn instance(&self) -> u32
        ensures { result ≡ self.now.instance }
    {
        self.instance
    }

    /// The number of the system's inputs.
    pub fn inputs(&self) -> u16
        ensures { result ≡ (S.state self.now.sul).inputs }
    {
        self.sul.inputs()
    }

    /// The number of the system's outputs.
    pub fn outputs(&self) -> u16
        ensures { result ≡ (S.state self.now.sul).outputs }
    {
        self.sul.outputs()
    }

    /// The number of the finished runs. Where the system tells its runs, they are the journal, and one unfinished run
    /// exactly where the session stopped in a step.
    pub fn runs(&self) -> u64
        ensures count { result ≡ length self.now.journal }
        ensures told { IsJournal (S.state self.now.sul).runs self.now.journal
            (S.state self.now.sul).stop (S.state self.now.sul).cut }
    {
        self.runs
    }

    /// Why the system stopped, or None where it didn't. Takes no memory.
    pub fn stopped(&self) -> Option<SulStop>
        ensures { result ≡ (S.state self.now.sul).stop }
    {
        match &self.stopped {
            Some(stop) => Some(stop.copy()),
            None => None,
        }
    }

    pub fn sul(&self) -> &S
        ensures { result.now ≡ self.now.sul }
    {
        &self.sul
    }

    /// The system.
    pub fn into_sul(self) -> S
        ensures { result ≡ self.sul }
    {
        let Session {
            instance: _,
            sul,
            stopped: _,
            journal: _,
            runs: _,
            alloc: _,
        } = self;
        sul
    }
}
