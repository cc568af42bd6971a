//! The learner that a model is read off: an observation table or a discrimination tree.
ghost use Rattle.std.specs.Prelude.{◌≡◌, ◌<◌, ◌≤◌, length, IfOk, OnOk};
ghost use Rattle.lw_words.specs.Word.{answers_of};
ghost use Rattle.lw_mealy.specs.Machine.{Gives, Rows};
ghost use Rattle.lw_cache.specs.Cut.{IsCut};
ghost use Rattle.lw_cache.specs.Settling.{Keeps, MayAsk, Leaves, grown_stop};
ghost use Rattle.lw_settle.specs.declared.settling.Settled.TheVariants.{NoBlock};
ghost use Rattle.lw_rounds.specs.Learner.{inputs_of, outputs_of, access_of, refinements_of, IsLearner, IsRead, IsClosedLearner, IsMachineOf};
ghost use Rattle.lw_rounds.specs.bodies.Plain.{IsNewTable, ClosesAsPlain, RefinesAsPlain};
ghost use Rattle.lw_rounds.specs.bodies.Rounds.{IsNew, Grows, SettlesBlock};

use crate::Settings;
use lw_cache::{Cut, GrowStop, Oracle};
use lw_mealy::Mealy;
use lw_settle::{Settled, settle_block};
use lw_table::ObservationTable;
use lw_tree::DiscriminationTree;
use lw_words::{NoMemory, Words};
use std::alloc::Global;

/// The kind of a learner.
#[derive(Clone, Copy, Debug, PartialEq, Eq)]
pub enum Kind {
    /// An observation table (Angluin 1987).
    Table,
    /// A discrimination tree whose temporary nodes are settled (Isberner, Howar and Steffen 2014).
    Ttt,
}

/// A learner, which asks an oracle until it has a machine.
#[derive(Drop)]
pub enum Learner {
    Table(ObservationTable),
    Tree(DiscriminationTree),
}

impl Learner {
    /// The learner of these settings, before anything was asked.
    pub(crate) fn new(
        alloc: Global,
        inputs: u16,
        outputs: u16,
        settings: Settings,
    ) -> Result<Learner, NoMemory>
        requires inputs { (1 ≤ inputs) × (inputs ≤ 64) }
        requires outputs { (1 ≤ outputs) × (outputs ≤ 4096) }
        ensures is_new { IfOk result (IsNew settings.kind inputs outputs
            settings.max_states) }
        ensures table { IfOk result (IsNewTable settings.kind inputs outputs
            settings.max_states) }
    {
        let max_states = settings.max_states;
        Ok(match settings.kind {
            Kind::Table => {
                Learner::Table(ObservationTable::new(alloc, inputs, outputs, max_states)?)
            }
            Kind::Ttt => {
                Learner::Tree(DiscriminationTree::new(alloc, inputs, outputs, max_states)?)
            }
        })
    }

    /// The access words, in the order of the states.
    pub fn access(&self) -> &Words
        ensures value { result.now ≡ access_of self.now }
        ensures learner { IsLearner self.now }
    {
        match self {
            Learner::Table(table) => table.access(),
            Learner::Tree(tree) => tree.access(),
        }
    }

    /// How often it was refined.
    pub fn refinements(&self) -> u32
        ensures value { result ≡ refinements_of self.now }
        ensures learner { IsLearner self.now }
    {
        match self {
            Learner::Table(table) => table.refinements(),
            Learner::Tree(tree) => tree.refinements(),
        }
    }

    /// The machine of a closed learner: a state for each access word, in their order.
    pub(crate) fn machine(&self) -> Result<Mealy, NoMemory>
        requires closed { IsClosedLearner self.now }
        ensures value { IfOk result (λ m. IsMachineOf self.now m.rows) }
        ensures inputs { IfOk result (λ m. m.inputs ≡ inputs_of self.now) }
        ensures outputs { IfOk result (λ m. m.outputs ≡ outputs_of self.now) }
    {
        match self {
            Learner::Table(table) => table.machine(),
            Learner::Tree(tree) => tree.machine(),
        }
    }

    /// Asks until each letter leads from each state to a state.
    pub(crate) fn close<O: Oracle>(&mut self, oracle: &mut O) -> Result<(), GrowStop>
        requires can { O.can_settle oracle.old }
        requires may { MayAsk (O.state oracle.old).stop }
        requires inputs { inputs_of self.old ≡ (O.state oracle.old).inputs }
        requires outputs { outputs_of self.old ≡ (O.state oracle.old).outputs }
        requires read { IsRead (answers_of (O.state oracle.old).kept) self.old }
        ensures grows { Grows (answers_of (O.state oracle.new).kept) self.old self.new result }
        ensures plainly { OnOk result (ClosesAsPlain self.old self.new (O.state oracle.old)
            (O.state oracle.new)) }
        ensures leaves { Leaves (O.state oracle.old) (O.state oracle.new) (grown_stop result) }
        ensures can { O.can_settle oracle.new }
    {
        match self {
            Learner::Table(table) => table.close(oracle),
            Learner::Tree(tree) => tree.close(oracle),
        }
    }

    /// Refines a closed learner by a cut of its machine.
    pub(crate) fn refine<O: Oracle>(&mut self, oracle: &mut O, cut: &Cut) -> Result<(), GrowStop>
        requires can { O.can_settle oracle.old }
        requires may { MayAsk (O.state oracle.old).stop }
        requires inputs { inputs_of self.old ≡ (O.state oracle.old).inputs }
        requires outputs { outputs_of self.old ≡ (O.state oracle.old).outputs }
        requires read { IsRead (answers_of (O.state oracle.old).kept) self.old }
        requires closed { IsClosedLearner self.old }
        requires cut { (m : Rows) × IsMachineOf self.old m × IsCut
            (answers_of (O.state oracle.old).kept) (inputs_of self.old) m (access_of self.old)
            cut.now }
        ensures grows { Grows (answers_of (O.state oracle.new).kept) self.old self.new result }
        ensures plainly { OnOk result (RefinesAsPlain cut.now.suffix self.old self.new
            (O.state oracle.old) (O.state oracle.new)) }
        ensures more { OnOk result (length (access_of self.old) < length (access_of self.new)) }
        ensures leaves { Leaves (O.state oracle.old) (O.state oracle.new) (grown_stop result) }
        ensures can { O.can_settle oracle.new }
    {
        match self {
            Learner::Table(table) => table.refine(oracle, cut),
            Learner::Tree(tree) => tree.split(oracle, cut),
        }
    }

    /// Settles a block of a closed tree, if there is one.
    pub(crate) fn settle<O: Oracle>(
        &mut self,
        oracle: &mut O,
        alloc: Global,
    ) -> Result<Settled, GrowStop>
        requires can { O.can_settle oracle.old }
        requires may { MayAsk (O.state oracle.old).stop }
        requires inputs { inputs_of self.old ≡ (O.state oracle.old).inputs }
        requires outputs { outputs_of self.old ≡ (O.state oracle.old).outputs }
        requires read { IsRead (answers_of (O.state oracle.old).kept) self.old }
        requires closed { IsClosedLearner self.old }
        requires keeps { Keeps (O.state oracle.old) }
        requires learner { IsLearner self.old }
        requires gives { (m : Rows) × IsMachineOf self.old m × Gives m
            (answers_of (O.state oracle.old).kept) }
        ensures grows { Grows (answers_of (O.state oracle.new).kept) self.old self.new result }
        ensures settles { IfOk result (SettlesBlock self.old self.new) }
        ensures unasked { IfOk result (λ s. s ≡ NoBlock →
            O.state oracle.new ≡ O.state oracle.old) }
        ensures leaves { Leaves (O.state oracle.old) (O.state oracle.new) (grown_stop result) }
        ensures can { O.can_settle oracle.new }
    {
        match self {
            Learner::Table(_) => Ok(Settled::NoBlock),
            Learner::Tree(tree) => settle_block(oracle, alloc, tree),
        }
    }
}
