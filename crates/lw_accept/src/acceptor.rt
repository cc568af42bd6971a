//! Acceptors with the names of their letters, complete and within the limits.
ghost use Rattle.std.specs.Prelude.{◌≡◌, ◌<◌, length, map};
ghost use Rattle.lw_accept.specs.Acceptor.{IsNamedAcceptor, accepts_in, target};

use lw_words::Names;
use std::marker::Model;

/// A deterministic acceptor of 1 to 1,024 states, of which state 0 is initial (Rabin and Scott 1959), with 1 to 63 names of its
/// letters, none of them `?`. Contracts see the names, the bits of the states and the next states.
#[derive(Drop)]
pub struct Acceptor {
    inputs: Names,
    accepting: Vec<bool>,
    targets: Vec<Vec<u16>>,
}

impl Model for Acceptor {
    ghost use Rattle.std.specs.Prelude.{map};
    ghost use Rattle.lw_accept.specs.Acceptor.{NamedAcceptor, IsNamedAcceptor};

    ghost Value = { NamedAcceptor };

    ghost view = { λ a. record { inputs = a.inputs; automaton = record { accepting = a.accepting.items; targets = map (λ r. r.items) a.targets.items } } };

    ghost invariant = { λ a. IsNamedAcceptor (record { inputs = a.inputs; automaton = record { accepting = a.accepting.items; targets = map (λ r. r.items) a.targets.items } }) };
}

impl Acceptor {
    /// The acceptor of these names, bits and next states, which are known to be one. Takes no memory.
    pub(crate) fn of_parts(inputs: Names, accepting: Vec<bool>, targets: Vec<Vec<u16>>) -> Acceptor
        requires { IsNamedAcceptor (record {
          inputs = inputs;
          automaton = record
              { accepting = accepting.items; targets = map (λ r. r.items) targets.items };
        }) }
        ensures { result ≡ record {
          inputs = inputs;
          automaton = record
              { accepting = accepting.items; targets = map (λ r. r.items) targets.items };
        } }
    {
        Acceptor {
            inputs,
            accepting,
            targets,
        }
    }

    /// The names of the letters.
    pub fn inputs(&self) -> &Names
        ensures value { result.now ≡ self.now.inputs }
        ensures named { IsNamedAcceptor self.now }
    {
        &self.inputs
    }

    /// The number of states.
    pub fn states(&self) -> u16
        ensures value { result ≡ length self.now.automaton.targets }
        ensures named { IsNamedAcceptor self.now }
    {
        self.targets.len() as u16
    }

    /// Whether a state accepts. Takes no memory.
    pub fn accepts(&self, q: u16) -> bool
        requires { q < length self.now.automaton.targets }
        ensures { result ≡ accepts_in self.now.automaton q }
    {
        self.accepting[usize::from(q)]
    }

    /// The next state. Takes no memory.
    pub fn target(&self, q: u16, x: u16) -> u16
        requires state { q < length self.now.automaton.targets }
        requires letter { x < length self.now.inputs }
        ensures value { result ≡ target self.now.automaton.targets q x }
        ensures state { result < length self.now.automaton.targets }
    {
        self.targets[usize::from(q)][usize::from(x)]
    }
}
