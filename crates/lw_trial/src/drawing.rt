//! Machines that are drawn by a number.
ghost use Rattle.std.specs.Prelude.{◌≡◌, ℕ, ◌+◌, ◌*◌, ◌-◌, ◌%◌, ◌<◌, ◌≤◌, map, nat_eq, if◌then◌else◌, IfOk, OnOk};
ghost use Rattle.std.specs.List.{range_with_len};
ghost use Rattle.lw_mealy.specs.Machine.{mealy_of};
ghost use Rattle.lw_draw.specs.Drawn.{after_draws, draw_at};
ghost use Rattle.lw_trial.specs.Drawn.{drawn_cell, drawn_rows};

use lw_draw::Generator;
use lw_mealy::Mealy;
use lw_words::NoMemory;
use std::alloc::Global;

/// The next state, and from the last the first; the last alone has output 1.
fn round_pair(states: u16, state: u16) -> (u16, u16)
    requires state { state < states }
    requires few { states ≤ 1024 }
    ensures target { result.0 ≡ (state + 1) % states }
    ensures output { result.1 ≡ (if nat_eq (state + 1) states then 1 else 0) }
{
    ((state + 1) % states, u16::from(state + 1 == states))
}

/// A target among this many states, and an output: two numbers.
fn drawn_pair(random: &mut Generator, states: u16) -> (u16, u16)
    requires { 0 < states }
    ensures target { result.0 ≡ draw_at random.old 0 % states }
    ensures output { result.1 ≡ draw_at random.old 1 % 2 }
    ensures random { random.new ≡ after_draws random.old 2 }
{
    let target = random.draw() % u64::from(states);
    let output = random.draw() % 2;
    (target as u16, output as u16)
}

/// The row of a state.
fn drawn_state(
    alloc: Global,
    random: &mut Generator,
    states: u16,
    inputs: u16,
    state: u16,
) -> Result<Vec<(u16, u16)>, NoMemory>
    requires state { state < states }
    requires few { states ≤ 1024 }
    requires inputs { 1 ≤ inputs }
    ensures row { IfOk result (λ row. row.items ≡ map (drawn_cell random.old states state)
        (range_with_len 0 inputs)) }
    ensures random { OnOk result (random.new ≡ after_draws random.old (2 * (inputs - 1))) }
{
    let mut row = Vec::with_capacity(alloc, usize::from(inputs))?;
    row.push(round_pair(states, state))?;
    for _ in 1..inputs {
        row.push(drawn_pair(random, states))?;
    }
    Ok(row)
}

/// A machine of this many states and inputs and two outputs, drawn by a seed. Letter 0 goes round the states, and has
/// output 1 at the last alone; targets and outputs of the other letters are the numbers of the seed's generator.
///
/// # Errors
/// Only where memory runs out.
pub fn drawn(alloc: Global, states: u16, inputs: u16, seed: u64) -> Result<Mealy, NoMemory>
    requires states { (1 ≤ states) × (states ≤ 1024) }
    requires inputs { (1 ≤ inputs) × (inputs ≤ 64) }
    ensures { IfOk result (λ m. m ≡ mealy_of inputs 2 (drawn_rows states inputs seed)) }
{
    let mut random = Generator::of_seed(seed);
    let mut rows = Vec::with_capacity(alloc, usize::from(states))?;
    for state in 0..states {
        rows.push(drawn_state(alloc, &mut random, states, inputs, state)?)?;
    }
    Ok(Mealy::of_rows(alloc, inputs, 2, rows))
}
