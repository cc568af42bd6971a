//! Lines that are sent over a link, and their answers.
ghost use Rattle.std.specs.Prelude.{◌≡◌, ◌≢◌, ◌≤◌, ◌<◌, codes, length, Some, Err, MatchOption, IfOk, OnOk, IfErr, OnErr, IfSome, List, ℕ};
ghost use Rattle.std.specs.Str.Lines.{strip_carriage_return};
ghost use Rattle.lw_words.specs.Cause.{CountedFault};
ghost use Rattle.lw_words.specs.Word.{AllDiffer};
ghost use Rattle.lw_words.specs.declared.stop.SulStop.{SulStop as Stop};
ghost use Rattle.lw_outside.specs.Protocol.{in_line, ready_line, reset_line};
ghost use Rattle.lw_names.specs.Names.{Brings};
ghost use Rattle.lw_line.specs.Causes.{IsFormed};
ghost use Rattle.lw_line.specs.Transcripts.{number_behind};
ghost use Rattle.lw_line.specs.bodies.Exchanges.{IsAnswered, IsRefusal, NamesNone, ended};
ghost use Rattle.lw_line.specs.bodies.Pieces.{EndsOpen, HasLine};

use crate::inbox::Inbox;
use crate::outputs::OutputNames;
use crate::sent_line::SentLine;
use lw_names::OutName;
use lw_outside::{Failed, Link};
use lw_words::{Line, SulStop};

/// A line without the carriage return at its end, if it has one.
fn without_return(received: &[u8]) -> &[u8]
    ensures { result.now ≡ strip_carriage_return received.now }
{
    match received.strip_suffix(b"\r") {
        Some(line) => line,
        None => received,
    }
}

/// The next line as it was received, without its line feed.
fn receive<L: Link>(link: &mut L, inbox: &mut Inbox) -> Result<Line, SulStop>
    ensures line { IfOk result (λ raw. HasLine inbox.old inbox.new raw
        (L.state link.old).transcript (L.state link.new).transcript) }
    ensures err { IfErr result (λ stop. EndsOpen inbox.old stop (L.state link.old).transcript
        (L.state link.new).transcript) }
    ensures failed { result ≡ Err Stop.Failed → CountedFault (L.state link.old).faults
        (L.state link.new).faults }
    ensures gone { result ≡ Err Stop.Gone → CountedFault (L.state link.old).ends
        (L.state link.new).ends }
    ensures counts { ((L.state link.old).faults ≤ (L.state link.new).faults) ×
        ((L.state link.old).ends ≤ (L.state link.new).ends) }
    ensures same { (L.state link.new).number ≡ (L.state link.old).number }
{
    loop {
        if let Some(line) = inbox.take_line() {
            return Ok(line);
        }
        if inbox.is_full() {
            return Err(SulStop::BadLine(inbox.line()));
        }
        match inbox.take_from(link) {
            Ok(0) => return Err(SulStop::Gone),
            Ok(_) => {}
            Err(Failed) => return Err(SulStop::Failed),
        }
    }
}

/// Sends a line, and receives the line that answers it.
fn exchange<L: Link>(link: &mut L, inbox: &mut Inbox, line: &[u8]) -> Result<Line, SulStop>
    requires { 0 < length line.now }
    ensures answer { IfOk result (λ answer. IsAnswered line.now inbox.old inbox.new answer
        (L.state link.old).transcript (L.state link.new).transcript) }
    ensures err { IfErr result (λ stop. IsRefusal (λ _. ⊥) line.now inbox.old inbox.new stop
        (L.state link.old).transcript (L.state link.new).transcript) }
    ensures failed { result ≡ Err Stop.Failed → CountedFault (L.state link.old).faults
        (L.state link.new).faults }
    ensures gone { result ≡ Err Stop.Gone → CountedFault (L.state link.old).ends
        (L.state link.new).ends }
    ensures counts { ((L.state link.old).faults ≤ (L.state link.new).faults) ×
        ((L.state link.old).ends ≤ (L.state link.new).ends) }
    ensures same { (L.state link.new).number ≡ (L.state link.old).number }
{
    if link.send(line).is_err() {
        return Err(SulStop::Failed);
    }
    let raw = receive(link, inbox)?;
    Ok(Line::new(without_return(raw.as_slice())))
}

/// Asks a child to go back to its initial state.
pub(crate) fn start<L: Link>(link: &mut L, inbox: &mut Inbox) -> Result<(), SulStop>
    ensures ready { OnOk result (IsAnswered (ended reset_line) inbox.old inbox.new ready_line
        (L.state link.old).transcript (L.state link.new).transcript) }
    ensures err { IfErr result (λ stop. IsRefusal (λ answer. ¬ IsFormed reset_line answer)
        (ended reset_line) inbox.old inbox.new stop (L.state link.old).transcript
        (L.state link.new).transcript) }
    ensures failed { result ≡ Err Stop.Failed → CountedFault (L.state link.old).faults
        (L.state link.new).faults }
    ensures gone { result ≡ Err Stop.Gone → CountedFault (L.state link.old).ends
        (L.state link.new).ends }
    ensures counts { ((L.state link.old).faults ≤ (L.state link.new).faults) ×
        ((L.state link.old).ends ≤ (L.state link.new).ends) }
    ensures same { (L.state link.new).number ≡ (L.state link.old).number }
{
    let answer = exchange(link, inbox, b"reset\n")?;
    if answer.as_slice() == b"ready".as_slice() {
        Ok(())
    } else {
        Err(SulStop::BadLine(answer))
    }
}

/// The number of the output that an answer names, where it names one and has a number.
fn output_in(outputs: &mut OutputNames, answer: &[u8]) -> Option<u16>
    ensures cases { MatchOption result
        (NamesNone outputs.old.names outputs.old.most answer.now × (outputs.new ≡ outputs.old))
        (λ y. number_behind (codes "out ") outputs.new.names answer.now ≡ Some y) }
    ensures brings { IfSome result (λ y. Brings outputs.old.names outputs.new.names y ×
        (y < outputs.old.range)) }
    ensures differ { AllDiffer outputs.new.names }
    ensures same { (outputs.new.most ≡ outputs.old.most) × (outputs.new.range ≡ outputs.old.range) }
{
    let _names = outputs.len();
    let name = OutName::from_bytes(answer.strip_prefix(b"out ")?)?;
    outputs.number(&name)
}

/// Sends a child the letter with this name, and tells the number of its output.
pub(crate) fn ask<L: Link>(
    link: &mut L,
    inbox: &mut Inbox,
    letter: &str,
    outputs: &mut OutputNames,
) -> Result<u16, SulStop>
    requires { length letter.now ≤ 64 }
    ensures output { IfOk result (λ y. (answer : List ℕ) × IsAnswered (ended (in_line letter.now))
        inbox.old inbox.new answer (L.state link.old).transcript (L.state link.new).transcript ×
        (number_behind (codes "out ") outputs.new.names answer ≡ Some y)) }
    ensures brings { IfOk result (λ y. Brings outputs.old.names outputs.new.names y ×
        (y < outputs.old.range)) }
    ensures differ { OnOk result (AllDiffer outputs.new.names) }
    ensures err { IfErr result (λ stop. IsRefusal (NamesNone outputs.old.names outputs.old.most)
        (ended (in_line letter.now)) inbox.old inbox.new stop (L.state link.old).transcript
        (L.state link.new).transcript) }
    ensures kept { OnErr result (outputs.new ≡ outputs.old) }
    ensures failed { result ≡ Err Stop.Failed → CountedFault (L.state link.old).faults
        (L.state link.new).faults }
    ensures gone { result ≡ Err Stop.Gone → CountedFault (L.state link.old).ends
        (L.state link.new).ends }
    ensures counts { ((L.state link.old).faults ≤ (L.state link.new).faults) ×
        ((L.state link.old).ends ≤ (L.state link.new).ends) }
    ensures same { ((L.state link.new).number ≡ (L.state link.old).number) ×
        (outputs.new.most ≡ outputs.old.most) × (outputs.new.range ≡ outputs.old.range) }
{
    let line = SentLine::naming(b"in ", letter.as_bytes());
    let answer = exchange(link, inbox, line.as_slice())?;
    match output_in(outputs, answer.as_slice()) {
        Some(y) => Ok(y),
        None => Err(SulStop::BadLine(answer)),
    }
}
