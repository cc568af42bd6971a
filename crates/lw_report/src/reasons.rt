//! Why a file is none of its kind, in words.
ghost use Rattle.std.specs.Prelude.{◌≡◌, IfOk, string_bytes};
ghost use Rattle.lw_report.specs.Reasons.{field_name, mealy_reason, names_reason, reason_of};

use lw_json::{Field, JsonFault};
use lw_mealy::MealyFault;
use lw_words::{NamesFault, NoMemory};
use std::alloc::Global;

fn field_name(field: Field) -> &'static str
    ensures { result.now ≡ field_name field }
{
    match field {
        Field::Root => "root",
        Field::Format => "format",
        Field::Inputs => "inputs",
        Field::Outputs => "outputs",
        Field::States => "states",
        Field::Answers => "answers",
        Field::Both => "both",
        Field::Neither => "neither",
        Field::Command => "command",
    }
}

/// Why the list of this name is no list of names.
pub(crate) fn names_reason(alloc: Global, list: &str, fault: NamesFault) -> Result<String, NoMemory>
    ensures { IfOk result (λ text. string_bytes text ≡ names_reason list.now fault) }
{
    let text = match fault {
        NamesFault::Empty => format!(in alloc; "{list}: empty list")?,
        NamesFault::TooMany(count) => format!(in alloc; "{list}: too many names: {count}")?,
        NamesFault::BadName(place) => format!(in alloc; "{list}: bad name at {place}")?,
        NamesFault::Repeated(first, second) => {
            format!(in alloc; "{list}: repeated name at {first} and {second}")?
        }
        NamesFault::NoMemory => format!(in alloc; "{list}: no memory")?,
    };
    Ok(text)
}

/// Why rows are no machine.
fn mealy_reason(alloc: Global, fault: MealyFault) -> Result<String, NoMemory>
    ensures { IfOk result (λ text. string_bytes text ≡ mealy_reason fault) }
{
    let text = match fault {
        MealyFault::NoState => String::from_str(alloc, "no state")?,
        MealyFault::TooMany(count) => format!(in alloc; "too many states: {count}")?,
        MealyFault::Ragged(state) => {
            format!(in alloc; "wrong number of cells at state {state}")?
        }
        MealyFault::Target(state, letter, target) => {
            format!(in alloc; "no such target at state {state}, letter {letter}: {target}")?
        }
        MealyFault::Output(state, letter, output) => {
            format!(in alloc; "no such output at state {state}, letter {letter}: {output}")?
        }
        MealyFault::NoMemory => String::from_str(alloc, "no memory")?,
    };
    Ok(text)
}

/// Why a file is none of its kind.
pub(crate) fn reason(alloc: Global, fault: JsonFault) -> Result<String, NoMemory>
    ensures { IfOk result (λ text. string_bytes text ≡ reason_of fault) }
{
    match fault {
        JsonFault::NotJson => Ok(String::from_str(alloc, "not JSON")?),
        JsonFault::Shape(field) => {
            let name = field_name(field);
            Ok(format!(in alloc; "shape of {name}")?)
        }
        JsonFault::Inputs(fault) => names_reason(alloc, "inputs", fault),
        JsonFault::Outputs(fault) => names_reason(alloc, "outputs", fault),
        JsonFault::UnknownOutput(state, letter) => {
            Ok(format!(in alloc; "unknown output at state {state}, letter {letter}")?)
        }
        JsonFault::Mealy(fault) => mealy_reason(alloc, fault),
        JsonFault::BadWord(place) => Ok(format!(in alloc; "bad word at answer {place}")?),
        JsonFault::Lengths(place) => Ok(format!(in alloc; "lengths differ at answer {place}")?),
        JsonFault::NoMemory => Ok(String::from_str(alloc, "no memory")?),
    }
}
