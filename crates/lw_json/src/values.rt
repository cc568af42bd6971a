//! Values of JSON: what the writers of all kinds of file have in common.

ghost use Rattle.std.specs.Prelude.{◌≡◌, IfOk, OnOk};
ghost use Rattle.serde_json.specs.Data.{put};
ghost use Rattle.serde_json.specs.View.{view, members_view};
ghost use Rattle.lw_words.specs.Word.{IsNames};
ghost use Rattle.lw_json.specs.MachineText.{texts_data};

use lw_words::{Names, NoMemory};
use serde_json::{Map, Value};
use std::alloc::Global;

/// The names as a list of texts.
pub fn names_value(alloc: Global, names: &Names) -> Result<Value, NoMemory>
    ensures value { IfOk result (λ v. view v ≡ texts_data names.now) }
    ensures names { OnOk result (IsNames names.now) }
{
    let mut items = Vec::with_capacity(alloc, usize::from(names.len()))?;
    for n in 0..names.len() {
        items.push(Value::try_from_str(alloc, names.name(n))?)?;
    }
    Ok(Value::Array(items))
}

/// Puts a member into an object.
pub fn put_member(
    alloc: Global,
    members: &mut Map<String, Value>,
    name: &str,
    value: Value,
) -> Result<(), NoMemory>
    ensures { OnOk result (members_view members.new.entries
        ≡ put name.now (view value) (members_view members.old.entries)) }
{
    let _replaced = members.insert(String::from_str(alloc, name)?, value)?;
    Ok(())
}

/// Puts a member that is the list of these names into an object.
pub fn put_names(
    alloc: Global,
    members: &mut Map<String, Value>,
    name: &str,
    names: &Names,
) -> Result<(), NoMemory>
    ensures value { OnOk result (members_view members.new.entries
        ≡ put name.now (texts_data names.now) (members_view members.old.entries)) }
    ensures names { OnOk result (IsNames names.now) }
{
    let list = names_value(alloc, names)?;
    put_member(alloc, members, name, list)?;
    Ok(())
}
