//! Words as texts.
ghost use Rattle.std.specs.Prelude.{◌≡◌, ◌++◌, OnOk, string_bytes};
ghost use Rattle.lw_words.specs.Word.{name_at, word_text};

use crate::{Names, NoMemory};

/// Puts the name of a letter behind a text; nothing for a number that has none.
fn put_name(text: &mut String, names: &Names, letter: u16) -> Result<(), NoMemory>
    ensures { OnOk result (string_bytes text.new ≡
        string_bytes text.old ++ name_at names.now letter) }
{
    if letter < names.len() {
        text.push_str(names.name(letter))?;
    }
    Ok(())
}

/// Puts a word behind a text: the names of its letters, joined by one blank each. A number that has no name puts none.
pub fn put_word(text: &mut String, names: &Names, word: &[u16]) -> Result<(), NoMemory>
    ensures { OnOk result (string_bytes text.new ≡
        string_bytes text.old ++ word_text names.now word.now) }
{
    let Some((first, rest)) = word.split_first() else {
        return Ok(());
    };
    put_name(text, names, *first)?;
    for letter in rest {
        text.push_str(" ")?;
        put_name(text, names, *letter)?;
    }
    Ok(())
}
