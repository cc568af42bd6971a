//! The lines of answers.
ghost use Rattle.std.specs.Prelude.{◌≡◌, ◌<◌, ◌++◌, length, OnOk, IfOk};
ghost use Rattle.std.specs.List.{All};
ghost use Rattle.lw_words.specs.Word.{name_at, word_text};
ghost use Rattle.lw_ask.specs.Lines.{line_of};

use lw_sul::Sul;
use lw_words::{Names, NoMemory, put_word};
use std::alloc::Global;

/// The names of a word's letters, joined by one blank.
fn word_bytes(alloc: Global, letters: &Names, word: &[u16]) -> Result<Vec<u8>, NoMemory>
    ensures { IfOk result (λ line. line.items ≡ word_text letters.now word.now) }
{
    let mut text = String::new(alloc);
    put_word(&mut text, letters, word)?;
    Ok(text.into_bytes())
}

/// Appends the name of an output.
fn put_output<S: Sul>(line: &mut Vec<u8>, output: u16, sul: &S) -> Result<(), NoMemory>
    requires { output < length (S.state sul.now).names }
    ensures { OnOk result (line.new.items ≡ line.old.items ++ name_at (S.state sul.now).names
        output) }
{
    line.extend_from_slice(sul.name(output).as_slice())?;
    Ok(())
}

/// Appends the names of outputs, joined by one blank.
fn put_outputs<S: Sul>(line: &mut Vec<u8>, outs: &[u16], sul: &S) -> Result<(), NoMemory>
    requires { All (λ y. y < length (S.state sul.now).names) outs.now }
    ensures { OnOk result (line.new.items ≡ line.old.items ++
        word_text (S.state sul.now).names outs.now) }
{
    let Some((first, rest)) = outs.split_first() else {
        return Ok(());
    };
    put_output(line, *first, sul)?;
    for output in rest {
        line.push(b' ')?;
        put_output(line, *output, sul)?;
    }
    Ok(())
}

/// The line about what a system answered to a word, with its line feed.
pub(crate) fn answer_line<S: Sul>(
    alloc: Global,
    letters: &Names,
    sul: &S,
    word: &[u16],
    outs: &[u16],
) -> Result<Vec<u8>, NoMemory>
    requires { All (λ y. y < length (S.state sul.now).names) outs.now }
    ensures { IfOk result (λ line. line.items ≡ line_of letters.now (S.state sul.now).names
        word.now outs.now) }
{
    let mut line = word_bytes(alloc, letters, word)?;
    line.extend_from_slice(b" / ")?;
    put_outputs(&mut line, outs, sul)?;
    line.push(b'\n')?;
    Ok(line)
}
