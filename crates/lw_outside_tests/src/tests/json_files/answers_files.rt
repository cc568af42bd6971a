//! Answers files: what is read of both formats, how answers are written, and the first fault of bytes that are none.

use lw_json::{Answers, Field, JsonFault, answers_text, read_answers};
use lw_words::{Kept, NamesFault};
use std::alloc::Global;
use std::process::Abort;

/// Answers files, in both formats.
const FORMAT_1: &str =
    "{\"format\":1,\"inputs\":[\"a\",\"b\"],\"outputs\":[\"0\",\"1\"],\"answers\":[[\"a\",\"0\"],[\"\",\"\"],[\"b a\",\"0 1\"]]}";

const FORMAT_2: &str =
    "{\"format\":2,\"inputs\":[\"a\",\"b\"],\"outputs\":[\"0\",\"1\"],\"answers\":[[16,18446744073709551615,\"a\",\"0\"],[2,0,\"b\",\"1\"]]}";

/// Answers files, each with its text in format 2 and in order: by the words' numbers, then instance, run and place.
static WRITTEN: [(&str, &str); 3] = [
    (
        "{\"format\":2,\"outputs\":[\"0\",\"1\"],\"inputs\":[\"b\",\"a\"],\"answers\":[[3,5,\"b a\",\"0 1\"],[0,7,\"a\",\"0\"],[1,2,\"b\",\"1\"],[0,7,\"a\",\"1\"],[0,3,\"a\",\"1\"],[0,0,\"\",\"\"],[0,10,\"a\",\"0\"]]}",
        "{\"answers\":[[0,0,\"\",\"\"],[1,2,\"b\",\"1\"],[0,3,\"a\",\"1\"],[0,7,\"a\",\"0\"],[0,7,\"a\",\"1\"],[0,10,\"a\",\"0\"],[3,5,\"b a\",\"0 1\"]],\"format\":2,\"inputs\":[\"b\",\"a\"],\"outputs\":[\"0\",\"1\"]}\n",
    ),
    (
        "{\"answers\":[[\"a\",\"0\"],[\"\",\"\"],[\"b a\",\"0 1\"]],\"format\":1,\"inputs\":[\"a\",\"b\"],\"outputs\":[\"0\",\"1\"]}",
        "{\"answers\":[[0,1,\"\",\"\"],[0,0,\"a\",\"0\"],[0,2,\"b a\",\"0 1\"]],\"format\":2,\"inputs\":[\"a\",\"b\"],\"outputs\":[\"0\",\"1\"]}\n",
    ),
    (
        "{\"format\":1,\"inputs\":[\"a\"],\"outputs\":[\"0\"],\"answers\":[]}",
        "{\"answers\":[],\"format\":2,\"inputs\":[\"a\"],\"outputs\":[\"0\"]}\n",
    ),
];

/// Bytes that are no answers file, each with its first fault.
static NO_ANSWERS: [(&str, JsonFault); 46] = [
    ("x", JsonFault::NotJson),
    ("7", JsonFault::Shape(Field::Root)),
    ("{}", JsonFault::Shape(Field::Format)),
    ("{\"inputs\":7}", JsonFault::Shape(Field::Format)),
    (
        "{\"format\":0,\"inputs\":[\"a\",\"b\"],\"outputs\":[\"0\",\"1\"],\"answers\":7}",
        JsonFault::Shape(Field::Format),
    ),
    (
        "{\"format\":4,\"inputs\":[\"a\",\"b\"],\"outputs\":[\"0\",\"1\"],\"answers\":[]}",
        JsonFault::Shape(Field::Format),
    ),
    (
        "{\"format\":\"1\",\"inputs\":[\"a\",\"b\"],\"outputs\":[\"0\",\"1\"],\"answers\":[]}",
        JsonFault::Shape(Field::Format),
    ),
    (
        "{\"format\":1.0,\"inputs\":[\"a\",\"b\"],\"outputs\":[\"0\",\"1\"],\"answers\":[]}",
        JsonFault::Shape(Field::Format),
    ),
    (
        "{\"format\":null,\"inputs\":[\"a\",\"b\"],\"outputs\":[\"0\",\"1\"],\"answers\":[]}",
        JsonFault::Shape(Field::Format),
    ),
    (
        "{\"format\":1,\"outputs\":7}",
        JsonFault::Shape(Field::Inputs),
    ),
    (
        "{\"format\":1,\"inputs\":7,\"outputs\":7,\"answers\":7}",
        JsonFault::Shape(Field::Inputs),
    ),
    (
        "{\"format\":2,\"inputs\":[]}",
        JsonFault::Shape(Field::Outputs),
    ),
    (
        "{\"format\":2,\"inputs\":[\"a\",\"b\"],\"outputs\":[7],\"answers\":7}",
        JsonFault::Shape(Field::Outputs),
    ),
    (
        "{\"format\":1,\"inputs\":[],\"outputs\":[]}",
        JsonFault::Shape(Field::Answers),
    ),
    (
        "{\"format\":1,\"inputs\":[],\"outputs\":[\"0\",\"1\"],\"answers\":{}}",
        JsonFault::Shape(Field::Answers),
    ),
    (
        "{\"format\":1,\"inputs\":[\"a\",\"b\"],\"outputs\":[\"0\",\"1\"],\"answers\":[\"a\"]}",
        JsonFault::Shape(Field::Answers),
    ),
    (
        "{\"format\":1,\"inputs\":[\"a\",\"b\"],\"outputs\":[\"0\",\"1\"],\"answers\":[[\"a\"]]}",
        JsonFault::Shape(Field::Answers),
    ),
    (
        "{\"format\":1,\"inputs\":[\"a\",\"b\"],\"outputs\":[\"0\",\"1\"],\"answers\":[[\"a\",\"0\",\"0\"]]}",
        JsonFault::Shape(Field::Answers),
    ),
    (
        "{\"format\":1,\"inputs\":[\"a\",\"b\"],\"outputs\":[\"0\",\"1\"],\"answers\":[[\"a\",0]]}",
        JsonFault::Shape(Field::Answers),
    ),
    (
        "{\"format\":1,\"inputs\":[\"a\",\"b\"],\"outputs\":[\"0\",\"1\"],\"answers\":[[0,0,\"a\",\"0\"]]}",
        JsonFault::Shape(Field::Answers),
    ),
    (
        "{\"format\":1,\"inputs\":[\"a\",\"b\"],\"outputs\":[\"0\",\"1\"],\"answers\":[[\"x\",\"x\"],[]]}",
        JsonFault::Shape(Field::Answers),
    ),
    (
        "{\"format\":2,\"inputs\":[\"a\",\"b\"],\"outputs\":[\"0\",\"1\"],\"answers\":[[\"a\",\"0\"]]}",
        JsonFault::Shape(Field::Answers),
    ),
    (
        "{\"format\":2,\"inputs\":[\"a\",\"b\"],\"outputs\":[\"0\",\"1\"],\"answers\":[[17,0,\"a\",\"0\"]]}",
        JsonFault::Shape(Field::Answers),
    ),
    (
        "{\"format\":2,\"inputs\":[\"a\",\"b\"],\"outputs\":[\"0\",\"1\"],\"answers\":[[-1,0,\"a\",\"0\"]]}",
        JsonFault::Shape(Field::Answers),
    ),
    (
        "{\"format\":2,\"inputs\":[\"a\",\"b\"],\"outputs\":[\"0\",\"1\"],\"answers\":[[0,-1,\"a\",\"0\"]]}",
        JsonFault::Shape(Field::Answers),
    ),
    (
        "{\"format\":2,\"inputs\":[\"a\",\"b\"],\"outputs\":[\"0\",\"1\"],\"answers\":[[0,0.5,\"a\",\"0\"]]}",
        JsonFault::Shape(Field::Answers),
    ),
    (
        "{\"format\":2,\"inputs\":[\"a\",\"b\"],\"outputs\":[\"0\",\"1\"],\"answers\":[[0,18446744073709551616,\"a\",\"0\"]]}",
        JsonFault::Shape(Field::Answers),
    ),
    (
        "{\"format\":2,\"inputs\":[\"a\",\"b\"],\"outputs\":[\"0\",\"1\"],\"answers\":[[0,0,7,\"0\"]]}",
        JsonFault::Shape(Field::Answers),
    ),
    (
        "{\"format\":2,\"inputs\":[\"a\",\"b\"],\"outputs\":[\"0\",\"1\"],\"answers\":[[0,0,\"a\",7]]}",
        JsonFault::Shape(Field::Answers),
    ),
    (
        "{\"format\":2,\"inputs\":[\"a\",\"b\"],\"outputs\":[\"0\",\"1\"],\"answers\":[[0,0,\"a\",\"0\",0]]}",
        JsonFault::Shape(Field::Answers),
    ),
    (
        "{\"format\":2,\"inputs\":[\"a\",\"b\"],\"outputs\":[\"0\",\"1\"],\"answers\":[[0,0,\"a\"]]}",
        JsonFault::Shape(Field::Answers),
    ),
    (
        "{\"format\":1,\"inputs\":[],\"outputs\":[],\"answers\":[[\"x\",\"x\"]]}",
        JsonFault::Inputs(NamesFault::Empty),
    ),
    (
        "{\"format\":2,\"inputs\":[\"a\",\"a\"],\"outputs\":[\"0\",\"1\"],\"answers\":[[0,0,\"x\",\"x\"]]}",
        JsonFault::Inputs(NamesFault::Repeated(0, 1)),
    ),
    (
        "{\"format\":1,\"inputs\":[\"a\",\"b\"],\"outputs\":[],\"answers\":[[\"x\",\"x\"]]}",
        JsonFault::Outputs(NamesFault::Empty),
    ),
    (
        "{\"format\":1,\"inputs\":[\"a\",\"b\"],\"outputs\":[\"0\",\"1\"],\"answers\":[[\"c\",\"0\"]]}",
        JsonFault::BadWord(0),
    ),
    (
        "{\"format\":1,\"inputs\":[\"a\",\"b\"],\"outputs\":[\"0\",\"1\"],\"answers\":[[\"a\",\"2\"]]}",
        JsonFault::BadWord(0),
    ),
    (
        "{\"format\":1,\"inputs\":[\"a\",\"b\"],\"outputs\":[\"0\",\"1\"],\"answers\":[[\"\",\"\"],[\"a \",\"0\"]]}",
        JsonFault::BadWord(1),
    ),
    (
        "{\"format\":1,\"inputs\":[\"a\",\"b\"],\"outputs\":[\"0\",\"1\"],\"answers\":[[\" a\",\"0\"]]}",
        JsonFault::BadWord(0),
    ),
    (
        "{\"format\":1,\"inputs\":[\"a\",\"b\"],\"outputs\":[\"0\",\"1\"],\"answers\":[[\"a  b\",\"0 0\"]]}",
        JsonFault::BadWord(0),
    ),
    (
        "{\"format\":1,\"inputs\":[\"a\",\"b\"],\"outputs\":[\"0\",\"1\"],\"answers\":[[\" \",\"\"]]}",
        JsonFault::BadWord(0),
    ),
    (
        "{\"format\":1,\"inputs\":[\"a\",\"b\"],\"outputs\":[\"0\",\"1\"],\"answers\":[[\"a\\tb\",\"0 0\"]]}",
        JsonFault::BadWord(0),
    ),
    (
        "{\"format\":1,\"inputs\":[\"a\",\"b\"],\"outputs\":[\"0\",\"1\"],\"answers\":[[\"a\\r\",\"0\"]]}",
        JsonFault::BadWord(0),
    ),
    (
        "{\"format\":1,\"inputs\":[\"a\",\"b\"],\"outputs\":[\"0\",\"1\"],\"answers\":[[\"A\",\"0\"]]}",
        JsonFault::BadWord(0),
    ),
    (
        "{\"format\":2,\"inputs\":[\"a\",\"b\"],\"outputs\":[\"0\",\"1\"],\"answers\":[[0,0,\"a\",\"\"],[0,0,\"a\",\"0\"],[0,0,\"b\",\"x\"]]}",
        JsonFault::BadWord(2),
    ),
    (
        "{\"format\":1,\"inputs\":[\"a\",\"b\"],\"outputs\":[\"0\",\"1\"],\"answers\":[[\"a\",\"0\"],[\"a a\",\"0\"]]}",
        JsonFault::Lengths(1),
    ),
    (
        "{\"format\":2,\"inputs\":[\"a\",\"b\"],\"outputs\":[\"0\",\"1\"],\"answers\":[[3,4,\"\",\"0\"]]}",
        JsonFault::Lengths(0),
    ),
];

/// The first fault of a text, which is no answers file.
fn fault_of(rt: &impl Abort, alloc: Global, text: &str) -> JsonFault {
    match read_answers(alloc, text.as_bytes()) {
        Ok(_) => rt.panic("bytes outside the grammar were taken"),
        Err(fault) => fault,
    }
}

#[test]
fn the_first_fault_of_an_answers_file_is_told(rt: HostRuntime) {
    let alloc = rt.alloc();
    for (text, first) in &NO_ANSWERS {
        assert!(rt; fault_of(&rt, alloc, text) == *first, "{text}");
    }
}

/// The answers of a text.
fn answers_of(rt: &impl Abort, alloc: Global, text: &str) -> Answers {
    read_answers(alloc, text.as_bytes()).expect(rt, "answers")
}

/// Whether the recorded answer with this number is of this instance and run, to this word with these outputs.
fn kept_is(kept: &Kept, i: usize, instance: u32, run: u64, word: &[u16], outs: &[u16]) -> bool {
    if i >= kept.len() {
        return false;
    }
    let one = kept.get(i);
    let same_word = one.word.as_slice() == word;
    one.instance == instance && one.run == run && same_word && one.outs.as_slice() == outs
}

/// Whether these are the answers of the file in format 1.
fn are_of_format_1(kept: &Kept) -> bool {
    let first = kept_is(kept, 0, 0, 0, &[0], &[0]);
    let second = kept_is(kept, 1, 0, 1, &[], &[]);
    let third = kept_is(kept, 2, 0, 2, &[1, 0], &[0, 1]);
    kept.len() == 3 && first && second && third
}

/// Whether these are the answers of the file in format 2.
fn are_of_format_2(kept: &Kept) -> bool {
    let first = kept_is(kept, 0, 16, 18446744073709551615, &[0], &[0]);
    let second = kept_is(kept, 1, 2, 0, &[1], &[1]);
    kept.len() == 2 && first && second
}

fn is_format_1_read(rt: &impl Abort, alloc: Global) -> bool {
    are_of_format_1(&answers_of(rt, alloc, FORMAT_1).kept)
}

fn is_format_2_read(rt: &impl Abort, alloc: Global) -> bool {
    are_of_format_2(&answers_of(rt, alloc, FORMAT_2).kept)
}

#[test]
fn answers_are_read_in_both_formats(rt: HostRuntime) {
    let alloc = rt.alloc();
    assert!(rt; is_format_1_read(&rt, alloc));
    assert!(rt; is_format_2_read(&rt, alloc));
}

/// What is written of the answers of a text.
fn rewritten(rt: &impl Abort, alloc: Global, text: &str) -> Vec<u8> {
    let answers = answers_of(rt, alloc, text);
    let written = answers_text(alloc, &answers.inputs, &answers.outputs, &answers.kept);
    written.expect(rt, "memory")
}

/// Whether the answers of a text are written so.
fn is_written_so(rt: &impl Abort, alloc: Global, text: &str, expected: &str) -> bool {
    rewritten(rt, alloc, text).as_slice() == expected.as_bytes()
}

#[test]
fn answers_are_written_in_order_and_read_again(rt: HostRuntime) {
    let alloc = rt.alloc();
    for (text, expected) in &WRITTEN {
        assert!(rt; is_written_so(&rt, alloc, text, expected), "{text}");
        assert!(rt; is_written_so(&rt, alloc, expected, expected), "{expected}");
    }
}
