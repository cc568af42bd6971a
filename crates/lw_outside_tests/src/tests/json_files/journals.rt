//! Journals: what is read of them, what their lines are, and the first fault of those that can't be read.

use lw_json::{
    Answers, Field, JsonFault, answers_text, is_journal, journal_header, journal_line, read_answers,
};
use lw_words::NamesFault;
use std::alloc::Global;
use std::process::Abort;

/// Journals, each with the text in format 2 of its answers: as it was written, with the outputs as they come, with broken lines and
/// two heads, and with other members.
static JOURNALS: [(&str, &str); 4] = [
    (
        "{\"format\":3,\"inputs\":[\"a\",\"b\"]}\n[0,0,\"a\",\"x\"]\n[0,1,\"b a\",\"y x\"]\n",
        "{\"answers\":[[0,0,\"a\",\"x\"],[0,1,\"b a\",\"y x\"]],\"format\":2,\"inputs\":[\"a\",\"b\"],\"outputs\":[\"x\",\"y\"]}\n",
    ),
    (
        "{\"format\":3,\"inputs\":[\"a\"]}\n[1,7,\"a a\",\"y x\"]\n[1,8,\"\",\"\"]\n[1,9,\"a\",\"x\"]",
        "{\"answers\":[[1,8,\"\",\"\"],[1,9,\"a\",\"x\"],[1,7,\"a a\",\"y x\"]],\"format\":2,\"inputs\":[\"a\"],\"outputs\":[\"y\",\"x\"]}\n",
    ),
    (
        "{\"format\":3,\"inputs\":[\"z\"]}\n\n[0,0,\"a\",\"0\"]\n[0,1,\"a a\",\"0 \n\r\nno\n{\"inputs\":[\"a\"],\"format\":3}\n[0,2,\"a\",\"1\"]\n[0,3,\"a",
        "{\"answers\":[[0,0,\"a\",\"0\"],[0,2,\"a\",\"1\"]],\"format\":2,\"inputs\":[\"a\"],\"outputs\":[\"0\",\"1\"]}\n",
    ),
    (
        "{\"format\":3,\"outputs\":7}\n {\"inputs\":[\"a\"]}\n[16, 18446744073709551615, \"a\", \"0\"]\r\n",
        "{\"answers\":[[16,18446744073709551615,\"a\",\"0\"]],\"format\":2,\"inputs\":[\"a\"],\"outputs\":[\"0\"]}\n",
    ),
];

/// Journals that can't be read, each with its first fault.
static FAULTY: [(&str, JsonFault); 16] = [
    ("{\"format\":3,", JsonFault::Shape(Field::Inputs)),
    ("{\"format\":3,\n7\n", JsonFault::Shape(Field::Inputs)),
    (
        "{\"format\":3,\"inputs\":7}\n[17,0,\"a\",\"0\"]\n",
        JsonFault::Shape(Field::Inputs),
    ),
    (
        "{\"format\":3,\"inputs\":[\"a\"]}\n[0,0,\"a\",\"0\"]\n{}\n",
        JsonFault::Shape(Field::Inputs),
    ),
    (
        "{\"format\":3,\"inputs\":[\"a\"]}\n7\n",
        JsonFault::Shape(Field::Answers),
    ),
    (
        "{\"format\":3,\"inputs\":[]}\n[17,0,\"a\",\"0\"]\n",
        JsonFault::Shape(Field::Answers),
    ),
    (
        "{\"format\":3,\"inputs\":[]}\n[\"a\",\"0\"]\n",
        JsonFault::Shape(Field::Answers),
    ),
    (
        "{\"format\":3,\"inputs\":[]}\n",
        JsonFault::Inputs(NamesFault::Empty),
    ),
    (
        "{\"format\":3,\"inputs\":[\"a\",\"a\"]}\n[0,0,\"b\",\"\"]\n",
        JsonFault::Inputs(NamesFault::Repeated(0, 1)),
    ),
    (
        "{\"format\":3,\"inputs\":[\"a\"]}\n",
        JsonFault::Outputs(NamesFault::Empty),
    ),
    (
        "{\"format\":3,\"inputs\":[\"a\"]}\n[0,0,\"\",\"\"]\n",
        JsonFault::Outputs(NamesFault::Empty),
    ),
    (
        "{\"format\":3,\"inputs\":[\"a\"]}\n[0,0,\"a\",\"0\"]\n[0,1,\"b\",\"0 \"]\n",
        JsonFault::Outputs(NamesFault::BadName(1)),
    ),
    (
        "{\"format\":3,\"inputs\":[\"a\"]}\n[0,0,\"a a\",\"0\"]\n[0,1,\"b\",\"0\"]\n",
        JsonFault::BadWord(1),
    ),
    (
        "{\"format\":3,\"inputs\":[\"a\"]}\n[0,0,\"a\",\"0\"]\nno\n{\"inputs\":[\"a\"]}\n[0,1,\"a\",\"\"]\n",
        JsonFault::Lengths(1),
    ),
    (
        "{\"format\": 3,\"inputs\":[\"a\"],\"outputs\":[\"0\"],\"answers\":[]}",
        JsonFault::Shape(Field::Format),
    ),
    ("{\"format\":3}\n[0,0,\"a\",\"0\"]\n", JsonFault::NotJson),
];

/// The first fault of a text, which can't be read.
fn fault_of(rt: &impl Abort, alloc: Global, text: &str) -> JsonFault {
    match read_answers(alloc, text.as_bytes()) {
        Ok(_) => rt.panic("bytes outside the grammar were taken"),
        Err(fault) => fault,
    }
}

#[test]
fn the_first_fault_of_a_journal_is_told(rt: HostRuntime) {
    let alloc = rt.alloc();
    for (text, first) in &FAULTY {
        assert!(rt; fault_of(&rt, alloc, text) == *first, "{text}");
    }
}

/// The answers of a text.
fn answers_of(rt: &impl Abort, alloc: Global, text: &str) -> Answers {
    read_answers(alloc, text.as_bytes()).expect(rt, "answers")
}

/// What is written of the answers of a text.
fn rewritten(rt: &impl Abort, alloc: Global, text: &str) -> Vec<u8> {
    let answers = answers_of(rt, alloc, text);
    let written = answers_text(alloc, &answers.inputs, &answers.outputs, &answers.kept);
    written.expect(rt, "memory")
}

/// Whether the answers of a journal are written so.
fn is_written_so(rt: &impl Abort, alloc: Global, text: &str, expected: &str) -> bool {
    is_journal(text.as_bytes()) && rewritten(rt, alloc, text).as_slice() == expected.as_bytes()
}

#[test]
fn journals_are_read(rt: HostRuntime) {
    let alloc = rt.alloc();
    for (text, expected) in &JOURNALS {
        assert!(rt; is_written_so(&rt, alloc, text, expected), "{text}");
    }
}

/// Whether the head of a journal with the inputs of a text is this line.
fn is_head(rt: &impl Abort, alloc: Global, text: &str, expected: &str) -> bool {
    let answers = answers_of(rt, alloc, text);
    let written = journal_header(alloc, &answers.inputs);
    written.expect(rt, "memory").as_slice() == expected.as_bytes()
}

/// Whether the line of a run is this one.
fn is_line(rt: &impl Abort, alloc: Global, run: u64, outs: &str, expected: &str) -> bool {
    let written = journal_line(alloc, 16, run, "b a", outs);
    written.expect(rt, "memory").as_slice() == expected.as_bytes()
}

#[test]
fn lines_of_a_journal_are_written(rt: HostRuntime) {
    let alloc = rt.alloc();
    let (text, _) = JOURNALS[0];
    assert!(rt;
        is_head(
            &rt,
            alloc,
            text,
            "{\"format\":3,\"inputs\":[\"a\",\"b\"]}\n"
        )
    );
    assert!(rt; is_line(&rt, alloc, 0, "", "[16,0,\"b a\",\"\"]\n"));
    assert!(rt;
        is_line(
            &rt,
            alloc,
            u64::MAX,
            "\\ \"",
            "[16,18446744073709551615,\"b a\",\"\\\\ \\\"\"]\n"
        )
    );
}
