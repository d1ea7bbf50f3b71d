//! Questions on verdicts and on records: `strictest COUNT WORD ..`, the newest filter's first, `effect WORD`, `record RECORD`,
//! and `least BITS FROM MASK DATUM`.

use crate::answers::Answers;
use crate::question::Question;
use call_record::{Record, least_below, lets_through, strictest};

/// Answers a question on verdicts and records.
pub fn answer(out: &mut Answers, mut question: Question<'_>) {
    match question.part() {
        "strictest" => tell_strictest(out, question),
        "effect" => tell_effect(out, question),
        "record" => tell_record(out, &question.record()),
        _ => tell_least(out, question),
    }
}

// The strictest of verdicts.
fn tell_strictest(out: &mut Answers, mut question: Question<'_>) {
    let mut newest_first = Vec::new(out.alloc);
    for _ in 0..question.number() {
        out.keep(newest_first.push(question.verdict()).is_ok());
    }
    out.tell(strictest(&newest_first));
}

// What ends, the error, and whether a call with this verdict is carried out.
fn tell_effect(out: &mut Answers, mut question: Question<'_>) {
    let word = question.verdict();
    out.tell(format_args!("{:?}", word.ends()));
    out.tell(format_args!("{:?}", word.errno()));
    out.tell(lets_through(word));
}

// The bytes of a record, and the words of the record that they spell.
fn tell_record(out: &mut Answers, record: &Record) {
    let bytes = record.to_bytes();
    out.tell_bytes(&bytes);
    let record = Record::from_bytes(&bytes);
    for i in 0..16 {
        out.tell(record.word(i));
    }
}

// The least number of so many bits, at least FROM, with these data under the mask.
fn tell_least(out: &mut Answers, mut question: Question<'_>) {
    let bits = question.narrow().min(64);
    let least = least_below(
        bits,
        question.number(),
        question.number(),
        question.number(),
    );
    out.tell(format_args!("{least:?}"));
}
