//! Laws of records and of verdicts that are promised to users.
ghost use Rattle.std.specs.Prelude.{◌≡◌, Contains, length};
ghost use Rattle.call_record.specs.Words.{IsRecord, words_of};
ghost use Rattle.call_record.specs.Record.{words};
ghost use Rattle.call_record.specs.Verdict.{IsRefusal, Through, strictest_of};

use crate::layout::Record;
use crate::verdict::Word;

/// A record is sixteen words of 32 bits.
pub fn words_are_a_record(call: &Record)
    ensures { IsRecord (words call.now) }
{}

/// Records with the same words are the same record, so `from_bytes` gives back what `to_bytes`
/// wrote.
pub fn same_record(a: &Record, b: &Record)
    requires { words a.now ≡ words b.now }
    ensures { a.now ≡ b.now }
{}

/// 64 bytes that spell the same words are the same bytes, so `to_bytes` gives back what
/// `from_bytes` read.
pub fn same_bytes(a: &[u8; 64], b: &[u8; 64])
    requires { words_of a.now ≡ words_of b.now }
    ensures { a.now ≡ b.now }
{
    same_spelling(a, b)
}

// 64 bytes in slices that spell the same words are the same bytes.
fn same_spelling(a: &[u8], b: &[u8])
    requires a_len { length a.now ≡ 64 }
    requires b_len { length b.now ≡ 64 }
    requires same { words_of a.now ≡ words_of b.now }
    ensures { a.now ≡ b.now }
{}

/// A call that one filter refuses is not carried out, whatever the other filters answer.
pub fn refusal_stands(newest_first: &[Word], word: Word)
    requires answered { Contains newest_first.now word }
    requires refusal { IsRefusal word }
    ensures { ¬ Through (strictest_of newest_first.now) }
{}
