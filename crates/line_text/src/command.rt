ghost use Rattle.std.specs.Prelude.{◌+◌, [], ◌∷◌, ◌<◌, ◌≡◌, ◌≢◌, ◌≤◌, ◌^◌, ◌↔◌, ℕ, drop, IfErr, IfOk, IsTrue, length, List, MatchOption, MatchResult, slice_get, Some, take};
ghost use Rattle.std.specs.Fmt.{decimal};
ghost use Rattle.line_text.specs.CommandLine.{AreFiles, CommandLine, IsRefusedFor};
ghost use Rattle.line_text.specs.Bounds.{IsBounds};
ghost use Rattle.line_text.specs.Fields.{check_allowed, check_forbidden, decide, Field, fields_of, FilesMissFrom, generate, least_of, most_of, name_of, number, outcome, show, StuckFrom, IsNewFile, IsNumberWord, IsOutcomeWord, IsPlain, MissesAt};
ghost use Rattle.line_text.specs.OutcomeText.{OutcomeText};

use crate::bounds::Bounds;
use crate::outcome::Outcome;
use crate::outcome_reader::{OutcomeRefusal, read_outcome};
use crate::word_list::Words;
use std::alloc::Global;
use thiserror::Error;

/// A command. A file is named by the place of its word, and `classes` is the place of the first class file; the class
/// files go to the last word.
#[derive(Debug, Drop)]
pub enum Command {
    Decide {
        bounds: Bounds,
        budget: u64,
        outcome: Outcome,
        seq: usize,
        refutation: usize,
        classes: usize,
    },
    CheckAllowed {
        bounds: Bounds,
        outcome: Outcome,
        seq: usize,
        classes: usize,
    },
    CheckForbidden {
        bounds: Bounds,
        outcome: Outcome,
        refutation: usize,
        classes: usize,
    },
    Show {
        classes: usize,
    },
    Generate {
        number: u32,
        seq: usize,
        refutation: usize,
    },
}

/// Why words are no command line.
#[derive(Debug, PartialEq, Eq, Drop, Error)]
pub enum WordsRefusal {
    /// `word` is the place of the first word that fits no command; where a word is missing, the number of words.
    #[error("word {word} fits no command")]
    Usage { word: usize },
    /// Memory ran out.
    #[error("memory ran out")]
    Memory,
}

/// Whether a text has neither a plus nor a leading zero.
fn is_plain(text: &[u8]) -> bool
    ensures { IsTrue result ↔ IsPlain text.now }
{
    match text.first() {
        Some(b'+') => false,
        Some(b'0') => text.len() == 1,
        _ => true,
    }
}

/// The number of which a text is the decimal text, without a sign or leading zeros.
fn read_decimal(text: &str) -> Option<u64>
    ensures { MatchOption result ((number : ℕ) → number < 2 ^ 64 → text.now ≢ decimal number) (λ number. text.now ≡ decimal number) }
{
    if !is_plain(text.as_bytes()) {
        return None;
    }
    match text.parse::<u64>() {
        Ok(number) => Some(number),
        Err(_) => None,
    }
}

/// The number from `least` to `most` of which a text is the decimal text.
fn read_number(text: &str, least: u64, most: u64) -> Option<u64>
    ensures { MatchOption result (¬ (IsNumberWord least most text.now))
        (λ number. (least ≤ number) × (number ≤ most) × (text.now ≡ decimal number)) }
{
    let number = read_decimal(text)?;
    if number < least || number > most {
        return None;
    }
    Some(number)
}

/// The number that stands at a place.
fn number_at(words: &Words, at: usize, least: u64, most: u64) -> Result<u64, WordsRefusal>
    ensures { MatchResult result
        (λ number. (least ≤ number) × (number ≤ most) × (slice_get words.now at ≡ Some (decimal number)))
        (MissesAt (IsNumberWord least most) words.now at) }
{
    let Some(text) = words.get(at) else {
        return Err(WordsRefusal::Usage { word: at });
    };
    match read_number(text, least, most) {
        Some(number) => Ok(number),
        None => Err(WordsRefusal::Usage { word: at }),
    }
}

/// The outcome that stands at a place.
fn outcome_at(alloc: Global, words: &Words, at: usize) -> Result<Outcome, WordsRefusal>
    ensures { MatchResult result (λ outcome. (text : List ℕ) × OutcomeText outcome text × (slice_get words.now at ≡ Some text))
        (MissesAt IsOutcomeWord words.now at) }
{
    let Some(text) = words.get(at) else {
        return Err(WordsRefusal::Usage { word: at });
    };
    match read_outcome(alloc, text) {
        Ok(outcome) => Ok(outcome),
        Err(OutcomeRefusal::Fault { .. }) => Err(WordsRefusal::Usage { word: at }),
        Err(OutcomeRefusal::Memory) => Err(WordsRefusal::Memory),
    }
}

/// Tests the file words from a place on: none is empty, no two are equal, and there are `least` to `most` of them.
fn check_files(words: &Words, from: usize, least: usize, most: usize) -> Result<(), WordsRefusal>
    requires within { from ≤ length words.now }
    requires most { least ≤ most }
    ensures { MatchResult result (λ _. AreFiles least most (drop from words.now)) (FilesMissFrom least most words.now from) }
{
    for at in from..words.len() {
        if at - from >= most {
            return Err(WordsRefusal::Usage { word: at });
        }
        if !is_new_file(words, from, at) {
            return Err(WordsRefusal::Usage { word: at });
        }
    }
    if words.len() - from < least {
        return Err(WordsRefusal::Usage { word: words.len() });
    }
    Ok(())
}

/// Whether the word at a place is not empty, and different from those from another place up to it.
fn is_new_file(words: &Words, from: usize, at: usize) -> bool
    requires after { from ≤ at }
    requires within { at < length words.now }
    ensures { IsTrue result ↔ IsNewFile words.now from at }
{
    let Some(file) = words.get(at) else {
        unreachable!()
    };
    for earlier in from..at {
        let Some(other) = words.get(earlier) else {
            unreachable!()
        };
        if other == file {
            return false;
        }
    }
    !file.is_empty()
}

/// The outcome that stands at a place, and behind it `least` to `most` file words.
fn outcome_and_files(
    alloc: Global,
    words: &Words,
    at: usize,
    least: usize,
    most: usize,
) -> Result<Outcome, WordsRefusal>
    requires most { least ≤ most }
    requires place { at < 10 }
    ensures { MatchResult result
        (λ outcome. (text : List ℕ) × (slice_get words.now at ≡ Some text) × OutcomeText outcome text
        × AreFiles least most (drop (at + 1) words.now))
        (StuckFrom (outcome ∷ []) least most words.now at) }
{
    let outcome = outcome_at(alloc, words, at)?;
    check_files(words, at + 1, least, most)?;
    Ok(outcome)
}

/// The bounds that stand at places 1 and 2.
fn read_bounds(words: &Words) -> Result<Bounds, WordsRefusal>
    ensures { MatchResult result
        (λ bounds. IsBounds bounds × (slice_get words.now 1 ≡ Some (decimal bounds.jumps))
        × (slice_get words.now 2 ≡ Some (decimal bounds.width)))
        (λ refusal. (fields : List Field) (least most : ℕ)
        → StuckFrom (number 0 255 ∷ number 2 32 ∷ fields) least most words.now 1 refusal) }
{
    let jumps = number_at(words, 1, 0, 255)?;
    let width = number_at(words, 2, 2, 32)?;
    Ok(Bounds {
        jumps: jumps as u32,
        width: width as u32,
    })
}

/// `decide JUMPS WIDTH BUDGET OUTCOME SEQ REF CLASS..`
fn read_decide(alloc: Global, words: &Words) -> Result<Command, WordsRefusal>
    requires { slice_get words.now 0 ≡ Some (name_of decide) }
    ensures { MatchResult result (λ command. CommandLine command words.now)
        (StuckFrom (fields_of decide) (least_of decide) (most_of decide) words.now 1) }
{
    let bounds = read_bounds(words)?;
    let budget = number_at(words, 3, 0, u64::MAX)?;
    let outcome = outcome_and_files(alloc, words, 4, 3, 66)?;
    Ok(Command::Decide {
        bounds,
        budget,
        outcome,
        seq: 5,
        refutation: 6,
        classes: 7,
    })
}

/// `check-allowed JUMPS WIDTH OUTCOME SEQ CLASS..`
fn read_check_allowed(alloc: Global, words: &Words) -> Result<Command, WordsRefusal>
    requires { slice_get words.now 0 ≡ Some (name_of check_allowed) }
    ensures { MatchResult result (λ command. CommandLine command words.now)
        (StuckFrom (fields_of check_allowed) (least_of check_allowed) (most_of check_allowed) words.now 1) }
{
    let bounds = read_bounds(words)?;
    let outcome = outcome_and_files(alloc, words, 3, 2, 65)?;
    Ok(Command::CheckAllowed {
        bounds,
        outcome,
        seq: 4,
        classes: 5,
    })
}

/// `check-forbidden JUMPS WIDTH OUTCOME REF CLASS..`
fn read_check_forbidden(alloc: Global, words: &Words) -> Result<Command, WordsRefusal>
    requires { slice_get words.now 0 ≡ Some (name_of check_forbidden) }
    ensures { MatchResult result (λ command. CommandLine command words.now)
        (StuckFrom (fields_of check_forbidden) (least_of check_forbidden) (most_of check_forbidden) words.now 1) }
{
    let bounds = read_bounds(words)?;
    let outcome = outcome_and_files(alloc, words, 3, 2, 65)?;
    Ok(Command::CheckForbidden {
        bounds,
        outcome,
        refutation: 4,
        classes: 5,
    })
}

/// `show CLASS..`
fn read_show(words: &Words) -> Result<Command, WordsRefusal>
    requires { slice_get words.now 0 ≡ Some (name_of show) }
    ensures { MatchResult result (λ command. CommandLine command words.now)
        (StuckFrom (fields_of show) (least_of show) (most_of show) words.now 1) }
{
    check_files(words, 1, 1, 64)?;
    Ok(Command::Show { classes: 1 })
}

/// `generate NUMBER SEQ REF`
fn read_generate(words: &Words) -> Result<Command, WordsRefusal>
    requires { slice_get words.now 0 ≡ Some (name_of generate) }
    ensures { MatchResult result (λ command. CommandLine command words.now)
        (StuckFrom (fields_of generate) (least_of generate) (most_of generate) words.now 1) }
{
    let number = number_at(words, 1, 0, 767)?;
    check_files(words, 2, 2, 2)?;
    Ok(Command::Generate {
        number: number as u32,
        seq: 2,
        refutation: 3,
    })
}

/// Reads the words of a command, of which the first is its name: `decide JUMPS WIDTH BUDGET OUTCOME SEQ REF CLASS..`,
/// `check-allowed JUMPS WIDTH OUTCOME SEQ CLASS..`, `check-forbidden JUMPS WIDTH OUTCOME REF CLASS..`, `show CLASS..` or
/// `generate NUMBER SEQ REF`. Numbers are decimal without a sign or leading zeros: JUMPS 0 to 255, WIDTH 2 to 32, BUDGET
/// 0 to 2^64 - 1, NUMBER 0 to 767. There are 1 to 64 class words. File words are not empty, and no two are equal.
///
/// # Errors
/// `Usage` exactly where the words are no command line, with the place of the first word that fits no command, or the
/// number of words where one is missing. `Memory` where there is no room.
pub fn read_words(alloc: Global, words: &Words) -> Result<Command, WordsRefusal>
    ensures ok { IfOk result (λ command. CommandLine command words.now) }
    ensures refused { IfErr result (IsRefusedFor words.now) }
{
    let Some(name) = words.get(0) else {
        return Err(WordsRefusal::Usage { word: 0 });
    };
    if name == "decide" {
        return read_decide(alloc, words);
    }
    if name == "check-allowed" {
        return read_check_allowed(alloc, words);
    }
    if name == "check-forbidden" {
        return read_check_forbidden(alloc, words);
    }
    if name == "show" {
        return read_show(words);
    }
    if name == "generate" {
        return read_generate(words);
    }
    Err(WordsRefusal::Usage { word: 0 })
}
