ghost use Rattle.std.specs.Prelude.{◌≡◌, ◌≤◌, ℕ, [], IfErr, IfOk, List, MatchOption};
ghost use Rattle.line_text.specs.declared.outcome.OutcomePart.{OutcomePart};
ghost use Rattle.line_text.specs.OutcomeText.{OutcomeText};
ghost use Rattle.line_text.specs.OutcomeReading.{IsReading, magnitude_limit, signed_of, TakesOrRefuses, text_of};
ghost use Rattle.line_text.specs.OutcomeRefusals.{IsRefusedFor};

use crate::outcome::Outcome;
use ports::Memory;
use std::alloc::Global;
use thiserror::Error;

/// Why a text is no outcome.
#[derive(Debug, PartialEq, Eq, Drop, Error)]
pub enum OutcomeRefusal {
    /// The text is no outcome. `place` is the length of the longest prefix with which some outcome's text begins.
    #[error("no outcome from byte {place} on")]
    Fault { place: usize },
    /// Memory ran out.
    #[error("memory ran out")]
    Memory,
}

/// What comes next in an outcome's text.
#[derive(Clone, Copy, Debug, Drop)]
enum Position {
    AtThread,
    AtEquals(u32),
    AtValue,
    AfterMinus,
    InNumber { negative: bool, magnitude: u64 },
}

/// A reader of an outcome's text, byte by byte. `least` is the least thread that may come next, and `count` the number of
/// values of the last thread.
#[derive(Drop)]
struct OutcomeReader {
    outcome: Outcome,
    position: Position,
    least: u32,
    count: u32,
}

/// Reads an outcome's text whole: parts joined by `;`, each a thread number 0 to 7, `=`, and at most 65535 ints joined by
/// `,`. The threads increase strictly, and no number has a leading zero, a `+` or a minus before 0.
///
/// # Errors
/// `Fault` exactly where no outcome has this text, with the length of the longest prefix with which some outcome's text
/// begins. `Memory` where there is no room.
pub fn read_outcome(alloc: Global, text: &str) -> Result<Outcome, OutcomeRefusal>
    ensures ok { IfOk result (λ outcome. OutcomeText outcome text.now) }
    ensures refused { IfErr result (IsRefusedFor text.now) }
{
    let bytes = text.as_bytes();
    let mut reader = OutcomeReader::new(alloc);
    for (place, byte) in bytes.iter().enumerate() {
        match reader.take(*byte) {
            Ok(true) => {}
            Ok(false) => return Err(OutcomeRefusal::Fault { place }),
            Err(Memory) => return Err(OutcomeRefusal::Memory),
        }
    }
    match reader.finish() {
        Ok(Some(outcome)) => Ok(outcome),
        Ok(None) => Err(OutcomeRefusal::Fault { place: bytes.len() }),
        Err(Memory) => Err(OutcomeRefusal::Memory),
    }
}

impl OutcomeReader {
    fn new(alloc: Global) -> OutcomeReader
        ensures text { text_of result ≡ [] }
        ensures reading { IsReading result }
    {
        OutcomeReader {
            outcome: Outcome::new(alloc),
            position: Position::AtThread,
            least: 0,
            count: 0,
        }
    }

    /// Takes a byte, or answers false where no outcome's text goes on with it.
    fn take(&mut self, byte: u8) -> Result<bool, Memory>
        requires { IsReading self.old }
        ensures { IfOk result (λ taken. TakesOrRefuses self.old byte taken self.new) }
    {
        match self.position {
            Position::AtThread => Ok(self.take_thread(byte)),
            Position::AtEquals(thread) => self.take_equals(thread, byte),
            Position::AtValue => Ok(self.take_value(byte)),
            Position::AfterMinus => Ok(self.take_after_minus(byte)),
            Position::InNumber {
                negative,
                magnitude,
            } => self.take_in_number(negative, magnitude, byte),
        }
    }

    fn take_thread(&mut self, byte: u8) -> bool
        requires reading { IsReading self.old }
        requires position { self.old.position ≡ Position.AtThread }
        ensures { TakesOrRefuses self.old byte result self.new }
    {
        if byte < b'0' || byte > b'7' {
            return false;
        }
        let thread = u32::from(byte - b'0');
        if thread < self.least {
            return false;
        }
        self.position = Position::AtEquals(thread);
        true
    }

    fn take_equals(&mut self, thread: u32, byte: u8) -> Result<bool, Memory>
        requires reading { IsReading self.old }
        requires position { self.old.position ≡ Position.AtEquals thread }
        ensures { IfOk result (λ taken. TakesOrRefuses self.old byte taken self.new) }
    {
        if byte != b'=' {
            return Ok(false);
        }
        self.outcome.name(thread)?;
        self.least = thread + 1;
        self.count = 0;
        self.position = Position::AtValue;
        Ok(true)
    }

    fn take_value(&mut self, byte: u8) -> bool
        requires reading { IsReading self.old }
        requires position { self.old.position ≡ Position.AtValue }
        ensures { TakesOrRefuses self.old byte result self.new }
    {
        match byte {
            b'-' => self.position = Position::AfterMinus,
            b'0'..=b'9' => {
                self.position = Position::InNumber {
                    negative: false,
                    magnitude: u64::from(byte - b'0'),
                }
            }
            b';' if self.count == 0 && self.least < 8 => self.position = Position::AtThread,
            _ => return false,
        }
        true
    }

    fn take_after_minus(&mut self, byte: u8) -> bool
        requires reading { IsReading self.old }
        requires position { self.old.position ≡ Position.AfterMinus }
        ensures { TakesOrRefuses self.old byte result self.new }
    {
        if byte < b'1' || byte > b'9' {
            return false;
        }
        self.position = Position::InNumber {
            negative: true,
            magnitude: u64::from(byte - b'0'),
        };
        true
    }

    fn take_in_number(&mut self, negative: bool, magnitude: u64, byte: u8) -> Result<bool, Memory>
        requires reading { IsReading self.old }
        requires position { self.old.position ≡ Position.InNumber negative magnitude }
        ensures { IfOk result (λ taken. TakesOrRefuses self.old byte taken self.new) }
    {
        match byte {
            b'0'..=b'9' => Ok(self.take_digit(negative, magnitude, byte)),
            b',' => self.take_comma(negative, magnitude),
            b';' => self.take_semicolon(negative, magnitude),
            _ => Ok(false),
        }
    }

    fn take_digit(&mut self, negative: bool, magnitude: u64, byte: u8) -> bool
        requires reading { IsReading self.old }
        requires position { self.old.position ≡ Position.InNumber negative magnitude }
        requires low { 48 ≤ byte }
        requires high { byte ≤ 57 }
        ensures { TakesOrRefuses self.old byte result self.new }
    {
        if magnitude == 0 {
            return false;
        }
        let grown = magnitude * 10 + u64::from(byte - b'0');
        if grown > magnitude_limit(negative) {
            return false;
        }
        self.position = Position::InNumber {
            negative,
            magnitude: grown,
        };
        true
    }

    fn take_comma(&mut self, negative: bool, magnitude: u64) -> Result<bool, Memory>
        requires reading { IsReading self.old }
        requires position { self.old.position ≡ Position.InNumber negative magnitude }
        ensures { IfOk result (λ taken. TakesOrRefuses self.old 44 taken self.new) }
    {
        if self.count >= 65534 {
            return Ok(false);
        }
        self.outcome.value(signed(negative, magnitude))?;
        self.count += 1;
        self.position = Position::AtValue;
        Ok(true)
    }

    fn take_semicolon(&mut self, negative: bool, magnitude: u64) -> Result<bool, Memory>
        requires reading { IsReading self.old }
        requires position { self.old.position ≡ Position.InNumber negative magnitude }
        ensures { IfOk result (λ taken. TakesOrRefuses self.old 59 taken self.new) }
    {
        if self.least >= 8 {
            return Ok(false);
        }
        self.outcome.value(signed(negative, magnitude))?;
        self.position = Position::AtThread;
        Ok(true)
    }

    /// The outcome, or `None` where the text so far is not the whole text of one.
    fn finish(self) -> Result<Option<Outcome>, Memory>
        requires { IsReading self }
        ensures { IfOk result (λ end. MatchOption end ((parts : List OutcomePart) → ¬ (OutcomeText parts (text_of self)))
            (λ outcome. OutcomeText outcome (text_of self))) }
    {
        let OutcomeReader {
            mut outcome,
            position,
            count,
            ..
        } = self;
        match position {
            Position::AtValue if count == 0 => Ok(Some(outcome)),
            Position::InNumber {
                negative,
                magnitude,
            } => {
                outcome.value(signed(negative, magnitude))?;
                Ok(Some(outcome))
            }
            _ => Ok(None),
        }
    }
}

/// The greatest magnitude of an int of this sign.
fn magnitude_limit(negative: bool) -> u64
    ensures { result ≡ magnitude_limit negative }
{
    if negative { 1 << 31 } else { (1 << 31) - 1 }
}

/// The int of a sign and a magnitude.
fn signed(negative: bool, magnitude: u64) -> i32
    requires { magnitude ≤ magnitude_limit negative }
    ensures { result ≡ signed_of negative magnitude }
{
    let value = magnitude as i64;
    if negative {
        -value as i32
    } else {
        value as i32
    }
}
