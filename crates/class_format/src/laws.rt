//! Laws of records and texts, for the crates above.

ghost use Rattle.class_format.specs.Laws.{ValidHasText, OneText, OneRecord, NumberIsBytes, ReadsTexts, BytesBehind, ReadingStops, OneFault, TextOrFault, FaultStays, Beginnings, CutTexts};

/// Exactly the valid records have a text.
pub fn valid_has_text()
    ensures { ValidHasText }
{}

/// A record has at most one text.
pub fn one_text()
    ensures { OneText }
{}

/// Two records never have the same text.
pub fn one_record()
    ensures { OneRecord }
{}

/// Bytes of equal length and equal number are equal, at the widths of a class file.
pub fn number_is_bytes()
    ensures two { NumberIsBytes 2 }
    ensures four { NumberIsBytes 4 }
{}

/// Exactly the texts are read without a fault.
pub fn reads_texts()
    ensures { ReadsTexts }
{}

/// Bytes behind a text are refused at the first of them.
pub fn bytes_behind()
    ensures { BytesBehind }
{}

/// Reading from the front stops exactly at the first fault.
pub fn reading_stops()
    ensures { ReadingStops }
{}

/// Bytes have at most one first fault.
pub fn one_fault()
    ensures { OneFault }
{}

/// Bytes are a text or have a first fault, and never both.
pub fn text_or_fault()
    ensures { TextOrFault }
{}

/// A first fault is the end of the bytes, or it is of another kind, lies before their end and stays, whatever
/// follows them.
pub fn fault_stays()
    ensures { FaultStays }
{}

/// A beginning of faulty bytes has the same first fault, or ends too early, or is a text.
pub fn beginnings()
    ensures { Beginnings }
{}

/// A text that was cut is truncated, where it was cut.
pub fn cut_texts()
    ensures { CutTexts }
{}
