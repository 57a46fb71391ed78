//! Java class files: the record of a class file and its bytes (JVMS, chapter 4).
#![tactic(auto)]

mod attribute_reader;
mod byte_text;
mod class_reader;
mod fault;
mod indices;
mod laws;
mod listed;
mod pool;
mod pool_reader;
mod reader;
mod record;
mod refusal;

pub use byte_text::ByteText;
pub use class_reader::read_class;
pub use indices::Indices;
pub use laws::{
    beginnings, bytes_behind, cut_texts, fault_stays, number_is_bytes, one_fault, one_record,
    one_text, reading_stops, reads_texts, text_or_fault, valid_has_text,
};
pub use listed::Listed;
pub use pool::{entry_at, names_class, names_code, names_name_and_type, names_utf8};
pub use record::{
    Attribute, Attributes, ClassRecord, CodeBody, Handler, Handlers, Member, Members, PoolEntries,
    PoolEntry,
};
pub use refusal::FormatRefusal;
