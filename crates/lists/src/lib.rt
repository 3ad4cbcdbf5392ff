//! Lists of networks: reads what their lines name into the networks of each family, and keeps the
//! lines that are refused.
//!
//! A line is a network, a range of addresses, or empty. A comment begins with `#` or `;`. Only the
//! networks that a list names take memory.
#![tactic(auto)]

mod bytes;
mod chosen;
mod comment;
mod csv;
mod cutting;
mod document;
mod encoding;
mod entry;
mod excerpt;
mod fault;
mod fields;
mod forms;
mod hint;
mod json_texts;
mod last_byte;
mod laws;
mod list_reader;
mod looks;
mod masks;
mod named;
mod networks;
mod open_lists;
mod opening;
mod range;
mod read;
mod refusals;
mod rules;
mod set_lines;
mod strings;
mod trimming;

pub use bytes::{BytesFault, read_bytes};
pub use chosen::{FieldNames, Strings};
pub use comment::without_comment;
pub use document::{DOCUMENT_MAX, read_document};
pub use encoding::{Encoding, encoding_of};
pub use entry::{Entry, EntryFault, read_entry};
pub use excerpt::Excerpt;
pub use fault::LineFault;
pub use forms::{LineForm, read_entry_by};
pub use hint::{meant, meant_by_mask, would_take_masks};
pub use last_byte::ends_with_feed;
pub use list_reader::ListReader;
pub use looks::looks_like_entry;
pub use named::{ReadFault, read_named, read_text};
pub use open_lists::OpenLists;
pub use opening::{OpenFault, open_input, open_list};
pub use read::{LINE_MAX, ListFault, read_list};
pub use refusals::{REFUSALS_MAX, Refusal, Refusals};
pub use rules::{Rules, has_host_bits};
pub use trimming::{Blank, ByteKind, front_len, trim};
