//! Reads bytes as JSON documents.
ghost use Rattle.std.specs.Prelude.{◌≡◌, ◌∷◌, [], Some, IsUtf8, IfOk, IfErr, map};
ghost use Rattle.std.specs.List.{list_all};
ghost use Rattle.serde_json.specs.View.{view};
ghost use Rattle.lists.specs.JsonTexts.{is_json_blank, document_of_line, documents_of};
ghost use Rattle.lists.specs.Private.JsonTexts.{FailsDocuments, FailsLine, FailsLines};
ghost use Rattle.lists.specs.Private.JsonTexts.{are_documents_of_lines, documents_in};

use crate::encoding::encoding_of;
use crate::named::ReadFault;
use serde_json::Value;
use std::alloc::Global;

// Why the lines of a text are not read as documents.
#[derive(Clone, Copy, Debug, PartialEq, Eq)]
pub(crate) enum LinesFault {
    /// They are not documents, or none is; the number is the line to report.
    NotJson(u64),
    /// Memory ran out.
    OutOfMemory,
}

/// Reads bytes, whose name is the word at the index `place`, as JSON documents: one, or, if they
/// are none, one on each line that is not blank.
pub(crate) fn documents_of(
    alloc: Global,
    bytes: &[u8],
    place: usize,
) -> Result<Vec<Value>, ReadFault>
    ensures ok { IfOk result (λ values. IsUtf8 bytes.now
        × (documents_of bytes.now ≡ Some (map view values.items))) }
    ensures err { IfErr result (FailsDocuments place bytes.now) }
{
    let error = match Value::from_slice(alloc, bytes) {
        Ok(value) => return alone(alloc, value),
        Err(error) => error,
    };
    if error.is_memory() {
        return Err(ReadFault::OutOfMemory);
    }
    let line = error.line() as u64;
    let Ok(text) = std::str::from_utf8(bytes) else {
        return Err(ReadFault::NotJson(place, line, encoding_of(bytes)));
    };
    match documents_of_lines(alloc, text, line) {
        Ok(documents) => Ok(documents),
        Err(LinesFault::NotJson(line)) => Err(ReadFault::NotJson(place, line, encoding_of(bytes))),
        Err(LinesFault::OutOfMemory) => Err(ReadFault::OutOfMemory),
    }
}

// Returns a list of one document, unless there is no memory for it.
fn alone(alloc: Global, document: Value) -> Result<Vec<Value>, ReadFault>
    ensures ok { IfOk result (λ values. map view values.items ≡ view document ∷ []) }
    ensures err { IfErr result (λ fault. fault ≡ ReadFault.OutOfMemory) }
{
    let mut documents = Vec::new(alloc);
    if documents.push(document).is_err() {
        return Err(ReadFault::OutOfMemory);
    }
    Ok(documents)
}

// Reads the lines of a text that are not blank as documents, of which there has to be one.
//
// The line to report is `whole`, that of the fault of the whole text, unless an earlier line is a
// document.
fn documents_of_lines(alloc: Global, text: &str, whole: u64) -> Result<Vec<Value>, LinesFault>
    ensures ok { IfOk result
        (λ values. are_documents_of_lines text.now ≡ Some (map view values.items)) }
    ensures err { IfErr result (FailsLines text.now) }
{
    let mut documents = Vec::new(alloc);
    let mut number = 0u64;
    for line in text.lines() {
        number = number.saturating_add(1);
        let told = if documents.is_empty() { whole } else { number };
        match document_of_line(alloc, line, told) {
            Ok(None) => {}
            Ok(Some(document)) => {
                if documents.push(document).is_err() {
                    return Err(LinesFault::OutOfMemory);
                }
            }
            Err(fault) => return Err(fault),
        }
    }
    if documents.is_empty() {
        return Err(LinesFault::NotJson(whole));
    }
    Ok(documents)
}

// Reads a line as a document, unless it is blank. `told` is the line to report if it is none.
fn document_of_line(alloc: Global, line: &str, told: u64) -> Result<Option<Value>, LinesFault>
    ensures ok { IfOk result (λ found. document_of_line line.now ≡ Some (documents_in found)) }
    ensures err { IfErr result (FailsLine line.now) }
{
    if is_blank(line.as_bytes()) {
        return Ok(None);
    }
    match Value::from_str(alloc, line) {
        Ok(document) => Ok(Some(document)),
        Err(error) if error.is_memory() => Err(LinesFault::OutOfMemory),
        Err(_) => Err(LinesFault::NotJson(told)),
    }
}

// Returns whether all bytes are blanks of JSON.
fn is_blank(bytes: &[u8]) -> bool
    ensures { result ≡ list_all is_json_blank bytes.now }
{
    bytes.iter().all(|byte| is_json_blank(*byte))
}

// Returns whether a byte is a blank of JSON.
fn is_json_blank(byte: u8) -> bool
    ensures { result ≡ is_json_blank byte }
{
    byte == b' ' || byte == b'\t' || byte == b'\n' || byte == b'\r'
}
