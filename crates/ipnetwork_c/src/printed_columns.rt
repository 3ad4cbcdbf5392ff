//! Prints columns of networks and addresses in one call, in Arrow's layout: the bytes of all texts,
//! one after the other, and the offsets at which each text begins and the last one ends.
ghost use Rattle.std.specs.Prelude.{◌≡◌, ◌≢◌, ◌+◌, ◌^◌, ◌<◌, ◌≤◌, ◌++◌, length as len, take, drop, flat_map};
ghost use Rattle.std.specs.List.{All};
ghost use Rattle.ipnetwork_c.specs.PrintedColumns.{PrintsRows, FirstRefused, PrintsColumn, ip_fits, ip_text, address_fits, address_text};
ghost use Rattle.ipnetwork_c.specs.Either.{NoIpNetwork, NoAddress};

use crate::address::AddressInC;
use crate::fault::{NO_FAMILY, OK, SHORT_BUFFER};
use crate::structs::{IpInC, V4};
use crate::writing::to_usize;
use arrayvec::ArrayString;
use ipnetwork::NETWORK_TEXT_CAPACITY;

/// A row that can be printed.
pub(crate) trait PrintsRow {
    ghost use Rattle.std.specs.Prelude.{ℕ, List};

    // The row represents something to print.
    ghost fits: { Self → Type 0 };

    // The row is refused by this fault if it does not.
    ghost refused: { Self → ℕ → Type 0 };

    // The text of what the row represents.
    ghost text: { Self → List ℕ };

    /// Returns the fault by which the row is refused, or 0.
    fn row_fault(&self) -> u32
        ensures fits { result ≡ 0 → fits self.now }
        ensures refused { result ≢ 0 → refused self.now result };

    /// Returns the text of what the row represents.
    fn row_text(&self) -> ArrayString<NETWORK_TEXT_CAPACITY>
        requires { fits self.now }
        ensures bytes { result.bytes ≡ text self.now }
        ensures short { len result.bytes ≤ 43 };
}

impl PrintsRow for IpInC {
    ghost fits = { ip_fits };

    ghost refused = { NoIpNetwork };

    ghost text = { ip_text };

    fn row_fault(&self) -> u32 {
        match self.network() {
            Ok(_) => OK,
            Err(fault) => fault,
        }
    }

    fn row_text(&self) -> ArrayString<NETWORK_TEXT_CAPACITY> {
        if self.family == V4 {
            return self.v4.row_text();
        }
        self.v6.row_text()
    }
}

impl PrintsRow for AddressInC {
    ghost fits = { address_fits };

    ghost refused = { NoAddress };

    ghost text = { address_text };

    fn row_fault(&self) -> u32 {
        let Some(_) = self.address() else {
            return NO_FAMILY;
        };
        OK
    }

    fn row_text(&self) -> ArrayString<NETWORK_TEXT_CAPACITY> {
        let Some(address) = self.address() else {
            unreachable!()
        };
        let mut text = ArrayString::new();
        text.push_str(address.canonical().as_str());
        text
    }
}

// Returns the fault of the first row that is refused, or 0 if none is.
fn first_fault<R: PrintsRow>(rows: &[R]) -> u32
    ensures none { result ≡ 0 → All R.fits rows.now }
    ensures one { result ≢ 0 → FirstRefused R.fits R.refused rows.now result }
{
    for row in 0..rows.len() {
        let fault = rows[row].row_fault();
        if fault != OK {
            return fault;
        }
    }
    OK
}

/// Prints each row into `texts`, after the row before it, and writes the offsets.
pub(crate) fn print_rows<R: PrintsRow>(
    rows: &[R],
    texts: &mut [u8],
    offsets: &mut [u32],
    length: &mut usize,
) -> u32
    ensures { PrintsColumn R.fits R.refused R.text rows.now ((texts.old, offsets.old), length.old)
        ((texts.new, offsets.new), length.new) result }
{
    let fault = first_fault(rows);
    if fault != OK {
        return fault;
    }
    let whole = texts_length(rows);
    *length = to_usize(whole);
    if whole > texts.len() as u128 || whole > i32::MAX as u128 || offsets.len() <= rows.len() {
        return SHORT_BUFFER;
    }
    put_texts(rows, texts, offsets);
    OK
}

// Returns the total length of the texts in bytes.
fn texts_length<R: PrintsRow>(rows: &[R]) -> u128
    requires { All R.fits rows.now }
    ensures { result ≡ len (flat_map R.text rows.now) }
{
    let mut whole = 0;
    for row in 0..rows.len() {
        whole += rows[row].row_text().len() as u128;
    }
    whole
}

// Puts the texts at the front of a buffer that has room for them, and writes their offsets.
fn put_texts<R: PrintsRow>(rows: &[R], texts: &mut [u8], offsets: &mut [u32])
    requires fit { All R.fits rows.now }
    requires room { len (flat_map R.text rows.now) ≤ len texts.old }
    requires short { len (flat_map R.text rows.now) < 2 ^ 31 }
    requires offsets { len rows.now < len offsets.old }
    ensures { PrintsRows R.text rows.now texts.old texts.new offsets.old offsets.new }
{
    let mut end = 0;
    offsets[0] = 0;
    for row in 0..rows.len() {
        end = put_at(rows[row].row_text().as_str().as_bytes(), texts, end);
        offsets[row + 1] = end as u32;
    }
}

// Puts a text into a buffer from an index on, and returns the index after it.
fn put_at(text: &[u8], texts: &mut [u8], at: usize) -> usize
    requires { at + len text.now ≤ len texts.old }
    ensures end { result ≡ at + len text.now }
    ensures put { texts.new ≡ take at texts.old ++ text.now ++ drop (at + len text.now) texts.old }
{
    let end = at + text.len();
    texts[at..end].copy_from_slice(text);
    end
}
