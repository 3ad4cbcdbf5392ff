//! The forms of lists, and lines that are read by rules.
ghost use Rattle.std.specs.Prelude.{◌≡◌};
ghost use Rattle.lists.specs.Encodings.{encoding_of};
ghost use Rattle.lists.specs.Entries.{told_cause};
ghost use Rattle.lists.specs.LineForms.{ReadsEntryBy};
ghost use Rattle.lists.specs.declared.entry.EntryFault.TheVariants.{Format};

use crate::csv::read_csv;
use crate::encoding::encoding_of;
use crate::entry::{Entry, EntryFault, read_entry, told_cause};
use crate::masks::read_with_masks;
use crate::rules::Rules;
use crate::set_lines::{read_ipset, read_nft};

/// The form of the lines of a list.
///
/// In a form of another program a line has an entry, or it belongs to the texts that are printed
/// around entries, and says nothing. All other lines are refused, empty ones and comments too.
///
/// ```
/// use lists::{Entry, EntryFault, LineForm, Rules, read_entry_by};
///
/// let rules = Rules { form: LineForm::Ipset, ..Rules::lenient() };
/// let entry = Some(Entry::Network("10.0.0.0/8".parse()?));
/// assert_eq!(rt; read_entry_by(rules, b"add office 10.0.0.0/8"), Ok(entry));
/// assert_eq!(rt; read_entry_by(rules, b"swap new office"), Ok(None));
/// assert_eq!(rt; read_entry_by(rules, b"10.0.0.0/8"), Err(EntryFault::Format));
/// ```
#[derive(Clone, Copy, Debug, PartialEq, Eq)]
pub enum LineForm {
    /// An entry, which a comment may follow.
    Plain,
    /// Comma-separated values: `IPv4,10.0.0.0/8,10.0.0.0,10.255.255.255`, the family, a network,
    /// its first and its last address, exactly as `cidr_merge` prints them. The line
    /// `family,network,first,last` says nothing.
    Csv,
    /// Input for `ipset restore`: `add NAME ENTRY`. Lines whose first word is `create`, `flush`,
    /// `swap` or `destroy` say nothing.
    Ipset,
    /// Input for `nft -f`, as `cidr_merge` prints it: a tab, an entry, and a comma or none. The
    /// lines before and after the elements of a set say nothing.
    Nft,
}

/// Reads a line by rules. In a form of another program, see `LineForm`. Else, if the rules take
/// masks, what `read_entry` reads may also be two words with blanks between them: an IPv4 address,
/// and its mask or wildcard. That is the network of their length, which keeps its host bits.
/// Otherwise this is `read_entry`.
///
/// 0.0.0.0 and 255.255.255.255 are both a mask and a wildcard. After an address that is not 0.0.0.0
/// they name that address alone, since it has host bits in the other network; after 0.0.0.0 the
/// fault is `EntryFault::Mask`.
///
/// ```
/// use lists::{Entry, EntryFault, Rules, read_entry_by};
///
/// let rules = Rules { takes_masks: true, ..Rules::lenient() };
/// let entry = Some(Entry::Network("10.0.0.0/8".parse()?));
/// assert_eq!(rt; read_entry_by(rules, b"10.0.0.0 255.0.0.0"), Ok(entry));
/// assert_eq!(rt; read_entry_by(rules, b"10.0.0.0 0.255.255.255"), Ok(entry));
/// assert_eq!(rt; read_entry_by(rules, b"0.0.0.0 0.0.0.0"), Err(EntryFault::Mask));
/// let fault = Err(EntryFault::Address);
/// assert_eq!(rt; read_entry_by(Rules::lenient(), b"10.0.0.0 255.0.0.0"), fault);
/// ```
pub fn read_entry_by(rules: Rules, line: &[u8]) -> Result<Option<Entry>, EntryFault>
    ensures { ReadsEntryBy rules line.now result }
{
    match rules.form {
        LineForm::Plain if !rules.takes_masks => read_entry(line),
        _ => read_in_form(rules, line),
    }
}

// Reads a line by rules, without trying first whether it is a plain one without masks.
fn read_in_form(rules: Rules, line: &[u8]) -> Result<Option<Entry>, EntryFault>
    ensures { ReadsEntryBy rules line.now result }
{
    match rules.form {
        LineForm::Plain if rules.takes_masks => read_with_masks(line),
        LineForm::Plain => read_entry(line),
        LineForm::Csv => read_csv(line),
        LineForm::Ipset => read_ipset(line),
        LineForm::Nft => read_nft(line),
    }
}

/// Returns the fault of a line of another form.
pub(crate) fn of_another_form(line: &[u8]) -> EntryFault
    ensures { result ≡ told_cause (encoding_of line.now) Format }
{
    told_cause(encoding_of(line), EntryFault::Format)
}
