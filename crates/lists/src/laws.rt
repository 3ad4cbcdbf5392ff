//! The laws of entries and of lines. Each function's contract is a law: the function does nothing,
//! and a proof that calls it may use the law.
ghost use Rattle.lists.specs.Laws.{NetworkTextsAreEntries, PrintedLinesAreRead};

use ipnetwork::laws as network_laws;
use ipnetwork_addr::laws as address_laws;

/// A line that is exactly the text of a network names that network: no such text contains a `-`, a
/// blank or a mark of a comment.
pub fn network_texts_are_entries()
    ensures { NetworkTextsAreEntries }
{
    address_laws::v4_text_bytes();
    address_laws::v6_text_bytes();
    address_laws::v4_text_is_computed();
    address_laws::v6_text_is_computed();
}

/// A line that is printed for a network in the form of another program (`LineForm`) is read as that
/// network.
pub fn printed_lines_are_read()
    ensures { PrintedLinesAreRead }
{
    network_laws::canonical_ip_network_bytes();
    network_laws::canonical_ip_network_names_it();
}
