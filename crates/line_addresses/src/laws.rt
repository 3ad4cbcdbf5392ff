//! The laws of the addresses of lines. Each function's contract is a law: the function does
//! nothing, and a proof that calls it may use the law.
ghost use Rattle.line_addresses.specs.Laws.{NamedAddress, BeginsNoAddress, EndsNoAddress};

use ipnetwork_addr::laws::{ip_reading_is_computed, v4_text_bytes, v6_text_bytes};

/// The address of a text is the one that it names.
pub fn named_address()
    ensures { NamedAddress }
{
    ip_reading_is_computed();
}

/// No address begins a run whose first byte occurs in no address text.
pub fn begins_no_address()
    ensures { BeginsNoAddress }
{
    named_address();
    v4_text_bytes();
    v6_text_bytes();
}

/// No run whose last byte occurs in no address text has an address.
pub fn ends_no_address()
    ensures { EndsNoAddress }
{
    named_address();
    v4_text_bytes();
    v6_text_bytes();
}
