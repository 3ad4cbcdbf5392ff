//! Finds the addresses of a line, anywhere in it.
//!
//! A line is divided into runs: maximal sequences of ASCII letters, digits, `.`, `:` and `_`. Each
//! run is read by itself. Its address is named by the whole run, by the run without a `.` or `:` at
//! its end, or by the run without these and then without a `:` and one to five digits at its end, if
//! the rest has a `.`, whichever of these is the first that is an address text. If none is, the same
//! holds for what follows the run's first `:`, if a word is before it, that is, a text with a byte
//! that occurs in no address text; otherwise the run has no address. So `10.1.1.1:51234`,
//! `10.1.1.1:51234:`, `::ffff:10.1.1.1:51234`, `[10.1.1.1]`, `"10.1.1.1"`, `SRC=10.1.1.1`,
//! `[2001:db8::1]:443`, `outside:10.1.1.1` and `ip6:2001:db8::1` have an address, and `v10.1.2.3`,
//! `1.2.3.4.5`, `dad:10.1.1.1`, `12:34:56`, `2001:db8::1:51234` and `00:1b:44:11:3a:b7` have none.
//!
//! To find networks, a line is divided into stretches: maximal sequences of those bytes and `/`. If
//! a stretch has a `/`, and the whole stretch, or the stretch without a `.` or `:` at its end, is a
//! network text, or what follows a word and the first `:` is, then it has this network, and no
//! part of it counts as an address. Any other stretch has the addresses of its runs. So
//! `10.1.0.0/16`, `[2001:db8::/32]`, `ip4:10.1.0.0/16` and `10.0.0.0/255.0.0.0.` have a network,
//! and `http://10.1.1.1/24`, `10.1.1.1/99` and `10.1.1.1/24:80` have an address.
//!
//! Nothing here allocates. A line is a slice of any bytes, of any length.
#![tactic(auto)]

mod area;
mod byte_kind;
mod field;
mod first_position;
mod found;
mod from_end;
mod laws;
mod named;
mod network;
mod numbers;
mod part;
mod picking;
mod place;
mod port;
mod run;
mod stretches;
mod value;
mod word;

pub use area::{Area, Part, Pick, Text};
pub use field::field_of;
pub use first_position::following;
pub use found::{Found, next_address};
pub use from_end::{field_from_end, word_from_end};
pub use numbers::{is_number, number_of, ordinal_in};
pub use part::part_of;
pub use picking::picked;
pub use place::Place;
pub use run::address_of;
pub use stretches::{next_found, next_network};
pub use value::value_after;
pub use word::word_of;
