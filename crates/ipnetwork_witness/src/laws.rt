//! The laws: `ipnetwork_addr` and std agree on the texts of addresses. Each function's contract is
//! a law. The functions take nothing and do nothing; a proof that calls one may use its law.

mod names;
mod prints;
mod readers;

pub use names::{
    ip_names_agree, ip_text_fits, ip_texts_are_shared, v4_names_agree, v4_texts_are_shared,
    v6_names_agree, v6_texts_are_shared,
};
pub use prints::{ip_prints_agree, v4_prints_agree, v6_prints_agree};
pub use readers::{v4_readers_agree, v6_readers_agree};
