//! The laws of addresses and of their texts. Each function's contract is a law. The functions for
//! laws of texts take nothing and do nothing; a proof that calls one may use its law.

mod computed;
mod texts;
mod values;

pub use computed::{
    ip_reading_is_computed, v4_reading_is_computed, v4_text_is_computed, v6_reading_is_computed,
    v6_text_is_computed,
};
pub use texts::{
    canonical_ip_is_one_to_one, canonical_ip_names_its_address, canonical_v4_is_one_to_one,
    canonical_v4_names_its_address, canonical_v6_is_one_text, canonical_v6_is_one_to_one,
    canonical_v6_names_its_address, each_v4_has_its_mapped, ip_text_names_one,
    mapped_text_ends_in_its_v4, no_text_names_both, octet_texts, v4_text_bytes,
    v4_text_has_a_dot_first, v4_text_names_one, v6_text_bytes, v6_text_has_a_colon_first,
    v6_text_names_one,
};
pub use values::{
    addr_parse_error_clone, addr_parse_error_equality, ip_clone, ip_equality, ip_hash, ip_order,
    v4_clone, v4_equality, v4_hash, v4_order, v6_clone, v6_equality, v6_hash, v6_order,
};
