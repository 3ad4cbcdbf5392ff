//! The laws of addresses, of networks and of their texts. Each function's contract is a law, and a
//! proof that calls it may use the law.

mod families;
mod json_texts;
mod sets;
mod texts;
mod values;

pub use families::{
    each_asks_its_family, each_is_made_in_its_family, each_is_read_in_its_family,
    ip_mask_converts_back,
};
pub use json_texts::{
    ip_network_stands_in_quotes, ip_network_through_json, ip_network_value_reads_back,
};
pub use sets::{families_are_apart, ip_listing, ip_membership_is_computed, ip_subnet_is_computed};
pub use texts::{
    canonical_ip_network_bytes, canonical_ip_network_is_one_to_one, canonical_ip_network_names_it,
    canonical_ip_network_reads_back, ip_network_reading_is_computed, ip_network_text_names_one,
};
pub use values::{
    ip_network_clone, ip_network_equality, ip_network_hash, ip_network_order, network_size_clone,
    network_size_equality, network_size_hash, network_size_order, wrong_family_clone,
    wrong_family_equality,
};

// The laws of addresses and of their texts.
pub use ipnetwork_addr::laws::{
    addr_parse_error_clone, addr_parse_error_equality, canonical_ip_is_one_to_one,
    canonical_ip_names_its_address, canonical_v4_is_one_to_one, canonical_v4_names_its_address,
    canonical_v6_is_one_text, canonical_v6_is_one_to_one, canonical_v6_names_its_address, ip_clone,
    ip_equality, ip_hash, ip_order, ip_reading_is_computed, ip_text_names_one, no_text_names_both,
    octet_texts, v4_clone, v4_equality, v4_hash, v4_order, v4_reading_is_computed, v4_text_bytes,
    v4_text_has_a_dot_first, v4_text_is_computed, v4_text_names_one, v6_clone, v6_equality,
    v6_hash, v6_order, v6_reading_is_computed, v6_text_bytes, v6_text_has_a_colon_first,
    v6_text_is_computed, v6_text_names_one,
};

// The laws of networks of one family.
pub use ipnetwork_family::laws::{
    blocks, blocks_that_meet, canonical_network_bytes, canonical_network_is_one_to_one,
    canonical_network_names_it, canonical_network_reads_back, cidr_fault_clone,
    cidr_fault_equality, ends, errors_by_their_texts, ip_network_error_equality,
    json_fault_equality, listing, longest_network_text, mask_conversion, masks,
    membership_is_computed, nested_networks, nesting, network_clone, network_equality,
    network_hash, network_order, network_size_error_clone, network_size_error_equality,
    network_stands_in_quotes, network_text_names_one, network_through_json,
    network_value_reads_back, networks_are_pairs, order, ordered_blocks, overlaps_by_four_tests,
    overlaps_is_four_tests, parsing_is_reading, prefix_number_is_computed, subnet_is_computed,
    subnets, suffix_is_refused, v4_mask_converts_back, v4_network_reading_is_computed,
    v6_mask_converts_back, v6_network_reading_is_computed,
};
