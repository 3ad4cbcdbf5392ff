//! The struct of an IPv6 network: the network that it holds, its order, and its use in lists and
//! columns.
ghost use Rattle.std.proofs.Common.{rules};
ghost use Rattle.std.specs.Cmp.{partial_order_from_own_ties};
ghost use Rattle.std.specs.Cmp.Rules.{comparing};
ghost use Rattle.std.specs.Option.{SomeIff};
ghost use Rattle.std.specs.Ordering.{nat_cmp, on, then_cmp, as_partial_cmp, eq_by_cmp};
ghost use Rattle.std.specs.Prelude.{◌↔◌, [], IsTrue, MatchOption, refl};
ghost use Rattle.ipnetwork_family.specs.Network.{Member};
ghost use Rattle.ipnetwork_c.specs.Held.{v6_in, HoldsV6, PrefixFits, number_of_octets};
ghost use Rattle.ipnetwork_c.specs.PrintedColumns.{v6_fits, v6_refused, v6_text};
ghost use Rattle.ipnetwork_c.specs.TextColumns.{v6_reads};

use crate::fault::{self, OK, PREFIX};
use crate::listed::Listed;
use crate::numbered::Numbered;
use crate::printed_columns::PrintsRow;
use crate::search_hint::SearchHint;
use crate::structs::{Ipv6InC, address_of, number_of};
use crate::text_columns::ReadsRow;
use arrayvec::ArrayString;
use ipnetwork::{Ipv6Addr, Ipv6Network, NETWORK_TEXT_CAPACITY};
use ipnetwork_blocks::HoldsNetwork;
use std::cmp::Ordering;

impl Ipv6InC {
    /// Returns the struct that holds a network.
    pub(crate) fn of(network: &Ipv6Network) -> Self
        ensures { HoldsV6 result network.now }
    {
        Ipv6InC {
            address: network.ip().octets(),
            prefix: network.prefix(),
        }
    }

    /// Returns the network, or `None` if the prefix length is greater than 128.
    pub(crate) fn network(&self) -> Option<Ipv6Network>
        ensures { SomeIff result (PrefixFits 128 (v6_in self.now)) (v6_in self.now) }
    {
        Ipv6Network::new_checked(address_of(&self.address), self.prefix)
    }

    /// Returns whether an address of 16 octets is in the network, or `None` if the prefix length is
    /// greater than 128.
    pub(crate) fn contains(&self, address: &[u8; 16]) -> Option<bool>
        ensures { MatchOption result (¬ (PrefixFits 128 (v6_in self.now)))
            (λ answer. PrefixFits 128 (v6_in self.now)
            × (IsTrue answer ↔ Member 128 (v6_in self.now) (number_of_octets address.now))) }
    {
        if self.prefix > 128 {
            return None;
        }
        Some(self.has(address))
    }

    /// The same for a struct whose prefix length was checked.
    #[inline(always)]
    pub(crate) fn has(&self, address: &[u8; 16]) -> bool
        requires { PrefixFits 128 (v6_in self.now) }
        ensures { IsTrue result ↔ Member 128 (v6_in self.now) (number_of_octets address.now) }
    {
        match self.network() {
            Some(network) => network.contains(address_of(address)),
            None => unreachable!(),
        }
    }
}

impl Ord for Ipv6InC {
    ghost cmp = { then_cmp (on (λ held. number_of_octets held.address) nat_cmp)
        (on (λ held. held.prefix) nat_cmp) };

    ghost total = { Prim.search (comparing, rules) };

    ghost matches_partial_cmp = { Prim.search (comparing, rules) };

    ghost matches_eq = { Prim.search (comparing, rules) };

    fn cmp(&self, other: &Ipv6InC) -> Ordering {
        let first = number_of(&self.address);
        let second = number_of(&other.address);
        first.cmp(&second).then(self.prefix.cmp(&other.prefix))
    }
}

impl PartialOrd for Ipv6InC {
    ghost partial_cmp = { as_partial_cmp
        (then_cmp (on (λ held. number_of_octets held.address) nat_cmp)
        (on (λ held. held.prefix) nat_cmp)) };

    ghost laws = { partial_order_from_own_ties (Prim.search (comparing, rules))
        (Prim.search (comparing, rules)) };

    fn partial_cmp(&self, other: &Ipv6InC) -> Option<Ordering> {
        Some(self.cmp(other))
    }
}

impl PartialEq for Ipv6InC {
    ghost eq = { eq_by_cmp
        (then_cmp (on (λ held. number_of_octets held.address) nat_cmp)
        (on (λ held. held.prefix) nat_cmp)) };

    ghost laws = { Prim.search (comparing, rules) };

    fn eq(&self, other: &Ipv6InC) -> bool {
        self.cmp(other).is_eq()
    }
}

impl Eq for Ipv6InC {
    ghost laws = { Prim.search (comparing, rules) };
}

impl HoldsNetwork<Ipv6Network> for Ipv6InC {
    ghost holds = { λ held. PrefixFits 128 (v6_in held) };

    ghost held = { v6_in };

    fn held_network(self) -> Ipv6Network {
        match Ipv6InC::network(&self) {
            Some(network) => network,
            None => unreachable!(),
        }
    }

    fn holding(network: Ipv6Network) -> Ipv6InC {
        let _ = network.ip();
        Ipv6InC::of(&network)
    }

    ghost held_order = { λ _ _ _ _. refl };
}

impl Listed<Ipv6Network> for Ipv6InC {
    fn own_address(&self) -> Ipv6Addr {
        address_of(&self.address)
    }

    fn fits(&self) -> bool {
        self.prefix <= 128
    }

    ghost fitting = { λ _. ((λ h. h), (λ h. h)) };
}

impl Numbered<Ipv6Network> for Ipv6InC {
    type Number = u128;

    type Octets = [u8; 16];

    ghost value = { λ number. number };

    ghost meant = { λ octets. number_of_octets octets };

    ghost no_octets = { [] };

    fn own_number(&self) -> u128 {
        number_of(&self.address)
    }

    fn number_of(addr: Ipv6Addr) -> u128 {
        u128::from(addr)
    }

    #[inline(always)]
    fn number_in(octets: &[u8; 16]) -> u128 {
        number_of(octets)
    }

    #[inline(always)]
    fn address_in(octets: &[u8; 16]) -> Ipv6Addr {
        address_of(octets)
    }

    fn is_up_to(first: u128, second: u128) -> bool {
        first <= second
    }

    fn has(&self, number: u128) -> bool {
        let own = number_of(&self.address);
        if self.prefix == 0 {
            return true;
        }
        let host_bits = u32::from(128 - self.prefix);
        number >> host_bits == own >> host_bits
    }

    fn part_of(number: u128, base: u128, shift: u32) -> usize {
        let part = number.saturating_sub(base) >> shift;
        part.min(usize::MAX as u128) as usize
    }

    fn half() -> u32 {
        127
    }
}

impl SearchHint<Ipv6Network> for Ipv6InC {
    #[inline(always)]
    fn seems_up_to(&self, number: u128) -> bool {
        (number_of(&self.address) >> 64) as u64 <= (number >> 64) as u64
    }
}

impl ReadsRow for Ipv6InC {
    ghost reads = { v6_reads };

    fn read_row(&mut self, text: &[u8]) -> u32 {
        match Ipv6Network::read_bytes(text) {
            Ok(read) => {
                *self = Ipv6InC::of(&read);
                OK
            }
            Err(cause) => fault::number_of(cause),
        }
    }
}

impl PrintsRow for Ipv6InC {
    ghost fits = { v6_fits };

    ghost refused = { v6_refused };

    ghost text = { v6_text };

    fn row_fault(&self) -> u32 {
        if self.prefix <= 128 { OK } else { PREFIX }
    }

    fn row_text(&self) -> ArrayString<NETWORK_TEXT_CAPACITY> {
        match self.network() {
            Some(network) => network.canonical(),
            None => unreachable!(),
        }
    }
}
