//! Sets made from iterators over blocks, in a list that the caller provides.
ghost use Rattle.std.specs.Prelude.{◌≡◌, ◌<◌, IfOk, OnErr, length, vec_capacity};

use crate::address_set::AddressSet;
use crate::blocks::{Blocks, SetBlocks};
use crate::common::Intersection;
use crate::difference::Difference;
use crate::union::Union;
use ipnetwork_blocks::AddressSpace;
use std::alloc::AllocError;

/// The set of the remaining blocks. The blocks are stored in `memory`, whose contents are dropped
/// first. `AllocError` means that it had to grow and memory ran out.
///
/// ```
/// let set = AddressSet::from_networks(vec![in rt.alloc(); "192.0.2.0/25".parse::<Ipv4Network>()?]?);
/// assert!(rt; collected(set.iter(), Vec::new(rt.alloc()))? == set);
/// ```
pub fn collected<N: AddressSpace, B: SetBlocks<N>>(
    mut blocks: B,
    mut memory: Vec<N>,
) -> Result<AddressSet<N>, AllocError>
    ensures set { IfOk result (λ set. set ≡ B.left blocks) }
    ensures room { OnErr result (vec_capacity memory < length (B.left blocks)) }
{
    memory.clear();
    loop {
        let Some(block) = blocks.next_block() else {
            return Ok(AddressSet::of_blocks(memory));
        };
        memory.push(block)?;
    }
}

impl<N: AddressSpace> AddressSet<N> {
    /// A set with the same addresses. The blocks are stored in `memory`, whose contents are dropped
    /// first. `AllocError` means that it had to grow and memory ran out.
    ///
    /// ```
    /// let set = AddressSet::from_networks(vec![in rt.alloc(); "192.0.2.0/25".parse::<Ipv4Network>()?]?);
    /// assert!(rt; set.copied(Vec::new(rt.alloc()))? == set);
    /// ```
    pub fn copied(&self, memory: Vec<N>) -> Result<Self, AllocError>
        ensures set { IfOk result (λ set. set ≡ self.now) }
        ensures room { OnErr result (vec_capacity memory < length self.now) }
    {
        self.iter().into_set(memory)
    }
}

impl<'a, N: AddressSpace> Blocks<'a, N> {
    /// The set of the remaining blocks. The blocks are stored in `memory`, whose contents are
    /// dropped first. `AllocError` means that it had to grow and memory ran out.
    ///
    /// ```
    /// let networks = vec![in rt.alloc(); "192.0.2.0/25".parse::<Ipv4Network>()?, "198.51.100.0/24".parse()?]?;
    /// let set = AddressSet::from_networks(networks);
    /// let mut blocks = set.iter();
    /// assert_eq!(rt; blocks.next(), Some("192.0.2.0/25".parse()?));
    /// let rest = blocks.into_set(Vec::new(rt.alloc()))?;
    /// assert_eq!(rt; rest.blocks(), ["198.51.100.0/24".parse()?].as_slice());
    /// ```
    pub fn into_set(self, memory: Vec<N>) -> Result<AddressSet<N>, AllocError>
        ensures set { IfOk result (λ set. set ≡ self.entry) }
        ensures room { OnErr result (vec_capacity memory < length self.entry) }
    {
        collected(self, memory)
    }
}

impl<'a, N: AddressSpace> Intersection<'a, N> {
    /// The set of the remaining blocks. The blocks are stored in `memory`, whose contents are
    /// dropped first. `AllocError` means that it had to grow and memory ran out.
    ///
    /// ```
    /// let set = AddressSet::from_networks(vec![in rt.alloc(); "192.0.2.0/25".parse::<Ipv4Network>()?]?);
    /// let other = AddressSet::from_networks(vec![in rt.alloc(); "192.0.2.64/26".parse()?]?);
    /// let common = set.intersection(&other).into_set(Vec::new(rt.alloc()))?;
    /// assert_eq!(rt; common.blocks(), ["192.0.2.64/26".parse()?].as_slice());
    /// ```
    pub fn into_set(self, memory: Vec<N>) -> Result<AddressSet<N>, AllocError>
        ensures set { IfOk result (λ set. set ≡ self.entry) }
        ensures room { OnErr result (vec_capacity memory < length self.entry) }
    {
        collected(self, memory)
    }
}

impl<'a, N: AddressSpace> Difference<'a, N> {
    /// The set of the remaining blocks. The blocks are stored in `memory`, whose contents are
    /// dropped first. `AllocError` means that it had to grow and memory ran out.
    ///
    /// ```
    /// let set = AddressSet::from_networks(vec![in rt.alloc(); "192.0.2.0/25".parse::<Ipv4Network>()?]?);
    /// let other = AddressSet::from_networks(vec![in rt.alloc(); "192.0.2.64/26".parse()?]?);
    /// let left = set.difference(&other).into_set(Vec::new(rt.alloc()))?;
    /// assert_eq!(rt; left.blocks(), ["192.0.2.0/26".parse()?].as_slice());
    /// ```
    pub fn into_set(self, memory: Vec<N>) -> Result<AddressSet<N>, AllocError>
        ensures set { IfOk result (λ set. set ≡ self.entry) }
        ensures room { OnErr result (vec_capacity memory < length self.entry) }
    {
        collected(self, memory)
    }
}

impl<'a, N: AddressSpace> Union<'a, N> {
    /// The set of the remaining blocks. The blocks are stored in `memory`, whose contents are
    /// dropped first. `AllocError` means that it had to grow and memory ran out.
    ///
    /// ```
    /// let set = AddressSet::from_networks(vec![in rt.alloc(); "192.0.2.0/25".parse::<Ipv4Network>()?]?);
    /// let other = AddressSet::from_networks(vec![in rt.alloc(); "192.0.2.128/25".parse()?]?);
    /// let both = set.union_blocks(&other).into_set(Vec::new(rt.alloc()))?;
    /// assert_eq!(rt; both.blocks(), ["192.0.2.0/24".parse()?].as_slice());
    /// ```
    pub fn into_set(self, memory: Vec<N>) -> Result<AddressSet<N>, AllocError>
        ensures set { IfOk result (λ set. set ≡ self.entry) }
        ensures room { OnErr result (vec_capacity memory < length self.entry) }
    {
        collected(self, memory)
    }
}
