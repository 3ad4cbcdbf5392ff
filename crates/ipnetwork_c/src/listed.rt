//! The C structs as items of a list in the caller's memory: their prefix lengths are unchecked.
ghost use Rattle.std.specs.Prelude.{◌≡◌, ◌↔◌, IsTrue};
ghost use Rattle.std.specs.List.{All};
ghost use Rattle.ipnetwork_c.specs.Held.{PrefixFits};

use ipnetwork_blocks::{AddressSpace, HoldsNetwork};

/// A C struct in a list.
pub(crate) trait Listed<N: AddressSpace>: HoldsNetwork<N> {
    /// Returns the address, host bits kept, whatever the prefix length is.
    fn own_address(&self) -> N::Addr
        ensures { N.number result ≡ (Self.held self.now).address };

    /// Returns whether the prefix length is at most the family's width.
    fn fits(&self) -> bool
        ensures { IsTrue result ↔ Self.holds self.now };

    // A struct holds a network exactly if its prefix length is at most the family's width.
    ghost fitting: { (x : Self) → Self.holds x ↔ PrefixFits N.WIDTH (Self.held x) };
}

/// Returns whether each prefix length is at most the family's width.
pub(crate) fn all_fit<N: AddressSpace, H: Listed<N>>(list: &[H]) -> bool
    ensures { IsTrue result ↔ All H.holds list.now }
{
    list.iter().all(|held| held.fits())
}
