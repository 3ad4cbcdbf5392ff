//! An address pool: blocks are taken from a network and given back.

ghost use Rattle.std.specs.Prelude.{◌≡◌, ℕ, IfOk, OnErr, MatchBool, MatchOption};
ghost use Rattle.ipnetwork_blocks.specs.Aggregate.{InUnion, LiesInUnion};
ghost use Rattle.ipnetwork_sets.specs.FreeBlocks.{NoBlockIsFree};
ghost use Rattle.example_guide.specs.Pools.{Takes, GivesBack};

use ipnetwork::{Ipv4Addr, Ipv4Network};
use ipnetwork_blocks::laws as block_laws;
use ipnetwork_sets::{AddressSet, laws};
use std::alloc::{AllocError, Global};
use std::io;
use std::marker::Model;

/// A network, and which of its addresses are taken.
#[derive(Drop)]
struct AddressPool {
    network: Ipv4Network,
    taken: AddressSet<Ipv4Network>,
}

// In contracts, a pool is its network and blocks with the taken addresses, all in the network.
impl Model for AddressPool {
    ghost use Rattle.std.specs.Prelude.{ℕ};
    ghost use Rattle.ipnetwork_family.specs.Network.{Member};
    ghost use Rattle.ipnetwork_blocks.specs.Aggregate.{InUnion};
    ghost use Rattle.example_guide.specs.Pools.{Pool};

    ghost Value = { Pool };

    ghost view = { λ pool. record { network = pool.network; taken = pool.taken } };

    ghost invariant = { λ pool. (x : ℕ) → InUnion 32 pool.taken x → Member 32 pool.network x };
}

impl AddressPool {
    /// Creates a pool of this network, with no address taken.
    fn new(alloc: Global, network: Ipv4Network) -> Self
        ensures network { result.network ≡ network }
        ensures free { (x : ℕ) → ¬ (InUnion 32 result.taken x) }
    {
        block_laws::same_union();
        block_laws::unions();
        AddressPool {
            network,
            taken: AddressSet::from_networks(Vec::new(alloc)),
        }
    }

    /// Takes the first free block of this prefix length; returns `None` if there is none.
    fn take(&mut self, prefix: u8) -> Result<Option<Ipv4Network>, AllocError>
        ensures taken { IfOk result (λ found. MatchOption found
            (NoBlockIsFree 32 self.old.network self.old.taken prefix × (self.new ≡ self.old))
            (λ block. Takes self.old prefix block self.new)) }
        ensures unchanged { OnErr result (self.new ≡ self.old) }
    {
        laws::changes();
        let Some(block) = self.taken.first_free(self.network, prefix) else {
            return Ok(None);
        };
        self.taken.insert(block)?;
        Ok(Some(block))
    }

    /// Gives a network back if all its addresses are taken; otherwise returns `false`.
    fn give_back(&mut self, network: Ipv4Network) -> Result<bool, AllocError>
        ensures given { IfOk result (λ given. MatchBool given (GivesBack self.old network self.new)
            (¬ (LiesInUnion 32 network self.old.taken) × (self.new ≡ self.old))) }
        ensures unchanged { OnErr result (self.new ≡ self.old) }
    {
        laws::changes();
        if !self.taken.covers(network) {
            return Ok(false);
        }
        self.taken.remove(network)?;
        Ok(true)
    }
}

pub fn run(rt: &HostRuntime) -> io::Result<()> {
    let Some(network) = Ipv4Network::block(Ipv4Addr::new(192, 0, 2, 0), 28) else {
        return Ok(());
    };
    let mut pool = AddressPool::new(rt.alloc(), network);
    for prefix in [30, 29, 30, 30] {
        match pool.take(prefix)? {
            Some(block) => println!(rt; "taken: {block}")?,
            None => println!(rt; "no free block of prefix length {prefix}")?,
        }
    }
    for text in ["192.0.2.0/30", "192.0.2.0/29", "198.51.100.0/30"] {
        if let Ok(network) = text.parse::<Ipv4Network>() {
            let word = if pool.give_back(network)? {
                "given back"
            } else {
                "not from the pool"
            };
            println!(rt; "{network}: {word}")?;
        }
    }
    println!(rt; "still taken: {}", pool.taken.address_count())
}
