//! The claims of addresses, and by which of them a range is covered.

ghost use Rattle.std.specs.Prelude.{◌≡◌, ◌++◌, ◌∷◌, [], List, length, IfOk, OnOk, MatchOption};
ghost use Rattle.std.specs.List.{cons_option};
ghost use Rattle.std.specs.List.Sorted.{IsPermutation};
ghost use Rattle.acpi_overview.specs.Claims.{IsCoverOf, IsFree, IsFurthest, IsNamed, claim_to, claims_at, claims_in, claims_upto, of_kind};
ghost use Rattle.acpi_overview.specs.HostBridges.{is_host_bridge};
ghost use Rattle.acpi_overview.specs.declared.resources.AddressKind.TheVariants as kinds;
ghost use Rattle.acpi_overview.specs.steps.ClaimOrder.{AreFurthest};

use crate::containers::Container;
use crate::resources::{AddressKind, claimed_range};
use acpi_resources::Template;
use std::alloc::{AllocError, Global};
use std::marker::Model;

/// Addresses of one kind that a device claims by its constant `_CRS` (ACPI 6.5, 6.2.2).
#[derive(Debug, Clone, Copy, PartialEq, Eq, PartialOrd, Ord)]
pub struct Claim {
    /// The first address.
    pub from: u64,
    /// The first address behind them.
    pub to: u64,
    /// The number of the container that claims them.
    pub container: usize,
}

/// By which claims a range of addresses is covered.
#[derive(Debug, Drop)]
pub struct Cover {
    /// The containers that claim it, as far as it is covered without a gap: the first eight of them.
    pub containers: Vec<usize>,
    /// The first address that none of these claims.
    pub to: u64,
}

/// The most containers that a cover names.
const MOST: usize = 8;

impl Cover {
    // Names a container, unless it was named last.
    fn name(&mut self, container: usize) -> Result<(), AllocError>
        ensures to { self.new.to ≡ self.old.to }
        ensures named { OnOk result ((chain : List Claim) (c : Claim) → c.container ≡ container
            → IsNamed chain self.old → IsNamed (chain ++ c ∷ []) self.new) }
    {
        let is_new = self.containers.last().copied() != Some(container);
        if is_new && self.containers.len() < MOST {
            self.containers.push(container)?;
        }
        Ok(())
    }
}

/// The claims of one kind in the order of their addresses, and with each the one up to it that reaches furthest.
#[derive(Drop)]
struct KindClaims {
    claims: Vec<Claim>,
    furthest: Vec<usize>,
}

impl Model for KindClaims {
    ghost use Rattle.std.specs.Prelude.{List};
    ghost use Rattle.acpi_overview.specs.steps.ClaimOrder.{AreOrdered};
    ghost use Rattle.acpi_overview.specs.declared.claims.Claim.{Claim};

    ghost Value = { List Claim };

    ghost view = { λ k. k.claims.items };

    ghost invariant = { λ k. AreOrdered k.claims.items k.furthest.items };
}

// By the place of a claim, the place of the one up to it that reaches furthest.
fn furthest_of(alloc: Global, claims: &[Claim]) -> Result<Vec<usize>, AllocError>
    ensures { IfOk result (λ v. AreFurthest claims.now v.items) }
{
    let mut furthest: Vec<usize> = Vec::new(alloc);
    let mut best = 0;
    'places: for place in 0..claims.len() {
        if claims[best].to < claims[place].to {
            best = place;
        }
        furthest.push(best)?;
    }
    Ok(furthest)
}

impl KindClaims {
    fn new(alloc: Global, mut claims: Vec<Claim>) -> Result<KindClaims, AllocError>
        ensures { IfOk result (λ k. IsPermutation claims.items k) }
    {
        claims.sort_unstable();
        let furthest = furthest_of(alloc, &claims)?;
        Ok(KindClaims { claims, furthest })
    }

    // Of the claims of an address, one that reaches furthest.
    fn furthest_at(&self, address: u64) -> Option<Claim>
        ensures { MatchOption result
            (IsFree self.now address) (λ c. IsFurthest self.now address c) }
    {
        let count = self.claims.partition_point(|c| c.from <= address);
        if count == 0 {
            return None;
        }
        let claim = self.claims[self.furthest[count - 1]];
        if address < claim.to {
            Some(claim)
        } else {
            None
        }
    }

    /// How far a range is claimed, from its first address on.
    fn cover(&self, alloc: Global, from: u64, to: u64) -> Result<Cover, AllocError>
        ensures { IfOk result (λ c. IsCoverOf self.now from to c) }
    {
        let mut cover = Cover {
            containers: Vec::new(alloc),
            to: from,
        };
        'steps: while cover.to < to {
            let Some(claim) = self.furthest_at(cover.to) else {
                return Ok(cover);
            };
            cover.to = claim.to;
            cover.name(claim.container)?;
        }
        Ok(cover)
    }
}

/// The claims of all containers.
#[derive(Drop)]
pub struct Claims {
    alloc: Global,
    memory: KindClaims,
    ports: KindClaims,
}

impl Model for Claims {
    ghost use Rattle.acpi_overview.specs.Claims.{ClaimLists};

    ghost Value = { ClaimLists };

    ghost view = { λ c. record { memory = c.memory; ports = c.ports } };
}

// Puts the claim of a container to a range behind others, by its kind.
fn put_claim(
    memory: &mut Vec<Claim>,
    ports: &mut Vec<Claim>,
    number: usize,
    range: Option<(AddressKind, u64, u64)>,
) -> Result<(), AllocError>
    ensures memory { OnOk result (memory.new.items
        ≡ memory.old.items ++ cons_option (claim_to kinds.Memory number range) []) }
    ensures ports { OnOk result (ports.new.items
        ≡ ports.old.items ++ cons_option (claim_to kinds.Ports number range) []) }
{
    let Some((kind, from, to)) = range else {
        return Ok(());
    };
    let claim = Claim {
        from,
        to,
        container: number,
    };
    match kind {
        AddressKind::Memory => memory.push(claim)?,
        AddressKind::Ports => ports.push(claim)?,
    }
    Ok(())
}

// Puts the claims of a container behind others, by their kind.
fn put_claims(
    memory: &mut Vec<Claim>,
    ports: &mut Vec<Claim>,
    container: &Container<'_>,
    number: usize,
    template: &Template<'_>,
) -> Result<(), AllocError>
    ensures memory { OnOk result (memory.new.items ≡ memory.old.items ++ claims_in
        kinds.Memory (is_host_bridge container.now) number template.now.descriptors.items) }
    ensures ports { OnOk result (ports.new.items ≡ ports.old.items ++ claims_in
        kinds.Ports (is_host_bridge container.now) number template.now.descriptors.items) }
{
    let is_bridge = container.is_host_bridge();
    'descriptors: for descriptor in &template.descriptors {
        put_claim(memory, ports, number, claimed_range(descriptor, is_bridge))?;
    }
    Ok(())
}

// Puts the claims of the container of a number behind others, if its resources are known.
#[tactic(auto, using(crate::proofs::Claiming::of_places))]
fn put_claims_at(
    memory: &mut Vec<Claim>,
    ports: &mut Vec<Claim>,
    containers: &[Container<'_>],
    resources: &[Option<Template<'_>>],
    number: usize,
) -> Result<(), AllocError>
    ensures memory { OnOk result (memory.new.items
        ≡ memory.old.items ++ claims_at kinds.Memory containers.now resources.now number) }
    ensures ports { OnOk result (ports.new.items
        ≡ ports.old.items ++ claims_at kinds.Ports containers.now resources.now number) }
{
    let Some(container) = containers.get(number) else {
        return Ok(());
    };
    match resources.get(number) {
        Some(resource) => match resource {
            Some(template) => put_claims(memory, ports, container, number, template),
            None => Ok(()),
        },
        None => Ok(()),
    }
}

impl Claims {
    /// The claims of the containers, of which these are the resources.
    pub fn new(
        alloc: Global,
        containers: &[Container<'_>],
        resources: &[Option<Template<'_>>],
    ) -> Result<Claims, AllocError>
        ensures { IfOk result (λ c. (kind : AddressKind) → IsPermutation
            (claims_upto kind containers.now resources.now (length containers.now))
            (of_kind c kind)) }
    {
        let mut memory = Vec::new(alloc);
        let mut ports = Vec::new(alloc);
        'containers: for number in 0..containers.len() {
            put_claims_at(&mut memory, &mut ports, containers, resources, number)?;
        }
        Ok(Claims {
            alloc,
            memory: KindClaims::new(alloc, memory)?,
            ports: KindClaims::new(alloc, ports)?,
        })
    }

    /// How far a range is claimed, from its first address on.
    pub fn cover(&self, kind: AddressKind, from: u64, to: u64) -> Result<Cover, AllocError>
        ensures { IfOk result (λ c. IsCoverOf (of_kind self.now kind) from to c) }
    {
        match kind {
            AddressKind::Memory => self.memory.cover(self.alloc, from, to),
            AddressKind::Ports => self.ports.cover(self.alloc, from, to),
        }
    }
}
