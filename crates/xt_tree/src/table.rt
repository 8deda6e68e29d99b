// A map from the numbers of nodes to keys.
ghost use Rattle.std.specs.Prelude.{ℕ, ◌≡◌, ◌==◌, IfOk, None, Some, if◌then◌else◌};
ghost use Rattle.xt_tree.specs.Lookup.{lookup, fork_lookup, link_lookup};

use std::alloc::Global;
use std::rc::Rc;
use xt_text::Memory;

// How many keys are put into a new map before it is first compared with what it serves.
const FIRST_LIMIT: u64 = 1024;

/// A map from numbers to keys. It is shared: a map with one entry more is a new map, and the old one stays. Entries
/// are never taken out, so it counts them, and is made anew where most of them serve nobody.
#[derive(Drop)]
pub struct Table {
    root: Option<Rc<Fork>>,
    // How many keys were put in, which is not less than the number of entries.
    count: u64,
    // The count at which it is to be compared with what it serves.
    limit: u64,
}

// The entry of 0, and the maps of the numbers that are odd and of those that are even and above 0.
#[derive(Drop)]
struct Fork {
    key: Option<u128>,
    odd: Option<Rc<Fork>>,
    even: Option<Rc<Fork>>,
}

impl Table {
    /// No entry. Takes no memory.
    pub fn new() -> Table
        ensures { (number : ℕ) → lookup result number ≡ None }
    {
        Table {
            root: None,
            count: 0,
            limit: FIRST_LIMIT,
        }
    }

    /// The key at this number.
    pub fn get(&self, number: u64) -> Option<u128>
        ensures { result ≡ lookup self.now number }
    {
        let mut left = number;
        let mut link = &self.root;
        while let Some(fork) = link {
            if left == 0 {
                return fork.key;
            }
            if left % 2 == 1 {
                left /= 2;
                link = &fork.odd;
            } else {
                left = left / 2 - 1;
                link = &fork.even;
            }
        }
        None
    }

    /// The same map, shared.
    pub fn copy(&self) -> Result<Table, Memory>
        ensures { IfOk result (λ table. (number : ℕ) → lookup table number ≡ lookup self.now number) }
    {
        self.copy_until(self.limit)
    }

    /// The same map, shared, with another limit.
    pub fn copy_until(&self, limit: u64) -> Result<Table, Memory>
        ensures { IfOk result (λ table. (number : ℕ) → lookup table number ≡ lookup self.now number) }
    {
        let root = copy(&self.root)?;
        Ok(Table {
            root,
            count: self.count,
            limit,
        })
    }

    /// Whether so many keys were put in that they are to be compared with what the map serves.
    pub fn is_due(&self) -> bool {
        self.count >= self.limit
    }

    /// The limit of a map that serves so many nodes. None where most of what was put in serves none of them.
    pub fn limit_for(&self, nodes: u64) -> Option<u64> {
        if self.count / 2 > nodes {
            return None;
        }
        Some(self.count.max(nodes).saturating_mul(2))
    }

    /// The count at which it is to be compared with what it serves.
    pub fn limit(&self) -> u64 {
        self.limit
    }

    /// The same map with this key at this number.
    pub fn with(&self, alloc: Global, number: u64, key: u128) -> Result<Table, Memory>
        ensures { IfOk result (λ table. (other : ℕ) → lookup table other ≡ (if other == number then Some key else lookup self.now other)) }
    {
        let fork = with(alloc, &self.root, number, key)?;
        Ok(Table {
            root: Some(fork),
            count: self.count.saturating_add(1),
            limit: self.limit,
        })
    }
}

fn copy(link: &Option<Rc<Fork>>) -> Result<Option<Rc<Fork>>, Memory>
    ensures { IfOk result (λ own. (number : ℕ) → link_lookup own number ≡ link_lookup link.now number) }
{
    match link {
        None => Ok(None),
        Some(fork) => Ok(Some(fork.clone()?)),
    }
}

// What stands at the top of these, alone.
fn top(link: &Option<Rc<Fork>>) -> Result<Fork, Memory>
    ensures { IfOk result (λ fork. (number : ℕ) → fork_lookup fork number ≡ link_lookup link.now number) }
{
    match link {
        None => Ok(Fork {
            key: None,
            odd: None,
            even: None,
        }),
        Some(fork) => {
            let odd = copy(&fork.odd)?;
            let even = copy(&fork.even)?;
            Ok(Fork {
                key: fork.key,
                odd,
                even,
            })
        }
    }
}

fn with(alloc: Global, link: &Option<Rc<Fork>>, number: u64, key: u128) -> Result<Rc<Fork>, Memory>
    ensures { IfOk result (λ fork. (other : ℕ) → fork_lookup fork.value other ≡ (if other == number then Some key else link_lookup link.now other)) }
{
    let mut fork = top(link)?;
    if number == 0 {
        fork.key = Some(key);
    } else if number % 2 == 1 {
        let below = with(alloc, &fork.odd, number / 2, key)?;
        fork.odd = Some(below);
    } else {
        let below = with(alloc, &fork.even, number / 2 - 1, key)?;
        fork.even = Some(below);
    }
    Ok(Rc::new(alloc, fork)?)
}
