//! The newest result of each chain of cached results.

ghost use Rattle.std.specs.Prelude.{◌≡◌, ℕ, ◌<◌, cond, get_or, length, None, Some, OnOk, OnErr};
ghost use Rattle.search_graph.specs.Chain.{chain_of, is_chain, newest_in};

use indexmap::IndexMap;
use std::alloc::{AllocError, Global};

/// Results of one goal that do not differ. Each leads to the one before it.
#[derive(Clone, Copy)]
pub enum Chain {
    /// The successes of the goal with the number.
    Successes(usize),
    /// The overflows of the goal with the number, at the depth.
    Overflows(usize, usize),
}

impl Chain {
    /// The chain of a result of the goal with the number.
    pub(crate) fn of(number: usize, depth: usize, encountered_overflow: bool) -> Chain
        ensures { result ≡ chain_of number depth encountered_overflow }
    {
        if encountered_overflow {
            Chain::Overflows(number, depth)
        } else {
            Chain::Successes(number)
        }
    }
}

/// The index of the newest result of each chain.
#[derive(Drop)]
pub struct Newest {
    /// Those of successes, by the number of the goal.
    successes: Vec<Option<usize>>,
    /// Those of overflows, by the number of the goal and the depth.
    overflows: IndexMap<(usize, usize), usize>,
}

impl Newest {
    /// Without results. It allocates nothing yet.
    pub(crate) fn new(alloc: Global) -> Self
        ensures { (chain : Chain) → newest_in result chain ≡ None }
    {
        Newest {
            successes: Vec::new(alloc),
            overflows: IndexMap::new(alloc),
        }
    }

    /// The index of the newest result of the chain.
    pub(crate) fn get(&self, chain: Chain) -> Option<usize>
        ensures { result ≡ newest_in self.now chain }
    {
        match chain {
            Chain::Successes(number) => match self.successes.get(number) {
                Some(place) => *place,
                None => None,
            },
            Chain::Overflows(number, depth) => self.overflows.get(&(number, depth)).copied(),
        }
    }

    /// Notes the index of a new result of the chain.
    pub(crate) fn put(&mut self, chain: Chain, place: usize) -> Result<(), AllocError>
        ensures put { OnOk result ((other : Chain) → newest_in self.new other ≡ cond (is_chain chain other) (Some place) (newest_in self.old other)) }
        ensures err { OnErr result ((other : Chain) → newest_in self.new other ≡ newest_in self.old other) }
    {
        match chain {
            Chain::Successes(number) => {
                make_room(&mut self.successes, number)?;
                self.successes[number] = Some(place);
            }
            Chain::Overflows(number, depth) => {
                self.overflows.insert((number, depth), place)?;
            }
        }
        Ok(())
    }
}

/// Adds `None` for each goal up to the one with the number.
pub(crate) fn make_room(newest: &mut Vec<Option<usize>>, number: usize) -> Result<(), AllocError>
    ensures room { OnOk result (number < length newest.new.items) }
    ensures same { (other : ℕ) → get_or newest.new.items other None ≡ get_or newest.old.items other None }
{
    while newest.len() <= number {
        newest.push(None)?;
    }
    Ok(())
}
