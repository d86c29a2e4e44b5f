//! The answers of subroutines that are known for the route as it stands.
ghost use Rattle.std.specs.Prelude.{◌≡◌, ℕ, List, None, IfSome, OnOk};
ghost use Rattle.route_types.specs.Route.{RouteParts};
ghost use Rattle.junos_meaning.specs.Meaning.{accepts};
ghost use Rattle.junos_meaning.specs.Subroutines.{answer_at, AreRight};
ghost use Rattle.junos_tree.specs.declared.item.JunosForm.{JunosForm as SpecForm};

use route_types::Memory;
use std::alloc::Global;
use std::collections::BTreeMap;

/// The answers of policies, each by its name and the number of calls that may stand one in the other from it on.
#[derive(Drop)]
pub(crate) struct Answers<'a> {
    pub(crate) known: BTreeMap<(&'a [u8], u8), bool>,
}

fn nothing_known<'a>(alloc: Global) -> BTreeMap<(&'a [u8], u8), bool>
    ensures { (n : ℕ) (q : List ℕ) → answer_at result n q ≡ None }
{
    BTreeMap::new(alloc)
}

impl<'a> Answers<'a> {
    /// No answers: they are right for every route. It takes no memory.
    pub(crate) fn new(alloc: Global) -> Answers<'a>
        ensures { (all : List SpecForm) (r : RouteParts) → AreRight result.known all r }
    {
        Answers {
            known: nothing_known(alloc),
        }
    }

    /// The answer of a policy on the route for which the answers are right, if it is known. It takes no memory.
    pub(crate) fn get(&self, calls: u8, name: &'a [u8]) -> Option<bool>
        ensures { (all : List SpecForm) (r : RouteParts) → AreRight self.now.known all r → IfSome result (λ b. b ≡ accepts calls all r name.now) }
    {
        self.found(calls, name)
    }

    // The answer that stands under a name and a number of calls.
    fn found(&self, calls: u8, name: &'a [u8]) -> Option<bool>
        ensures { result ≡ answer_at self.now.known calls name.now }
    {
        match self.known.get(&(name, calls)) {
            Some(answer) => Some(*answer),
            None => None,
        }
    }

    /// Notes the answer of a policy on the route. The one error is want of memory.
    pub(crate) fn put(&mut self, calls: u8, name: &'a [u8], answer: bool) -> Result<(), Memory>
        ensures { OnOk result ((all : List SpecForm) (r : RouteParts) → AreRight self.old.known all r → answer ≡ accepts calls all r name.now → AreRight self.new.known all r) }
    {
        self.known.insert((name, calls), answer)?;
        Ok(())
    }
}
