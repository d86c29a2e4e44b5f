//! Where each parameter stands in a list of parameters.
ghost use Rattle.std.specs.Prelude.{◌≡◌, ◌+◌, ℕ, List, Option, Some, OnOk, length, slice_get};
ghost use Rattle.rpl_calls.specs.Parameters.{ParameterParts, last_in, earlier_of};
ghost use Rattle.rpl_calls.specs.Table.{parameter_parts, parameter_in, kept_at, IsTable};

use crate::parameters::{Parameter, ParameterMap};
use route_types::Memory;
use std::alloc::Global;

/// The last place of each parameter of a list, and for each place the last one before it that has the same
/// parameter.
#[derive(Drop)]
pub(crate) struct Table<'a> {
    last: ParameterMap<'a>,
    earlier: Vec<Option<usize>>,
}

impl<'a> Table<'a> {
    // The table of an empty list.
    pub(crate) fn new(alloc: Global) -> Table<'a>
        ensures { (ps : List (Option ParameterParts)) → IsTable ps result 0 }
    {
        Table {
            last: ParameterMap::new(alloc),
            earlier: Vec::new(alloc),
        }
    }

    // Adds what stands at the next place, if a parameter does.
    pub(crate) fn add(&mut self, parameter: Option<Parameter<'a>>) -> Result<(), Memory>
        ensures { OnOk result ((ps : List (Option ParameterParts)) (n : ℕ) → IsTable ps self.old n → slice_get ps n ≡ Some (parameter_in parameter.entry) → IsTable ps self.new (n + 1)) }
    {
        let Some(parameter) = parameter else {
            self.earlier.push(None)?;
            return Ok(());
        };
        let place = self.earlier.len();
        self.earlier.push(self.last.get(parameter))?;
        self.last.put(parameter, place)?;
        Ok(())
    }

    // The last place of a parameter.
    pub(crate) fn last(&self, parameter: Parameter<'a>) -> Option<usize>
        ensures { (ps : List (Option ParameterParts)) → IsTable ps self.now (length ps) → result ≡ last_in ps (parameter_parts parameter.entry) }
    {
        self.last.get(parameter)
    }

    // The last place before this one at which the same parameter stands.
    pub(crate) fn before(&self, place: usize) -> Option<usize>
        ensures { (ps : List (Option ParameterParts)) → IsTable ps self.now (length ps) → result ≡ earlier_of ps place }
    {
        match self.earlier.get(place) {
            None => None,
            Some(before) => *before,
        }
    }
}
