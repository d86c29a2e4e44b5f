//! What stands under the parameters of policies.
ghost use Rattle.std.specs.Prelude.{◌≡◌, None, Some, IfOk, true, false};
ghost use Rattle.rpl_calls.specs.Parameters.{ParameterParts, is_parameter};
ghost use Rattle.rpl_calls.specs.Table.{parameter_parts, under_parameter};

use route_types::Memory;
use std::alloc::Global;
use std::collections::BTreeMap;

/// A parameter of the policies of a name, by its place, from 0.
#[derive(Clone, Copy)]
pub struct Parameter<'a> {
    pub policy: &'a [u8],
    pub place: usize,
}

/// A number under each of some parameters.
#[derive(Drop)]
pub(crate) struct ParameterMap<'a> {
    entries: BTreeMap<(&'a [u8], usize), usize>,
}

impl<'a> ParameterMap<'a> {
    // A map in which nothing stands.
    pub(crate) fn new(alloc: Global) -> ParameterMap<'a>
        ensures { (p : ParameterParts) → under_parameter result.entries p ≡ None }
    {
        ParameterMap {
            entries: BTreeMap::new(alloc),
        }
    }

    // What stands under a parameter.
    pub(crate) fn get(&self, parameter: Parameter<'a>) -> Option<usize>
        ensures { result ≡ under_parameter self.now.entries (parameter_parts parameter.entry) }
    {
        match self.entries.get(&(parameter.policy, parameter.place)) {
            Some(value) => Some(*value),
            None => None,
        }
    }

    // Puts a number under a parameter, in the place of one that stands there.
    pub(crate) fn put(&mut self, parameter: Parameter<'a>, value: usize) -> Result<(), Memory>
        ensures { IfOk result (λ _. (q : ParameterParts) → under_parameter self.new.entries q ≡ elim (is_parameter q (Some (parameter_parts parameter.entry))) [ true ↦ Some value | false ↦ under_parameter self.old.entries q ]) }
    {
        self.entries
            .insert((parameter.policy, parameter.place), value)?;
        Ok(())
    }
}
