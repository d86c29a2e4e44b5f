ghost use Rattle.std.specs.Prelude.{◌≡◌, IfOk};
ghost use Rattle.core_nodes.specs.declared.atom.Atom.TheVariants.{Path};
ghost use Rattle.resolved_tests.specs.Answers.{Resolves};

use crate::answer::Answer;
use crate::communities::{lists_answer, none_answer};
use crate::paths::lists_behind;
use crate::values::value_answer;
use core_nodes::{Atom, PathList};
use pending_changes::Pending;
use route_types::{Memory, Row};
use std::alloc::Global;

/// What a test behind pending changes asks of the route as it arrives. A test of a value that is set is decided; a path is
/// asked for what its patterns leave behind the numbers before it; a member of a community list that an added community
/// fits is asked no more. The one error is want of memory.
#[tactic(auto, using(crate::proofs::AnswerLaws::value_resolves))]
pub fn resolve(alloc: Global, pending: &Pending, atom: &Atom) -> Result<Answer, Memory>
    ensures { IfOk result (Resolves pending.now atom.now) }
{
    match atom {
        Atom::Path(lists) => {
            let answer = path_answer(alloc, pending, lists.as_slice())?;
            Ok(answer)
        }
        Atom::Community(lists) => {
            let answer = lists_answer(alloc, pending, lists)?;
            Ok(answer)
        }
        Atom::NoCommunity => {
            let answer = none_answer(alloc, pending)?;
            Ok(answer)
        }
        Atom::Prefix(_) | Atom::NextHop(_) | Atom::Origin(_) | Atom::LocalPreference(_) => {
            let answer = value_answer(alloc, pending, atom)?;
            Ok(answer)
        }
        Atom::MedOneOf(_) | Atom::MedAtLeast(_) | Atom::MedAtMost(_) => {
            let answer = value_answer(alloc, pending, atom)?;
            Ok(answer)
        }
    }
}

#[tactic(auto, using(crate::proofs::AnswerLaws::path_resolves))]
fn path_answer(alloc: Global, pending: &Pending, lists: &[PathList]) -> Result<Answer, Memory>
    ensures { IfOk result (Resolves pending.now (Path lists.now)) }
{
    let lists = lists_behind(alloc, pending.prepended.as_slice(), lists)?;
    Ok(Answer::Asked(Atom::Path(lists)))
}
