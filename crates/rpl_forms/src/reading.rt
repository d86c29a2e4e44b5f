//! The terms of a condition, read from the front: what waits for an operand is kept aside, so that
//! parentheses may be nested as deep as the memory holds.

ghost use Rattle.std.specs.Prelude.{◌≡◌, ◌<◌, ◌≤◌, ◌+◌, ◌-◌, ◌^◌, ◌++◌, ◌∷◌, [], Option, Some, None, List, true, false, IfOk, OnOk, length, option_map};
ghost use Rattle.rpl_forms.specs.Terms.{nothing_waits, repeated_not, completed, divided, taken, nots_of, read_on, after_mark};
ghost use Rattle.rpl_words.specs.declared.condition.Term.TheVariants.{Group, Test};
ghost use Rattle.rpl_forms.specs.declared.marks.Standing.TheVariants.{Wants, Has};
ghost use Rattle.rpl_forms.specs.declared.marks.Mark.TheVariants.{Closes};

use crate::marks::{Level, Mark, Standing};
use route_types::{Memory, Row};
use rpl_words::Term;
use std::alloc::Global;
use text_words::Stack;

/// A condition under way: its terms so far, where the next mark stands in its group, and what waits for
/// an operand in the groups around, the innermost first.
#[derive(Drop)]
pub(crate) struct Reading {
    pub(crate) terms: Row<Term>,
    pub(crate) standing: Standing,
    pub(crate) around: Stack<Level>,
}

// Puts a `not` behind the terms so many times.
#[tactic(auto, unfolding(crate::specs::Terms::repeated_not))]
fn push_nots(terms: &mut Row<Term>, count: u64) -> Result<(), Memory>
    ensures { OnOk result (terms.new ≡ terms.old ++ repeated_not count) }
{
    let mut left = count;
    while left > 0 {
        terms.push(Term::Not)?;
        left -= 1;
    }
    Ok(())
}

// Puts the terms that an operand completes behind the others.
#[tactic(auto, unfolding(crate::specs::Terms::completed))]
fn push_completed(terms: &mut Row<Term>, level: Level) -> Result<(), Memory>
    ensures { OnOk result (terms.new ≡ terms.old ++ completed level) }
{
    push_nots(terms, level.nots)?;
    if level.both {
        terms.push(Term::And)?;
    }
    Ok(())
}

// Puts the term behind the others that the end of an operand of `or` completes.
fn push_divided(terms: &mut Row<Term>, either: bool) -> Result<(), Memory>
    ensures { OnOk result (terms.new ≡ terms.old ++ divided either) }
{
    if either {
        terms.push(Term::Or)?;
    }
    Ok(())
}

impl Reading {
    // Nothing is read yet.
    pub(crate) fn new(alloc: Global) -> Reading
        ensures terms { result.terms ≡ [] }
        ensures standing { result.standing ≡ Wants nothing_waits }
        ensures around { result.around ≡ [] }
    {
        Reading {
            terms: Row::new(alloc),
            standing: Standing::Wants(Level {
                either: false,
                both: false,
                nots: 0,
            }),
            around: Stack::new(alloc),
        }
    }

    // A mark where an operand is wanted. Says whether it may stand there.
    #[tactic(auto, unfolding(crate::specs::Terms::taken))]
    fn take_operand(&mut self, level: Level, mark: Mark) -> Result<bool, Memory>
        requires small { level.nots < 2 ^ 64 - 1 }
        ensures value { IfOk result (λ ok. after_mark self.old.terms (taken (Wants level) self.old.around mark) ≡ elim ok [ true ↦ Some (self.new.terms, self.new.standing, self.new.around) | false ↦ None ]) }
        ensures nots { IfOk result (λ ok. nots_of self.new.standing ≤ level.nots + 1) }
    {
        match mark {
            Mark::Asks(test) => {
                self.terms.push(Term::Test(test))?;
                push_completed(&mut self.terms, level)?;
                self.standing = Standing::Has(level.either);
                Ok(true)
            }
            Mark::Opens => {
                self.around.push(level)?;
                self.standing = Standing::Wants(Level {
                    either: false,
                    both: false,
                    nots: 0,
                });
                Ok(true)
            }
            Mark::Negates => {
                self.standing = Standing::Wants(Level {
                    either: level.either,
                    both: level.both,
                    nots: level.nots + 1,
                });
                Ok(true)
            }
            Mark::Closes => {
                self.standing = Standing::Wants(level);
                Ok(false)
            }
            Mark::Joins => {
                self.standing = Standing::Wants(level);
                Ok(false)
            }
            Mark::Divides => {
                self.standing = Standing::Wants(level);
                Ok(false)
            }
        }
    }

    // The end of a group behind an operand. Says whether a group is there.
    #[tactic(auto, unfolding(crate::specs::Terms::taken))]
    fn close(&mut self, either: bool) -> Result<bool, Memory>
        ensures value { IfOk result (λ ok. after_mark self.old.terms (taken (Has either) self.old.around Closes) ≡ elim ok [ true ↦ Some (self.new.terms, self.new.standing, self.new.around) | false ↦ None ]) }
        ensures nots { IfOk result (λ ok. nots_of self.new.standing ≡ 0) }
    {
        self.standing = Standing::Has(either);
        let Some(level) = self.around.pop() else {
            return Ok(false);
        };
        push_divided(&mut self.terms, either)?;
        self.terms.push(Term::Group)?;
        push_completed(&mut self.terms, level)?;
        self.standing = Standing::Has(level.either);
        Ok(true)
    }

    // A mark behind an operand. Says whether it may stand there.
    #[tactic(auto, unfolding(crate::specs::Terms::taken))]
    fn take_behind(&mut self, either: bool, mark: Mark) -> Result<bool, Memory>
        ensures value { IfOk result (λ ok. after_mark self.old.terms (taken (Has either) self.old.around mark) ≡ elim ok [ true ↦ Some (self.new.terms, self.new.standing, self.new.around) | false ↦ None ]) }
        ensures nots { IfOk result (λ ok. nots_of self.new.standing ≡ 0) }
    {
        match mark {
            Mark::Joins => {
                self.standing = Standing::Wants(Level {
                    either,
                    both: true,
                    nots: 0,
                });
                Ok(true)
            }
            Mark::Divides => {
                push_divided(&mut self.terms, either)?;
                self.standing = Standing::Wants(Level {
                    either: true,
                    both: false,
                    nots: 0,
                });
                Ok(true)
            }
            Mark::Closes => self.close(either),
            Mark::Asks(_) => {
                self.standing = Standing::Has(either);
                Ok(false)
            }
            Mark::Opens => {
                self.standing = Standing::Has(either);
                Ok(false)
            }
            Mark::Negates => {
                self.standing = Standing::Has(either);
                Ok(false)
            }
        }
    }

    // The next mark. Says whether it may stand there.
    pub(crate) fn take(&mut self, mark: Mark) -> Result<bool, Memory>
        requires small { nots_of self.old.standing < 2 ^ 64 - 1 }
        ensures value { IfOk result (λ ok. after_mark self.old.terms (taken self.old.standing self.old.around mark) ≡ elim ok [ true ↦ Some (self.new.terms, self.new.standing, self.new.around) | false ↦ None ]) }
        ensures nots { IfOk result (λ ok. nots_of self.new.standing ≤ nots_of self.old.standing + 1) }
    {
        match self.standing {
            Standing::Wants(level) => self.take_operand(level, mark),
            Standing::Has(either) => self.take_behind(either, mark),
        }
    }

    // The terms at the end of the condition; `None` where an operand or the end of a group is missing.
    #[tactic(auto, unfolding(crate::specs::Terms::terms_from))]
    pub(crate) fn finished(self) -> Result<Option<Row<Term>>, Memory>
        ensures { IfOk result (λ o. o ≡ read_on self.terms self.standing self.around []) }
    {
        let Reading {
            mut terms,
            standing,
            around,
        } = self;
        if around.len() != 0 {
            return Ok(None);
        }
        match standing {
            Standing::Wants(_) => Ok(None),
            Standing::Has(either) => {
                push_divided(&mut terms, either)?;
                Ok(Some(terms))
            }
        }
    }
}
