// What a store makes of its Ids: the calls that users make.
ghost use Rattle.std.specs.Prelude.{◌≡◌, ◌<◌, ◌&&◌, ◌||◌, not, false, if◌then◌else◌, length, List, Bool, slice_index_or, IfOk, OnErr};
ghost use Rattle.bit_diagrams.specs.Store.{IsIdOf};
ghost use Rattle.bit_diagrams.specs.Meaning.{holds, Stands, Keeps};
ghost use Rattle.bit_diagrams.specs.Choice.{IsChoiceOf, choice_holds};

use crate::parts::{FALSE, Id, Memory, Node, TRUE};
use crate::store::Diagrams;
use crate::waiting::Choice;

impl Diagrams {
    /// The Id of the lists whose bit at `place` is true. The place is below the number of places.
    /// After `Memory` the store is unchanged.
    pub fn bit(&mut self, place: usize) -> Result<Id, Memory>
        requires { place < self.old.places }
        ensures made { IfOk result (λ id. Stands self.new id
            (λ bits. slice_index_or bits place false)) }
        ensures keeps { Keeps self.old self.new }
        ensures err { OnErr result (self.new ≡ self.old) }
    {
        self.branch(Node {
            place,
            low: FALSE,
            high: TRUE,
        })
    }

    /// The Id of the lists on which both hold. The Ids are of this store. After `Memory` the store is
    /// unchanged.
    pub fn both(&mut self, a: Id, b: Id) -> Result<Id, Memory>
        requires of_a { IsIdOf self.old a }
        requires of_b { IsIdOf self.old b }
        ensures made { IfOk result (λ id. Stands self.new id
            (λ bits. holds self.old a bits && holds self.old b bits)) }
        ensures keeps { Keeps self.old self.new }
        ensures err { OnErr result (self.new ≡ self.old) }
    {
        self.choose(a, b, FALSE)
    }

    /// The Id of the lists on which one of the two holds, or both do. The Ids are of this store. After
    /// `Memory` the store is unchanged.
    pub fn either(&mut self, a: Id, b: Id) -> Result<Id, Memory>
        requires of_a { IsIdOf self.old a }
        requires of_b { IsIdOf self.old b }
        ensures made { IfOk result (λ id. Stands self.new id
            (λ bits. holds self.old a bits || holds self.old b bits)) }
        ensures keeps { Keeps self.old self.new }
        ensures err { OnErr result (self.new ≡ self.old) }
    {
        self.choose(a, TRUE, b)
    }

    /// The Id of the lists on which the Id does not hold. The Id is of this store. After `Memory` the
    /// store is unchanged.
    pub fn negate(&mut self, a: Id) -> Result<Id, Memory>
        requires of_a { IsIdOf self.old a }
        ensures made { IfOk result (λ id. Stands self.new id
            (λ bits. not (holds self.old a bits))) }
        ensures keeps { Keeps self.old self.new }
        ensures err { OnErr result (self.new ≡ self.old) }
    {
        self.choose(a, FALSE, TRUE)
    }

    /// The Id of the lists on which `yes` holds where `test` does, and `no` where it does not. The Ids
    /// are of this store. After `Memory` the store is unchanged.
    pub fn choose(&mut self, test: Id, yes: Id, no: Id) -> Result<Id, Memory>
        requires of_test { IsIdOf self.old test }
        requires of_yes { IsIdOf self.old yes }
        requires of_no { IsIdOf self.old no }
        ensures made { IfOk result (λ id. Stands self.new id
            (λ bits. if holds self.old test bits then holds self.old yes bits else holds self.old no bits)) }
        ensures keeps { Keeps self.old self.new }
        ensures err { OnErr result (self.new ≡ self.old) }
    {
        self.make(Choice {
            test,
            high: yes,
            low: no,
        })
    }

    // The Id of a choice. After `Memory` the nodes that were made on the way are taken away again.
    fn make(&mut self, choice: Choice) -> Result<Id, Memory>
        requires { IsChoiceOf self.old choice }
        ensures made { IfOk result (λ id. Stands self.new id (choice_holds self.old choice)) }
        ensures keeps { Keeps self.old self.new }
        ensures err { OnErr result (self.new ≡ self.old) }
    {
        if let Some(id) = self.simple(&choice) {
            return Ok(id);
        }
        let count = self.node_count();
        match self.settle(choice) {
            Ok(id) => Ok(id),
            Err(Memory) => {
                self.restore(count);
                Err(Memory)
            }
        }
    }

    /// Two Ids of this store that hold on the same lists of one bit a place are equal.
    pub fn same_sets_have_one_id(&self, a: Id, b: Id)
        requires of_a { IsIdOf self.now a }
        requires of_b { IsIdOf self.now b }
        requires same { (bits : List Bool) → length bits ≡ self.now.places
            → holds self.now a bits ≡ holds self.now b bits }
        ensures { a ≡ b }
    {
        let _ = self.node_count();
    }
}
