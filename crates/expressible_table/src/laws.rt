ghost use Rattle.std.specs.Prelude.{◌≡◌, ℕ, List, Option};
ghost use Rattle.ios_tree.specs.Spans.{SpansRise};
ghost use Rattle.ios_tree.specs.declared.item.IosItem.{IosItem};
ghost use Rattle.expressible_table.specs.Constructs.{map_constructs, RiseFrom};
ghost use Rattle.expressible_table.specs.Missing.{LacksFirst, first_missing};
ghost use Rattle.expressible_table.specs.declared.construct.Construct.{Construct};
ghost use Rattle.expressible_table.specs.declared.kind.Dialect.{Dialect};

/// The law of the first missing construct; its clauses are all that it does. None is missing exactly where each
/// construct is granted, and of those that aren't one is the first.
pub fn one_first_missing()
    // What the function finds is the first that is missing.
    ensures found { (target : Dialect) (cs : List Construct) → LacksFirst target cs (first_missing target cs) }
    // Nothing else is.
    ensures only { (target : Dialect) (cs : List Construct) (o : Option Construct) → LacksFirst target cs o → o ≡ first_missing target cs }
{}

/// The law of the order of constructs; its clause is all that it does. Where the spans of a tree rise and lie within its
/// text, as those of a tree that was read do, so do the spans of constructs: the order of the text is that of the places
/// at which they start.
pub fn constructs_rise()
    ensures { (name : List ℕ) (all : List IosItem) (end : ℕ) → SpansRise end all → RiseFrom 0 end (map_constructs name all) }
{}
