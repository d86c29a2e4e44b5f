ghost use Rattle.std.specs.Prelude.{ℕ, List};
ghost use Rattle.std.specs.Bool.{Decides};
ghost use Rattle.path_patterns.specs.Finds.{finds_in};
ghost use Rattle.path_patterns.specs.Items.{Matches};
ghost use Rattle.path_patterns.specs.PathMatches.{path_matches};
ghost use Rattle.path_patterns.specs.Search.{Found};
ghost use Rattle.path_patterns.specs.declared.items.TokenPattern.{TokenPattern};
ghost use Rattle.path_patterns.specs.declared.pattern.IosBranch.{IosBranch};

/// The law of the function that searches; its clause is all that it does. For every pattern and path the
/// function answers true exactly where the pattern is found in the text of the path.
pub fn path_searches()
    ensures { (bs : List IosBranch) (path : List ℕ) → Decides (finds_in bs path) (Found bs path) }
{}

/// The law of the function that matches; its clause is all that it does. For every pattern of items and
/// path the function answers true exactly where the items of some branch take the whole path.
pub fn path_items()
    ensures { (p : TokenPattern) (path : List ℕ) → Decides (path_matches p path) (Matches p path) }
{}
