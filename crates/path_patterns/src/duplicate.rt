use crate::items::{NumberRange, NumberSet, TokenBranch, TokenItem, TokenPattern};
use route_types::{Duplicate, Memory};
use std::alloc::Global;

impl Duplicate for NumberRange {
    fn duplicate(&self, _alloc: Global) -> Result<NumberRange, Memory> {
        Ok(*self)
    }
}

impl Duplicate for NumberSet {
    fn duplicate(&self, alloc: Global) -> Result<NumberSet, Memory> {
        let ranges = self.ranges.duplicate(alloc)?;
        Ok(NumberSet { ranges })
    }
}

impl Duplicate for TokenItem {
    fn duplicate(&self, alloc: Global) -> Result<TokenItem, Memory> {
        let set = self.set.duplicate(alloc)?;
        Ok(TokenItem {
            set,
            least: self.least,
            most: self.most,
        })
    }
}

impl Duplicate for TokenBranch {
    fn duplicate(&self, alloc: Global) -> Result<TokenBranch, Memory> {
        let items = self.items.duplicate(alloc)?;
        Ok(TokenBranch { items })
    }
}

impl Duplicate for TokenPattern {
    fn duplicate(&self, alloc: Global) -> Result<TokenPattern, Memory> {
        let branches = self.branches.duplicate(alloc)?;
        Ok(TokenPattern { branches })
    }
}
