// Worked rows in a store of two places.
use bit_diagrams::{Bits, Diagrams};
use std::test::Fail;

#[test]
fn bit_and_its_negation(rt: HostRuntime) -> Result<(), Fail> {
    let mut store = Diagrams::new(rt.alloc(), 2)?;
    let first = store.bit(0)?;
    let not_first = store.negate(first)?;
    let never = store.both(first, not_first)?;
    assert_eq!(rt; never, store.constant(false));
    assert!(rt; store.find(never)?.is_none());
    Ok(())
}

#[test]
fn two_bits_together(rt: HostRuntime) -> Result<(), Fail> {
    let mut store = Diagrams::new(rt.alloc(), 2)?;
    let no = store.constant(false);
    let first = store.bit(0)?;
    let second = store.bit(1)?;
    let both = store.both(first, second)?;
    let chosen = store.choose(first, second, no)?;
    assert_eq!(rt; chosen, both);
    let found = store.find(both)?.map(Bits::into_vec);
    assert!(rt; found.is_some_and(|values| values.as_slice() == [true, true].as_slice()));
    Ok(())
}

#[test]
fn bit_or_true(rt: HostRuntime) -> Result<(), Fail> {
    let mut store = Diagrams::new(rt.alloc(), 2)?;
    let yes = store.constant(true);
    let first = store.bit(0)?;
    let always = store.either(first, yes)?;
    assert_eq!(rt; always, yes);
    Ok(())
}
