ghost use Rattle.stack.specs.Contents.{contents};
ghost use Rattle.std.specs.Prelude.{◌≡◌, [], ◌∷◌, negsuc, ◌≤ℤ◌, MatchResult};

use super::*;
use std::test::Fail;

#[derive(Clone, Copy, Debug, PartialEq, Eq, Drop)]
struct Pair {
    left: i32,
    right: u16,
}

const ONE: Pair = Pair { left: -1, right: 1 };

const TWO: Pair = Pair { left: -2, right: 2 };

#[test]
fn no_place_no_element(rt: HostRuntime) {
    let mut places: [i32; 0] = [];
    let mut s = Stack::new(&mut places);
    assert_eq!(rt; s.room(), 0);
    assert_eq!(rt; s.push(1), Err(Full));
    assert_eq!(rt; s.pop(), None);
    assert!(rt; !s.set_last(1));
    assert!(rt; s.is_empty());
}

#[test]
fn a_refusal_changes_nothing(rt: HostRuntime) -> Result<(), Fail> {
    let mut places = [0; 2];
    let mut s = Stack::new(&mut places);
    s.push(7)?;
    s.push(8)?;
    assert_eq!(rt; s.push(9), Err(Full));
    assert_eq!(rt; s.len(), 2);
    assert_eq!(rt; s.room(), 2);
    assert_eq!(rt; s.last(), Some(8));
    assert_eq!(rt; places, [7, 8]);
    Ok(())
}

#[test]
fn pops_down_to_empty(rt: HostRuntime) -> Result<(), Fail> {
    let mut places = [ONE; 3];
    let mut s = Stack::new(&mut places);
    s.push(ONE)?;
    s.push(ONE)?;
    assert!(rt; s.set_last(TWO));
    assert_eq!(rt; s.pop(), Some(TWO));
    assert_eq!(rt; s.pop(), Some(ONE));
    assert_eq!(rt; s.pop(), None);
    assert_eq!(rt; s.len(), 0);
    Ok(())
}

#[test]
fn counts_from_the_first_pushed(rt: HostRuntime) -> Result<(), Fail> {
    let mut places = [ONE; 3];
    let mut s = Stack::new(&mut places);
    s.push(TWO)?;
    s.push(ONE)?;
    assert_eq!(rt; s.get(0), Some(TWO));
    assert_eq!(rt; s.get(1), Some(ONE));
    assert_eq!(rt; s.get(2), None);
    Ok(())
}

// Two stacks in one struct, beside a field with a fact of its own.
#[derive(Drop)]
struct Two<'a> {
    numbers: Stack<'a, i32>,
    pairs: Stack<'a, Pair>,
    state: i32,
    ghost low: { negsuc 0 ≤ℤ state },
}

impl<'a> Two<'a> {
    fn open(numbers: &'a mut [i32], pairs: &'a mut [Pair]) -> Two<'a>
        ensures numbers { contents result.numbers ≡ [] }
        ensures pairs { contents result.pairs ≡ [] }
    {
        Two {
            numbers: Stack::new(numbers),
            pairs: Stack::new(pairs),
            state: -1,
        }
    }

    fn note(&mut self, x: i32) -> Result<(), Full>
        ensures numbers { MatchResult result (λ _. contents self.new.numbers ≡ x ∷ contents self.old.numbers) (λ _. contents self.new.numbers ≡ contents self.old.numbers) }
        ensures pairs { contents self.new.pairs ≡ contents self.old.pairs }
    {
        self.numbers.push(x)?;
        self.state = 0;
        Ok(())
    }
}

#[test]
fn two_in_one_struct(rt: HostRuntime) -> Result<(), Fail> {
    let mut numbers = [0; 2];
    let mut pairs = [ONE; 1];
    let mut two = Two::open(&mut numbers, &mut pairs);
    two.note(5)?;
    two.pairs.push(TWO)?;
    assert_eq!(rt; two.numbers.last(), Some(5));
    assert_eq!(rt; two.pairs.last(), Some(TWO));
    assert_eq!(rt; two.state, 0);
    Ok(())
}

// A stack may be taken by value, changed and let go.
fn takes_one(mut stack: Stack<i32>) -> bool {
    stack.push(1).is_ok()
}

#[test]
fn a_stack_by_value(rt: HostRuntime) {
    let mut places = [0; 1];
    assert!(rt; takes_one(Stack::new(&mut places)));
    assert!(rt; !takes_one(Stack::new(&mut [])));
}
