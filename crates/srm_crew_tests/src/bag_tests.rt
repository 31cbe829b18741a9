//! A bag of numbers, that two passes share.
ghost use Rattle.std.specs.Prelude.{◌≡◌, ◌≤◌};

use srm_crew::bag::Bag;
use srm_crew::pass::Pass;
use std::alloc::Global;
use std::process::Abort;
use std::sync::Wait;

// A bag with room for so many numbers after these were put into it, and its whole pass.
fn bag_of<R: Abort + Wait>(
    rt: &R,
    alloc: Global,
    room: usize,
    numbers: &[u32],
) -> (Bag<u32>, Pass<u32>)
    requires { (1 ≤ room) × (room ≤ 1024) }
    ensures { result.1.bag ≡ result.0.name }
{
    let Ok((bag, mut pass)) = Bag::open(alloc, room) else {
        panic!(rt; "no bag");
    };
    for number in numbers {
        assert_eq!(rt; bag.put(rt, &mut pass, *number), Ok(()));
    }
    (bag, pass)
}

// The two halves of a pass.
fn halves(rt: &impl Abort, alloc: Global, bag: &Bag<u32>, pass: Pass<u32>) -> (Pass<u32>, Pass<u32>)
    requires { pass.bag ≡ bag.now.name }
    ensures { (result.0.bag ≡ bag.now.name) × (result.1.bag ≡ bag.now.name) }
{
    let Ok(both) = bag.split(alloc, pass) else {
        panic!(rt; "no halves");
    };
    both
}

// What each of two passes takes, the first one first.
fn taken_in_turn<R: Wait>(
    rt: &R,
    bag: &Bag<u32>,
    first: &mut Pass<u32>,
    second: &mut Pass<u32>,
) -> [Option<u32>; 2]
    requires { (first.old.bag ≡ bag.now.name) × (second.old.bag ≡ bag.now.name) }
    ensures { (first.new.bag ≡ bag.now.name) × (second.new.bag ≡ bag.now.name) }
{
    [bag.take(rt, first), bag.take(rt, second)]
}

// The pass after its first half took 10 and its second half 11.
fn taken_by_halves<R: Abort + Wait>(
    rt: &R,
    alloc: Global,
    bag: &Bag<u32>,
    pass: Pass<u32>,
) -> Pass<u32>
    requires { pass.bag ≡ bag.now.name }
    ensures { result.bag ≡ bag.now.name }
{
    let (mut first, mut second) = halves(rt, alloc, bag, pass);
    let taken = taken_in_turn(rt, bag, &mut first, &mut second);
    assert_eq!(rt; taken, [Some(10), Some(11)]);
    bag.join(first, second)
}

// The pass after its first half took 12.
fn taken_by_first_half<R: Abort + Wait>(
    rt: &R,
    alloc: Global,
    bag: &Bag<u32>,
    pass: Pass<u32>,
) -> Pass<u32>
    requires { pass.bag ≡ bag.now.name }
    ensures { result.bag ≡ bag.now.name }
{
    let (mut first, second) = halves(rt, alloc, bag, pass);
    assert_eq!(rt; bag.take(rt, &mut first), Some(12));
    bag.join(first, second)
}

// Asserts that the bag is emptied by this pass, which took the items of these indices.
fn expect_indices(rt: &impl Abort, bag: Bag<u32>, pass: Pass<u32>, indices: &[usize])
    requires { pass.bag ≡ bag.name }
{
    match bag.empty(pass) {
        Ok(taken) => assert_eq!(rt; taken.indices.as_slice(), indices),
        Err(_) => panic!(rt; "not emptied"),
    }
}

// The first pass takes 0, and after the join with the second, which takes 1, its first half takes 2.
#[test]
fn a_join_puts_the_list_of_the_first_pass_first(rt: HostRuntime) {
    let (bag, pass) = bag_of(&rt, rt.alloc(), 3, &[10, 11, 12]);
    let pass = taken_by_halves(&rt, rt.alloc(), &bag, pass);
    let pass = taken_by_first_half(&rt, rt.alloc(), &bag, pass);
    expect_indices(&rt, bag, pass, &[0, 1, 2]);
}
