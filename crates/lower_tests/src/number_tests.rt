use crate::checks::is_same;
use request_numbers::numbers::Numbers;

// Numbers 1 and 2, answered in the other order.
#[test]
fn answers_in_another_order(rt: HostRuntime) {
    let mut numbers = Numbers::new(rt.alloc());
    numbers.reserve(2).expect(&rt, "not reserved");
    let low_water = numbers.low_water();
    let given = (numbers.next(), numbers.next());
    is_same(&rt, (low_water, given), (0, (Ok(1), Ok(2))));
    let low_water = numbers.low_water();
    numbers.answered(2);
    let open = [numbers.is_open(1), numbers.is_open(2), numbers.is_open(3)];
    let found = (low_water, numbers.low_water(), open);
    is_same(&rt, found, (0, 0, [true, false, false]));
    numbers.answered(1);
    is_same(&rt, (numbers.low_water(), numbers.last()), (2, 2));
    drop(numbers);
}

// Behind 7 the next is 8, and all up to 7 are answered.
#[test]
fn numbers_begin_behind(rt: HostRuntime) {
    let mut numbers = Numbers::new(rt.alloc());
    numbers.reserve(1).expect(&rt, "not reserved");
    numbers.begin_behind(7);
    let marks = (numbers.last(), numbers.low_water());
    is_same(&rt, (marks, numbers.next()), ((7, 7), Ok(8)));
    is_same(&rt, (numbers.is_open(7), numbers.low_water()), (false, 7));
    numbers.answered(8);
    is_same(&rt, numbers.low_water(), 8);
    drop(numbers);
}
