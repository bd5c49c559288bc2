// Examples, from one test function: each is proved down to all that stands below it, so one costs far less than many.
use crate::places;
use std::test::Fail;

#[test]
fn examples_hold(rt: HostRuntime) -> Result<(), Fail> {
    let alloc = rt.alloc();
    places::what_has_no_place_is_told(&rt, alloc)
}
