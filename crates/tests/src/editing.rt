// Edits of a draft at the edges of its memory, and the first match once it is sealed.
use family::Clause;
use filter::{Draft, EditError, Sealed};
use std::process::Abort;
use std::test::Fail;
use supplied::{MakeError, PrefixRange, Route, RouteAction};

// A clause on the lengths low to 32 of 20.0.0.0/8 that accepts with a MED.
fn clause(low: u8, med: u32) -> Result<Clause<PrefixRange, RouteAction>, MakeError> {
    let region = PrefixRange::new(0x14000000, 8, low, 32)?;
    Ok(Clause {
        region,
        action: accept(med),
    })
}

fn accept(med: u32) -> RouteAction {
    RouteAction::Accept {
        preference: None,
        med: Some(med),
    }
}

// The place and the action that decide 20.0.0.0 with a length.
fn decided(
    rt: &impl Abort,
    filter: &Sealed<PrefixRange, RouteAction>,
    length: u8,
    place: usize,
    action: RouteAction,
) -> Result<(), Fail> {
    let route = Route::new(0x14000000, length)?;
    assert_eq!(rt; filter.first_match(route), (place, action));
    Ok(())
}

// An edit that is refused with this number.
fn refused(rt: &impl Abort, answer: Result<(), EditError>, number: u8) {
    assert_eq!(rt; answer.map_err(EditError::number), Err(number));
}

#[test]
fn memory_without_a_place(rt: HostRuntime) -> Result<(), Fail> {
    let c = clause(8, 1)?;
    let mut draft = Draft::new(&mut []);
    refused(&rt, draft.insert(0, c), 7);
    refused(&rt, draft.insert(1, c), 6);
    refused(&rt, draft.remove(0), 6);
    refused(&rt, draft.replace(0, c), 6);
    refused(&rt, draft.set_default(accept(1)), 7);
    decided(&rt, &draft.seal(), 8, 0, RouteAction::Reject)
}

#[test]
fn one_place_for_the_default(rt: HostRuntime) -> Result<(), Fail> {
    let c = clause(8, 1)?;
    let mut places = [c; 1];
    let mut draft = Draft::new(&mut places);
    refused(&rt, draft.insert(0, c), 7);
    draft.set_default(accept(9))?;
    decided(&rt, &draft.seal(), 8, 0, accept(9))
}

#[test]
fn clauses_keep_their_order(rt: HostRuntime) -> Result<(), Fail> {
    let mut places = [clause(8, 0)?; 5];
    let mut draft = Draft::new(&mut places);
    draft.insert(0, clause(24, 1)?)?;
    refused(&rt, draft.insert(2, clause(8, 9)?), 6);
    draft.insert(0, clause(30, 2)?)?;
    draft.insert(2, clause(8, 3)?)?;
    draft.insert(1, clause(28, 4)?)?;
    refused(&rt, draft.insert(0, clause(8, 9)?), 7);
    refused(&rt, draft.insert(5, clause(8, 9)?), 6);
    refused(&rt, draft.remove(4), 6);
    draft.replace(3, clause(16, 5)?)?;
    draft.remove(0)?;
    // Lengths 28, 24 and 16 are left, in this order.
    decided(&rt, &draft.seal(), 30, 0, accept(4))
}

#[test]
fn later_clauses_decide_what_earlier_ones_leave(rt: HostRuntime) -> Result<(), Fail> {
    let mut places = [clause(8, 0)?; 4];
    let mut draft = Draft::new(&mut places);
    draft.insert(0, clause(28, 4)?)?;
    draft.insert(1, clause(24, 1)?)?;
    draft.insert(2, clause(16, 5)?)?;
    draft.set_default(accept(7))?;
    decided(&rt, &draft.seal(), 20, 2, accept(5))
}

#[test]
fn default_decides_what_no_clause_holds(rt: HostRuntime) -> Result<(), Fail> {
    let mut places = [clause(8, 0)?; 4];
    let mut draft = Draft::new(&mut places);
    draft.insert(0, clause(28, 4)?)?;
    draft.set_default(accept(7))?;
    decided(&rt, &draft.seal(), 20, 1, accept(7))
}

#[test]
fn sixty_four_clauses_and_no_more(rt: HostRuntime) -> Result<(), Fail> {
    let c = clause(8, 1)?;
    let mut places = [c; 70];
    let mut draft = Draft::new(&mut places);
    for place in 0..64 {
        draft.insert(place, c)?;
    }
    refused(&rt, draft.insert(64, c), 7);
    refused(&rt, draft.insert(65, c), 6);
    draft.remove(63)?;
    draft.insert(0, clause(8, 2)?)?;
    decided(&rt, &draft.seal(), 8, 0, accept(2))
}
