//! Connections that are served over the seats of one table.
use super::scenes::{CALM, OK, SEEN, get, run_over};
use crate::{Nonces, Seated};
use std::test::Fail;
use usp_nonce::{Answer, NonceTable, Turned};
use usp_shared::SharedNonces;

const ONCE: &str = "{\"cdniuc\":\"regex:^http://h/\",\"jti\":\"n\"}";

// What one connection takes through its seat is seen through the other seat.
#[test]
fn serves_over_two_seats_of_one_table(rt: HostRuntime) -> Result<(), Fail> {
    let alloc = rt.alloc();
    let table = NonceTable::with_room(alloc, 4)?;
    let (shared, mut first) = SharedNonces::new(alloc, table, 201)?;
    let second = shared.split(&mut first, 100)?;
    let mut one = Seated::new(&shared, first, &rt);
    let mut two = Seated::new(&shared, second, &rt);
    let bytes = get(alloc, "/v", ONCE)?;
    let ran = run_over(alloc, CALM, &bytes, &mut one)?;
    let again = run_over(alloc, CALM, &bytes, &mut two)?;
    assert!(rt; ran.text.as_slice() == OK.as_bytes());
    assert!(rt; again.text.as_slice() == SEEN.as_bytes());
    for (notes, place, answer) in [
        (&ran.notes, 0, Answer::Taken),
        (&again.notes, 1, Answer::Seen),
    ] {
        let called = Turned {
            place,
            moment: 50,
            answer,
        };
        assert_eq!(rt; notes.len(), 1);
        assert!(rt; notes[0].call == Some(called));
    }
    assert_eq!(rt; one.left(), 100);
    assert_eq!(rt; two.left(), 99);
    assert_eq!(rt; two.into_seat().share(), 100);
    Ok(())
}
