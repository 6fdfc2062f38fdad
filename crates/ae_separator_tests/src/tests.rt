//! Inputs as a user gives them.
use ae_separator::{Parted, parting};
use std::test::Fail;

// Inputs, and where each is parted.
const INPUTS: [(&[u8], Option<(usize, usize)>); 8] = [
    (b"goal g : true\n%%\ngoal g Valid\n", Some((14, 17))),
    (b"%%", Some((0, 2))),
    (b"(*\n%%\n*)\n%%\n", Some((3, 6))),
    (b"%%%\n%%", Some((4, 6))),
    (b"goal g : true", None),
    (b"a%%\n", None),
    (b"%% \n", None),
    (b"%%\r\n", None),
];

// The first of these inputs that is parted elsewhere.
fn first_other(cases: &[(&[u8], Option<(usize, usize)>)]) -> Option<usize> {
    for (i, case) in cases.iter().enumerate() {
        let wanted = match case.1 {
            Some((before, after)) => Some(Parted { before, after }),
            None => None,
        };
        if parting(case.0) != wanted {
            return Some(i);
        }
    }
    None
}

#[test]
fn inputs_and_their_partings(rt: HostRuntime) -> Result<(), Fail> {
    assert_eq!(rt; first_other(INPUTS.as_slice()), None);
    Ok(())
}
