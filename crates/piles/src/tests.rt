// Small runs on trial media, and many pages through a holding layer.
use layer::{holding_back, through};
use medium::{Medium, MediumFault, Memory, Trial};

// How many of two writes and a settle are accepted, up to the first that is not.
fn accepted<M: Medium>(medium: &mut M) -> usize {
    for (n, (page, at, fill)) in [(0, 0, 1), (1, 4, 2)].into_iter().enumerate() {
        if medium.write(page, at, &[fill; 8]).is_err() {
            return n;
        }
    }
    2 + usize::from(medium.settle().is_ok())
}

// Whether a word of four equal bytes stands at a place.
fn word(bytes: &[u8], at: usize, fill: u8) -> bool {
    at < bytes.len() && bytes[at] == fill
}

#[test]
fn a_trial_medium_stops_where_it_was_told(rt: HostRuntime) {
    for pattern in [0, 1, 2, 3, u64::MAX] {
        for stop in 0u32..5 {
            let mut bytes = [0; 2048];
            let mut trial = Trial::new(&mut bytes, stop, pattern);
            let n = accepted(&mut trial);
            let stopped = trial.stopped();
            // a bad run is not counted, and is refused as such by a stopped medium too
            let bad = trial.write(2, 0, &[0; 4]).is_err();
            let left = trial.into_bytes();
            assert!(rt;
                n == if stop == 0 || stop == 4 {
                    3
                } else {
                    stop as usize - 1
                }
            );
            assert!(rt; stopped == (stop > 0 && stop < 4) && bad);
            assert!(rt; word(left, 0, if stop == 1 && pattern % 2 == 0 { 0 } else { 1 }));
            assert!(rt;
                word(
                    left,
                    4,
                    if stop == 1 && pattern / 2 % 2 == 0 {
                        0
                    } else {
                        1
                    }
                )
            );
            assert!(rt;
                word(
                    left,
                    1028,
                    if stop == 1 || (stop == 2 && pattern % 2 == 0) {
                        0
                    } else {
                        2
                    }
                )
            );
            assert!(rt;
                word(
                    left,
                    1032,
                    if stop == 1 || (stop == 2 && pattern / 2 % 2 == 0) {
                        0
                    } else {
                        2
                    }
                )
            );
        }
    }
}

// Writes to nine pages, to the first of them twice.
fn write_nine<M: Medium>(medium: &mut M) -> Result<(), MediumFault> {
    for (page, fill) in [
        (0, 1),
        (1, 2),
        (2, 3),
        (3, 4),
        (4, 5),
        (5, 6),
        (6, 7),
        (7, 8),
        (0, 9),
        (8, 10),
    ] {
        medium.write(page, 0, &[fill; 4])?;
    }
    Ok(())
}

// The same through a holding layer.
fn write_nine_held<M: Medium>(medium: M) -> (M, Result<(), MediumFault>) {
    holding_back(medium, &mut (), |mut hold, _| {
        let done = write_nine(&mut hold);
        (hold, done)
    })
}

#[test]
fn nine_pages_through_a_holding_layer(rt: HostRuntime) {
    let mut bytes = [0; 10240];
    let (memory, done) = write_nine_held(Memory::new(&mut bytes));
    let left = memory.into_bytes();
    // the ninth page pushed out the first, which was written twice and kept its age
    assert!(rt; done.is_ok() && word(left, 0, 9) && word(left, 1024, 0) && word(left, 8192, 0));
}

// Counts the pages, writes and settles.
fn settle_third<M: Medium>(medium: &mut M) -> Result<usize, MediumFault> {
    let pages = medium.pages();
    medium.write(2, 4, &[7; 4])?;
    medium.settle()?;
    Ok(pages)
}

// The same through a holding layer over a window onto another holding layer.
fn settle_pile<M: Medium>(medium: M) -> (M, Result<usize, MediumFault>) {
    holding_back(medium, &mut (), |hold, state| {
        through(hold, 1, 9, state, |window, state| {
            holding_back(window, state, |mut top, _| {
                let done = settle_third(&mut top);
                (top, done)
            })
        })
    })
}

#[test]
fn a_pile_of_three_layers_settles_down(rt: HostRuntime) {
    let mut bytes = [0; 4096];
    let (memory, done) = settle_pile(Memory::new(&mut bytes));
    let left = memory.into_bytes();
    assert!(rt; done == Ok(3) && word(left, 3076, 7));
}
