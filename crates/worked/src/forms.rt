// Every edge of every range, and every kind of bad byte.
use form::{BadByte, BadField, Cue, RecordForm, Still};
use std::process::Abort;
use std::test::Fail;

// The bit that making a value was refused with.
fn bit_of<T: Drop>(made: Result<T, BadField>) -> Option<usize> {
    made.err().map(|bad| bad.bit)
}

// Edges of a field: its bit, a number, and whether it is in range.
type Edge = (usize, u32, bool);

// Makes a value of each number, standing for its field alone.
fn check_edges<T: Drop, F: Fn([Option<u32>; 4]) -> Result<T, BadField>>(
    rt: &impl Abort,
    make: F,
    edges: &[Edge],
)
    requires { F.IsAlwaysCallable make }
{
    for (bit, n, fits) in edges {
        let fields = [0, 1, 2, 3].map(|at| (at == *bit).then_some(*n));
        assert_eq!(rt; bit_of(make(fields)), (!*fits).then_some(*bit));
    }
}

fn cue_of([start, projector, level, fade]: [Option<u32>; 4]) -> Result<Cue, BadField> {
    Cue::new(start, projector, level, fade)
}

fn still_of([slide, projector, width, hold]: [Option<u32>; 4]) -> Result<Still, BadField> {
    Still::new(slide, projector, width, hold)
}

#[test]
fn edges_of_a_cue(rt: HostRuntime) {
    let low: [Edge; 7] = [
        (0, 0, true),
        (0, 863_999, true),
        (0, 864_000, false),
        (1, 0, false),
        (1, 1, true),
        (1, 64, true),
        (1, 65, false),
    ];
    let high: [Edge; 6] = [
        (2, 0, true),
        (2, 100, true),
        (2, 101, false),
        (3, 0, true),
        (3, 6_000, true),
        (3, 6_001, false),
    ];
    check_edges(&rt, cue_of, &low);
    check_edges(&rt, cue_of, &high);
}

#[test]
fn edges_of_a_still(rt: HostRuntime) {
    let low: [Edge; 8] = [
        (0, 0, false),
        (0, 1, true),
        (0, 9_999, true),
        (0, 10_000, false),
        (1, 0, false),
        (1, 1, true),
        (1, 64, true),
        (1, 65, false),
    ];
    let high: [Edge; 7] = [
        (2, 0, false),
        (2, 1, true),
        (2, 36_000, true),
        (2, 36_001, false),
        (3, 0, true),
        (3, 6_000, true),
        (3, 6_001, false),
    ];
    check_edges(&rt, still_of, &low);
    check_edges(&rt, still_of, &high);
}

#[test]
fn the_lowest_bad_bit_is_named(rt: HostRuntime) {
    assert_eq!(rt;
        bit_of(Cue::new(Some(1), Some(65), Some(101), Some(6_001))),
        Some(1)
    );
    assert_eq!(rt;
        bit_of(Cue::new(None, None, Some(101), Some(6_001))),
        Some(2)
    );
    assert_eq!(rt;
        bit_of(Still::new(Some(0), None, Some(0), Some(6_001))),
        Some(0)
    );
}

// The bad byte of bytes, unless they are read.
fn bad_of<T: Drop>(read: Result<T, BadByte>) -> Option<usize> {
    read.err().map(|bad| bad.at)
}

#[test]
fn the_first_bad_byte_of_a_cue_is_named(rt: HostRuntime) {
    // the map is missing, names another form, or has bit 5 or 4
    assert_eq!(rt; bad_of(Cue::read(&[])), Some(0));
    assert_eq!(rt; bad_of(Cue::read(&[0x80])), Some(0));
    assert_eq!(rt; bad_of(Cue::read(&[0x60])), Some(0));
    assert_eq!(rt; bad_of(Cue::read(&[0x50])), Some(0));
    // bytes of a field are missing: the length, before the range is looked at
    assert_eq!(rt; bad_of(Cue::read(&[0x41, 0xff, 0xff, 0xff])), Some(4));
    assert_eq!(rt; bad_of(Cue::read(&[0x48, 0])), Some(2));
    // a field is out of its range: its first byte
    assert_eq!(rt; bad_of(Cue::read(&[0x41, 0x00, 0x0d, 0x2f, 0x00])), Some(1));
    assert_eq!(rt; bad_of(Cue::read(&[0x43, 0, 0, 0, 0, 0])), Some(5));
    assert_eq!(rt; bad_of(Cue::read(&[0x44, 101])), Some(1));
    assert_eq!(rt; bad_of(Cue::read(&[0x48, 0x17, 0x71])), Some(1));
    // bytes are left over: where the fields end
    assert_eq!(rt; bad_of(Cue::read(&[0x40, 7])), Some(1));
    assert_eq!(rt; bad_of(Cue::read(&[0x44, 100, 7])), Some(2));
    // read
    assert_eq!(rt; bad_of(Cue::read(&[0x40])), None);
    assert_eq!(rt;
        bad_of(Cue::read(&[0x45, 0x00, 0x00, 0x02, 0x58, 0x50])),
        None
    );
}

#[test]
fn the_first_bad_byte_of_a_still_is_named(rt: HostRuntime) {
    assert_eq!(rt; bad_of(Still::read(&[0x45, 0, 0, 2, 0x58, 0x50])), Some(0));
    assert_eq!(rt; bad_of(Still::read(&[0x81, 0])), Some(2));
    assert_eq!(rt; bad_of(Still::read(&[0x81, 0, 0])), Some(1));
    assert_eq!(rt; bad_of(Still::read(&[0x84, 0x8c, 0xa1])), Some(1));
    assert_eq!(rt; bad_of(Still::read(&[0x83, 0, 1, 65])), Some(3));
    assert_eq!(rt; bad_of(Still::read(&[0x80, 0])), Some(1));
    assert_eq!(rt; bad_of(Still::read(&[0x89, 0, 12, 0, 45])), None);
}

#[test]
fn a_value_leaves_the_rest_of_the_buffer(rt: HostRuntime) -> Result<(), Fail> {
    let mut out = [7; 200];
    let cue = Cue::new(Some(600), None, Some(80), None)?;
    assert_eq!(rt; cue.write(&mut out), 6);
    assert!(rt; out[0] == 0x45 && out[3] == 0x02 && out[4] == 0x58 && out[5] == 0x50);
    assert!(rt; out[6] == 7 && out[199] == 7);
    Ok(())
}
