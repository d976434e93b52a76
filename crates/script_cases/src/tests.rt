// What scripts are read as.
use book::Call;
use form::{Cue, Item, ItemKind, Still};
use script::{Card, Layers, Named, Poke, Script, Span, Step, Use, parse};
use stage::perform;
use std::process::Abort;
use std::test::*;

// A script, read.
fn read(rt: &(impl Abort + AllocGlobal), text: &[u8]) -> Result<Script, Fail> {
    Ok(parse(text, rt.alloc())?)
}

// How many uses are left of a script, and its bad line, if it has one.
fn says(
    rt: &(impl Abort + AllocGlobal),
    text: &[u8],
    uses: usize,
    bad: Option<usize>,
) -> Result<(), Fail> {
    let script = read(rt, text)?;
    assert_eq!(rt; script.uses.len(), uses);
    assert_eq!(rt; script.bad, bad);
    Ok(())
}

// The last use of a script that has no bad line.
fn last_use(rt: &(impl Abort + AllocGlobal), text: &[u8]) -> Result<Use, Fail> {
    let mut script = read(rt, text)?;
    assert_eq!(rt; script.bad, None);
    script.uses.pop().ok_or_else(|| Fail::new("no use"))
}

// What a line after a use says.
fn step_of(rt: &(impl Abort + AllocGlobal), line: &[u8]) -> Result<Step, Fail> {
    let mut text = Vec::new(rt.alloc());
    text.extend_from_slice(b"use memory 4\n")?;
    text.extend_from_slice(line)?;
    let mut last = last_use(rt, text.as_slice())?;
    last.steps.pop().ok_or_else(|| Fail::new("no step"))
}

// That a line after a use is bad.
fn bad(rt: &(impl Abort + AllocGlobal), line: &[u8]) -> Result<(), Fail> {
    let mut text = Vec::new(rt.alloc());
    text.extend_from_slice(b"use memory 4\nopen\nuse memory 4\n")?;
    text.extend_from_slice(line)?;
    says(rt, text.as_slice(), 1, Some(4))
}

#[test]
fn blank_lines_and_remarks(rt: HostRuntime) -> Result<(), Fail> {
    says(&rt, b"", 0, None)?;
    says(&rt, b"\n\n# none\n#  two  blanks \n", 0, None)?;
    says(&rt, b"# one\n\nuse memory 4\n\nopen\n#\nbad", 0, Some(7))
}

#[test]
fn every_medium(rt: HostRuntime) -> Result<(), Fail> {
    assert_eq!(rt;
        last_use(&rt, b"use memory 04096")?.named,
        Named::Memory { pages: 4096 }
    );
    assert_eq!(rt;
        last_use(&rt, b"use trial 4 7 00ffEE\n")?.named,
        Named::Trial {
            card: Card {
                pages: 4,
                stop: 7,
                pattern: 0xffee,
            },
            under: Layers::Bare,
        }
    );
    assert_eq!(rt;
        last_use(&rt, b"use window 2 3 trial 9 0 ffffffffffffffff")?.named,
        Named::Trial {
            card: Card {
                pages: 9,
                stop: 0,
                pattern: 0xffff_ffff_ffff_ffff,
            },
            under: Layers::Window {
                span: Span { first: 2, count: 3 },
            },
        }
    );
    Ok(())
}

#[test]
fn every_layer(rt: HostRuntime) -> Result<(), Fail> {
    assert_eq!(rt;
        last_use(&rt, b"use hold trial 4 0 1")?.named,
        Named::Trial {
            card: Card {
                pages: 4,
                stop: 0,
                pattern: 1,
            },
            under: Layers::Hold,
        }
    );
    assert_eq!(rt;
        last_use(&rt, b"use window 1 2 hold trial 4 0 1")?.named,
        Named::Trial {
            card: Card {
                pages: 4,
                stop: 0,
                pattern: 1,
            },
            under: Layers::WindowHold {
                span: Span { first: 1, count: 2 },
            },
        }
    );
    assert_eq!(rt;
        last_use(&rt, b"use hold window 3 4 trial 5 6 7")?.named,
        Named::Trial {
            card: Card {
                pages: 5,
                stop: 6,
                pattern: 7,
            },
            under: Layers::HoldWindow {
                span: Span { first: 3, count: 4 },
            },
        }
    );
    Ok(())
}

#[test]
fn bad_media(rt: HostRuntime) -> Result<(), Fail> {
    says(&rt, b"use memory 4\nuse memory 4097\nopen", 1, Some(2))?;
    says(&rt, b"use memory 4\nuse", 1, Some(2))?;
    says(&rt, b"use memory 4\nagain memory\n", 1, Some(2))?;
    says(&rt, b"use memory 4 ", 0, Some(1))?;
    says(&rt, b"use  memory 4", 0, Some(1))?;
    says(&rt, b" use memory 4", 0, Some(1))?;
    says(&rt, b"use memory 4\r\n", 0, Some(1))?;
    says(&rt, b"use memory 4 4", 0, Some(1))?;
    says(&rt, b"use trial 4 0", 0, Some(1))?;
    says(&rt, b"use trial 4 0 00000000000000001", 0, Some(1))?;
    says(&rt, b"use trial 4 0 g", 0, Some(1))?;
    says(&rt, b"use hold memory 4", 0, Some(1))?;
    says(&rt, b"use hold hold trial 4 0 1", 0, Some(1))?;
    says(&rt, b"use window 1 2 memory 4", 0, Some(1))
}

#[test]
fn the_first_again_is_a_use(rt: HostRuntime) -> Result<(), Fail> {
    assert!(rt; !last_use(&rt, b"\nagain memory 4\n")?.again);
    assert!(rt; !last_use(&rt, b"again memory 4\nuse memory 4\n")?.again);
    assert!(rt; last_use(&rt, b"use memory 4\nopen\nagain memory 4\n")?.again);
    Ok(())
}

#[test]
fn puts_and_changes(rt: HostRuntime) -> Result<(), Fail> {
    assert_eq!(rt;
        step_of(&rt, b"put 3 4294967295 0aFF")?,
        Step::Call {
            call: Call::Put {
                slip: 3,
                key: 4_294_967_295,
                value: vec![in rt.alloc(); 0x0a, 0xff]?,
            },
        }
    );
    assert_eq!(rt;
        step_of(&rt, b"change 0 007 -")?,
        Step::Call {
            call: Call::Change {
                slip: 0,
                key: 7,
                value: Vec::new(rt.alloc()),
            },
        }
    );
    assert_eq!(rt;
        step_of(&rt, b"remove 1 2")?,
        Step::Call {
            call: Call::Remove { slip: 1, key: 2 },
        }
    );
    Ok(())
}

#[test]
fn forms(rt: HostRuntime) -> Result<(), Fail> {
    assert_eq!(rt;
        step_of(&rt, b"put 1 2 cue start=600 level=80")?,
        Step::Call {
            call: Call::PutForm {
                slip: 1,
                key: 2,
                value: Item::Cue(Cue {
                    start: Some(600),
                    projector: None,
                    level: Some(80),
                    fade: None,
                }),
            },
        }
    );
    assert_eq!(rt;
        step_of(
            &rt,
            b"change 3 4 still slide=12 projector=1 width=3 hold=45"
        )?,
        Step::Call {
            call: Call::ChangeForm {
                slip: 3,
                key: 4,
                value: Item::Still(Still {
                    slide: Some(12),
                    projector: Some(1),
                    width: Some(3),
                    hold: Some(45),
                }),
            },
        }
    );
    assert_eq!(rt;
        step_of(&rt, b"look 9 still")?,
        Step::Call {
            call: Call::LookForm {
                key: 9,
                kind: ItemKind::Still,
            },
        }
    );
    assert!(rt; ItemKind::Cue.number() == 0 && ItemKind::Still.number() == 1);
    Ok(())
}

#[test]
fn fields_out_of_range(rt: HostRuntime) -> Result<(), Fail> {
    assert_eq!(rt;
        step_of(&rt, b"put 5 2 cue projector=65 level=101")?,
        Step::BadField { slip: 5, bit: 1 }
    );
    assert_eq!(rt;
        step_of(&rt, b"change 6 2 still hold=6001")?,
        Step::BadField { slip: 6, bit: 3 }
    );
    Ok(())
}

#[test]
fn other_lines(rt: HostRuntime) -> Result<(), Fail> {
    assert_eq!(rt; step_of(&rt, b"work 4096")?, Step::Work { bytes: 4096 });
    assert_eq!(rt; step_of(&rt, b"lay 9999")?, Step::Lay { pages: 9999 });
    assert_eq!(rt; step_of(&rt, b"dump page 12")?, Step::DumpPage { page: 12 });
    let text =
        b"use memory 4\nopen\nbegin\nlook 1\nlook 1 cue\nnext 0\nsave 0\nabandon 0\nask\ndump work\n";
    assert_eq!(rt; last_use(&rt, text)?.steps.len(), 9);
    Ok(())
}

#[test]
fn bad_calls(rt: HostRuntime) -> Result<(), Fail> {
    bad(&rt, b"work 4097")?;
    bad(&rt, b"open 1")?;
    bad(&rt, b"Open")?;
    bad(&rt, b"begin ")?;
    bad(&rt, b"put 0 1")?;
    bad(&rt, b"put 0 1 abc")?;
    bad(&rt, b"put 0 1 0g")?;
    bad(&rt, b"put 0 1 --")?;
    bad(&rt, b"put 0 1  00")?;
    bad(&rt, b"put 0 4294967296 00")?;
    bad(&rt, b"put -1 1 00")?;
    bad(&rt, b"look 1 cues")?;
    bad(&rt, b"look 1 cue 2")?;
    bad(&rt, b"dump")?;
    bad(&rt, b"dump page")?;
    bad(&rt, b"ask\r")
}

#[test]
fn bad_fields(rt: HostRuntime) -> Result<(), Fail> {
    bad(&rt, b"put 0 1 cue level=1 start=1")?;
    bad(&rt, b"put 0 1 cue level=1 level=1")?;
    bad(&rt, b"put 0 1 cue level=")?;
    bad(&rt, b"put 0 1 cue level")?;
    bad(&rt, b"put 0 1 cue level=4294967296")?;
    bad(&rt, b"put 0 1 cue slide=1")?;
    bad(&rt, b"put 0 1 cue start=1 ")?;
    bad(&rt, b"put 0 1 still width=1  hold=1")
}

#[test]
fn pokes(rt: HostRuntime) -> Result<(), Fail> {
    let mut last = last_use(&rt, b"use memory 4\nopen\npoke 1 2 abCD\npoke 3 4 -\n")?;
    assert!(rt; last.steps.len() == 1 && last.pokes.len() == 2);
    assert_eq!(rt;
        last.pokes.pop(),
        Some(Poke {
            page: 3,
            offset: 4,
            bytes: Vec::new(rt.alloc()),
        })
    );
    says(
        &rt,
        b"use memory 4\npoke 1 2 00\nopen\nuse memory 4",
        0,
        Some(3),
    )?;
    says(
        &rt,
        b"use memory 4\npoke 1 2 00\nuse memory 4\nopen",
        2,
        None,
    )?;
    says(&rt, b"poke 1 2 00\n", 0, Some(1))?;
    bad(&rt, b"poke 1 2")
}

#[test]
fn what_a_bad_line_drops(rt: HostRuntime) -> Result<(), Fail> {
    says(&rt, b"open\nuse memory 4\n", 0, Some(1))?;
    says(
        &rt,
        b"use memory 4\nopen\nuse memory 4\nopens\nuse memory 4\n",
        1,
        Some(4),
    )?;
    says(
        &rt,
        b"use memory 4\nopen\nagain memory 5000\nuse memory 4\n",
        1,
        Some(3),
    )?;
    says(&rt, b"use memory 4\nopen\nuses memory 4\n", 0, Some(3))
}

// A number that is no kind's is asked for like any other: the store's refusals come first, then byte 0 is bad.
#[test]
fn looks_under_numbers(rt: HostRuntime) -> Result<(), Fail> {
    let mut script = read(
        &rt,
        b"use memory 2\nlay 2\nopen\nbegin\nput 0 7 cue level=5\nsave 0\n",
    )?;
    let only = script.uses.last_mut().ok_or_else(|| Fail::new("no use"))?;
    for (key, number) in [(7, 0), (7, 1), (7, 9), (8, 9)] {
        only.steps.push(Step::LookNumbered { key, number })?;
    }
    let mut out = String::new(rt.alloc());
    perform(&script, &mut out, rt.alloc())?;
    let told = out.as_str();
    assert!(rt;
        told.ends_with(
            "ok cue level=5\nrefused 16 key 7 page 1 byte 0\nrefused 16 key 7 page 1 byte 0\nrefused 13 key 8\n"
        )
    );
    Ok(())
}
