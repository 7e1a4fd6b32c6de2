//! What typed-in texts draw, by the reader of the program's own form and by that of other tools.
ghost use Rattle.std.specs.Prelude.{◌≤◌, ◌^◌, length};

use crate::boxes_of_tests::words_of;
use cif_foreign::{flatten_foreign, read_foreign};
use cif_read::{flatten, read_cif};
use run_cases::{FOREIGN, OWN, unfolded};
use std::alloc::{AllocError, Global};
use std::test::Fail;
use std::thread::Threads;

fn own(alloc: Global, text: &[u8]) -> Result<String, Fail>
    requires { length text.now ≤ 2 ^ 26 }
{
    let file = read_cif(alloc, text).ok().ok_or("no text")?;
    let boxes = flatten(alloc, &file).ok().ok_or("no boxes")?;
    Ok(words_of(alloc, &boxes)?)
}

fn foreign<H: Threads + Sync>(
    rt: &H,
    alloc: Global,
    text: &[u8],
    shares: u32,
) -> Result<String, Fail>
    requires short { length text.now ≤ 2 ^ 26 }
    requires shares { (1 ≤ shares) × (shares ≤ 64) }
{
    let file = read_foreign(rt, alloc, text, shares).ok().ok_or("no text")?;
    let boxes = flatten_foreign(alloc, file).ok().ok_or("no boxes")?;
    Ok(words_of(alloc, &boxes)?)
}

#[test]
fn texts_draw_boxes(rt: HostRuntime) -> Result<(), Fail> {
    for (text, wanted) in OWN {
        assert!(rt; text.len() < 1000);
        assert_eq!(rt;
            own(rt.alloc(), text.as_bytes())?.as_str(),
            wanted,
            "{text}"
        );
    }
    for (text, wanted) in FOREIGN {
        let text = unfolded(rt.alloc(), text)?;
        assert!(rt; text.len() < 4000);
        assert_eq!(rt;
            foreign(&rt, rt.alloc(), text.as_bytes(), 4)?.as_str(),
            wanted,
            "{text}"
        );
    }
    Ok(())
}

// A text of more than two megabytes, so that it is read in shares, and in rounds. Where the remark has a semicolon, a
// portion may begin in it.
fn long_text(alloc: Global, remark: &str) -> Result<String, AllocError> {
    let mut text = String::new(alloc);
    text.push_str("L NM;\n")?;
    for at in 0..150_000 {
        write!(text, "{remark}B 4 4 {at} 2;\n")?;
    }
    text.push_str("E\n")?;
    Ok(text)
}

#[test]
fn a_long_text_is_read_in_shares(rt: HostRuntime) -> Result<(), Fail> {
    let alloc = rt.alloc();
    for remark in ["", "(one; two);"] {
        let text = long_text(alloc, remark)?;
        assert!(rt; text.len() > 2_097_152 && text.len() < 5_000_000);
        let alone = foreign(&rt, alloc, text.as_bytes(), 1)?;
        let beside = foreign(&rt, alloc, text.as_bytes(), 4)?;
        assert!(rt; alone.as_str() == beside.as_str());
    }
    Ok(())
}
