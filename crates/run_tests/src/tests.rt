//! What each call of the program answers.

mod shared;

use compact_run::run;
use lam_io::{FailPlan, MemShelf, MemSink};
use run_cases::{
    BENCH, BENCHES, BOXES, BREAKS, BURIED, CHECK, CHECKED, CHECKS, CONTACTS, CONTRADICTION, CUTS,
    CYCLES, EDGES, EDIT, EDITS, EXTRACT, FAILURES, FMT, FOUR, GENERATED, GRID_EXTENTS, GRID_FAULTS,
    GRID_WRITES, GRIDS, JOG, JOGS, LAYOUTS, LISTS, LOAD, LONGEST, METAL, MOST, Meeting, NAMED,
    NAMES, NETLISTS, PARTS, PASSES, READ, REFUSALS, RULES, SHIPPED, SHRUNK, SLACK, SLACKS, SPLITS,
    TECHNOLOGIES, TEXTS, TWO, TWO_ROWS, VERDICTS, WIDE, WORDS, unfolded, value_of,
};
use std::alloc::{AllocError, Global};
use std::process::Abort;
use std::test::Fail;
use std::thread::Threads;

// A plan by which a call fails where it is the one that is named, as `output 1`.
fn plan_of(alloc: Global, fails: &str, calls: &str) -> Result<FailPlan, AllocError> {
    match fails.split_once(' ') {
        Some((name, number)) if name == calls => {
            FailPlan::new(alloc, [number.parse().unwrap_or(0)].as_slice())
        }
        _ => Ok(FailPlan::none(alloc)),
    }
}

// What a call answered.
#[derive(Drop)]
struct Answer {
    code: String,
    output: String,
    report: String,
}

// A shelf with the technology `t`, the design or CIF text `d`, and the script `s`.
fn shelf_of(alloc: Global, files: [&str; 3], plan: FailPlan) -> Result<MemShelf, Fail> {
    let mut shelf = MemShelf::new(alloc, plan);
    for (name, text) in ["t", "d", "s"].iter().zip(files) {
        shelf.add(*name, unfolded(alloc, text)?.as_bytes())?;
    }
    Ok(shelf)
}

// What a call answered with a code and with what it put into its sinks.
fn answer_of(alloc: Global, code: u8, output: &MemSink, report: &MemSink) -> Result<Answer, Fail> {
    let code = format!(in alloc; "{code}")?;
    let output = String::from_utf8_lossy(alloc, output.bytes())?;
    let report = String::from_utf8_lossy(alloc, report.bytes())?;
    Ok(Answer {
        code,
        output,
        report,
    })
}

// What words, parted by blanks, answer over these files.
fn answer_to<H: Threads + Sync>(
    rt: &H,
    alloc: Global,
    gate: &Meeting,
    words: &str,
    files: [&str; 3],
    fails: &str,
) -> Result<Answer, Fail> {
    let words: Vec<&str> = words.split(' ').collect(alloc)?;
    let mut shelf = shelf_of(alloc, files, plan_of(alloc, fails, "fetch")?)?;
    let mut output = MemSink::new(alloc, 4_000_000, plan_of(alloc, fails, "output")?)?;
    let mut report = MemSink::new(alloc, 4_000_000, plan_of(alloc, fails, "report")?)?;
    let status = run(
        rt,
        alloc,
        &words,
        &mut shelf,
        &mut output,
        &mut report,
        gate,
    );
    answer_of(alloc, status.code(), &output, &report)
}

// What a case gave is the text that is wanted, or begins and ends as that does before and after a star.
fn assert_fits<A: Abort>(
    rt: &A,
    alloc: Global,
    case: &str,
    given: &str,
    wanted: &str,
) -> Result<(), Fail> {
    let wanted = unfolded(alloc, wanted)?;
    match wanted.split_once('*') {
        Some((prefix, back)) => {
            assert!(rt;
                given.starts_with(prefix) && given.ends_with(back),
                "{case}: {given}"
            );
        }
        None => assert_eq!(rt; given, wanted.as_str(), "{case}"),
    }
    Ok(())
}

// An answer has the code, the report and the output of a case.
fn assert_answer<A: Abort>(
    rt: &A,
    alloc: Global,
    paragraph: &str,
    other: &str,
    answer: &Answer,
) -> Result<(), Fail> {
    let (code, report) = match value_of(paragraph, other, "refused").split_once('=') {
        Some((code, report)) => (code.trim_end(), report.trim_start()),
        None => ("0", value_of(paragraph, other, "report")),
    };
    assert_fits(rt, alloc, paragraph, &answer.code, code)?;
    assert_fits(rt, alloc, paragraph, &answer.report, report)?;
    let output = value_of(paragraph, other, "output");
    assert_fits(rt, alloc, paragraph, &answer.output, output)
}

// The case of a paragraph is answered as it says. Of the calls that fetch, and of those that put into the output and
// the report, the one fails that is named. What is refused has its code and its report.
fn assert_case<A: Abort + Threads + Sync>(
    rt: &A,
    alloc: Global,
    paragraph: &str,
    other: &str,
) -> Result<(), Fail> {
    let files = [
        value_of(paragraph, other, "tech"),
        value_of(paragraph, other, "text"),
        value_of(paragraph, other, "script"),
    ];
    let met = value_of(paragraph, other, "met");
    let gate = Meeting::new(!met.is_empty());
    let words = value_of(paragraph, other, "words");
    let fails = value_of(paragraph, other, "fails");
    let answer = answer_to(rt, alloc, &gate, words, files, fails)?;
    assert_answer(rt, alloc, paragraph, other, &answer)?;
    if !met.is_empty() {
        assert_fits(rt, alloc, paragraph, &gate.told(alloc)?, met)?;
    }
    Ok(())
}

// So are the cases of tables, each with the case from which its paragraphs differ.
fn assert_tables<A: Abort + Threads + Sync>(
    rt: &A,
    alloc: Global,
    tables: &[(&str, &str)],
) -> Result<(), Fail> {
    for (other, table) in tables {
        for paragraph in table.split("\n\n") {
            assert_case(rt, alloc, paragraph, *other)?;
        }
    }
    Ok(())
}

// A text with what is asked in the place of its percent sign, or changed as that says.
fn changed(alloc: Global, text: &str, asked: &str) -> Result<String, AllocError> {
    let (old, new) = match asked.split_once("->") {
        Some((old, new)) => (old.trim(), new.trim_start()),
        None => ("%", asked),
    };
    match text.split_once(old) {
        Some((prefix, back)) => format!(in alloc; "{prefix}{new}{back}"),
        None => String::from_str(alloc, text),
    }
}

// What the words, the technology, the text and the script of a row answer, changed as it asks.
fn answer_to_row<H: Threads + Sync>(
    rt: &H,
    alloc: Global,
    base: [&str; 4],
    asked: &str,
) -> Result<Answer, Fail> {
    let [words, tech, text, script] = base;
    let words = changed(alloc, words, asked)?;
    let tech = changed(alloc, tech, asked)?;
    let text = changed(alloc, text, asked)?;
    let script = changed(alloc, script, asked)?;
    let files = [tech.as_str(), text.as_str(), script.as_str()];
    answer_to(rt, alloc, &Meeting::new(false), &words, files, "")
}

// An answer has a code, and a report, or one that begins so if it is done; else it has no output.
fn assert_row_answer<A: Abort>(
    rt: &A,
    alloc: Global,
    row: &str,
    wanted: &str,
    answer: &Answer,
) -> Result<(), Fail> {
    let (code, report) = wanted.split_once(' ').ok_or("no code")?;
    if code == "none" {
        assert!(rt; !answer.report.starts_with("sticks: line"), "{row}");
        return Ok(());
    }
    assert_eq!(rt; answer.code.as_str(), code, "{row}");
    assert!(rt; code == "0" || answer.output.is_empty(), "{row}");
    let end = if code == "0" { "*" } else { "/" };
    let report = format!(in alloc; "{}{end}", report.trim_end())?;
    assert_fits(rt, alloc, row, &answer.report, &report)
}

// A row is answered as it says.
fn assert_row<A: Abort + Threads + Sync>(
    rt: &A,
    alloc: Global,
    base: [&str; 4],
    row: &str,
) -> Result<(), Fail> {
    let (wanted, asked) = row.split_once('=').ok_or("no case")?;
    let answer = answer_to_row(rt, alloc, base, asked.trim_start())?;
    assert_row_answer(rt, alloc, row, wanted, &answer)
}

// So are the rows of tables, each with the words, the technology, the text and the script in which they stand.
fn assert_rows<A: Abort + Threads + Sync>(
    rt: &A,
    alloc: Global,
    tables: &[([&str; 4], &str)],
) -> Result<(), Fail> {
    for (base, table) in tables {
        for row in table.lines() {
            if !row.is_empty() && !row.starts_with('#') {
                assert_row(rt, alloc, *base, row)?;
            }
        }
    }
    Ok(())
}

#[test]
fn designs_are_laid_out(rt: HostRuntime) -> Result<(), Fail> {
    assert_tables(
        &rt,
        rt.alloc(),
        &[("", LAYOUTS), (LOAD, BURIED), ("", GRIDS)],
    )
}

#[test]
fn designs_without_a_layout_are_refused(rt: HostRuntime) -> Result<(), Fail> {
    let tables = [
        ("", REFUSALS),
        ("", CYCLES),
        ("", GRID_FAULTS),
        (WIDE, GRID_EXTENTS),
    ];
    assert_tables(&rt, rt.alloc(), &tables)
}

#[test]
fn texts_files_and_streams_are_judged(rt: HostRuntime) -> Result<(), Fail> {
    let tables = [(FMT, TEXTS), (SHRUNK, FAILURES), (TWO_ROWS, GRID_WRITES)];
    assert_tables(&rt, rt.alloc(), &tables)
}

#[test]
fn the_other_commands_answer(rt: HostRuntime) -> Result<(), Fail> {
    let tables = [
        (EXTRACT, NETLISTS),
        (CHECK, CHECKS),
        (BREAKS, LISTS),
        (NAMES, NAMED),
        (SLACK, SLACKS),
        (JOG, JOGS),
        (EDIT, EDITS),
        (BENCH, BENCHES),
    ];
    assert_tables(&rt, rt.alloc(), &tables)
}

#[test]
fn shares_answer_alike_and_meet(rt: HostRuntime) -> Result<(), Fail> {
    let tables = [
        (FOUR, SPLITS),
        (TWO, SPLITS),
        (CONTRADICTION, SPLITS),
        (TWO, PASSES),
        (METAL, RULES),
    ];
    assert_tables(&rt, rt.alloc(), &tables)
}

#[test]
fn words_are_commands_or_none(rt: HostRuntime) -> Result<(), Fail> {
    assert_rows(&rt, rt.alloc(), &WORDS)
}

#[test]
fn the_first_fault_of_a_design_is_told(rt: HostRuntime) -> Result<(), Fail> {
    assert_rows(&rt, rt.alloc(), &READ)?;
    assert_rows(&rt, rt.alloc(), &CHECKED)?;
    assert_rows(&rt, rt.alloc(), &CONTACTS)
}

#[test]
fn the_first_fault_of_a_technology_is_told(rt: HostRuntime) -> Result<(), Fail> {
    assert_rows(&rt, rt.alloc(), &TECHNOLOGIES)
}

#[test]
fn masks_are_judged(rt: HostRuntime) -> Result<(), Fail> {
    assert_rows(&rt, rt.alloc(), &VERDICTS)
}

#[test]
fn generated_cells_keep_the_pairs_that_nothing_shadows(rt: HostRuntime) -> Result<(), Fail> {
    assert_rows(&rt, rt.alloc(), &GENERATED)
}

#[test]
fn the_longest_texts_are_read_and_no_longer_ones(rt: HostRuntime) -> Result<(), Fail> {
    assert_rows(&rt, rt.alloc(), &LONGEST)
}

#[test]
fn a_limit_of_a_long_text_holds_and_one_more_is_refused(rt: HostRuntime) -> Result<(), Fail> {
    assert_rows(&rt, rt.alloc(), &MOST)
}

#[test]
fn masters_have_as_many_parts_as_they_may(rt: HostRuntime) -> Result<(), Fail> {
    assert_rows(&rt, rt.alloc(), &PARTS)
}

#[test]
fn a_text_has_as_many_boxes_as_it_may(rt: HostRuntime) -> Result<(), Fail> {
    assert_rows(&rt, rt.alloc(), &BOXES)
}

#[test]
fn one_inequality_too_many_is_told_as_such(rt: HostRuntime) -> Result<(), Fail> {
    assert_rows(&rt, rt.alloc(), &EDGES)
}

#[test]
fn a_text_that_is_cut_is_refused_but_at_the_last_line_end(rt: HostRuntime) -> Result<(), Fail> {
    let alloc = rt.alloc();
    for (words, code, text) in CUTS {
        let text = unfolded(alloc, text)?;
        let bytes = text.as_bytes();
        for length in 0..bytes.len() {
            let prefix = String::from_utf8_lossy(alloc, &bytes[..length])?;
            let files = [SHIPPED, prefix.as_str(), ""];
            let answer = answer_to(&rt, alloc, &Meeting::new(false), words, files, "")?;
            let is_whole = length + 1 == bytes.len();
            let code = if is_whole { "0" } else { code };
            assert_eq!(rt; answer.code.as_str(), code, "{length} of {words}");
            assert_eq!(rt; answer.output.is_empty(), !is_whole, "{length} of {words}");
        }
    }
    Ok(())
}
