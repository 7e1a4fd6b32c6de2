// The program: builds a constraint graph of a given size, always the same one, and solves it, so that a script can
// time it. Its words are the number of variables, of edges and of backward edges.
#![tactic(auto)]

mod made;
mod size;

use liao_wong::{Unsolved, solve};
use made::{graph_of, variables};
use size::size_of;
use std::alloc::Global;
use std::env::{Env, args};
use std::io;
use std::process::ExitCode;

// The words after the program's name.
fn arguments<R: Env + AllocGlobal>(rt: &R) -> io::Result<Vec<String>> {
    let mut words = Vec::new(rt.alloc());
    for word in args(rt)?.skip(1) {
        words.push(word)?;
    }
    Ok(words)
}

// What is printed for these words, or what is wrong.
fn answer(alloc: Global, words: &[String]) -> Result<String, &'static str> {
    let Some(size) = size_of(words) else {
        return Err("give VARS EDGES BACK, as 65536 1000000 1000");
    };
    let Some(graph) = graph_of(alloc, &size) else {
        return Err("no graph");
    };
    let Ok(order) = variables(alloc, graph.vars()) else {
        return Err("out of memory");
    };
    let solved = match solve(alloc, &graph, &order) {
        Ok(solved) => solved,
        Err(Unsolved::Cycle(_)) => return Err("a positive cycle"),
        Err(Unsolved::OutOfMemory) => return Err("out of memory"),
    };
    let line = format!(in alloc;
        "vars {} edges {} backward {} rounds {}",
        graph.vars(),
        graph.edges().len(),
        solved.backward,
        solved.rounds
    );
    match line {
        Ok(line) => Ok(line),
        Err(_) => Err("out of memory"),
    }
}

fn main(rt: HostRuntime) -> ExitCode {
    let Ok(words) = arguments(&rt) else {
        return ExitCode::from(2);
    };
    let printed = match answer(rt.alloc(), &words) {
        Ok(line) => println!(rt; "{line}"),
        Err(wrong) => {
            let _ = eprintln!(rt; "solve_bench: {wrong}");
            return ExitCode::from(2);
        }
    };
    match printed {
        Ok(()) => ExitCode::from(0),
        Err(_) => ExitCode::from(2),
    }
}
