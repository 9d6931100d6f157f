// Runs calls on pages with known results, and prints a line for each result. The cases come from standard input, laid out as input.rt says.
// tests/known/make.py writes them, and the lines that have to come out.
#![tactic(auto)]

use input::{Call, Case};
use std::io;

mod calls;
mod input;
mod lists;

// One call of a case.
fn run_call(rt: &impl Print, case: &Case, call: Call) -> io::Result<()> {
    match call {
        Call::List { which, room } => lists::list(rt, case, which, room),
        Call::Degrees { set, room } => lists::degrees(rt, case, set, room),
        Call::Reduct { set } => calls::reduct(rt, case, set),
        Call::Rounds { set } => calls::rounds(rt, case, set),
        Call::HereThere { set } => calls::here_there(rt, case, set),
        Call::Split { set } => calls::split(rt, case, set),
        Call::AllThree { below } => calls::all_three(rt, case, below),
        Call::Compare { first, second } => calls::compare(rt, case, first, second),
        Call::Pick => calls::pick(rt, case),
        Call::Rows { below } => calls::rows(rt, case.page, below),
        Call::Letter { number } => calls::letter(rt, number),
    }
}

// A case: its name and flag word, then its calls. A name may be any bytes, so it is written as it is.
fn run_case(rt: &impl Print, case: &Case) -> io::Result<()> {
    let flags = case.flags;
    rt.write_all(case.name)?;
    println!(rt; ", flags {flags}")?;
    for k in 0..case.many {
        match case.call(k) {
            Some(call) => run_call(rt, case, call)?,
            None => println!(rt; "  no such call")?,
        }
    }
    Ok(())
}

// The cases, one after the other.
fn run_cases(rt: &impl Print, text: &[u8]) -> io::Result<()> {
    let mut left = text;
    while let Some((case, rest)) = Case::read(left) {
        run_case(rt, &case)?;
        left = rest;
    }
    Ok(())
}

// No more than 65,536 bytes of input are read.
fn main(rt: HostRuntime) -> io::Result<()> {
    let mut text = [0u8; 65536];
    let got = intake::read_full(&mut rt.stdin(), &mut text)?;
    run_cases(&rt, &text[..got])
}
