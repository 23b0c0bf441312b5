// Works through a table of shrinkage figures with the words of the machine and prints each step.
#![tactic(auto)]

mod pattern;

use pattern::{PARTS, Working, work};
use std::io;
use words::whole;

// Fired dimensions in hundredths of a millimetre, and shrinkages in parts of ten thousand. A negative shrinkage is a
// part that grows, and a negative dimension lies on the other side of its datum.
const FIGURES: [(i32, i32); 12] = [
    (12_000, 1_150),
    (8_550, 1_150),
    (3_025, 1_150),
    (640, 1_150),
    (12_000, 0),
    (12_000, -200),
    (-12_000, 1_150),
    (640, 12_000),
    (214_748, 9_999),
    (214_749, 1_150),
    (12_000, 10_000),
    (1, i32::MIN),
];

fn show(rt: &impl Print, fired: u32, shrinkage: u32, working: Working) -> io::Result<()> {
    let divisor = whole(working.divisor);
    let product = whole(working.product);
    let pattern = whole(working.pattern);
    let over = whole(working.over);
    println!(rt; "  {PARTS} - {} = {divisor}", whole(shrinkage))?;
    println!(rt; "  {} * {PARTS} = {product}", whole(fired))?;
    println!(rt; "  {product} / {divisor} = {pattern}, {over} over")
}

fn run(rt: &impl Print) -> io::Result<()> {
    for (fired, shrinkage) in FIGURES {
        println!(rt; "fired {fired} shrinkage {shrinkage}")?;
        let (fired, shrinkage) = (fired.cast_unsigned(), shrinkage.cast_unsigned());
        match work(fired, shrinkage) {
            Ok(working) => show(rt, fired, shrinkage, working)?,
            Err(fault) => println!(rt; "  {fault}")?,
        }
    }
    Ok(())
}

fn main(rt: HostRuntime) -> anyhow::Result<()> {
    run(&rt)?;
    Ok(())
}
