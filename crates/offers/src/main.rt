// Offers drawn by chance to an archive alone, so that their time can be taken: reads OBJECTIVES ROWS OFFERS from standard
// input, and prints what came of the offers. A program in plain Rust does the same, and the two must print the same.
#![tactic(auto)]

mod asked;
mod chance;
mod offering;
mod told;

use asked::read_asked;
use offering::offer_all;
use std::io;

fn main(rt: HostRuntime) -> anyhow::Result<()> {
    run(&rt)
}

fn run(rt: &HostRuntime) -> anyhow::Result<()> {
    let text = io::read_to_string(rt.alloc(), rt.stdin())?;
    let asked = read_asked(text.as_str())?;
    let told = offer_all(rt.alloc(), asked)?;
    println!(rt; "{told}")?;
    Ok(())
}
