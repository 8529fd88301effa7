// The account of what was tried.
use crate::denial::Denial;
use crate::numbered::Numbered;
use crate::tally::Tally;
use crate::verdict::Verdict;
use std::io;

// Those of one kind, each with how often it occurred.
fn print_counts<K: Numbered>(rt: &HostRuntime, counts: &[u64]) -> io::Result<()> {
    let noun = K::NOUN;
    for kind in K::ALL {
        let number = kind.number();
        let count = kind.count_in(counts);
        println!(rt; "{noun} {number} {kind}: {count}")?;
    }
    Ok(())
}

// The account.
pub(crate) fn print_account(rt: &HostRuntime, tally: &Tally) -> io::Result<()> {
    let Tally {
        histories,
        calls,
        trials,
        verdicts,
        denials,
        displaced,
        spaces,
        questions,
        replays,
        blocks,
        members,
        most_blocks,
        restored,
        not_restored,
        audits,
        offers,
    } = tally;
    println!(rt; "histories {histories} calls {calls} trials {trials} displaced {displaced}")?;
    print_counts::<Verdict>(rt, verdicts)?;
    print_counts::<Denial>(rt, denials)?;
    println!(rt; "spaces {spaces} pairs of points {questions}")?;
    println!(rt; "replays {replays} saved blocks {blocks}")?;
    println!(rt; "most members {members} most blocks {most_blocks}")?;
    println!(rt; "restored archives {restored} refused restores {not_restored}")?;
    println!(rt; "arbitrary rows: audits {audits} offers {offers}")
}

// Those of one kind that did not occur.
fn print_missing_of<K: Numbered>(rt: &HostRuntime, counts: &[u64]) -> io::Result<()> {
    let noun = K::NOUN;
    for kind in K::ALL {
        if kind.count_in(counts) == 0 {
            let number = kind.number();
            println!(rt; "missing: {noun} {number} {kind}")?;
        }
    }
    Ok(())
}

// Each verdict and each denial that did not occur.
pub(crate) fn print_missing(rt: &HostRuntime, tally: &Tally) -> io::Result<()> {
    print_missing_of::<Verdict>(rt, &tally.verdicts)?;
    print_missing_of::<Denial>(rt, &tally.denials)
}
