//! A yardstick for `rank_list`: reads lengths, one on a line, and for each inserts so many spots into a list, looks up
//! the position of each and takes all of them out again, in three orders. It prints a checksum of all positions.
//!
//! It stands on `rank_list` and `plain_data`, and nothing stands on it.
#![tactic(auto)]

mod churn;
mod spot;

use churn::{Spread, churn};
use std::io;

fn main(rt: HostRuntime) -> io::Result<()> {
    for line in rt.lines(rt.alloc()) {
        let line = line?;
        let Ok(count) = line.as_str().parse::<u32>() else {
            println!(rt; "no length: {line}")?;
            continue;
        };
        for spread in [Spread::Ascending, Spread::Descending, Spread::Shuffled] {
            let checksum = churn(rt.alloc(), count, spread)?;
            println!(rt; "{count} {spread:?}: {checksum}")?;
        }
    }
    Ok(())
}
