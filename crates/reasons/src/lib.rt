// Refusals in plain words, for all programs that say so: the words of a reason are its own (`statement::Reason`).
#![tactic(auto)]

use statement::Refusal;
use std::io;

// A refusal: its number, its place and its reason.
pub fn refused(rt: &impl Print, refusal: Refusal) -> io::Result<()> {
    println!(rt; "{refusal}: {}", refusal.reason)
}
