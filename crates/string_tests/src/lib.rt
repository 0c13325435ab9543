// Examples of what a script of calls cannot show: capacities, regions, buffers, numbers. What they should give is
// worked out by hand.
#![tactic(auto)]

mod counted;
#[cfg(test)]
mod tests;
