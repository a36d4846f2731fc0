// Tests of the scanner and the channel filter at their limits.
#![tactic(auto)]

#[cfg(test)]
mod tests;
